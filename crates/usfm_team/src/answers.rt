// Conflicts that are settled by the answers of files.
use crate::files::read_file;
use crate::output::write_output;
use crate::project::lock_project;
use crate::refusal::Refusal;
use crate::turns::read_files;
use command_faults::{Expected, Fault};
use conflict_answers::{Answer, Settlement, read, settle_all};
use project_file::{load, save};
use std::mem;
use usfm_cli::TurnFault;

// Makes the edits that the answers of files say, all of them or none, and writes what is told of
// them.
pub(crate) fn settle_answers(
    rt: &HostRuntime,
    project: &str,
    names: &[String],
) -> Result<(), Refusal> {
    match settled(rt, project, names) {
        Ok(settlement) => {
            let written = write_output(rt, &settlement.text);
            // It is not freed, since the program ends.
            mem::forget(settlement);
            written
        }
        Err(fault) => Err(Refusal::of_turn(rt, fault, project, names, Expected::Unknown)),
    }
}

// Reads the files first, and then settles while no other command changes the project. Its file is
// replaced where its bytes are others.
fn settled(rt: &HostRuntime, path: &str, names: &[String]) -> Result<Settlement, TurnFault> {
    read_file(rt, path)?;
    let files = read_files(rt, names)?;
    let answers = answers_in(rt, &files)?;
    let mut project = lock_project(rt, path)?;
    let bytes = project.read(rt)?;
    let replica = load(rt.alloc(), &bytes)?;
    let settlement = settle_all(rt.alloc(), replica, &answers).map_err(Fault::from)?;
    let new = save(rt.alloc(), &settlement.replica)?;
    if new != bytes {
        project.replace(rt, &new)?;
    }
    Ok(settlement)
}

// The answers of all files, in their order, or the first file that is none.
fn answers_in<'a>(rt: &HostRuntime, files: &'a [Vec<u8>]) -> Result<Vec<Answer<'a>>, TurnFault> {
    let mut answers = Vec::new(rt.alloc());
    for (at, file) in files.iter().enumerate() {
        match read(rt.alloc(), file) {
            Ok(of_file) => {
                for answer in of_file {
                    answers.push(answer)?;
                }
            }
            Err(fault) => return Err(TurnFault::Turn(at, Fault::from(fault))),
        }
    }
    Ok(answers)
}
