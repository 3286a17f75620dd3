// Files taken in one after another, all or none of them.
use crate::change;
use crate::files::read_file;
use crate::output::Output;
use crate::project::lock_project;
pub(crate) use crate::refusal::Refusal;
use crate::refusal::read_named;
use crate::sealing::{read_bundles, read_named_bundle};
use crate::telling::{SETTLE, has_second_book, say, say_second_book};
use command_faults::{Expected, Fault};
use std::io::Write;
use std::mem;
use usfm_cli::{Command, Outcomes, TurnFault, conflict_count, exec_in_turn, project_changes};

// Takes in the files of books, one by itself and several in turn, or what was changed in them since
// a bundle.
pub(crate) fn import(
    rt: &HostRuntime,
    project: &str,
    files: Vec<String>,
    since: Option<String>,
    explains: bool,
) -> Result<(), Refusal> {
    match (since, files.as_slice()) {
        (Some(base), _) => import_since(rt, project, &files, &base),
        (None, [file]) => import_one(rt, project, file, explains),
        (None, _) => import_all(rt, project, &files),
    }
}

// Takes in bundles: one by itself, and several in turn.
pub(crate) fn receive(
    rt: &HostRuntime,
    project: &str,
    bundles: Vec<String>,
    explains: bool,
) -> Result<(), Refusal> {
    let before = if explains {
        read_file(rt, project).ok()
    } else {
        None
    };
    match bundles.as_slice() {
        [bundle] => receive_one(rt, project, bundle)?,
        _ => match receive_all(rt, project, &bundles) {
            Ok(outcomes) => write_outputs(rt, outcomes)?,
            Err(fault) => {
                return Err(Refusal::of_turn(rt, fault, project, &bundles, Expected::Bundle));
            }
        },
    }
    if let Some(before) = &before {
        say_changes(rt, project, before);
    }
    if explains && has_conflicts(rt, project) {
        say(rt, SETTLE);
    }
    Ok(())
}

// Says what changed in a project since it had these bytes. What cannot be told is left out.
fn say_changes(rt: &HostRuntime, project: &str, before: &[u8]) {
    if let Ok(after) = read_file(rt, project) {
        if let Ok(lines) = project_changes(rt.alloc(), &after, before, &[], false) {
            let _ = rt.stderr().write_all(&lines);
        }
    }
}

// Whether segments of a project are in conflict, if it can be read.
fn has_conflicts(rt: &HostRuntime, project: &str) -> bool {
    match read_file(rt, project) {
        Ok(bytes) => conflict_count(rt.alloc(), &bytes, &[]).is_ok_and(|count| count > 0),
        Err(_) => false,
    }
}

fn import_one(rt: &HostRuntime, project: &str, name: &str, explains: bool) -> Result<(), Refusal> {
    read_named(rt, project, Expected::Project)?;
    let file = read_named(rt, name, Expected::BookFile)?;
    let other = Some((name, Expected::BookFile));
    change(rt, project, &Command::Import(&file), other)?;
    if explains && has_second_book(&file) {
        say_second_book(rt, name);
    }
    Ok(())
}

fn import_all(rt: &HostRuntime, project: &str, names: &[String]) -> Result<(), Refusal> {
    match import_in_turn(rt, project, names) {
        Ok(outcomes) => write_outputs(rt, outcomes),
        Err(fault) => Err(Refusal::of_turn(rt, fault, project, names, Expected::BookFile)),
    }
}

fn import_in_turn(
    rt: &HostRuntime,
    project: &str,
    names: &[String],
) -> Result<Outcomes, TurnFault> {
    read_file(rt, project)?;
    let files = read_files(rt, names)?;
    let commands: Vec<Command<'_>> = files
        .iter()
        .map(|file| Command::Import(file))
        .collect(rt.alloc())?;
    change_in_turn(rt, project, &commands)
}

// The first command judges the base, and a book's file has none of the faults of a bundle, so these
// are of no file.
fn import_since(
    rt: &HostRuntime,
    project: &str,
    names: &[String],
    base: &str,
) -> Result<(), Refusal> {
    read_named(rt, project, Expected::Project)?;
    let files = match read_files(rt, names) {
        Ok(files) => files,
        Err(fault) => {
            return Err(Refusal::of_turn(rt, fault, project, names, Expected::BookFile));
        }
    };
    let bundle = &read_named_bundle(rt, base)?;
    match since_in_turn(rt, project, &files, bundle) {
        Ok(outcomes) => write_outputs(rt, outcomes),
        Err(TurnFault::Turn(_, fault)) if is_of_bundle(&fault) => {
            Err(Refusal::alone(rt, fault, base, Expected::Bundle))
        }
        Err(fault) => Err(Refusal::of_turn(rt, fault, project, names, Expected::BookFile)),
    }
}

fn since_in_turn(
    rt: &HostRuntime,
    project: &str,
    files: &[Vec<u8>],
    base: &[u8],
) -> Result<Outcomes, TurnFault> {
    let commands: Vec<Command<'_>> = files
        .iter()
        .map(|file| Command::ImportSince { file, base })
        .collect(rt.alloc())?;
    change_in_turn(rt, project, &commands)
}

// Whether a bundle alone is refused for this.
fn is_of_bundle(fault: &Fault) -> bool {
    matches!(fault, Fault::Bundle(_) | Fault::Trailing | Fault::Clash(_))
}

fn receive_one(rt: &HostRuntime, project: &str, name: &str) -> Result<(), Refusal> {
    read_named(rt, project, Expected::Project)?;
    let bundle = read_named_bundle(rt, name)?;
    let other = Some((name, Expected::Bundle));
    change(rt, project, &Command::Receive(&bundle), other)
}

fn receive_all(rt: &HostRuntime, project: &str, names: &[String]) -> Result<Outcomes, TurnFault> {
    read_file(rt, project)?;
    let bundles = read_bundles(rt, names)?;
    let commands: Vec<Command<'_>> = bundles
        .iter()
        .map(|bundle| Command::Receive(bundle))
        .collect(rt.alloc())?;
    change_in_turn(rt, project, &commands)
}

// The bytes of files, or the first that is not read.
pub(crate) fn read_files(rt: &HostRuntime, names: &[String]) -> Result<Vec<Vec<u8>>, TurnFault> {
    let mut files = Vec::new(rt.alloc());
    for name in names {
        match read_file(rt, name) {
            Ok(bytes) => files.push(bytes)?,
            Err(fault) => return Err(TurnFault::Turn(files.len(), fault)),
        }
    }
    Ok(files)
}

// Does commands in turn on a project's file while no other command changes it. The file is replaced
// where its bytes are others.
fn change_in_turn(
    rt: &HostRuntime,
    path: &str,
    commands: &[Command<'_>],
) -> Result<Outcomes, TurnFault> {
    let mut project = lock_project(rt, path)?;
    let bytes = project.read(rt)?;
    let outcomes = exec_in_turn(rt.alloc(), &bytes, commands)?;
    if outcomes.project() != bytes.as_slice() {
        project.replace(rt, outcomes.project())?;
    }
    Ok(outcomes)
}

// Writes what commands in turn write, which has no text of others. It does not allocate. What they
// made is not freed, since the program ends.
fn write_outputs(rt: &HostRuntime, outcomes: Outcomes) -> Result<(), Refusal> {
    let mut written = Output::of(rt);
    for output in outcomes.outputs() {
        written.write(output)?;
    }
    mem::forget(outcomes);
    Ok(())
}

// The refusal of one of several bundles, beside which the line names other files.
pub(crate) fn refusal_in(rt: &HostRuntime, fault: TurnFault, names: &[String]) -> Refusal {
    match fault {
        TurnFault::Project(fault) => Refusal::from(fault),
        TurnFault::Turn(at, fault) => match names.get(at) {
            Some(name) => Refusal::expecting(rt, fault, name, Expected::Bundle),
            None => Refusal::from(fault),
        },
    }
}
