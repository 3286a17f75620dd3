// What was in a project, what changed in it, and texts that are had back or left out.
use crate::output::{write_as_it_is, write_output};
use crate::project::Project;
use crate::refusal::{Given, Refusal, read_named};
use crate::since::{Whose, known_since};
use crate::telling::say;
use crate::typed::read_line;
use crate::{change, locked};
use command_faults::{Expected, Fault};
use command_line::Ending;
use op_core::OpId;
use project_file::judge;
use segment_history::{LeftOut, left_out};
use std::io::{BufReader, IsTerminal, Write};
use usfm_cli::{
    Command, Named, TurnFault, exec, exec_in_turn, project_changes, project_history, restored_id,
    restored_lines, restored_since, restoring_edit,
};

// What a person reads where nothing is to be had back.
const HAS_IT: &str = "nothing was changed: what is named has this text already";

const TRIED: &str = "nothing was changed: --try says what would be done";

// What a person reads before texts are left out.
const LOSES: &str = "\
They go for good, here and with all who exchange with this copy: `history`,
`changes --text` and `restore` then lack them. Books and reports stay the same.";

const TYPE_YES: &str = "Type yes: ";

const KEPT: &str = "nothing was changed";

// Lists all that is held of segments.
pub(crate) fn history(rt: &HostRuntime, project: &str, names: &[Named]) -> Result<(), Refusal> {
    let bytes = read_named(rt, project, Expected::Project)?;
    match project_history(rt.alloc(), &bytes, names) {
        Ok(text) => write_output(rt, &text),
        Err(fault) => Err(Refusal::of_project(rt, fault, project)),
    }
}

// Lists what changed since a file's ids were known.
pub(crate) fn changes(
    rt: &HostRuntime,
    project: &str,
    since: &str,
    names: &[Named],
    with_texts: bool,
) -> Result<Ending, Refusal> {
    let whose = Whose::named(rt, project)?;
    let project = whose.project.as_str();
    let bytes = read_named(rt, project, Expected::Project)?;
    let known = known_since(rt, &whose, since)?;
    let other = Some((known.name.as_str(), Expected::Bundle));
    match project_changes(rt.alloc(), &bytes, &known.bytes, names, with_texts) {
        Ok(text) => {
            write_output(rt, &text)?;
            Ok(Ending::of(!text.is_empty()))
        }
        Err(fault) => Err(Refusal::of_inputs(rt, fault, &Given::of(project, &bytes), other)),
    }
}

// Gives the segments of edits their texts again, one after another.
pub(crate) fn restore(
    rt: &HostRuntime,
    path: &str,
    ids: &[OpId],
    is_try: bool,
    explains: bool,
) -> Result<(), Refusal> {
    let (project, mut bytes) = locked(rt, path)?;
    let mut output = Vec::new(rt.alloc());
    for id in ids {
        if let Some(next) = restored(rt, path, &bytes, *id, &mut output)? {
            bytes = next;
        }
    }
    keep(rt, path, project, &bytes, &output, is_try, explains)
}

// The project's file after an edit by which a text is had back, if one is made.
fn restored(
    rt: &HostRuntime,
    path: &str,
    bytes: &[u8],
    id: OpId,
    output: &mut Vec<u8>,
) -> Result<Option<Vec<u8>>, Refusal> {
    let refused = |fault| Refusal::of_inputs(rt, fault, &Given::of(path, bytes), None);
    let edits = restored_id(rt.alloc(), bytes, id).map_err(refused)?;
    let Some(edit) = edits.first() else {
        return Ok(None);
    };
    let outcome = exec(rt.alloc(), bytes, &restoring_edit(edit)).map_err(refused)?;
    output
        .extend_from_slice(outcome.output())
        .map_err(Fault::from)?;
    let made = outcome.project().to_vec(rt.alloc()).map_err(Fault::from)?;
    Ok(Some(made))
}

// Gives segments the texts that they had when a file's ids were known.
pub(crate) fn restore_since(
    rt: &HostRuntime,
    path: &str,
    since: &str,
    names: &[Named],
    is_try: bool,
    explains: bool,
) -> Result<(), Refusal> {
    let whose = Whose::named(rt, path)?;
    let path = whose.project.as_str();
    read_named(rt, path, Expected::Project)?;
    let known = known_since(rt, &whose, since)?;
    let (project, bytes) = locked(rt, path)?;
    let other = Some((known.name.as_str(), Expected::Bundle));
    let refused = |fault| Refusal::of_inputs(rt, fault, &Given::of(path, &bytes), other);
    let edits = restored_since(rt.alloc(), &bytes, &known.bytes, names).map_err(refused)?;
    let output = restored_lines(rt.alloc(), &edits).map_err(Fault::from)?;
    let commands: Vec<Command<'_>> = edits
        .iter()
        .map(|edit| restoring_edit(edit))
        .collect(rt.alloc())
        .map_err(Fault::from)?;
    match exec_in_turn(rt.alloc(), &bytes, &commands) {
        Ok(outcomes) => keep(
            rt,
            path,
            project,
            outcomes.project(),
            &output,
            is_try,
            explains,
        ),
        Err(TurnFault::Project(fault) | TurnFault::Turn(_, fault)) => {
            Err(Refusal::of_project(rt, fault, path))
        }
    }
}

// Keeps what was had back, unless it is only tried, and writes what was made. Where that is nothing,
// the file stays.
fn keep(
    rt: &HostRuntime,
    path: &str,
    mut project: Project,
    bytes: &[u8],
    output: &[u8],
    is_try: bool,
    explains: bool,
) -> Result<(), Refusal> {
    if !is_try && !output.is_empty() {
        let replaced = project.replace(rt, bytes);
        replaced.map_err(|fault| Refusal::of_project(rt, fault, path))?;
    }
    // Others may change the project while this is written.
    drop(project);
    write_as_it_is(rt, output)?;
    if explains && output.is_empty() {
        say(rt, HAS_IT);
    } else if explains && is_try {
        say(rt, TRIED);
    }
    Ok(())
}

// Leaves out the texts that were replaced. A person at a terminal is asked before.
pub(crate) fn thin(rt: &HostRuntime, path: &str) -> Result<(), Refusal> {
    if rt.stdin().is_terminal() && !is_meant(rt, path)? {
        say(rt, KEPT);
        return Ok(());
    }
    change(rt, path, &Command::Thin, None)
}

// Whether a person says that texts are to be left out. Where none would be, nothing is asked.
fn is_meant(rt: &HostRuntime, path: &str) -> Result<bool, Refusal> {
    let bytes = read_named(rt, path, Expected::Project)?;
    let found = left_out_of(rt, &bytes);
    let LeftOut { texts, segments } = found.map_err(|fault| Refusal::of_project(rt, fault, path))?;
    if texts == 0 {
        return Ok(true);
    }
    let _ = writeln!(
        rt.stderr(),
        "texts that would be left out: {texts}, of segments: {segments}"
    );
    say(rt, LOSES);
    let _ = rt.stderr().write_all(TYPE_YES.as_bytes());
    let mut input = BufReader::new(rt.alloc(), rt.reader()).map_err(|_| Fault::Memory)?;
    let typed = read_line(rt, &mut input)?;
    Ok(typed.is_some_and(|line| line.as_slice() == b"yes\n".as_slice()))
}

// How much thinning leaves out of a project.
fn left_out_of(rt: &HostRuntime, bytes: &[u8]) -> Result<LeftOut, Fault> {
    let project = judge(rt.alloc(), bytes)?;
    Ok(left_out(rt.alloc(), project.held())?)
}
