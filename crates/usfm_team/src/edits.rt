// Edits of a segment: by the text of standard input, or by one of its operations.
use crate::refusal::{Given, Refusal, read_named};
use crate::telling::say;
use crate::typed::{TYPE_A_TEXT, TYPE_BESIDE, say_removed, text_for};
use crate::{change, change_locked, locked};
use command_faults::Expected;
use op_core::OpId;
use usfm_cli::{Command, still_shown};
use usfm_ref::{Book, Key};

// What is said where a segment got another text while one was typed for it.
const CAME_IN: &str =
    "another text came in meanwhile, and stays beside yours: `settle` asks which to keep";

// Gives a segment the text of standard input.
pub(crate) fn edit(
    rt: &HostRuntime,
    project: &str,
    book: Book,
    key: Key,
    explains: bool,
) -> Result<(), Refusal> {
    let before = read_named(rt, project, Expected::Project)?;
    let Some(text) = &text_for(rt, &Given::of(project, &before), book, key, TYPE_A_TEXT)? else {
        return Ok(());
    };
    let (file, bytes) = locked(rt, project)?;
    if bytes == before {
        let command = Command::Edit { book, key, text };
        change_locked(rt, project, file, &bytes, &command, None)?;
        if explains {
            say_removed(rt, text);
        }
        return Ok(());
    }
    // What came in while the text was typed has been seen by nobody, and stays beside it.
    let still = still_shown(rt.alloc(), &before, &bytes, book, key).map_err(
        |fault| Refusal::of_project(rt, fault, project),
    )?;
    let command = Command::EditOver {
        book,
        key,
        text,
        ids: &still.ids,
    };
    change_locked(rt, project, file, &bytes, &command, None)?;
    if explains {
        say_removed(rt, text);
        if !still.is_all {
            say(rt, CAME_IN);
        }
    }
    Ok(())
}

// Gives a segment the text of standard input, in the place of some operations.
pub(crate) fn edit_over(
    rt: &HostRuntime,
    project: &str,
    book: Book,
    key: Key,
    ids: &[OpId],
) -> Result<(), Refusal> {
    let bytes = read_named(rt, project, Expected::Project)?;
    let given = Given::of(project, &bytes);
    let asks = if ids.is_empty() {
        TYPE_BESIDE
    } else {
        TYPE_A_TEXT
    };
    let Some(text) = &text_for(rt, &given, book, key, asks)? else {
        return Ok(());
    };
    let command = Command::EditOver {
        book,
        key,
        text,
        ids,
    };
    change(rt, project, &command, None)
}

// Gives a segment the text of one of its operations, in the place of some.
pub(crate) fn edit_with(
    rt: &HostRuntime,
    project: &str,
    book: Book,
    key: Key,
    of: OpId,
    ids: &[OpId],
) -> Result<(), Refusal> {
    let command = Command::EditWith { book, key, of, ids };
    change(rt, project, &command, None)
}
