// The lines of what a sync or an export into a folder did.
use crate::sync::{What, tell};
use crate::telling::plain_line;
use book_folder::{Line, Plan, lines_of};
use command_faults::Fault;
use std::io::Write;
use sync_changes::{SyncChanges, push_changes};
use usfm_ref::{Book, write_ref};

// The lines of what was done. What changed by segments is told between what was taken in and what
// was written.
pub(crate) fn made_lines(
    what: What<'_>,
    plan: &Plan,
    changes: &SyncChanges,
    left: &[Book],
) -> Result<Vec<u8>, Fault> {
    let (alloc, given) = (what.rt.alloc(), what.given);
    let mut text = Vec::new(alloc);
    let mut is_told = false;
    for line in lines_of(alloc, plan, left, given.named, given.own)? {
        if !is_told && !is_of_taking(&line) {
            push_changes(alloc, changes, &mut text)?;
            is_told = true;
        }
        tell_line(what, &line, &mut text)?;
    }
    if !is_told {
        push_changes(alloc, changes, &mut text)?;
    }
    Ok(text)
}

// The lines of the files that were left.
pub(crate) fn left_lines(what: What<'_>, plan: &Plan, left: &[Book]) -> Result<Vec<u8>, Fault> {
    let (alloc, given) = (what.rt.alloc(), what.given);
    let mut text = Vec::new(alloc);
    for line in lines_of(alloc, plan, left, given.named, given.own)? {
        if matches!(line, Line::Left(_)) {
            tell_line(what, &line, &mut text)?;
        }
    }
    Ok(text)
}

// Whether a line says what was taken in.
fn is_of_taking(line: &Line) -> bool {
    matches!(
        line,
        Line::NewBase(_) | Line::New(_) | Line::NewInBox(..) | Line::Added(..)
    )
}

fn tell_line(what: What<'_>, line: &Line, text: &mut Vec<u8>) -> Result<(), Fault> {
    tell(match line {
        Line::NewBase(count) => writeln!(text, "new {count} base"),
        Line::New(count) => writeln!(text, "new {count}"),
        Line::NewInBox(count, at) => match what.given.names.get(*at) {
            Some(name) => writeln!(text, "new {count} {}", plain_line(what.rt, name)?),
            None => writeln!(text, "new {count}"),
        },
        Line::Added(count, book) => writeln!(text, "added {count} {book}"),
        Line::Wrote(name) => writeln!(text, "wrote {}", named(what, name)?),
        Line::Left(name) => writeln!(text, "left {}", named(what, name)?),
        Line::Conflicts(count) => writeln!(text, "conflicts {count}"),
        Line::Conflict(book, key) => {
            let segment = write_ref(what.rt.alloc(), *book, *key)?;
            writeln!(text, "conflict {segment}")
        }
    })
}

// How a line names a file of the folder.
fn named(what: What<'_>, name: &str) -> Result<String, Fault> {
    Ok(plain_line(what.rt, &what.folder.name_of(what.rt, name)?)?)
}
