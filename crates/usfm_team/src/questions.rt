// The segments for which a file of a folder is asked about, as lines.
use crate::plan_refusal::fault_of;
use crate::reading::Read;
use crate::sync::{What, tell};
use book_folder::{AskedSegment, FolderFault, Place, asked_segments};
use command_faults::Fault;
use std::io::Write;
use usfm_ref::write_ref;

// Of so many segments it is said that a file is asked about them.
const MOST_SEGMENTS: usize = 20;

// The lines that say for which segments a file is asked about, the first of them, where a plan is
// refused for that.
pub(crate) fn asked_lines(
    what: What<'_>,
    read: &Read,
    refusal: &book_folder::Refusal,
) -> Result<Option<Vec<u8>>, Fault> {
    let lines = match refusal {
        book_folder::Refusal::Of(Place::File(at), FolderFault::Undone(_)) => {
            lines_of(what, read, *at, true)
        }
        book_folder::Refusal::Of(Place::File(at), FolderFault::Emptied(_)) => {
            lines_of(what, read, *at, false)
        }
        _ => return Ok(None),
    };
    Ok(Some(lines?))
}

// The lines of the segments for which the file of a place is asked about.
fn lines_of(what: What<'_>, read: &Read, at: usize, is_undone: bool) -> Result<Vec<u8>, Fault> {
    let segments = match segments_of(what, read, at) {
        Ok(segments) => segments,
        Err(refusal) => return Err(fault_of(refusal)),
    };
    let alloc = what.rt.alloc();
    let mut lines = Vec::new(alloc);
    for asked in segments.iter().take(MOST_SEGMENTS) {
        let segment = write_ref(alloc, asked.book, asked.key)?;
        tell(match asked.name {
            Some(name) if is_undone => writeln!(lines, "undoes {segment} {}", name.text()),
            _ => writeln!(lines, "empties {segment}"),
        })?;
    }
    Ok(lines)
}

// The segments for which the file of a place is asked about.
fn segments_of(
    what: What<'_>,
    read: &Read,
    at: usize,
) -> Result<Vec<AskedSegment>, book_folder::Refusal> {
    let lent = read.lend(what.rt)?;
    let seen = lent.seen(what.project, what.given);
    asked_segments(what.rt.alloc(), &seen, what.wishes, at)
}
