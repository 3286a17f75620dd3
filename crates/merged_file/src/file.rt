// The file of a merge.
ghost use Rattle.std.specs.Prelude.{◌≡◌, IfOk, string_bytes};
ghost use Rattle.verse_cut.specs.Reading.{after_bom};
ghost use Rattle.op_core.specs.Export.{export};
ghost use Rattle.book_merge.specs.Merges.{merged_view};
ghost use Rattle.merged_file.specs.Files as files;

use crate::remarks::marked_export;
use book_folder::{LineEnds, push_in_line_ends};
use book_merge::Merged;
use replica_state::Replica;
use std::alloc::{AllocError, Global};
use usfm_export::{TextFault, book_text};
use usfm_ref::Book;
use usfm_token::read_text;

const BYTE_ORDER_MARK: &str = "\u{FEFF}";

const BYTE_ORDER_MARK_BYTES: &[u8] = b"\xEF\xBB\xBF";

/// Whether the file has the other texts of conflicts.
#[derive(Clone, Copy, Debug, PartialEq, Eq)]
pub enum Marking {
    /// No: the file is the merged book.
    Plain,
    /// Yes: after the picked text of a conflict each line of another one is a line `\rem conflict
    /// MAT 1:1 theirs: ..`, in which a slash stands for each backslash.
    Remarked,
}

/// The file of a merge: the merged book with U+FEFF at its front as OURS has it, and with the line
/// ends of OURS where all its lines end in one manner. Else the line ends are those of the texts.
///
/// # Errors
/// Out of memory alone.
pub fn merged_file(
    alloc: Global,
    merged: &Merged,
    ours: &str,
    marking: Marking,
) -> Result<String, AllocError>
    ensures { IfOk result (λ file. string_bytes file
        ≡ files.file_of_merge (merged_view merged.now) ours.now (files.is_remarked marking)) }
{
    let text = text_of(alloc, merged, marking)?;
    // It is UTF-8, as each text of a replica is, so that only memory can be refused.
    let Ok(text) = read_text(&text) else {
        return Err(AllocError);
    };
    in_own_manner(alloc, ours, text)
}

// The text of a merge, with remarks or without.
fn text_of(alloc: Global, merged: &Merged, marking: Marking) -> Result<Vec<u8>, AllocError>
    ensures { IfOk result (λ text. text.items
        ≡ files.text_of_merge (merged_view merged.now) (files.is_remarked marking)) }
{
    match marking {
        Marking::Plain => export(alloc, &merged.replica, merged.book),
        Marking::Remarked => marked_export(alloc, &merged.replica, merged.book),
    }
}

// The export of a book, empty where it has no operation, as in no merge.
fn export(alloc: Global, replica: &Replica, book: Book) -> Result<Vec<u8>, AllocError>
    ensures { IfOk result (λ text. text.items ≡ export replica.now.held book) }
{
    match book_text(alloc, replica, book) {
        Ok(text) => Ok(text),
        Err(TextFault::NoBook) => Ok(Vec::new(alloc)),
        Err(TextFault::Memory) => Err(AllocError),
    }
}

// A text with U+FEFF at its front and with line ends as another one has them.
fn in_own_manner(alloc: Global, was: &str, text: &str) -> Result<String, AllocError>
    ensures { IfOk result (λ made. string_bytes made ≡ files.in_own_manner was.now text.now) }
{
    let mut made = String::new(alloc);
    if was.as_bytes().starts_with(BYTE_ORDER_MARK_BYTES) {
        made.push_str(BYTE_ORDER_MARK)?;
    }
    push_in_line_ends(&mut made, without_mark(text), LineEnds::of(was.as_bytes()))?;
    Ok(made)
}

// What comes after U+FEFF at the front, or all.
fn without_mark(text: &str) -> &str
    ensures { result.now ≡ after_bom text.now }
{
    text.strip_prefix(BYTE_ORDER_MARK).unwrap_or(text)
}
