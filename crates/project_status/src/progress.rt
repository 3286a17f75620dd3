// The lines that say how far the chapters are written.
ghost use Rattle.std.specs.Prelude.{◌≡◌, ◌++◌, OnOk};
ghost use Rattle.versification.specs.Views.{verses_in};
ghost use Rattle.project_status.specs.Progress as progress;

use crate::chapters::{Chapter, chapters_of};
use op_core::OpSet;
use std::alloc::{AllocError, Global};
use usfm_ref::Book;
use versification::Versification;

/// Adds the lines of a book's chapters, as `chapters_of` gives them: the book, the chapter, how many
/// of its verses are written, `of`, and how many there are, as `MAT 1 3 of 25`.
///
/// # Errors
/// Out of memory alone.
pub fn push_progress(
    alloc: Global,
    versification: &Versification,
    set: &OpSet,
    book: Book,
    text: &mut Vec<u8>,
) -> Result<(), AllocError>
    ensures { OnOk result (text.new.items ≡ text.old.items
        ++ progress.book_progress (verses_in versification.now) set.now book) }
{
    let chapters = chapters_of(alloc, versification, set, book)?;
    for chapter in &chapters {
        push_line(alloc, book, chapter, text)?;
    }
    Ok(())
}

fn push_line(
    alloc: Global,
    book: Book,
    chapter: &Chapter,
    text: &mut Vec<u8>,
) -> Result<(), AllocError>
    ensures { OnOk result (text.new.items
        ≡ text.old.items ++ progress.progress_line book chapter.now) }
{
    let Chapter {
        chapter,
        written,
        verses,
    } = *chapter;
    let line = format!(in alloc; "{book} {chapter} {written} of {verses}\n")?;
    text.extend_from_slice(line.as_bytes())?;
    Ok(())
}
