// Texts of a project that are had back, as edits over ids.
ghost use Rattle.std.specs.Prelude.{◌≡◌, ◌++◌, false, map, IfOk, IfErr, OnOk};
ghost use Rattle.replica_state.specs.States.{State};
ghost use Rattle.project_file.specs.Projects.{project_at};
ghost use Rattle.usfm_cli.specs.Commands.{outcome, edit_over_done};
ghost use Rattle.usfm_cli.specs.Copies.{as_list};
ghost use Rattle.command_faults.specs.Faults.{of_loading};
ghost use Rattle.usfm_cli.specs.Histories.{AnswersOf, is_out_of_memory};
ghost use Rattle.usfm_cli.specs.Projects.{RefusesFile};
ghost use Rattle.usfm_cli.specs.Restorings as restorings;

use crate::command::Command;
use crate::history::covered_by;
use bundle_codec::Bundle;
use command_faults::Fault;
use op_core::OpId;
use project_file::judge;
use segment_history::{Named, RestoredText, has_books, named_segments};
use std::alloc::{AllocError, Global};
use usfm_ref::Book;

/// The edit that gives its segment the text of the operation of an id, of a project given as the
/// bytes of its file (`segment_history::restored_id`): none where the segment has that text.
///
/// # Errors
/// Those of the project, as `exec` answers them: 110, 60 to 69, 70; `NotShown` (83) where the
/// project holds no operation of the id, and `LeftOut` (84) where its text was left out. `Memory`
/// (1) where an allocation failed; it may come in the place of these two, since memory is taken to
/// judge a project that has an operation without its text.
pub fn restored_id<'a>(
    alloc: Global,
    project: &'a [u8],
    id: OpId,
) -> Result<Vec<RestoredText<'a>>, Fault>
    ensures answer { AnswersOf project.now (restorings.restored_id id) (as_list result) }
    ensures no_project { IfErr (project_at project.now) (λ fault.
        RefusesFile project.now (of_loading fault) result) }
{
    let judged = judge(alloc, project)?;
    Ok(segment_history::restored_id(alloc, judged.held(), id)?)
}

/// The edits that give the segments that are named, all where there is no name, the texts that they
/// had when the ids were known that a file covers (`segment_history::restored_since`): of a project
/// given as the bytes of its file; and for a segment that has its text none.
///
/// # Errors
/// Those of `project_changes`, and then `LeftOut` (84) with the first of the operations to go back
/// to whose text was left out. `Memory` (1) may come in the place of `LeftOut` too, since the ids
/// of the file are kept before the operations to go back to are looked for.
pub fn restored_since<'a>(
    alloc: Global,
    project: &'a [u8],
    since: &[u8],
    names: &[Named],
) -> Result<Vec<RestoredText<'a>>, Fault>
    ensures answer { AnswersOf project.now
        (restorings.restored_since since.now names.now) (as_list result) }
    ensures no_project { IfErr (project_at project.now) (λ fault.
        RefusesFile project.now (of_loading fault) result) }
{
    let judged = judge(alloc, project)?;
    restored_in(alloc, judged.held(), since, names)
}

// The same of what a project holds.
fn restored_in<'a>(
    alloc: Global,
    held: &Bundle<'a>,
    since: &[u8],
    names: &[Named],
) -> Result<Vec<RestoredText<'a>>, Fault>
    ensures { is_out_of_memory (as_list result) ≡ false →
        restorings.restored_since since.now names.now held.now ≡ as_list result }
{
    if !has_books(held, names) {
        return Err(Fault::NoBook);
    }
    let known = covered_by(alloc, since)?;
    let segments = named_segments(alloc, held, names)?;
    Ok(segment_history::restored_since(alloc, held, &known, &segments)?)
}

/// The command that makes an edit which has a text back: over exactly the ids that the edit has,
/// whatever the project shows by then.
pub fn restoring_edit<'a>(edit: &'a RestoredText<'a>) -> Command<'a>
    ensures { (s : State) → outcome s result
        ≡ edit_over_done s edit.now.segment edit.now.text edit.now.ids }
{
    Command::EditOver {
        book: edit.segment.book,
        key: edit.segment.key,
        text: edit.text.as_bytes(),
        ids: &edit.ids,
    }
}

/// What is written of edits that have texts back: for each book, in the order of books, `restored N
/// CODE`, N the number of edits in it.
///
/// # Errors
/// Out of memory alone.
pub fn restored_lines(alloc: Global, edits: &[RestoredText<'_>]) -> Result<Vec<u8>, AllocError>
    ensures { IfOk result (λ lines. lines.items ≡ restorings.restored_lines edits.now) }
{
    let books = restored_books(alloc, edits)?;
    let mut lines = Vec::new(alloc);
    for book in &books {
        push_count(alloc, edits, *book, &mut lines)?;
    }
    Ok(lines)
}

// The books of edits, each once.
fn restored_books(alloc: Global, edits: &[RestoredText<'_>]) -> Result<Vec<Book>, AllocError>
    ensures { IfOk result (λ books. books.items ≡ restorings.books_of edits.now) }
{
    let mut books = books_in(alloc, edits)?;
    books.sort_unstable();
    books.dedup();
    Ok(books)
}

// The book of each edit.
fn books_in(alloc: Global, edits: &[RestoredText<'_>]) -> Result<Vec<Book>, AllocError>
    ensures { IfOk result (λ books. books.items ≡ map (λ e. e.segment.book) edits.now) }
{
    let mut books = Vec::with_capacity(alloc, edits.len())?;
    for edit in edits {
        books.push(edit.segment.book)?;
    }
    Ok(books)
}

// Adds how many of the edits are of a book.
fn push_count(
    alloc: Global,
    edits: &[RestoredText<'_>],
    book: Book,
    lines: &mut Vec<u8>,
) -> Result<(), AllocError>
    ensures { OnOk result (lines.new.items
        ≡ lines.old.items ++ restorings.count_line edits.now book) }
{
    let count = count_of(edits, book);
    let line = format!(in alloc; "restored {count} {book}\n")?;
    lines.extend_from_slice(line.as_bytes())?;
    Ok(())
}

// How many of the edits are of a book.
fn count_of(edits: &[RestoredText<'_>], book: Book) -> usize
    ensures { result ≡ restorings.count_of edits.now book }
{
    edits
        .iter()
        .filter(|edit| edit.segment.book == book)
        .count()
}
