// What is reported of a project by a style sheet: of all its books, or of one with the lines of its
// text.
ghost use Rattle.std.specs.Prelude.{◌≡◌, ◌≢◌, [], Ok, Err, IfOk, IfErr};
ghost use Rattle.replica_state.specs.States.{State};
ghost use Rattle.project_file.specs.Answers.{RefusesLoad};
ghost use Rattle.project_file.specs.Projects.{project_at};
ghost use Rattle.usfm_cli.specs.Commands.{Gives};
ghost use Rattle.command_faults.specs.Faults.{of_loading};
ghost use Rattle.usfm_cli.specs.OverBooks as over;
ghost use Rattle.usfm_cli.specs.Projects.{RefusesFile};
ghost use Rattle.usfm_cli.specs.SheetReports.{is_after_sheet};

use crate::every_book::{check_books, find_books, word_books};
use crate::steps::text_in;
use book_reports::{Form, check_book, find_book};
use command_faults::Fault;
use project_file::{LoadFault, load, load_book};
use replica_state::Replica;
use std::alloc::Global;
use sty_sheet::Sheet;
use usfm_export::book_text;
use usfm_ref::Book;

/// Reports what is found by a style sheet in all books of a project, given as the bytes of its
/// file, or in one: a line for each finding, by the form. Of all books it is what each gives by
/// itself, in the order of the books.
///
/// # Errors
/// First those of the project: `BadProject` (110), `Bundle` (60 to 69), `Trailing` (70). Then
/// `NotText` (10) of the sheet, `FieldBeforeMarker` (40), `EmptyMarker` (41) or `BadStyleType`
/// (42), whichever its first faulty line has, and `NoBook` (82) of the one book. `Memory` (1) where
/// an allocation failed; where the project holds nothing of what is looked at, and no operation
/// without its text, in the place of no refusal but those that are found after records of the sheet
/// were kept.
pub fn check_project(
    alloc: Global,
    project: &[u8],
    book: Option<Book>,
    sheet: &[u8],
    form: Form,
) -> Result<Vec<u8>, Fault>
    ensures answer { over.AnswersProject project.now
        (λ held. over.checked held form book sheet.now) result }
    // Where the project is read without memory, out of memory is answered only where a report may
    // want some, and so in the place of no refusal that needs none.
    ensures memory { over.WantsMemory project.now book (is_after_sheet sheet.now)
        (λ held. over.checked held form book sheet.now) result }
    // A file that is no project is refused for that, whatever memory there is; but for its bundle,
    // where an operation of it is thinned.
    ensures no_project { IfErr (project_at project.now) (λ fault.
        RefusesFile project.now (of_loading fault) result) }
{
    let replica = load_seen(alloc, project, &book)?;
    check(alloc, &replica, book, sheet, form)
}

/// Finds a needle by a style sheet in all books of a project, given as the bytes of its file, or in
/// one: a line for each hit, by the form. Of all books it is what each gives by itself, in the order
/// of the books.
///
/// # Errors
/// Those of `check_project`, and then `EmptyNeedle` (100).
pub fn find_project(
    alloc: Global,
    project: &[u8],
    book: Option<Book>,
    sheet: &[u8],
    needle: &str,
    form: Form,
) -> Result<Vec<u8>, Fault>
    ensures answer { over.AnswersProject project.now
        (λ held. over.searched held form book needle.now sheet.now) result }
    // These two as for `check_project`.
    ensures memory { over.WantsMemory project.now book (is_after_sheet sheet.now)
        (λ held. over.searched held form book needle.now sheet.now) result }
    ensures no_project { IfErr (project_at project.now) (λ fault.
        RefusesFile project.now (of_loading fault) result) }
{
    let replica = load_seen(alloc, project, &book)?;
    find(alloc, &replica, book, sheet, needle, form)
}

/// Lists the words of all books of a project by a style sheet, given as the bytes of its file: for
/// each word of each book `FORM BOOK KEY ..`, by the forms, and those of one form in the order of
/// the books.
///
/// # Errors
/// Those of `check_project` but for `NoBook`.
pub fn word_project(alloc: Global, project: &[u8], sheet: &[u8]) -> Result<Vec<u8>, Fault>
    ensures answer { over.AnswersProject project.now
        (λ held. over.listed held sheet.now) result }
    // These two as for `check_project`.
    ensures memory { over.WantsMemory project.now None (is_after_sheet sheet.now)
        (λ held. over.listed held sheet.now) result }
    ensures no_project { IfErr (project_at project.now) (λ fault.
        RefusesFile project.now (of_loading fault) result) }
{
    let replica = load_seen(alloc, project, &None)?;
    words(alloc, &replica, sheet)
}

// What is seen of the replica of a project's file: of one book what it holds, or all.
pub(crate) fn load_seen(
    alloc: Global,
    project: &[u8],
    book: &Option<Book>,
) -> Result<Replica, LoadFault>
    ensures seen { IfOk result (over.IsSeenOf project.now book.now) }
    ensures refused { IfErr result (RefusesLoad project.now) }
    ensures nothing_seen { (s : State) → project_at project.now ≡ Ok s
        → over.SeesNothing book.now s → result ≢ Err LoadFault.Memory }
{
    match book {
        None => load(alloc, project),
        Some(book) => load_book(alloc, project, *book),
    }
}

// The findings in all books of a replica, or in one.
fn check(
    alloc: Global,
    replica: &Replica,
    book: Option<Book>,
    sheet: &[u8],
    form: Form,
) -> Result<Vec<u8>, Fault>
    ensures { Gives (is_after_sheet sheet.now)
        (over.checked replica.now.held form book sheet.now) result }
{
    let sheet = Sheet::read(alloc, text_in(sheet)?)?;
    let Some(book) = book else {
        return Ok(check_books(alloc, form, &sheet, replica)?);
    };
    let bytes = book_text(alloc, replica, book)?;
    Ok(check_book(alloc, form, &sheet, book, text_in(&bytes)?)?)
}

// The hits of a needle in all books of a replica, or in one.
fn find(
    alloc: Global,
    replica: &Replica,
    book: Option<Book>,
    sheet: &[u8],
    needle: &str,
    form: Form,
) -> Result<Vec<u8>, Fault>
    ensures { Gives (is_after_sheet sheet.now)
        (over.searched replica.now.held form book needle.now sheet.now) result }
{
    let sheet = Sheet::read(alloc, text_in(sheet)?)?;
    let Some(book) = book else {
        return Ok(find_books(alloc, form, &sheet, needle, replica)?);
    };
    let bytes = book_text(alloc, replica, book)?;
    Ok(find_book(alloc, form, &sheet, needle, book, text_in(&bytes)?)?)
}

// The words of all books of a replica.
fn words(alloc: Global, replica: &Replica, sheet: &[u8]) -> Result<Vec<u8>, Fault>
    ensures { Gives (is_after_sheet sheet.now)
        (over.listed replica.now.held sheet.now) result }
{
    let sheet = Sheet::read(alloc, text_in(sheet)?)?;
    Ok(word_books(alloc, &sheet, replica)?)
}
