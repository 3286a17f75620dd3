// A book, a chapter or a segment of a project as plain text.
ghost use Rattle.std.specs.Prelude.{◌≡◌, Ok, IfOk, IfErr};
ghost use Rattle.sty_sheet.specs.Views.{records_of};
ghost use Rattle.project_file.specs.Projects.{project_at};
ghost use Rattle.conflict_settling.specs.Wanted as wants;
ghost use Rattle.command_faults.specs.Faults.{of_loading};
ghost use Rattle.usfm_cli.specs.Commands.{Gives, any_fault};
ghost use Rattle.usfm_cli.specs.OverBooks as over;
ghost use Rattle.usfm_cli.specs.PlainReading as reading;
ghost use Rattle.usfm_cli.specs.Projects.{RefusesFile};

use crate::every_book::as_text;
use crate::over_books::load_seen;
use crate::steps::text_in;
use command_faults::Fault;
use conflict_settling::{Wanted, open_conflicts};
use plain_reading::{Part, part_text};
use replica_state::Replica;
use std::alloc::{AllocError, Global};
use sty_sheet::Sheet;
use usfm_export::book_text;
use usfm_ref::{Book, Key, Place};

// The book that is named, or that of the segment.
fn book_of(wanted: &Wanted) -> Book
    ensures { result ≡ wants.book_of wanted.now }
{
    match wanted {
        Wanted::Whole(book) | Wanted::One(book, _) => *book,
    }
}

// What of a book is read at a key.
fn part_at(key: Key) -> Part
    ensures { result ≡ reading.part_at key key.place }
{
    match key.place {
        Place::Head => Part::OneChapter(key.chapter),
        Place::Verse {
            number: _,
            letter: _,
        } => Part::OneKey(key),
    }
}

// What of a book is read, by what is named.
fn part_of(wanted: &Wanted) -> Part
    ensures { result ≡ reading.part_of wanted.now }
{
    match wanted {
        Wanted::Whole(_) => Part::Whole,
        Wanted::One(_, key) => part_at(*key),
    }
}

/// A book, a chapter or a segment of a project as plain text by a style sheet, given the bytes of
/// both files, in lines of so many columns, as `plain_reading::part_text` writes it of the book's
/// export. What is in conflict is marked. The head of a chapter stands for the whole chapter.
///
/// # Errors
/// First those of the project: `BadProject` (110), `Bundle` (60 to 69), `Trailing` (70). Then
/// `NotText` (10) of the sheet, `FieldBeforeMarker` (40), `EmptyMarker` (41) or `BadStyleType`
/// (42), whichever its first faulty line has, and `NoBook` (82) where the book has no operation.
/// `Memory` (1) where an allocation failed; it may come in the place of those after the project's,
/// since what the project holds is copied before the sheet is read, and that before the book is
/// looked for.
pub fn read_project(
    alloc: Global,
    project: &[u8],
    wanted: Wanted,
    sheet: &[u8],
    width: usize,
) -> Result<Vec<u8>, Fault>
    ensures answer { over.AnswersProject project.now
        (λ held. reading.read_of held wanted width sheet.now) result }
    // A file that is no project is refused for that, whatever memory there is; but for its bundle,
    // where an operation of it is thinned.
    ensures no_project { IfErr (project_at project.now) (λ fault.
        RefusesFile project.now (of_loading fault) result) }
{
    let replica = load_seen(alloc, project, &None)?;
    read(alloc, &replica, wanted, sheet, width)
}

// The plain text of what is named of a replica.
fn read(
    alloc: Global,
    replica: &Replica,
    wanted: Wanted,
    sheet: &[u8],
    width: usize,
) -> Result<Vec<u8>, Fault>
    ensures { Gives any_fault (reading.read_of replica.now.held wanted width sheet.now) result }
{
    let sheet = Sheet::read(alloc, text_in(sheet)?)?;
    let bytes = book_text(alloc, replica, book_of(&wanted))?;
    Ok(wanted_text(alloc, replica, &sheet, as_text(&bytes), wanted, width)?)
}

// The plain text of what is named of a book's text.
fn wanted_text(
    alloc: Global,
    replica: &Replica,
    sheet: &Sheet<'_>,
    text: &str,
    wanted: Wanted,
    width: usize,
) -> Result<Vec<u8>, AllocError>
    ensures { IfOk result (λ bytes. bytes.items ≡ reading.wanted_text (records_of sheet.now)
        replica.now.held wanted width text.now) }
{
    let whole = [Wanted::Whole(book_of(&wanted))];
    let conflicts = open_conflicts(alloc, replica, &whole, None)?;
    part_text(alloc, sheet, text, part_of(&wanted), &conflicts, width)
}
