// What is kept of a versification's lines.
ghost use Rattle.std.specs.Prelude.{◌≡◌, ◌++◌, OnOk};
ghost use Rattle.versification.specs.LineViews.{line_view};
ghost use Rattle.versification.specs.Loops.Tables.{TakesBooks, TakesOut};
ghost use Rattle.versification.specs.Versifications as versifications;

use crate::line::Line;
use std::alloc::AllocError;
use std::collections::{BTreeMap, BTreeSet};
use usfm_ref::{Book, Segment};

// What comes after a U+FEFF at the front, or all.
pub(crate) fn after_feff(bytes: &[u8]) -> &[u8]
    ensures { result.now ≡ versifications.after_feff bytes.now }
{
    match bytes {
        [0xEF, 0xBB, 0xBF, rest @ ..] => rest,
        _ => bytes,
    }
}

// Keeps what a line says.
pub(crate) fn keep(
    named: &mut Vec<Book>,
    books: &mut BTreeMap<Book, Vec<u16>>,
    left_out: &mut BTreeSet<Segment>,
    line: Line,
) -> Result<(), AllocError>
    ensures named { OnOk result (named.new.items
        ≡ named.old.items ++ versifications.book_said (Some (line_view line))) }
    ensures books { OnOk result (TakesBooks books.old (Some (line_view line)) books.new) }
    ensures left_out { OnOk result
        (TakesOut left_out.old (Some (line_view line)) left_out.new) }
{
    match line {
        Line::Passed => Ok(()),
        Line::LastVerses(book, verses) => {
            named.push(book)?;
            put(books, book, verses)
        }
        Line::LeftOut(segment) => add(left_out, segment),
    }
}

// Puts the last verses of a book in the place of those that are there.
fn put(books: &mut BTreeMap<Book, Vec<u16>>, book: Book, verses: Vec<u16>) -> Result<(), AllocError>
    ensures { OnOk result (TakesBooks books.old
        (Some (line_view (Line.LastVerses book verses))) books.new) }
{
    match books.insert(book, verses) {
        Ok(_) => Ok(()),
        Err(_) => Err(AllocError),
    }
}

// Adds a verse that is left out.
fn add(left_out: &mut BTreeSet<Segment>, segment: Segment) -> Result<(), AllocError>
    ensures { OnOk result (TakesOut left_out.old
        (Some (line_view (Line.LeftOut segment))) left_out.new) }
{
    match left_out.insert(segment) {
        Ok(_) => Ok(()),
        Err(_) => Err(AllocError),
    }
}
