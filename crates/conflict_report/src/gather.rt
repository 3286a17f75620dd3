// Gathers the parts of a report, in one walk over the books and keys of a replica.
ghost use Rattle.std.specs.Prelude.{◌≡◌, ◌++◌, OnOk, IfOk};
ghost use Rattle.std.specs.List.{flat_map};
ghost use Rattle.usfm_ref.specs.Segments.{segment};
ghost use Rattle.op_core.specs.Lists.{awaited, books_of};
ghost use Rattle.conflict_report.specs.Loops.Parts.{bytes_of};
ghost use Rattle.conflict_report.specs.Reports as reports;

use crate::part::{Part, awaited_line, conflict_line, text_line};
use crate::texts::shown_texts;
use op_core::{Cursor, Op};
use replica_state::Replica;
use std::alloc::{AllocError, Global};
use usfm_ref::{Book, Key};

// The parts of the report of a replica. The texts are lent from it.
pub(crate) fn parts_of(alloc: Global, replica: &Replica) -> Result<Vec<Part<'_>>, AllocError>
    ensures { IfOk result (λ parts. bytes_of parts.items ≡ reports.report replica.now.held) }
{
    let mut parts = Vec::new(alloc);
    push_conflicts(alloc, replica, &mut parts)?;
    push_awaited(alloc, replica, &mut parts)?;
    Ok(parts)
}

// Adds the conflicts of all books, in the order of books.
fn push_conflicts<'a>(
    alloc: Global,
    replica: &'a Replica,
    parts: &mut Vec<Part<'a>>,
) -> Result<(), AllocError>
    ensures { OnOk result (bytes_of parts.new.items ≡ bytes_of parts.old.items
        ++ flat_map (reports.conflicts_in replica.now.held) (books_of replica.now.held)) }
{
    for book in replica.books() {
        push_book(alloc, replica, book, parts)?;
    }
    Ok(())
}

// Adds the conflicts of a book, by rising key.
fn push_book<'a>(
    alloc: Global,
    replica: &'a Replica,
    book: Book,
    parts: &mut Vec<Part<'a>>,
) -> Result<(), AllocError>
    ensures { OnOk result (bytes_of parts.new.items ≡ bytes_of parts.old.items
        ++ reports.conflicts_in replica.now.held book) }
{
    let mut cursor = replica.set().cursor();
    for key in replica.keys(book) {
        push_segment(alloc, &mut cursor, book, key, parts)?;
    }
    Ok(())
}

// Adds the conflict of a segment, if it shows two or more distinct texts.
fn push_segment<'a>(
    alloc: Global,
    cursor: &mut Cursor<'a>,
    book: Book,
    key: Key,
    parts: &mut Vec<Part<'a>>,
) -> Result<(), AllocError>
    ensures conflict { OnOk result (bytes_of parts.new.items ≡ bytes_of parts.old.items
        ++ reports.conflict_at cursor.old (segment book key)) }
    ensures same { cursor.new ≡ cursor.old }
{
    let texts = shown_texts(alloc, cursor, book, key)?.distinct;
    let count = texts.len();
    if count < 2 {
        return Ok(());
    }
    parts.push(Part::Line(conflict_line(alloc, book, key, count)?))?;
    push_texts(alloc, &texts, parts)
}

// Adds texts, each with its line.
fn push_texts<'a>(
    alloc: Global,
    texts: &[&'a Op],
    parts: &mut Vec<Part<'a>>,
) -> Result<(), AllocError>
    ensures { OnOk result (bytes_of parts.new.items ≡ bytes_of parts.old.items
        ++ flat_map (λ op. reports.text_lines op.now) texts.now) }
{
    for op in texts {
        parts.push(Part::Line(text_line(alloc, op)?))?;
        parts.push(Part::Text(*op))?;
    }
    Ok(())
}

// Adds the lines of the awaited ids.
fn push_awaited(
    alloc: Global,
    replica: &Replica,
    parts: &mut Vec<Part<'_>>,
) -> Result<(), AllocError>
    ensures { OnOk result (bytes_of parts.new.items ≡ bytes_of parts.old.items
        ++ flat_map reports.awaited_line (awaited replica.now.held)) }
{
    let ids = replica.awaited(alloc)?;
    for id in &ids {
        parts.push(Part::Line(awaited_line(alloc, *id)?))?;
    }
    Ok(())
}
