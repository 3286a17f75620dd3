// The conflicts that are wanted, in the order of the report.
ghost use Rattle.std.specs.Prelude.{◌≡◌, ◌++◌, OnOk, IfOk};
ghost use Rattle.std.specs.List.{flat_map};
ghost use Rattle.usfm_ref.specs.Segments.{segment};
ghost use Rattle.op_core.specs.Lists.{books_of};
ghost use Rattle.conflict_settling.specs.Pending as pending;

use crate::wanted::{Wanted, is_wanted};
use conflict_report::shown_texts;
use op_core::Cursor;
use replica_state::Replica;
use std::alloc::{AllocError, Global};
use usfm_ref::{Book, Key, Segment};

/// The segments that show two or more distinct texts, in the order of books and keys: those that
/// are wanted (all, where nothing is named), and of these those after the segment that was passed,
/// if there is one.
///
/// # Errors
/// Out of memory alone.
pub fn open_conflicts(
    alloc: Global,
    replica: &Replica,
    wanted: &[Wanted],
    passed: Option<Segment>,
) -> Result<Vec<Segment>, AllocError>
    ensures { IfOk result (λ list.
        list.items ≡ pending.open_conflicts replica.now.held wanted.now passed) }
{
    let mut list = Vec::new(alloc);
    for book in replica.books() {
        push_book(alloc, replica, wanted, &passed, book, &mut list)?;
    }
    Ok(list)
}

// Adds those of a book, by rising key.
fn push_book(
    alloc: Global,
    replica: &Replica,
    wanted: &[Wanted],
    passed: &Option<Segment>,
    book: Book,
    list: &mut Vec<Segment>,
) -> Result<(), AllocError>
    ensures { OnOk result (list.new.items ≡ list.old.items
        ++ pending.open_in replica.now.held wanted.now passed.now book) }
{
    let mut cursor = replica.set().cursor();
    for key in replica.keys(book) {
        if is_open(alloc, &mut cursor, wanted, passed, book, key)? {
            list.push(Segment { book, key })?;
        }
    }
    Ok(())
}

// Whether the segment is wanted, comes after the one that was passed, and shows two or more
// distinct texts.
fn is_open(
    alloc: Global,
    cursor: &mut Cursor<'_>,
    wanted: &[Wanted],
    passed: &Option<Segment>,
    book: Book,
    key: Key,
) -> Result<bool, AllocError>
    ensures open { IfOk result (λ is.
        is ≡ pending.is_open cursor.old wanted.now passed.now (segment book key)) }
    ensures same { cursor.new ≡ cursor.old }
{
    let is_next = is_after(passed, book, key);
    if !is_wanted(wanted, book, key) || !is_next {
        return Ok(false);
    }
    Ok(shown_texts(alloc, cursor, book, key)?.distinct.len() >= 2)
}

// Whether the segment comes after the one that was passed, if there is one.
fn is_after(passed: &Option<Segment>, book: Book, key: Key) -> bool
    ensures { result ≡ pending.is_after passed.now (segment book key) }
{
    match passed {
        None => true,
        Some(passed) => passed.cmp(&Segment { book, key }).is_lt(),
    }
}
