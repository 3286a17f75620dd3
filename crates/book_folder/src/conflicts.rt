// The segments of a project that show different texts.
ghost use Rattle.std.specs.Prelude.{◌≡◌, ◌++◌, IfOk, OnOk, map};
ghost use Rattle.std.specs.List.{list_any};
ghost use Rattle.usfm_ref.specs.Segments.{segment};
ghost use Rattle.book_folder.specs.Begun as begins;

use op_core::{Cursor, Op};
use replica_state::Replica;
use std::alloc::{AllocError, Global};
use usfm_ref::{Book, Key};

// The segments that show different texts, in the order of books and keys.
pub(crate) fn conflicts(alloc: Global, replica: &Replica) -> Result<Vec<(Book, Key)>, AllocError>
    ensures { IfOk result (λ found. found.items ≡ begins.conflicts replica.now.held) }
{
    let mut found = Vec::new(alloc);
    for book in replica.books() {
        push_conflicts(alloc, replica, book, &mut found)?;
    }
    Ok(found)
}

// Adds the segments of a book that show different texts, by rising keys.
fn push_conflicts(
    alloc: Global,
    replica: &Replica,
    book: Book,
    found: &mut Vec<(Book, Key)>,
) -> Result<(), AllocError>
    ensures { OnOk result (found.new.items
        ≡ found.old.items ++ begins.conflicts_in replica.now.held book) }
{
    let mut cursor = replica.set().cursor();
    for key in replica.keys(book) {
        if is_in_conflict(alloc, &mut cursor, book, key)? {
            found.push((book, key))?;
        }
    }
    Ok(())
}

// Whether a segment shows different texts.
pub(crate) fn is_in_conflict(
    alloc: Global,
    cursor: &mut Cursor<'_>,
    book: Book,
    key: Key,
) -> Result<bool, AllocError>
    ensures conflict { IfOk result (λ is.
        is ≡ begins.is_in_conflict cursor.old (segment book key)) }
    ensures same { cursor.new ≡ cursor.old }
{
    if cursor.shown_ids(book, key).len() < 2 {
        return Ok(false);
    }
    let shown = cursor.shown(alloc, book, key)?;
    Ok(differ(&shown))
}

// Whether operations have different texts.
fn differ(ops: &[&Op]) -> bool
    ensures { result ≡ begins.differ (map (λ op. op.now) ops.now) }
{
    match ops {
        [] => false,
        [first, later @ ..] => has_other(later, first.text_or_empty()),
    }
}

// Whether one of some operations has another text.
fn has_other(ops: &[&Op], text: &str) -> bool
    ensures { result ≡ list_any (begins.has_other_text text.now) (map (λ op. op.now) ops.now) }
{
    let mut left = ops;
    'ops: while let [op, later @ ..] = left {
        if op.text_or_empty() != text {
            return true;
        }
        left = later;
    }
    false
}
