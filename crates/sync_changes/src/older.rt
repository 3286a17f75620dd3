// What older sets show in some segments.
ghost use Rattle.std.specs.Prelude.{◌≡◌, not, ◌||◌, IfOk, OnOk};
ghost use Rattle.op_core.specs.Ids.{Id};
ghost use Rattle.std.specs.BTreeSet as tree_sets;
ghost use Rattle.std.specs.List.{list_any};
ghost use Rattle.usfm_ref.specs.Books.{book_cmp};
ghost use Rattle.sync_changes.specs.Loops.Parts as parts;

use crate::gathered::{Gathered, gathered};
use crate::shown::shown_at;
use bundle_codec::Bundle;
use op_core::OpId;
use std::alloc::{AllocError, Global};
use std::collections::BTreeSet;
use usfm_ref::{Book, Segment};

// An older set: its books, and its operations of some segments.
#[derive(Debug, Drop)]
pub(crate) struct Older<'a> {
    books: BTreeSet<Book>,
    gathered: Gathered<'a>,
}

// The older sets of these bundles, with their operations of these segments.
pub(crate) fn older_of<'a>(
    alloc: Global,
    bundles: &[Bundle<'a>],
    segments: &[Segment],
) -> Result<Vec<Older<'a>>, AllocError>
    ensures { IfOk result (λ olds. parts.HasOlder bundles.now segments.now olds.items) }
{
    let mut olds = Vec::new(alloc);
    for bundle in bundles {
        let books = books_of(alloc, bundle)?;
        let gathered = gathered(alloc, bundle, segments)?;
        olds.push(Older { books, gathered })?;
    }
    Ok(olds)
}

// The books with an operation.
fn books_of(alloc: Global, bundle: &Bundle<'_>) -> Result<BTreeSet<Book>, AllocError>
    ensures { IfOk result (parts.HasBooks bundle.now) }
{
    let mut books = BTreeSet::new(alloc);
    for op in bundle.ops() {
        books.insert(op.book())?;
    }
    Ok(books)
}

// Of each older set that has the segment's book, the ids that it shows in the segment.
pub(crate) fn shown_in_olds(
    alloc: Global,
    olds: &[Older<'_>],
    segment: &Segment,
) -> Result<Vec<BTreeSet<OpId>>, AllocError>
    ensures { IfOk result (λ sets. (id : Id) → parts.is_absent sets.items id
        ≡ list_any (parts.lacks segment.now id) olds.now) }
{
    let mut sets = Vec::new(alloc);
    for old in olds {
        push_shown(alloc, old, segment, &mut sets)?;
    }
    Ok(sets)
}

// Adds the ids that an older set shows in the segment, if it has the segment's book.
fn push_shown(
    alloc: Global,
    old: &Older<'_>,
    segment: &Segment,
    sets: &mut Vec<BTreeSet<OpId>>,
) -> Result<(), AllocError>
    ensures { OnOk result ((id : Id) → parts.is_absent sets.new.items id
        ≡ (parts.is_absent sets.old.items id || parts.lacks segment.now id old.now)) }
{
    if lacks_book(old, segment) {
        return Ok(());
    }
    let ids = shown_at(alloc, &old.gathered, segment)?;
    sets.push(set_of(alloc, &ids)?)?;
    Ok(())
}

// Whether an older set has not the segment's book.
fn lacks_book(old: &Older<'_>, segment: &Segment) -> bool
    ensures { result ≡ not (tree_sets.contains book_cmp old.now.books segment.now.book) }
{
    !old.books.contains(&segment.book)
}

// A set of ids.
fn set_of(alloc: Global, ids: &[OpId]) -> Result<BTreeSet<OpId>, AllocError>
    ensures { IfOk result (parts.HasIds ids.now) }
{
    let mut set = BTreeSet::new(alloc);
    for id in ids {
        set.insert(*id)?;
    }
    Ok(set)
}
