// How older bases move on once books' files were written anew: each book's by themselves.
ghost use Rattle.std.specs.Prelude.{◌≡◌, ◌++◌, [], IfOk, OnOk, map, option_map};
ghost use Rattle.op_core.specs.Sets as sets;
ghost use Rattle.book_folder.specs.OlderBases as older_bases;
ghost use Rattle.book_folder.specs.Settling.{moved_view};

use crate::begun::{join, judge, ops_of};
use crate::export::is_held_alike;
use crate::refusal::{Place, Refusal};
use bundle_codec::encode_ops;
use op_core::OpSet;
use std::alloc::{AllocError, Global};
use usfm_ref::Book;

// How many older bases are kept.
const MOST_OLDER: usize = 3;

/// An older base that becomes another one.
#[derive(Debug, Drop)]
pub struct MovedBase {
    /// Its place among the older bases, from 0, which is the newest.
    pub at: usize,
    /// Its bundle.
    pub bytes: Vec<u8>,
}

// The older bases that become other ones where a base takes the place of another one: those of each
// book of which the two have not the same.
pub(crate) fn moved_older(
    alloc: Global,
    base: &[u8],
    made: &[u8],
    older: &[Vec<u8>],
) -> Result<Vec<MovedBase>, AllocError>
    ensures { IfOk result (λ moved. map moved_view moved.items
        ≡ older_bases.moved_older base.now made.now (map (λ b. b.items) older.now)) }
{
    let base = ops_or_none(alloc, base)?;
    let books = changed_books(alloc, &base, &ops_or_none(alloc, made)?)?;
    let mut moved = Vec::new(alloc);
    if !books.is_empty() {
        push_moved(alloc, &mut moved, &books, base, older)?;
    }
    Ok(moved)
}

// The operations of the bundle that bytes are, or none.
fn ops_or_none(alloc: Global, bytes: &[u8]) -> Result<OpSet, AllocError>
    ensures { IfOk result (λ set. set ≡ older_bases.ops_or_none bytes.now) }
{
    match judge(alloc, Place::Next, bytes) {
        Ok(bundle) => bundle.to_set(alloc),
        Err(Refusal::Memory) => Err(AllocError),
        Err(Refusal::Of(_, _)) => Ok(OpSet::new(alloc)),
    }
}

// The books of which one of two bases has what the other one has not.
fn changed_books(alloc: Global, base: &OpSet, made: &OpSet) -> Result<Vec<Book>, AllocError>
    ensures { IfOk result (λ books. books.items ≡ older_bases.changed_books base.now made.now) }
{
    let mut books = Vec::new(alloc);
    push_lacked(&mut books, made, base)?;
    push_lacked(&mut books, base, made)?;
    Ok(books)
}

// Pushes the book of each operation that a set does not hold.
fn push_lacked(books: &mut Vec<Book>, held: &OpSet, ops: &OpSet) -> Result<(), AllocError>
    ensures { OnOk result (books.new.items
        ≡ books.old.items ++ older_bases.lacked_books held.now ops.now) }
{
    let mut cursor = held.cursor();
    for op in ops.iter() {
        if !is_held_alike(cursor.find(&op.id()), op) {
            books.push(op.book())?;
        }
    }
    Ok(())
}

// Pushes the older bases that become other ones.
fn push_moved(
    alloc: Global,
    moved: &mut Vec<MovedBase>,
    books: &[Book],
    base: OpSet,
    older: &[Vec<u8>],
) -> Result<(), AllocError>
    ensures { OnOk result (map moved_view moved.new.items ≡ map moved_view moved.old.items
        ++ older_bases.moved_from 0 books.now base (map (λ b. b.items) older.now)) }
{
    let mut at = 0;
    let mut newer = base;
    let mut left = older;
    'older: while let [there, later @ ..] = left {
        let set = ops_or_none(alloc, there)?;
        let bytes = moved_base(alloc, books, &newer, &set)?;
        push_if_other(moved, at, Some(there), bytes)?;
        newer = set;
        at += 1;
        left = later;
    }
    if at < MOST_OLDER {
        let bytes = moved_base(alloc, books, &newer, &OpSet::new(alloc))?;
        push_if_other(moved, at, None, bytes)?;
    }
    Ok(())
}

// An older base once some books' files were written anew: of these it has what the next newer base
// had.
fn moved_base(
    alloc: Global,
    books: &[Book],
    newer: &OpSet,
    older: &OpSet,
) -> Result<Vec<u8>, AllocError>
    ensures { IfOk result (λ bytes.
        bytes.items ≡ older_bases.moved_base books.now newer.now older.now) }
{
    let moved = ops_of(alloc, newer, books, true)?;
    let stayed = ops_of(alloc, older, books, false)?;
    match join(alloc, Place::Next, &moved, &stayed) {
        Ok(bytes) => Ok(bytes),
        Err(Refusal::Memory) => Err(AllocError),
        Err(Refusal::Of(_, _)) => encode_ops(alloc, &moved),
    }
}

// Pushes an older base with its place, if it is other than what stands there.
fn push_if_other(
    moved: &mut Vec<MovedBase>,
    at: usize,
    there: Option<&Vec<u8>>,
    bytes: Vec<u8>,
) -> Result<(), AllocError>
    ensures { OnOk result (map moved_view moved.new.items ≡ map moved_view moved.old.items
        ++ older_bases.moved_if at (option_map (λ b. b.now.items) there.entry) bytes.items) }
{
    match there {
        Some(there) if *there == bytes => Ok(()),
        _ => {
            moved.push(MovedBase { at, bytes })?;
            Ok(())
        }
    }
}
