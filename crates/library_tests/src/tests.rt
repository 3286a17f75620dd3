// A call each with ample memory, and what no contract says: how often a search compares, and what
// is called of a reader or a writer of std.
mod replicas;
mod sets;
mod streams;

use op_core::{Op, OpId, OpSet, ReplicaName, names_fall};
use std::alloc::Global;
use std::test::Fail;
use usfm_ref::{Book, Key, Place};
use verse_cut::fits;

// The id of one of ana's.
pub(crate) fn id_of(number: u64) -> Result<OpId, Fail> {
    Ok(OpId::new(number, ReplicaName::read("ana")?).ok_or("no id")?)
}

pub(crate) fn verse(chapter: u16, number: u16) -> Result<Key, Fail> {
    let letter = None;
    Ok(Key::new(chapter, Place::Verse { number, letter }).ok_or("no key")?)
}

// An operation of one of ana's on a verse of Matthew.
pub(crate) fn op_of(
    alloc: Global,
    number: u64,
    key: Key,
    named: &[OpId],
    text: &str,
) -> Result<Op, Fail> {
    let (id, book) = (id_of(number)?, Book::read("MAT")?);
    if !names_fall(&id, named) || !fits(book, key, text) {
        return Err(Fail::from("no operation"));
    }
    let text = String::from_str(alloc, text)?;
    Ok(Op::new(id, book, key, named.to_vec(alloc)?, text))
}

// Inserts an operation. The contract of `insert` stays out of the proofs of the tests that call
// this.
pub(crate) fn put(set: &mut OpSet, op: Op) -> Result<bool, Fail> {
    if op.text().is_none() {
        return Err(Fail::from("the operation is thinned"));
    }
    Ok(set.insert(op)?)
}

// This many operations, each of a segment of its own.
pub(crate) fn apart(alloc: Global, count: u16) -> Result<OpSet, Fail> {
    let mut set = OpSet::new(alloc);
    for i in 0..count {
        let key = verse(i / 64, i % 64)?;
        put(&mut set, op_of(alloc, u64::from(i) + 1, key, &[], "")?)?;
    }
    Ok(set)
}

// How many comparisons were counted since.
pub(crate) fn since(before: u64, now: u64) -> Result<u64, Fail> {
    Ok(now.checked_sub(before).ok_or("the count fell")?)
}
