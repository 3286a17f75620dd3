// The distinct texts of a segment, each compared with the one that is picked.
ghost use Rattle.std.specs.Prelude.{◌≡◌, map, IfOk};
ghost use Rattle.conflict_settling.specs.Entries.{AreEntriesOf, text_of, views};

use op_core::Op;
use std::alloc::{AllocError, Global};
use word_diff::{Part, differences};

/// One of the texts of a segment, as it is asked for.
#[derive(Debug, Drop)]
pub struct Entry<'a> {
    /// By which number it is picked, from 1.
    pub number: usize,
    /// The operation that has it.
    pub op: &'a Op,
    /// What differs between the first text and this one; of the first, between it and the second.
    pub parts: Vec<Part<'a>>,
}

/// The texts of some operations, each compared with the first, and the first with the second.
///
/// # Errors
/// Out of memory alone.
pub fn compare<'a>(alloc: Global, ops: &[&'a Op]) -> Result<Vec<Entry<'a>>, AllocError>
    ensures { IfOk result (λ entries.
        AreEntriesOf (map (λ op. op.now) ops.now) (views entries.items)) }
{
    let first = text_at(ops, 0);
    let mut entries = Vec::new(alloc);
    for at in 0..ops.len() {
        let other = text_at(ops, at.max(1));
        let parts = differences(alloc, first, other)?;
        entries.push(Entry {
            number: at + 1,
            op: ops[at],
            parts,
        })?;
    }
    Ok(entries)
}

// The text of one of some operations, empty where there is none.
fn text_at<'a>(ops: &[&'a Op], at: usize) -> &'a str
    ensures { result.now ≡ text_of (map (λ op. op.now) ops.now) at }
{
    match ops.get(at) {
        None => "",
        Some(op) => op.text_or_empty(),
    }
}
