// Thinned operations of a bundle, each of which an operation of its segment has to name.
ghost use Rattle.std.specs.Prelude.{◌≡◌, ◌∷◌, [], false, Ok, IfOk, IfErr, IsTrue, MatchResult};
ghost use Rattle.std.specs.Prelude.{length};
ghost use Rattle.std.specs.Option.{option_copied};
ghost use Rattle.op_core.specs.Sets.{rises};
ghost use Rattle.op_core.specs.Thinned.{all_full};
ghost use Rattle.bundle_codec.specs.Reading as reading;
ghost use Rattle.bundle_codec.specs.Views.{operations_in, SpellsSet};
ghost use Rattle.bundle_codec.specs.Loops.Thinning as thinning;

use crate::fault::BundleFault;
use crate::views::view::OpView;
use crate::views::walk::BundleOps;
use op_core::OpId;
use std::alloc::{AllocError, Global};
use std::collections::BTreeMap;
use usfm_ref::{Book, Key};

// Thinned operations, by their ids, each with its segment.
type Thinned = BTreeMap<OpId, (Book, Key)>;

// Judges the operations of a bundle of format 2, this many, which the bytes spell: at least one is
// thinned, and each that is thinned is named by one of its segment. Each operation is looked at
// three times, and only for the thinned ones it allocates.
pub(crate) fn judge_thinned(alloc: Global, count: u64, bytes: &[u8]) -> Result<(), BundleFault>
    requires { SpellsSet count bytes.now }
    ensures { MatchResult result
        (λ _. reading.judge_thinned false (operations_in count bytes.now) ≡ Ok tt)
        (thinning.RefusesThinned (operations_in count bytes.now)) }
{
    let mut unnamed = thinned_of(alloc, BundleOps::new(count, bytes))?;
    if unnamed.is_empty() {
        return Err(BundleFault::Unsupported(0));
    }
    remove_named(&mut unnamed, BundleOps::new(count, bytes));
    match first_of(&unnamed, count, BundleOps::new(count, bytes)) {
        None => Ok(()),
        Some(place) => Err(BundleFault::Unsupported(place)),
    }
}

// The thinned operations of a walk.
fn thinned_of(alloc: Global, ops: BundleOps<'_>) -> Result<Thinned, AllocError>
    requires { IsTrue (rises ops) }
    ensures holds { IfOk result (thinning.HoldsThinned ops.entry) }
    ensures refused { IfErr result (λ _. all_full ops.entry ≡ false) }
{
    let mut thinned = BTreeMap::new(alloc);
    for op in ops {
        if op.text().is_none() {
            thinned.insert(op.id(), (op.book(), op.key()))?;
        }
    }
    Ok(thinned)
}

// Takes out what an operation of the walk names in its own segment.
fn remove_named(thinned: &mut Thinned, ops: BundleOps<'_>)
    ensures { thinning.LeavesNamed ops.entry thinned.old thinned.new }
{
    for op in ops {
        remove_named_by(thinned, &op);
    }
}

// Takes out what the operation names in its segment.
fn remove_named_by(thinned: &mut Thinned, op: &OpView<'_>)
    ensures { thinning.LeavesNamed (op.now ∷ []) thinned.old thinned.new }
{
    for id in op.replaced() {
        if is_beside(thinned.get(&id), op) {
            thinned.remove(&id);
        }
    }
}

// Whether the segment, if there is one, is that of the operation.
fn is_beside(segment: Option<&(Book, Key)>, op: &OpView<'_>) -> bool
    ensures { result ≡ thinning.is_beside (option_copied segment.entry) op.now }
{
    match segment {
        None => false,
        Some((book, key)) => op.book() == *book && op.key() == *key,
    }
}

// The place, from 1, of the first operation of the walk that is among the thinned ones.
fn first_of(thinned: &Thinned, count: u64, mut ops: BundleOps<'_>) -> Option<u64>
    requires { count ≡ length ops }
    ensures { result ≡ thinning.first_of thinned.now 1 ops.entry }
{
    for k in 0..count {
        let op = ops.next()?;
        if thinned.contains_key(&op.id()) {
            return Some(k + 1);
        }
    }
    None
}
