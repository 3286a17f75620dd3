// The ids of a segment.
ghost use Rattle.std.specs.Prelude.{◌≡◌, ◌++◌, reverse, filter, IfOk, OnOk};
ghost use Rattle.std.specs.BTreeSet as tree_sets;
ghost use Rattle.op_core.specs.Ids.{id_cmp};
ghost use Rattle.op_core.specs.Lists as lists;
ghost use Rattle.segment_history.specs.Histories as histories;

use bundle_codec::OpView;
use op_core::OpId;
use std::alloc::{AllocError, Global};
use std::collections::BTreeSet;

// The ids of operations, and those that they name and that are awaited, each once, in descending
// order.
pub(crate) fn falling_ids(
    alloc: Global,
    ops: &[OpView<'_>],
    awaited: &BTreeSet<OpId>,
) -> Result<Vec<OpId>, AllocError>
    ensures { IfOk result (λ ids. ids.items
        ≡ reverse (histories.ids_with ops.now (tree_sets.contains id_cmp awaited.now))) }
{
    let mut ids = own_ids(alloc, ops)?;
    for op in ops {
        push_awaited(&mut ids, op, awaited)?;
    }
    ids.sort_unstable();
    ids.dedup();
    ids.reverse();
    Ok(ids)
}

// The ids of operations.
fn own_ids(alloc: Global, ops: &[OpView<'_>]) -> Result<Vec<OpId>, AllocError>
    ensures { IfOk result (λ ids. ids.items ≡ lists.ids_of ops.now) }
{
    let mut ids = Vec::with_capacity(alloc, ops.len())?;
    for op in ops {
        ids.push(op.id())?;
    }
    Ok(ids)
}

// Adds the awaited ids that an operation names.
fn push_awaited(
    ids: &mut Vec<OpId>,
    op: &OpView<'_>,
    awaited: &BTreeSet<OpId>,
) -> Result<(), AllocError>
    ensures { OnOk result (ids.new.items ≡ ids.old.items
        ++ filter (tree_sets.contains id_cmp awaited.now) op.now.replaced) }
{
    for id in op.replaced() {
        if awaited.contains(&id) {
            ids.push(id)?;
        }
    }
    Ok(())
}
