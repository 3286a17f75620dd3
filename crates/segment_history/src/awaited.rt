// The ids that operations name and none has.
ghost use Rattle.std.specs.Prelude.{◌≡◌, ◌||◌, IfOk, OnOk};
ghost use Rattle.std.specs.BTreeSet as tree_sets;
ghost use Rattle.op_core.specs.Ids.{Id, id_cmp};
ghost use Rattle.op_core.specs.Ops.{names};
ghost use Rattle.segment_history.specs.Loops.Gathering as gathering;

use crate::gathered::{Gathered, segment_of};
use bundle_codec::{Bundle, OpView};
use op_core::OpId;
use std::alloc::{AllocError, Global};
use std::collections::BTreeSet;

// The ids that gathered operations name and no operation of the bundle has.
pub(crate) fn awaited_ids(
    alloc: Global,
    bundle: &Bundle<'_>,
    gathered: &Gathered<'_>,
) -> Result<BTreeSet<OpId>, AllocError>
    ensures { IfOk result (gathering.HasAwaited bundle.now gathered.now) }
{
    let mut ids = named_by_gathered(alloc, bundle, gathered)?;
    for op in bundle.ops() {
        ids.remove(&op.id());
    }
    Ok(ids)
}

// The ids that gathered operations name.
fn named_by_gathered(
    alloc: Global,
    bundle: &Bundle<'_>,
    gathered: &Gathered<'_>,
) -> Result<BTreeSet<OpId>, AllocError>
    ensures { IfOk result (gathering.HasNamed bundle.now gathered.now) }
{
    let mut ids = BTreeSet::new(alloc);
    for op in bundle.ops() {
        insert_if_gathered(&mut ids, gathered, &op)?;
    }
    Ok(ids)
}

// Adds the ids that an operation names, if it is gathered.
fn insert_if_gathered(
    ids: &mut BTreeSet<OpId>,
    gathered: &Gathered<'_>,
    op: &OpView<'_>,
) -> Result<(), AllocError>
    ensures { OnOk result ((id : Id) → tree_sets.contains id_cmp ids.new id
        ≡ (tree_sets.contains id_cmp ids.old id || gathering.is_naming gathered.now id op.now)) }
{
    if !gathered.contains_key(&segment_of(op)) {
        return Ok(());
    }
    insert_named(ids, op)
}

// Adds the ids that an operation names.
pub(crate) fn insert_named(ids: &mut BTreeSet<OpId>, op: &OpView<'_>) -> Result<(), AllocError>
    ensures { OnOk result ((id : Id) → tree_sets.contains id_cmp ids.new id
        ≡ (tree_sets.contains id_cmp ids.old id || names op.now id)) }
{
    for id in op.replaced() {
        ids.insert(id)?;
    }
    Ok(())
}
