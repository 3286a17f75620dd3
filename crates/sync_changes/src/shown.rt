// What is shown among the operations of one segment.
ghost use Rattle.std.specs.Prelude.{◌≡◌, ◌&&◌, ◌||◌, not, map, IfOk, OnOk};
ghost use Rattle.std.specs.BTreeSet as tree_sets;
ghost use Rattle.bundle_codec.specs.Views.{lent};
ghost use Rattle.op_core.specs.Ids.{Id, id_cmp};
ghost use Rattle.op_core.specs.Lists.{ids_of};
ghost use Rattle.op_core.specs.Ops.{names};
ghost use Rattle.segment_history.specs.Loops.Gathering as gathering;
ghost use Rattle.sync_changes.specs.Loops.Parts as parts;

use crate::gathered::Gathered;
use crate::part::Part;
use bundle_codec::OpView;
use op_core::OpId;
use std::alloc::{AllocError, Global};
use std::collections::BTreeSet;
use usfm_ref::Segment;

// The ids that those of the operations name that are looked at.
fn named_in(alloc: Global, ops: &[OpView<'_>], part: Part<'_>) -> Result<BTreeSet<OpId>, AllocError>
    ensures { IfOk result (parts.HasNamed ops.now (parts.in_part part.entry)) }
{
    let mut ids = BTreeSet::new(alloc);
    for op in ops {
        insert_if_in(&mut ids, part, op)?;
    }
    Ok(ids)
}

// Adds the ids that an operation names, if it is looked at.
fn insert_if_in(ids: &mut BTreeSet<OpId>, part: Part<'_>, op: &OpView<'_>) -> Result<(), AllocError>
    ensures { OnOk result ((id : Id) → tree_sets.contains id_cmp ids.new id
        ≡ (tree_sets.contains id_cmp ids.old id
        || parts.passes_naming (parts.in_part part.entry) id op.now)) }
{
    if !part.has(&op.id()) {
        return Ok(());
    }
    insert_named(ids, op)
}

// Adds the ids that an operation names.
fn insert_named(ids: &mut BTreeSet<OpId>, op: &OpView<'_>) -> Result<(), AllocError>
    ensures { OnOk result ((id : Id) → tree_sets.contains id_cmp ids.new id
        ≡ (tree_sets.contains id_cmp ids.old id || names op.now id)) }
{
    for id in op.replaced() {
        ids.insert(id)?;
    }
    Ok(())
}

// Whether an operation is looked at, and its id is not among those that are named.
fn is_left(part: Part<'_>, named: &BTreeSet<OpId>, op: &OpView<'_>) -> bool
    ensures { result ≡ (parts.in_part part.entry op.now.id
        && not (tree_sets.contains id_cmp named.now op.now.id)) }
{
    let id = op.id();
    part.has(&id) && !named.contains(&id)
}

// The same of the operations of a segment that were gathered.
pub(crate) fn named_at(
    alloc: Global,
    gathered: &Gathered<'_>,
    segment: &Segment,
    part: Part<'_>,
) -> Result<BTreeSet<OpId>, AllocError>
    ensures { IfOk result (parts.HasNamed (gathering.ops_of gathered.now segment.now)
        (parts.in_part part.entry)) }
{
    let ops: &[OpView<'_>] = match gathered.get(segment) {
        None => return named_in(alloc, &[], part),
        Some(ops) => ops,
    };
    named_in(alloc, ops, part)
}

// The ids of those of the operations that none of them names, in ascending order.
fn shown_ids(alloc: Global, ops: &[OpView<'_>]) -> Result<Vec<OpId>, AllocError>
    ensures { IfOk result (λ ids. ids.items ≡ ids_of (parts.unnamed ops.now)) }
{
    let named = named_in(alloc, ops, Part::All)?;
    let mut ids = Vec::new(alloc);
    for op in ops {
        if is_left(Part::All, &named, op) {
            ids.push(op.id())?;
        }
    }
    Ok(ids)
}

// The same of the operations of a segment that were gathered.
pub(crate) fn shown_at(
    alloc: Global,
    gathered: &Gathered<'_>,
    segment: &Segment,
) -> Result<Vec<OpId>, AllocError>
    ensures { IfOk result (λ ids.
        ids.items ≡ ids_of (parts.unnamed (gathering.ops_of gathered.now segment.now))) }
{
    let ops: &[OpView<'_>] = match gathered.get(segment) {
        None => return shown_ids(alloc, &[]),
        Some(ops) => ops,
    };
    shown_ids(alloc, ops)
}

// The texts of those of the operations that are looked at and that none of these names, in
// ascending order of ids.
pub(crate) fn shown_texts<'a>(
    alloc: Global,
    ops: &[OpView<'a>],
    part: Part<'_>,
) -> Result<Vec<Option<&'a str>>, AllocError>
    ensures { IfOk result (λ texts. map lent texts.items
        ≡ parts.left_texts ops.now (parts.in_part part.entry)) }
{
    let named = named_in(alloc, ops, part)?;
    let mut texts = Vec::new(alloc);
    for op in ops {
        if is_left(part, &named, op) {
            texts.push(op.text())?;
        }
    }
    Ok(texts)
}
