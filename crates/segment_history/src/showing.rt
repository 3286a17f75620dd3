// What is shown among the operations of one segment.
ghost use Rattle.std.specs.Prelude.{◌≡◌, ◌&&◌, ◌||◌, not, ◌++◌, ◌∷◌, [], map, IfOk, OnOk};
ghost use Rattle.std.specs.BTreeSet as tree_sets;
ghost use Rattle.std.specs.Option.{option_copied};
ghost use Rattle.op_core.specs.Ids.{Id, id_cmp};
ghost use Rattle.segment_history.specs.Changes.{shown_part};
ghost use Rattle.segment_history.specs.Entries.{shown_text};
ghost use Rattle.segment_history.specs.Loops.Showing as showing;

use crate::awaited::insert_named;
use crate::changed::ShownText;
use crate::texts::kept;
use bundle_codec::{OpView, Summary};
use op_core::OpId;
use std::alloc::{AllocError, Global};
use std::collections::BTreeSet;

// Whether an operation is known: each is, where it is not said what is known.
fn passes(known: Option<&Summary>, op: &OpView<'_>) -> bool
    ensures { result ≡ showing.passes (option_copied known.entry) op.now }
{
    match known {
        None => true,
        Some(known) => known.covers(&op.id()),
    }
}

// The ids that those operations name that pass.
fn passing_names(
    alloc: Global,
    ops: &[OpView<'_>],
    known: Option<&Summary>,
) -> Result<BTreeSet<OpId>, AllocError>
    ensures { IfOk result (showing.HasPassing ops.now (option_copied known.entry)) }
{
    let mut ids = BTreeSet::new(alloc);
    for op in ops {
        insert_if_passing(&mut ids, known, op)?;
    }
    Ok(ids)
}

// Adds the ids that an operation names, if it passes.
fn insert_if_passing(
    ids: &mut BTreeSet<OpId>,
    known: Option<&Summary>,
    op: &OpView<'_>,
) -> Result<(), AllocError>
    ensures { OnOk result ((id : Id) → tree_sets.contains id_cmp ids.new id
        ≡ (tree_sets.contains id_cmp ids.old id
        || showing.passes_naming (option_copied known.entry) id op.now)) }
{
    if !passes(known, op) {
        return Ok(());
    }
    insert_named(ids, op)
}

// Those of the operations that pass and that none of these names, in descending order of ids.
pub(crate) fn shown_among<'a>(
    alloc: Global,
    ops: &[OpView<'a>],
    known: Option<&Summary>,
) -> Result<Vec<ShownText<'a>>, AllocError>
    ensures { IfOk result (λ texts. map shown_text texts.items
        ≡ showing.left_parts ops.now (option_copied known.entry)) }
{
    let named = passing_names(alloc, ops, known)?;
    let mut texts = Vec::new(alloc);
    for op in ops {
        push_if_left(&mut texts, known, &named, op)?;
    }
    texts.reverse();
    Ok(texts)
}

// Adds an operation, if it passes and its id is not among those that are named.
fn push_if_left<'a>(
    texts: &mut Vec<ShownText<'a>>,
    known: Option<&Summary>,
    named: &BTreeSet<OpId>,
    op: &OpView<'a>,
) -> Result<(), AllocError>
    ensures { OnOk result (map shown_text texts.new.items ≡ map shown_text texts.old.items
        ++ showing.if_left (option_copied known.entry) named.now op.now) }
{
    if !is_left(known, named, op) {
        return Ok(());
    }
    push_shown(texts, op)
}

// Whether an operation passes, and its id is not among those that are named.
fn is_left(known: Option<&Summary>, named: &BTreeSet<OpId>, op: &OpView<'_>) -> bool
    ensures { result ≡ (showing.passes (option_copied known.entry) op.now
        && not (tree_sets.contains id_cmp named.now op.now.id)) }
{
    passes(known, op) && !named.contains(&op.id())
}

// Adds an operation.
fn push_shown<'a>(texts: &mut Vec<ShownText<'a>>, op: &OpView<'a>) -> Result<(), AllocError>
    ensures { OnOk result (map shown_text texts.new.items
        ≡ map shown_text texts.old.items ++ shown_part op.now ∷ []) }
{
    let shown = ShownText {
        id: op.id(),
        kept: kept(op),
    };
    match texts.push(shown) {
        Ok(()) => Ok(()),
        Err(_) => Err(AllocError),
    }
}
