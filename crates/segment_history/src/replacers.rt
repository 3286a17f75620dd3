// Under each id that operations name, the ids of those that name it.
ghost use Rattle.std.specs.Prelude.{◌≡◌, IfOk, OnOk};
ghost use Rattle.segment_history.specs.Loops.Gathering as gathering;

use bundle_codec::OpView;
use op_core::OpId;
use std::alloc::{AllocError, Global};
use std::collections::BTreeMap;

pub(crate) type Replacers = BTreeMap<OpId, Vec<OpId>>;

// The replacers among operations that rise by id.
pub(crate) fn replacers_of(alloc: Global, ops: &[OpView<'_>]) -> Result<Replacers, AllocError>
    ensures { IfOk result (gathering.HasReplacers ops.now) }
{
    let mut made = BTreeMap::new(alloc);
    for op in ops {
        add_each(alloc, &mut made, op)?;
    }
    Ok(made)
}

// Adds an operation's id under each that it names.
fn add_each(alloc: Global, made: &mut Replacers, op: &OpView<'_>) -> Result<(), AllocError>
    ensures { OnOk result (gathering.AddsNamed op.now made.old made.new) }
{
    let by = op.id();
    for id in op.replaced() {
        add_under(alloc, made, id, by)?;
    }
    Ok(())
}

// Adds an id under another one.
fn add_under(alloc: Global, made: &mut Replacers, id: OpId, by: OpId) -> Result<(), AllocError>
    ensures { OnOk result (gathering.AddsUnder by id made.old made.new) }
{
    if let Some(ids) = made.get_mut(&id) {
        ids.push(by)?;
        return Ok(());
    }
    let mut ids = Vec::new(alloc);
    ids.push(by)?;
    made.insert(id, ids)?;
    Ok(())
}

// The ids of the operations that name an id.
pub(crate) fn replacers_at<'r>(replacers: &'r Replacers, id: &OpId) -> &'r [OpId]
    ensures { result.now ≡ gathering.ids_under replacers.now id.now }
{
    match replacers.get(id) {
        None => &[],
        Some(ids) => ids,
    }
}
