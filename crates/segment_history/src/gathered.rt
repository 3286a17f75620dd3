// The operations of some segments, gathered from a bundle by one walk.
ghost use Rattle.std.specs.Prelude.{◌≡◌, [], IfOk, OnOk, IsTrue};
ghost use Rattle.op_core.specs.Sets.{rises};
ghost use Rattle.segment_history.specs.Loops.Gathering as gathering;

use bundle_codec::{Bundle, OpView};
use std::alloc::{AllocError, Global};
use std::collections::BTreeMap;
use usfm_ref::Segment;

// Operations by their segments, those of each in ascending order of ids.
pub(crate) type Gathered<'a> = BTreeMap<Segment, Vec<OpView<'a>>>;

// The segment of an operation.
pub(crate) fn segment_of(op: &OpView<'_>) -> Segment
    ensures { result ≡ op.now.segment }
{
    Segment {
        book: op.book(),
        key: op.key(),
    }
}

// The operations of these segments.
pub(crate) fn gathered<'a>(
    alloc: Global,
    bundle: &Bundle<'a>,
    segments: &[Segment],
) -> Result<Gathered<'a>, AllocError>
    ensures has { IfOk result (gathering.HasSegments bundle.now segments.now) }
    ensures rising { OnOk result (IsTrue (rises bundle.now)) }
{
    let mut made = empty(alloc, segments)?;
    for op in bundle.ops() {
        hold(&mut made, op)?;
    }
    Ok(made)
}

// These segments without an operation.
fn empty<'a>(alloc: Global, segments: &[Segment]) -> Result<Gathered<'a>, AllocError>
    ensures { IfOk result (gathering.HasSegments [] segments.now) }
{
    let mut made = BTreeMap::new(alloc);
    for segment in segments {
        made.insert(*segment, Vec::new(alloc))?;
    }
    Ok(made)
}

// Adds an operation, if its segment is there.
fn hold<'a>(made: &mut Gathered<'a>, op: OpView<'a>) -> Result<(), AllocError>
    ensures { OnOk result (gathering.AddsOp op.entry made.old made.new) }
{
    if let Some(ops) = made.get_mut(&segment_of(&op)) {
        ops.push(op)?;
    }
    Ok(())
}
