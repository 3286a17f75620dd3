// The operations of some segments, gathered from a bundle by one walk.
ghost use Rattle.std.specs.Prelude.{◌≡◌, [], IfOk, OnOk};
ghost use Rattle.op_core.specs.Thinned.{of_ids};
ghost use Rattle.segment_history.specs.Loops.Gathering as gathering;
ghost use Rattle.sync_changes.specs.Changes as changing;
ghost use Rattle.sync_changes.specs.Loops.Parts as parts;

use crate::part::Part;
use bundle_codec::{Bundle, OpView};
use op_core::ReplicaName;
use std::alloc::{AllocError, Global};
use std::collections::BTreeMap;
use usfm_ref::Segment;

// Operations by their segments, those of each in ascending order of ids.
pub(crate) type Gathered<'a> = BTreeMap<Segment, Vec<OpView<'a>>>;

// The segment of an operation.
fn segment_of(op: &OpView<'_>) -> Segment
    ensures { result ≡ op.now.segment }
{
    Segment {
        book: op.book(),
        key: op.key(),
    }
}

// The segments of the operations that are looked at, each once.
pub(crate) fn segments_of(
    alloc: Global,
    bundle: &Bundle<'_>,
    part: Part<'_>,
) -> Result<Vec<Segment>, AllocError>
    ensures { IfOk result (λ segments.
        segments.items ≡ changing.segments_of (parts.in_part part.entry) bundle.now) }
{
    let mut segments = Vec::new(alloc);
    for op in bundle.ops() {
        if part.has(&op.id()) {
            segments.push(segment_of(&op))?;
        }
    }
    segments.sort_unstable();
    segments.dedup();
    Ok(segments)
}

// The operations of these segments.
pub(crate) fn gathered<'a>(
    alloc: Global,
    bundle: &Bundle<'a>,
    segments: &[Segment],
) -> Result<Gathered<'a>, AllocError>
    ensures { IfOk result (gathering.HasSegments bundle.now segments.now) }
{
    let mut made = empty(alloc, segments)?;
    for op in bundle.ops() {
        hold(&mut made, op)?;
    }
    Ok(made)
}

// These segments without an operation.
fn empty<'a>(alloc: Global, segments: &[Segment]) -> Result<Gathered<'a>, AllocError>
    ensures { IfOk result (gathering.HasSegments [] segments.now) }
{
    let mut made = BTreeMap::new(alloc);
    for segment in segments {
        made.insert(*segment, Vec::new(alloc))?;
    }
    Ok(made)
}

// Adds an operation, if its segment is there.
fn hold<'a>(made: &mut Gathered<'a>, op: OpView<'a>) -> Result<(), AllocError>
    ensures { OnOk result (gathering.AddsOp op.entry made.old made.new) }
{
    if let Some(ops) = made.get_mut(&segment_of(&op)) {
        ops.push(op)?;
    }
    Ok(())
}

// The names under which those of the operations were made that are looked at, each once.
pub(crate) fn makers(
    alloc: Global,
    ops: &[OpView<'_>],
    part: Part<'_>,
) -> Result<Vec<ReplicaName>, AllocError>
    ensures { IfOk result (λ names.
        names.items ≡ changing.makers (of_ids (parts.in_part part.entry) ops.now)) }
{
    let mut names = Vec::new(alloc);
    for op in ops {
        let id = op.id();
        if part.has(&id) {
            names.push(id.name)?;
        }
    }
    names.sort_unstable();
    names.dedup();
    Ok(names)
}
