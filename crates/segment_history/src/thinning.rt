// What thinning leaves out, as it is said before.
ghost use Rattle.std.specs.Prelude.{◌≡◌, ◌&&◌, length, IfOk};
ghost use Rattle.op_core.specs.Ops.{is_full};
ghost use Rattle.bundle_codec.specs.Loops.Naming as naming;
ghost use Rattle.segment_history.specs.LeftOut as leaving;

use crate::gathered::segment_of;
use bundle_codec::{Bundle, OpView};
use op_core::OpId;
use std::alloc::{AllocError, Global};
use std::collections::BTreeSet;
use usfm_ref::{Book, Key, Segment};

// Ids, each with the segment in which an operation names it as replaced.
type Named = BTreeSet<(OpId, (Book, Key))>;

/// How much thinning leaves out.
#[derive(Clone, Copy, Debug, PartialEq, Eq)]
pub struct LeftOut {
    /// How many texts.
    pub texts: usize,
    /// Of how many segments these are.
    pub segments: usize,
}

/// How many texts thinning leaves out of a project, given by its bundle, and of how many segments:
/// the text of each operation that one of its segment names as replaced.
///
/// It takes two walks over the bundle, with a look at a set for each operation.
///
/// # Errors
/// Out of memory alone.
pub fn left_out(alloc: Global, bundle: &Bundle<'_>) -> Result<LeftOut, AllocError>
    ensures texts { IfOk result (λ made.
        made.texts ≡ length (leaving.left_out_ops bundle.now)) }
    ensures segments { IfOk result (λ made.
        made.segments ≡ length (leaving.left_out_segments bundle.now)) }
{
    let mut segments = segments_of_left_out(alloc, bundle)?;
    let texts = segments.len();
    segments.sort_unstable();
    segments.dedup();
    Ok(LeftOut {
        texts,
        segments: segments.len(),
    })
}

// The segments of the operations whose texts are left out, one for each of them.
fn segments_of_left_out(alloc: Global, bundle: &Bundle<'_>) -> Result<Vec<Segment>, AllocError>
    ensures { IfOk result (λ segments.
        segments.items ≡ leaving.segments_of_left_out bundle.now) }
{
    let named = named_ids(alloc, bundle)?;
    let mut segments = Vec::new(alloc);
    for op in bundle.ops() {
        if is_full_and_named(&named, &op) {
            segments.push(segment_of(&op))?;
        }
    }
    Ok(segments)
}

// Whether an operation has its text, and is named in its segment.
fn is_full_and_named(named: &Named, op: &OpView<'_>) -> bool
    ensures { result ≡ (naming.has_named named.now op.now.segment op.now.id && is_full op.now) }
{
    is_named(named, op) && op.text().is_some()
}

// What the operations of a bundle name as replaced.
fn named_ids(alloc: Global, bundle: &Bundle<'_>) -> Result<Named, AllocError>
    ensures { IfOk result (naming.HoldsNamed bundle.now) }
{
    let mut named = BTreeSet::new(alloc);
    for op in bundle.ops() {
        add_named(&mut named, &op)?;
    }
    Ok(named)
}

// Adds what an operation names as replaced.
fn add_named(named: &mut Named, op: &OpView<'_>) -> Result<(), AllocError>
    ensures { IfOk result (λ _. naming.AddsNamed op.now named.old named.new) }
{
    for id in op.replaced() {
        named.insert((id, (op.book(), op.key())))?;
    }
    Ok(())
}

// Whether the operation's id is named in its segment.
fn is_named(named: &Named, op: &OpView<'_>) -> bool
    ensures { result ≡ naming.has_named named.now op.now.segment op.now.id }
{
    named.contains(&(op.id(), (op.book(), op.key())))
}
