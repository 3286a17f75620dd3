// What a summary lacks of a set or of a bundle, written as a bundle.
ghost use Rattle.std.specs.Prelude.{◌≡◌, ◌&&◌, ◌||◌, not, Ok, IfOk, IsTrue, length};
ghost use Rattle.usfm_ref.specs.declared.segment.Segment.{Segment};
ghost use Rattle.op_core.specs.Ops.{is_thinned};
ghost use Rattle.op_core.specs.Sets.{IsOpSet};
ghost use Rattle.op_core.specs.Thinned.{is_lacked, is_legal, lacks_thinned};
ghost use Rattle.bundle_codec.specs.Spelling as spelled;
ghost use Rattle.bundle_codec.specs.Joining.{whole_at};
ghost use Rattle.bundle_codec.specs.Summaries.{covers, outside, has_segment};

use super::Summary;
use super::coverage::Coverage;
use super::lent::{Lent, LentOps};
use crate::bundle::Bundle;
use crate::writing::{push_front, set_front};
use op_core::OpSet;
use std::alloc::{AllocError, Global};
use std::collections::BTreeSet;
use usfm_ref::{Book, Key};

// Segments, of which all operations are sent.
type Whole = BTreeSet<(Book, Key)>;

/// The bundle of the operations of a set whose ids lie outside a summary; and where one of these is
/// thinned, of all operations of its segment, so that what names it goes with it. They are lent
/// from the set and written one by one; no second set is made.
///
/// # Errors
/// Out of memory alone.
pub fn encode_outside(alloc: Global, set: &OpSet, summary: &Summary) -> Result<Vec<u8>, AllocError>
    ensures spelled { IfOk result (λ bytes.
        bytes.items ≡ spelled.bundle (outside summary.now set.now)) }
    ensures again { IfOk result (λ bytes. whole_at bytes.items ≡ Ok (outside summary.now set.now)) }
{
    let whole = lacked_segments(alloc, LentOps::of_set(set), summary)?;
    let ops = LentOps::of_set(set);
    write_outside(alloc, ops, set.len() as u64, summary, &whole)
}

impl Bundle<'_> {
    /// The bundle of those of its operations whose ids lie outside a summary; and where one of
    /// these is thinned, of all operations of its segment, as `encode_outside` writes it of a set.
    /// The bytes of each are copied as they are.
    ///
    /// # Errors
    /// Out of memory alone.
    pub fn outside(&self, alloc: Global, summary: &Summary) -> Result<Vec<u8>, AllocError>
        ensures spelled { IfOk result (λ bytes.
            bytes.items ≡ spelled.bundle (outside summary.now self.now)) }
        ensures again { IfOk result (λ bytes.
            whole_at bytes.items ≡ Ok (outside summary.now self.now)) }
    {
        let whole = lacked_segments(alloc, LentOps::of_bundle(self), summary)?;
        let ops = LentOps::of_bundle(self);
        write_outside(alloc, ops, self.len(), summary, &whole)
    }
}

// The bundle of those of the operations, of this count, that lie outside a summary or are of a
// segment that is sent whole.
fn write_outside(
    alloc: Global,
    ops: LentOps<'_>,
    mut count: u64,
    summary: &Summary,
    whole: &Whole,
) -> Result<Vec<u8>, AllocError>
    requires set { IsOpSet ops }
    requires legal { IsTrue (is_legal ops) }
    requires count { count ≡ length ops }
    requires whole { (g : Segment) →
        has_segment whole.now g ≡ lacks_thinned ops (covers summary.now) g }
    ensures spelled { IfOk result (λ bytes.
        bytes.items ≡ spelled.bundle (outside summary.now ops.entry)) }
    ensures again { IfOk result (λ bytes.
        whole_at bytes.items ≡ Ok (outside summary.now ops.entry)) }
{
    let mut bytes = Vec::new(alloc);
    push_front(&mut bytes, true, 0)?;
    let mut coverage = summary.coverage(alloc)?;
    let mut full = true;
    for op in ops {
        if is_sent(&mut coverage, whole, &op) {
            op.push_to(&mut bytes)?;
            full = full && op.is_full();
        } else {
            // It stays.
            count -= 1;
        }
    }
    set_front(&mut bytes, full, count);
    Ok(bytes)
}

// Whether an operation lies outside by its id, or its segment is one of those that are sent whole.
fn is_sent(coverage: &mut Coverage<'_>, whole: &Whole, op: &Lent<'_>) -> bool
    ensures answer { result
        ≡ (not (covers coverage.old op.now.id) || has_segment whole.now op.now.segment) }
    ensures same { coverage.new ≡ coverage.old }
{
    !coverage.covers(&op.id()) || goes_whole(whole, op)
}

// Whether an operation's segment is one of those that are sent whole. Mostly there is none, and
// then no book is looked up.
fn goes_whole(whole: &Whole, op: &Lent<'_>) -> bool
    ensures { result ≡ has_segment whole.now op.now.segment }
{
    !whole.is_empty() && whole.contains(&(op.book(), op.key()))
}

// The segments of which a thinned operation lies outside a summary. Memory is taken for these
// alone.
fn lacked_segments(alloc: Global, ops: LentOps<'_>, summary: &Summary) -> Result<Whole, AllocError>
    ensures { IfOk result (λ segments. (g : Segment) →
        has_segment segments g ≡ lacks_thinned ops.entry (covers summary.now) g) }
{
    let mut segments = BTreeSet::new(alloc);
    for op in ops {
        if is_lacked_thinned(summary, &op) {
            segments.insert((op.book(), op.key()))?;
        }
    }
    Ok(segments)
}

// Whether the operation is thinned and lies outside a summary.
fn is_lacked_thinned(summary: &Summary, op: &Lent<'_>) -> bool
    ensures { result ≡ (is_thinned op.now && is_lacked (covers summary.now) op.now) }
{
    !op.is_full() && !summary.covers(&op.id())
}
