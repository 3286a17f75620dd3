// The bundle of a set without the texts of what its operations have replaced.
ghost use Rattle.std.specs.Prelude.{◌≡◌, ◌++◌, ◌&&◌, ◌||◌, IfOk, IsTrue, filter, length};
ghost use Rattle.std.specs.List.{flat_map};
ghost use Rattle.usfm_ref.specs.declared.segment.Segment.{Segment};
ghost use Rattle.op_core.specs.Ids.{Id};
ghost use Rattle.op_core.specs.Ops.{bare, in_segment, is_full, names};
ghost use Rattle.op_core.specs.Sets.{IsOpSet};
ghost use Rattle.op_core.specs.Thinned as thinned;
ghost use Rattle.bundle_codec.specs.Spelling as spelled;
ghost use Rattle.bundle_codec.specs.Loops.Naming as naming;

use crate::bundle::Bundle;
use crate::views::view::OpView;
use crate::views::walk::BundleOps;
use crate::writing::{push_front, set_front_at};
use op_core::OpId;
use std::alloc::{AllocError, Global};
use std::collections::BTreeSet;
use usfm_ref::{Book, Key};

// Ids, each with the segment in which an operation names it as replaced.
type Named = BTreeSet<(OpId, (Book, Key))>;

impl Bundle<'_> {
    /// The bytes with the bundle of the thinned set after them, for a file that has it after
    /// something else, and how many texts were left out: the text of each operation that one of its
    /// segment names as replaced. The bytes are taken, and dropped on an error.
    ///
    /// Each operation is copied with the bytes that spell it, or without those of its text. It
    /// allocates as many bytes as the bundle has, and a set of the ids that are named as replaced;
    /// nothing goes by a count that the bundle states.
    ///
    /// # Errors
    /// Out of memory alone.
    pub fn thin_after(
        &self,
        alloc: Global,
        mut bytes: Vec<u8>,
    ) -> Result<(Vec<u8>, u64), AllocError>
        ensures thin { let made = spelled.bundle (thinned.thin self.now) in
            IfOk result (λ x. x.0.items ≡ bytes.items ++ made) }
        ensures count { IfOk result (λ x.
            x.1 ≡ length (filter (thinned.is_left_out self.now) self.now)) }
        // The thinned set is a legal set of operations.
        ensures set { IfOk result (λ _. IsOpSet (thinned.thin self.now)) }
        ensures legal { IfOk result (λ _. IsTrue (thinned.is_legal (thinned.thin self.now))) }
    {
        let named = named_ids(alloc, self.ops())?;
        let at = bytes.len();
        push_front(&mut bytes, true, 0)?;
        bytes.reserve(self.bytes.len())?;
        let (full, left_out) = push_thinned(&mut bytes, self, &named)?;
        set_front_at(&mut bytes, at, full, self.len());
        Ok((bytes, left_out))
    }
}

// What the operations of a walk name as replaced.
fn named_ids(alloc: Global, ops: BundleOps<'_>) -> Result<Named, AllocError>
    ensures { IfOk result (naming.HoldsNamed ops.entry) }
{
    let mut named = BTreeSet::new(alloc);
    for op in ops {
        add_named(&mut named, &op)?;
    }
    Ok(named)
}

// Adds what an operation names as replaced.
fn add_named(named: &mut Named, op: &OpView<'_>) -> Result<(), AllocError>
    ensures { IfOk result (λ _. naming.AddsNamed op.now named.old named.new) }
{
    for id in op.replaced() {
        named.insert((id, (op.book(), op.key())))?;
    }
    Ok(())
}

// Whether the operation's id is named in its segment.
fn is_named(named: &Named, op: &OpView<'_>) -> bool
    ensures { result ≡ naming.has_named named.now op.now.segment op.now.id }
{
    named.contains(&(op.id(), (op.book(), op.key())))
}

// Appends the operations of a bundle without the texts of those that are named, and says whether
// each of them has its text, and how many texts were left out.
fn push_thinned(
    bytes: &mut Vec<u8>,
    bundle: &Bundle<'_>,
    named: &Named,
) -> Result<(bool, u64), AllocError>
    requires { naming.HoldsNamed bundle.now named.now }
    ensures pushed { IfOk result (λ _. bytes.new.items
        ≡ bytes.old.items ++ flat_map spelled.operation (thinned.thin bundle.now)) }
    ensures full { IfOk result (λ x. x.0 ≡ thinned.all_full (thinned.thin bundle.now)) }
    ensures left_out { IfOk result (λ x.
        x.1 ≡ length (filter (thinned.is_left_out bundle.now) bundle.now)) }
{
    // The bundle's length shows that its operations can be counted.
    let _ = bundle.len();
    let mut full = true;
    let mut left_out = 0;
    for op in bundle.ops() {
        if is_named(named, &op) {
            push_bare(bytes, &op)?;
            full = false;
            if op.text().is_some() {
                left_out += 1;
            }
        } else {
            push_spelled(bytes, &op)?;
            full = stays_full(full, &op);
        }
    }
    Ok((full, left_out))
}

// Appends the bytes that spell an operation without its text.
fn push_bare(bytes: &mut Vec<u8>, op: &OpView<'_>) -> Result<(), AllocError>
    ensures { let made = spelled.operation (bare op.now) in
        IfOk result (λ _. bytes.new.items ≡ bytes.old.items ++ made) }
{
    bytes.extend_from_slice(op.head())?;
    bytes.extend_from_slice(&[0])
}

// Appends the bytes that spell an operation.
fn push_spelled(bytes: &mut Vec<u8>, op: &OpView<'_>) -> Result<(), AllocError>
    ensures { IfOk result (λ _. bytes.new.items ≡ bytes.old.items ++ spelled.operation op.now) }
{
    bytes.extend_from_slice(op.spelled())
}

// Whether all so far have their texts, and the operation too.
fn stays_full(full: bool, op: &OpView<'_>) -> bool
    ensures { result ≡ (full && is_full op.now) }
{
    full && op.text().is_some()
}
