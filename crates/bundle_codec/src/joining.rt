// The bundle of the union of two bundles.
ghost use Rattle.std.specs.Prelude.{◌≡◌, ◌++◌, Ok, IfOk, IfErr, IsTrue, length};
ghost use Rattle.op_core.specs.Sets as sets;
ghost use Rattle.op_core.specs.Thinned.{is_legal};
ghost use Rattle.bundle_codec.specs.Joining as joining;
ghost use Rattle.bundle_codec.specs.Spelling as spelled;

mod merging;

use self::merging::push_union;
use crate::bundle::Bundle;
use crate::bundle::whole::decode_whole;
use crate::fault::JoinFault;
use crate::writing::{push_front, set_front_at};
use std::alloc::Global;

/// The bundle of the union of two bundles, each operation copied with the bytes that spell it.
///
/// An operation that one of them has in full and the other without its text is thinned in the
/// union.
///
/// The first bytes are judged, then the second, and then the two together. Judging allocates for
/// what is thinned alone, as `decode` does. Once both are known to be bundles, as much is taken at
/// once as both of them fill; nothing goes by a count that they state.
///
/// # Errors
/// - `Bundle` with the refusal of the first bytes, as `decode_whole` answers it, or else with that
///   of the second.
/// - `Clash` with the least id under which the two have operations that do not agree: their
///   segments or the ids that they name differ, or both have a text and these differ.
/// - `Memory` where an allocation failed.
pub fn join_bundles(alloc: Global, first: &[u8], second: &[u8]) -> Result<Vec<u8>, JoinFault>
    ensures joined { IfOk result (λ bytes.
        joining.bundles_joined first.now second.now ≡ Ok bytes.items) }
    ensures bundle { IfOk result (λ bytes. joining.IsBundle bytes.items) }
    ensures refused { IfErr result (joining.RefusesJoin first.now second.now) }
{
    let left = decode_whole(alloc, first)?;
    let right = decode_whole(alloc, second)?;
    let room = Vec::with_capacity(alloc, first.len() + second.len())?;
    let (bytes, _) = left.join_after(&right, room)?;
    Ok(bytes)
}

impl Bundle<'_> {
    /// The bytes with the bundle of the union of two bundles after them, for a file that has it
    /// after something else, and how many operations the union has. Each is copied with the bytes
    /// that spell it. The bytes are taken, and dropped on an error.
    ///
    /// An operation that one of them has in full and the other without its text is thinned in the
    /// union. As much is taken at once as both of them fill; nothing goes by a count that they
    /// state.
    ///
    /// # Errors
    /// - `Clash` with the least id under which the two have operations that do not agree, as of
    ///   `join_bundles`.
    /// - `Memory` where an allocation failed.
    pub fn join_after(
        &self,
        other: &Bundle<'_>,
        mut bytes: Vec<u8>,
    ) -> Result<(Vec<u8>, u64), JoinFault>
        ensures joined { let union = sets.join self.now other.now in
            IfOk result (λ made. made.0.items ≡ bytes.items ++ spelled.bundle union) }
        ensures count { IfOk result (λ made. made.1 ≡ length (sets.join self.now other.now)) }
        ensures agrees { IfOk result (λ _. sets.clash self.now other.now ≡ None) }
        // The union is a legal set of operations.
        ensures set { IfOk result (λ _. sets.IsOpSet (sets.join self.now other.now)) }
        ensures legal { IfOk result (λ _. IsTrue (is_legal (sets.join self.now other.now))) }
        ensures refused { IfErr result (joining.RefusesUnion (sets.clash self.now other.now)) }
    {
        let at = bytes.len();
        push_front(&mut bytes, true, 0)?;
        bytes.reserve(self.bytes.len() + other.bytes.len())?;
        let (full, count) = push_union(&mut bytes, self.ops(), other.ops())?;
        set_front_at(&mut bytes, at, full, count);
        Ok((bytes, count))
    }
}
