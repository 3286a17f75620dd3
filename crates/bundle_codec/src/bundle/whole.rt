// Bytes that are one bundle and nothing more.
ghost use Rattle.std.specs.Prelude.{◌≡◌, ◌≢◌, false, List, Ok, Err, IfOk, IfErr, IsTrue};
ghost use Rattle.std.specs.Prelude.{MatchResult};
ghost use Rattle.op_core.specs.Ops.{Operation};
ghost use Rattle.op_core.specs.Sets.{IsOpSet};
ghost use Rattle.op_core.specs.Thinned.{is_legal, all_full};
ghost use Rattle.bundle_codec.specs.Spelling.{bundle};
ghost use Rattle.bundle_codec.specs.Joining.{whole_at, IsFollowed, RefusesWhole, out_of_memory};

use super::{Bundle, decode};
use crate::fault::WholeFault;
use std::alloc::Global;

/// The bundle that the bytes are, to their end. It allocates only where `decode` does.
///
/// # Errors
/// - `Bundle` with the fault that `decode` answers.
/// - `Trailing` where the bytes are a bundle and something more.
pub fn decode_whole(alloc: Global, bytes: &[u8]) -> Result<Bundle<'_>, WholeFault>
    // What is read is a legal set of operations, and the bytes are its bundle.
    ensures set { IfOk result IsOpSet }
    ensures legal { IfOk result (λ ops. IsTrue (is_legal ops)) }
    ensures spelled { IfOk result (λ ops. bytes.now ≡ bundle ops) }
    // A bundle is read. Only for a set with a thinned operation can memory be refused.
    ensures only { (ops : List Operation) →
        IsOpSet ops → IsTrue (is_legal ops) → bytes.now ≡ bundle ops
        → MatchResult result (λ x. x ≡ ops)
        (λ fault. (fault ≡ out_of_memory) × (all_full ops ≡ false)) }
    // Something more than a bundle is reported exactly where it is, but for memory that is
    // refused for a set with a thinned operation.
    ensures followed { IfErr result (λ fault. fault ≡ WholeFault.Trailing → IsFollowed bytes.now) }
    ensures trailing { (more : IsFollowed bytes.now) → MatchResult result (λ _. ⊥)
        (λ fault. fault ≢ WholeFault.Trailing
        → (fault ≡ out_of_memory) × (all_full more.ops ≡ false)) }
    // Which fault it is.
    ensures exact { MatchResult result
        (λ ops. whole_at bytes.now ≡ Ok ops) (RefusesWhole bytes.now) }
{
    let (bundle, length) = decode(alloc, bytes)?;
    if length < bytes.len() {
        return Err(WholeFault::Trailing);
    }
    Ok(bundle)
}
