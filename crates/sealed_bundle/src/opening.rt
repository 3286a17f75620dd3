// Sealed bundles that are opened.
ghost use Rattle.std.specs.Prelude.{◌≡◌, List, ℕ, drop, Ok, Err, IfOk, MatchResult};
ghost use Rattle.sealed_bundle.specs.Seals as seals;

use crate::fault::SealFault;
use crate::sealing::{MAGIC, is_sealed};
use sha2::{Digest, Sha256};

/// The bundle that the bytes seal, lent from them: all that follows their first 48, with the length
/// and the digest that these state. Nothing is allocated.
///
/// # Errors
/// - `NotSealed` where the bytes differ from the magic.
/// - `Truncated` where they end within the magic, the length or the digest, or have fewer bytes of
///   a bundle than they state.
/// - `Trailing` where they have more.
/// - `Damaged` where these have another digest.
pub fn open(bytes: &[u8]) -> Result<&[u8], SealFault>
    // What is opened is sealed so, and is the end of the bytes.
    ensures sealed { IfOk result (λ bundle. bytes.now ≡ seals.sealed bundle.now) }
    ensures place { IfOk result (λ bundle. bundle.now ≡ drop 48 bytes.now) }
    // What is sealed is opened.
    ensures only { (bundle : List ℕ) → bytes.now ≡ seals.sealed bundle
        → MatchResult result (λ found. found.now ≡ bundle) (λ _. ⊥) }
    // Which fault it is.
    ensures exact { MatchResult result (λ bundle. seals.opened bytes.now ≡ Ok bundle.now)
        (λ fault. seals.opened bytes.now ≡ Err fault) }
{
    let (header, bundle) = split(bytes)?;
    judge(stated_length(header), stated_digest(header), bundle)
}

// The header, and what follows it.
#[tactic(auto, unfolding(crate::specs::Seals::split, crate::specs::Seals::magic))]
pub(crate) fn split(bytes: &[u8]) -> Result<(&[u8; 48], &[u8]), SealFault>
    ensures { MatchResult result (λ parts. seals.split bytes.now ≡ Ok (parts.0.now, parts.1.now))
        (λ fault. seals.split bytes.now ≡ Err fault) }
{
    if is_sealed(bytes) {
        bytes.split_first_chunk().ok_or(SealFault::Truncated)
    } else if MAGIC.starts_with(bytes) {
        Err(SealFault::Truncated)
    } else {
        Err(SealFault::NotSealed)
    }
}

// The length that a header states.
#[tactic(auto, unfolding(crate::specs::Seals::stated_length))]
pub(crate) fn stated_length(header: &[u8; 48]) -> u64
    ensures { result ≡ seals.stated_length header.now }
{
    let (_, rest) = header.split_at(8);
    let (length, _) = rest.split_at(8);
    u64::from_be_bytes([
        length[0], length[1], length[2], length[3], length[4], length[5], length[6], length[7],
    ])
}

// The digest that a header states.
pub(crate) fn stated_digest(header: &[u8; 48]) -> &[u8]
    ensures { result.now ≡ seals.stated_digest header.now }
{
    let (_, digest) = header.split_at(16);
    digest
}

// A bundle, if it has this length and this digest.
#[tactic(auto, unfolding(crate::specs::Seals::judged))]
fn judge<'a>(length: u64, digest: &[u8], bundle: &'a [u8]) -> Result<&'a [u8], SealFault>
    ensures { MatchResult result
        (λ found. seals.judged length digest.now bundle.now ≡ Ok found.now)
        (λ fault. seals.judged length digest.now bundle.now ≡ Err fault) }
{
    let held = bundle.len() as u64;
    if held < length {
        Err(SealFault::Truncated)
    } else if held > length {
        Err(SealFault::Trailing)
    } else if Sha256::digest(bundle).as_slice() == digest {
        Ok(bundle)
    } else {
        Err(SealFault::Damaged)
    }
}
