// Bytes that may be sealed, and sealed bundles that more follows.
ghost use Rattle.std.specs.Prelude.{◌≡◌, ◌≤◌, ◌++◌, List, ℕ, false, length, drop, Ok, Err, IfOk, MatchResult};
ghost use Rattle.sealed_bundle.specs.Seals as seals;

use crate::fault::SealFault;
use crate::opening::{open, split, stated_digest, stated_length};
use crate::sealing::{SEAL_BYTES, is_sealed};
use sha2::{Digest, Sha256};

/// What bytes are without their seal, lent from them: those that begin as a sealed bundle does
/// (`is_sealed`) are opened, and all others are given as they are. Nothing is allocated.
///
/// # Errors
/// Of bytes that begin as a sealed bundle does, those of `open`; of others none.
#[tactic(auto, unfolding(crate::specs::Seals::unsealed))]
pub fn unsealed(bytes: &[u8]) -> Result<&[u8], SealFault>
    ensures exact { MatchResult result (λ found. seals.unsealed bytes.now ≡ Ok found.now)
        (λ fault. seals.unsealed bytes.now ≡ Err fault) }
    // What does not begin as a sealed bundle does is given as it is.
    ensures bare { seals.begins_sealed bytes.now ≡ false
        → MatchResult result (λ found. found.now ≡ bytes.now) (λ _. ⊥) }
    // What is sealed is given without its seal.
    ensures sealed { (bundle : List ℕ) → bytes.now ≡ seals.sealed bundle
        → MatchResult result (λ found. found.now ≡ bundle) (λ _. ⊥) }
{
    if is_sealed(bytes) {
        open(bytes)
    } else {
        Ok(bytes)
    }
}

/// The same of bytes that are owned: where they are sealed, the bundle takes their place, and they
/// are as many fewer. Nothing is allocated.
///
/// # Errors
/// Those of `unsealed`.
#[tactic(auto, unfolding(crate::specs::Seals::unsealed))]
pub fn unseal(mut bytes: Vec<u8>) -> Result<Vec<u8>, SealFault>
    ensures { MatchResult result (λ found. seals.unsealed bytes.items ≡ Ok found.items)
        (λ fault. seals.unsealed bytes.items ≡ Err fault) }
{
    if !is_sealed(&bytes) {
        return Ok(bytes);
    }
    open(&bytes)?;
    remove_front(&mut bytes, SEAL_BYTES);
    Ok(bytes)
}

// Removes the first bytes: the others take their place.
fn remove_front(bytes: &mut Vec<u8>, count: usize)
    requires { count ≤ length bytes.old.items }
    ensures { bytes.new.items ≡ drop count bytes.old.items }
{
    let len = bytes.len();
    bytes.as_mut_slice().copy_within(count..len, 0);
    bytes.truncate(len - count);
}

/// The bundle that the front of the bytes seals, and what follows that front, both lent from them.
/// Nothing is allocated.
///
/// # Errors
/// - `NotSealed` where the bytes differ from the magic.
/// - `Truncated` where they end within the magic, the length or the digest, or have fewer bytes of
///   a bundle than they state.
/// - `Damaged` where the bundle has another digest.
pub fn open_first(bytes: &[u8]) -> Result<(&[u8], &[u8]), SealFault>
    ensures exact { MatchResult result
        (λ parts. seals.first_opened bytes.now ≡ Ok (parts.0.now, parts.1.now))
        (λ fault. seals.first_opened bytes.now ≡ Err fault) }
    // The two follow the first 48 bytes.
    ensures within { IfOk result (λ _. 48 ≤ length bytes.now) }
    ensures parts { IfOk result (λ parts. drop 48 bytes.now ≡ parts.0.now ++ parts.1.now) }
{
    let (header, rest) = split(bytes)?;
    judge_first(stated_length(header), stated_digest(header), rest)
}

// A bundle of this length and this digest at the front of bytes, and what follows it.
#[tactic(auto, unfolding(crate::specs::Seals::judged_first))]
fn judge_first<'a>(
    length: u64,
    digest: &[u8],
    bytes: &'a [u8],
) -> Result<(&'a [u8], &'a [u8]), SealFault>
    ensures { MatchResult result
        (λ parts. seals.judged_first length digest.now bytes.now ≡ Ok (parts.0.now, parts.1.now))
        (λ fault. seals.judged_first length digest.now bytes.now ≡ Err fault) }
{
    if (bytes.len() as u64) < length {
        return Err(SealFault::Truncated);
    }
    let (bundle, rest) = bytes.split_at(length as usize);
    if Sha256::digest(bundle).as_slice() == digest {
        Ok((bundle, rest))
    } else {
        Err(SealFault::Damaged)
    }
}
