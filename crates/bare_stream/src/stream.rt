// The seals of a stream's bundles, taken off in place.
ghost use Rattle.std.specs.Prelude.{◌≡◌, ◌+◌, ◌<◌, ◌≤◌, ◌++◌, false, take, drop, length, Ok, IfOk, IfErr};
ghost use Rattle.sealed_bundle.specs.Seals as seals;
ghost use Rattle.bare_stream.specs.Streams as streams;

use bundle_codec::{BundleFault, decode};
use memchr::memmem;
use sealed_bundle::{SEAL_BYTES, SealFault, is_sealed, open_first};
use std::alloc::Global;
use thiserror::Error;

// What a sealed bundle begins with.
const MAGIC: &[u8] = b"USFMSB1\n";

/// Why a stream is refused.
#[derive(Clone, Copy, Debug, PartialEq, Eq, Error)]
pub enum StreamFault {
    /// An allocation failed.
    #[error("out of memory")]
    Memory,
    /// The first sealed bundle that was damaged, or is not whole, has this fault.
    #[error("{0}")]
    Seal(SealFault),
}

/// The bytes of a stream of bundles, sealed or not, one after another, without the seals, in their
/// place: no bytes are allocated for them. Where something begins as no bundle does, it and all that
/// follows stay as they are.
///
/// # Errors
/// - `Seal` with the fault of the first sealed bundle that was damaged, or is not whole.
/// - `Memory` where an allocation failed: it is needed to find the end of a bundle with texts left
///   out, and only in a stream in which the magic of a sealed bundle stands.
pub fn unseal_stream(alloc: Global, bytes: Vec<u8>) -> Result<Vec<u8>, StreamFault>
    ensures ok { IfOk result (λ found. streams.unsealed_stream bytes.items ≡ Ok found.items) }
    ensures refused { IfErr result (streams.Refuses bytes.items) }
{
    if has_seal(&bytes) {
        bared(alloc, bytes)
    } else {
        Ok(bytes)
    }
}

// Whether the magic of a sealed bundle stands somewhere in bytes. Else they are what they are.
fn has_seal(bytes: &[u8]) -> bool
    ensures exact { result ≡ streams.has_seal bytes.now }
    ensures bare { result ≡ false → streams.unsealed_stream bytes.now ≡ Ok bytes.now }
{
    memmem::find(bytes, MAGIC).is_some()
}

// The bytes without the seals of their bundles: `kept` of them are in their place, and those from
// `at` on are still to come.
fn bared(alloc: Global, mut bytes: Vec<u8>) -> Result<Vec<u8>, StreamFault>
    ensures ok { IfOk result (λ found. streams.unsealed_stream bytes.items ≡ Ok found.items) }
    ensures refused { IfErr result (streams.RefusesBared bytes.items) }
{
    let mut kept = 0;
    let mut at = 0;
    'parts: while at < bytes.len() {
        let (_, rest) = bytes.split_at(at);
        let (seal, count) = first_part(alloc, rest)?;
        move_part(&mut bytes, at + seal, count, kept);
        kept += count;
        at += seal + count;
    }
    bytes.truncate(kept);
    Ok(bytes)
}

// How many bytes the seal of the first part of a stream has, and how many that part has behind it.
fn first_part(alloc: Global, bytes: &[u8]) -> Result<(usize, usize), StreamFault>
    requires { 0 < length bytes.now }
    ensures ok { IfOk result (λ part. streams.first bytes.now
        ≡ Ok (take part.1 (drop part.0 bytes.now), drop (part.0 + part.1) bytes.now)) }
    ensures some { IfOk result (λ part. 0 < part.0 + part.1) }
    ensures within { IfOk result (λ part. part.0 + part.1 ≤ length bytes.now) }
    ensures refused { IfErr result (streams.RefusesFirst bytes.now) }
{
    if is_sealed(bytes) {
        sealed_part(bytes)
    } else {
        match decode(alloc, bytes) {
            Ok((_, count)) => Ok((0, count)),
            Err(BundleFault::Memory) => Err(StreamFault::Memory),
            Err(_) => Ok((0, bytes.len())),
        }
    }
}

// The same of a sealed bundle.
fn sealed_part(bytes: &[u8]) -> Result<(usize, usize), StreamFault>
    ensures ok { IfOk result (λ part. seals.first_opened bytes.now
        ≡ Ok (take part.1 (drop part.0 bytes.now), drop (part.0 + part.1) bytes.now)) }
    ensures some { IfOk result (λ part. 0 < part.0 + part.1) }
    ensures within { IfOk result (λ part. part.0 + part.1 ≤ length bytes.now) }
    ensures refused { IfErr result (streams.RefusesSealed bytes.now) }
{
    match open_first(bytes) {
        Ok((bundle, _)) => Ok((SEAL_BYTES, bundle.len())),
        Err(fault) => Err(StreamFault::Seal(fault)),
    }
}

// Moves a part of bytes to a place before it.
fn move_part(bytes: &mut Vec<u8>, from: usize, count: usize, to: usize)
    requires before { to ≤ from }
    requires within { from + count ≤ length bytes.old.items }
    ensures moved { take (to + count) bytes.new.items
        ≡ take to bytes.old.items ++ take count (drop from bytes.old.items) }
    ensures rest { drop (from + count) bytes.new.items ≡ drop (from + count) bytes.old.items }
    ensures len { length bytes.new.items ≡ length bytes.old.items }
{
    bytes.as_mut_slice().copy_within(from..from + count, to);
}
