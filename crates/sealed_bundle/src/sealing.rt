// Bytes that are sealed.
ghost use Rattle.std.specs.Prelude.{◌≡◌, Ok, IfOk};
ghost use Rattle.sealed_bundle.specs.Seals as seals;

use sha2::{Digest, Sha256};
use std::alloc::{AllocError, Global};

// What a sealed bundle begins with.
pub(crate) static MAGIC: [u8; 8] = *b"USFMSB1\n";

/// How many bytes of a sealed bundle stand before the bundle: the magic, eight bytes of its length,
/// and its digest.
pub const SEAL_BYTES: usize = 48;

/// Whether bytes begin as a sealed bundle does, whatever follows.
#[tactic(auto, unfolding(crate::specs::Seals::magic))]
pub fn is_sealed(bytes: &[u8]) -> bool
    ensures { result ≡ seals.begins_sealed bytes.now }
{
    bytes.starts_with(&MAGIC)
}

/// A bundle, sealed: it stands behind its length and its digest.
///
/// # Errors
/// Out of memory alone.
pub fn seal(alloc: Global, bytes: &[u8]) -> Result<Vec<u8>, AllocError>
    ensures sealed { IfOk result (λ made. made.items ≡ seals.sealed bytes.now) }
    ensures again { IfOk result (λ made. seals.opened made.items ≡ Ok bytes.now) }
{
    let mut sealed = Vec::with_capacity(alloc, SEAL_BYTES + bytes.len())?;
    sealed.extend_from_slice(&MAGIC)?;
    sealed.extend_from_slice(&(bytes.len() as u64).to_be_bytes())?;
    sealed.extend_from_slice(&Sha256::digest(bytes))?;
    sealed.extend_from_slice(bytes)?;
    Ok(sealed)
}
