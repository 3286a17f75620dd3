//! Sealed bundles: a bundle behind its length and its digest, by which a reader sees that it was
//! damaged on its way or is not whole. What a bundle is, this crate does not ask: any bytes are
//! sealed, and they are opened as they were.
#![tactic(auto)]

mod fault;
pub mod laws;
mod opening;
mod sealing;
mod unsealing;

pub use fault::SealFault;
pub use opening::open;
pub use sealing::{SEAL_BYTES, is_sealed, seal};
pub use unsealing::{open_first, unseal, unsealed};

#[cfg(test)]
mod tests;
