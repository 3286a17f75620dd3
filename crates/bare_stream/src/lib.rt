//! A stream of bundles, sealed or not, one after another, without their seals.
#![tactic(auto)]

pub mod laws;
mod stream;

pub use stream::{StreamFault, unseal_stream};

#[cfg(test)]
mod tests;
