//! Where an offset of a text is, by lines and columns, as editors count them.
#![tactic(auto)]

pub mod laws;
mod walk;

pub use walk::{Place, Walk};

#[cfg(test)]
mod tests;
