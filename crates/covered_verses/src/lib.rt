//! Which verses the text of a verse covers, and whether more is written there than its number.
//!
//! USFM 3.0 has the bridge `\v 3-4` and the part `\v 3a`. That a bridge covers each verse from its
//! first to its last, and what counts as written, is this project's own rule.
#![tactic(auto)]

mod covered;
mod written;

pub use covered::{Covered, covered_by};

#[cfg(test)]
mod tests;
