//! Merges of three files of a book: two sides, OURS and THEIRS, that were both written from BASE.
//!
//! A merge is what replicas make of the files, so that all that holds of imports and unions holds
//! of it: it is taken in segment by segment, and two texts of one segment are a conflict.
#![tactic(auto)]

mod book;
mod fault;
pub mod laws;
mod merging;
mod sides;
mod wording;

pub use fault::{MergeFault, MergedFile};
pub use merging::{Merged, merge};
pub use wording::same_wording;

#[cfg(test)]
mod tests;
