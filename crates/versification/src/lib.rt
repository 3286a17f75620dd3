//! Versifications in the form of Paratext's `.vrs` files: how many verses each chapter of a book
//! has, and which verses are left out.
//!
//! Paratext's files have a line for each book, with the last verse of each of its chapters; lines
//! of verses that are left out; and comments, mappings and the segments of verses, which are passed
//! over here. What a line's words are, and that the last line of a book counts, is this project's
//! own rule.
#![tactic(auto)]

mod fault;
mod line;
mod reading;
mod versification;

pub use fault::VersificationFault;
pub use versification::Versification;

#[cfg(test)]
mod tests;
