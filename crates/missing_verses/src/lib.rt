//! What of a book is missing by a versification: verses and chapters that are not there, verses
//! that the versification does not have, verses that are there twice, and verses without words.
#![tactic(auto)]

mod chapter;
pub mod laws;
mod lines;
mod missing;
mod part;
mod pieces;
mod tally;

pub use missing::{missing_in_book, missing_in_chapter};
pub use part::Part;

#[cfg(test)]
mod tests;
