//! Cuts a USFM book into pieces, each at its key, and says which texts fit a key.
//!
//! A mark `\c` or `\v` with a number has a key. It opens a piece where its key is greater than the
//! head of the book and than the keys of all marks before it, so keys rise from piece to piece,
//! and the pieces join to the book. A text fits a key where it is such a piece, or empty at a key
//! other than the book's head. Texts that fit rising keys join to a book that cuts back into those
//! that are not empty, where each verse among these has its chapter's head among them too.
//!
//! The marks are USFM 3.0's. How a book is cut where its chapters or verses do not rise, and what
//! fits, is this project's own rule.
#![tactic(auto)]

mod cutter;
mod fault;
mod fitting;
mod heading;
pub mod laws;
mod walk;

pub use cutter::{Piece, cut};
pub use fault::BookFault;
pub use fitting::{fits, fits_below_head};
pub use heading::book_of;

#[cfg(test)]
mod tests;
