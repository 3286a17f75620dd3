//! Finds a needle and lists the words in the text of Scripture that a USFM book has.
//!
//! Only the plain leaves of a book count: the texts of its tree inside paragraphs whose style has
//! the text of verses, outside notes and milestones, without the numbers after `\v` and the
//! attributes before a closing mark. A hit or a word lies in one plain leaf, and has the key of the
//! piece of the book that holds its start.
//!
//! Marks, numbers and attributes are USFM 3.0's, the paragraphs' text types those of Paratext's
//! style sheets, and characters and Normalization Form C those of Unicode. Which texts count, and
//! what a word is, is this project's own rule.
#![tactic(auto)]

mod fault;
mod finding;
mod form;
mod hit;
mod keyed;
pub mod laws;
mod listing;
mod passage;
mod places;
mod plain;
mod runs;

pub use fault::FindFault;
pub use finding::find;
pub use hit::Hit;
pub use listing::{Word, words};
