//! References to Scripture: books, keys of segments, their orders and texts, and the numbers of
//! chapters and verses in a USFM text.
#![tactic(auto)]

mod book;
mod fault;
mod key;
pub mod laws;
mod number;
mod reference;
mod segment;

pub use book::Book;
pub use fault::RefFault;
pub use key::{Key, Place};
pub use number::{VerseMark, chapter_after, is_blank, verse_after};
pub use reference::{read_ref, write_key, write_ref};
pub use segment::Segment;

#[cfg(test)]
mod tests;
