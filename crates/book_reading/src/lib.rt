//! Reads a USFM text by a style sheet to what a reader sees: chapters, paragraphs of their kinds,
//! with runs of words, numbers of verses and chapters, and numbered notes.
//!
//! A *run* is a stretch of the text that is seen as one thing, or is not seen, as marks that the
//! sheet knows and attributes are. The runs of a reading, those of notes at the notes' marks, join
//! to the text: nothing of it is left out. A *chapter* begins with its mark, and so does a *block*,
//! which is a paragraph.
//!
//! Marks, numbers, notes, figures and attributes are USFM 3.0's. What is seen of them, and that a
//! mark that the sheet does not know is seen as it stands, is this project's own rule.
#![tactic(auto)]

mod blocks;
mod chapters;
mod gathering;
mod kind;
pub mod laws;
mod lead;
mod notes;
mod place;
mod reading;
mod run;
mod written;

pub use blocks::{Block, Blocks};
pub use chapters::{Chapter, Chapters, chapters_in};
pub use kind::{BlockKind, block_kind};
pub use notes::{Note, Notes};
pub use reading::{Reading, read};
pub use run::{Run, Sort};

#[cfg(test)]
mod tests;
