//! What differs between two texts, word by word, for a reader: as a list of parts, each of which is
//! in both texts, in the old one alone or in the new one alone.
//!
//! A word is a USFM mark, a longest run of blanks (space, tab, CR, LF), or a longest run of other
//! bytes. How far a mark goes is what `usfm_token` says, so that `\nd*` and the full stop after it
//! are two words, and a change of either is seen by itself. Blanks that follow one another are one
//! word, since a reader sees one gap.
//!
//! To show one side, take the parts in it (`Kind::is_old`, `Kind::is_new`) and set off those that
//! are not `Kept`; to show both at once, take all in order.
#![tactic(auto)]

mod difference;
mod ends;
mod joining;
pub mod laws;
mod part;
mod steps;
mod table;
mod word;

pub use difference::differences;
pub use part::{Kind, Part};
pub use table::MAX_WORDS;
pub use word::words;

#[cfg(test)]
mod tests;
