//! A reading of a USFM text as plain text, for a terminal: lines wrapped at a number of columns,
//! the numbers of chapters and verses in front of what they begin, poetry indented by its levels,
//! headings set apart by empty lines, and notes as numbers in brackets, listed at their chapter's
//! end.
//!
//! Words are what stands between blanks, and each is written as it stands in the text: whether a
//! terminal would obey a character of it is for who writes to one. How the text is set is this
//! project's own rule.
#![tactic(auto)]

mod ink;
pub mod laws;
mod lines;
mod marking;
mod page;
mod part;
mod selected;
mod setting;
mod width;
mod words;

pub use page::plain;
pub use part::{Part, part_text};
pub use width::{WIDTH, read_width};

#[cfg(test)]
mod tests;
