//! Two changes of one text joined in one text, word by word, where they are of different places: as
//! one typed `Paul` for `Saul` at the front of a verse, and another one a full stop at its end.
//!
//! Words are those of `word_diff`, and a change is what differs by it. Two changes are of different
//! places where everywhere between a word that the one adds or removes and one that the other adds
//! or removes there is a word that both keep; a blank is one.
#![tactic(auto)]

mod both;
mod fate;
mod merging;
mod next;

pub use both::both_changes;

#[cfg(test)]
mod tests;
