//! The lines of a text, asked one after another: each is kept, left out, or replaced by what a
//! person types, so that a word is changed without the text being typed again.
#![tactic(auto)]

mod answer;
pub mod laws;
mod line;

pub use answer::{LineAnswer, line_answer, push_answered};
pub use line::{TextLine, split_line};

#[cfg(test)]
mod tests;
