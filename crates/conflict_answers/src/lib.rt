//! Answers to conflicts as a file that travels, and what they make of a project.
//!
//! The file has a line for each conflict, with the ids that stood before the person who answered,
//! and below it what was chosen: the text of one of these ids, or a text of one's own. An answer
//! makes one edit over exactly these ids, so it replaces nothing that was not there to be read.
//! Where one of them is not shown any more, it makes nothing.
#![tactic(auto)]

mod answer;
mod chosen;
mod conflict;
mod cut;
mod fault;
mod ids;
pub mod laws;
mod reading;
mod settling;
mod together;
mod writing;

pub use answer::{Answer, Choice};
pub use fault::AnswersFault;
pub use reading::read;
pub use settling::{Settled, settle};
pub use together::{Settlement, settle_all};
pub use writing::spelled;

#[cfg(test)]
mod tests;
