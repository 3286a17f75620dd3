//! Settling the conflicts of a replica one after another: which of them are wanted, what a person
//! reads of one, what the answer says, and the ids that the edit replaces: those that the person
//! read.
//!
//! Nothing is changed here. An answer comes back when the replica may hold more than when the
//! question was written, so the edit is one over the ids of the question (`Replica::edit_over`):
//! what came in since is not replaced, and an id that is shown no more refuses it.
#![tactic(auto)]

mod answer;
mod asked;
mod book_texts;
mod filled;
pub mod laws;
mod near;
mod numbers;
mod pending;
mod question;
mod sides;
mod wanted;

pub use answer::{Answer, ends_text};
pub use asked::{Asked, SettleFault, next_question};
pub use book_texts::BookTexts;
pub use pending::open_conflicts;
pub use question::Manner;
pub use sides::{Entry, compare};
pub use wanted::Wanted;

#[cfg(test)]
mod tests;
