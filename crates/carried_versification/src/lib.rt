//! The versification that the program carries: the verses of the English Bible.
//!
//! Its text is that of `samples/english.vrs`, in a file that `samples/versification` writes;
//! `tests/versification/run` compares the two. A caller reads it as any other versification.
#![tactic(auto)]

mod versification;

/// The text of the versification, in the form of Paratext's `.vrs` files.
pub fn carried_versification() -> &'static str {
    versification::VERSES
}
