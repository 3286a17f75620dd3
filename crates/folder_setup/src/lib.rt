//! How a folder of books' files is set up: with which project, which box, and which form of new names
//! it is synced, as the lines of a small file; how a path is named from another folder; and whether
//! a copy's name is in use.
#![tactic(auto)]

mod fault;
pub mod laws;
mod names;
mod paths;
mod reading;
mod spelling;

pub use fault::{SetupFault, SpellFault};
pub use names::{has_operation_of, has_unknown_of};
pub use paths::{is_within, path_from, path_in};
pub use reading::{Setup, read};
pub use spelling::spelled;

#[cfg(test)]
mod tests;
