//! Project files: what a replica is, its name and the operations that it holds, as bytes. A project
//! file that is loaded and saved is the same bytes.
#![tactic(auto)]

mod fault;
pub mod laws;
mod project;

pub use fault::{CreateFault, LoadFault};
pub use project::{Project, create, judge, load, load_book, save};

#[cfg(test)]
mod tests;
