//! The file that a merge of a book writes: the merged book in the manner of OURS, perhaps with the
//! other texts of its conflicts as remarks.
#![tactic(auto)]

mod file;
mod lines;
mod remarks;

pub use file::{Marking, merged_file};

#[cfg(test)]
mod tests;
