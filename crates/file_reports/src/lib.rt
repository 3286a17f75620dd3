//! What is reported of books' files as they stand, without a project: findings, hits, words, and
//! what is missing.
//!
//! Of a file it is what is reported of a book that was imported from it.
#![tactic(auto)]

mod file;
mod reports;

pub use file::BookFile;
pub use reports::{check_files, find_files, missing_files, word_files};

#[cfg(test)]
mod tests;
