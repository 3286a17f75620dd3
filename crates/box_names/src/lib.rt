//! Names of files in a box, the folder in which the copies of a team leave their bundles: which may
//! be bundles, which were meant as such, and which are a carrier's own.
#![tactic(auto)]

mod names;

pub use names::{BoxName, box_name};

#[cfg(test)]
mod tests;
