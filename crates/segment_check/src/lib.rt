//! Checks a USFM book against a style sheet: what is found at its marks.
//!
//! Ten codes report marks without a record, nodes without their closing marks and closing marks
//! without a node, marks that are where their style does not allow them or too deep to begin a
//! node, and chapters and verses whose numbers are missing, do not rise or overlap, or whose
//! bridges lead to no later verse. Each finding has the start of its mark and the key of the piece
//! of the book that holds it.
//!
//! The marks and numbers are USFM 3.0's, and OccursUnder with its word NEST is Paratext's. The
//! codes and their conditions are this project's own rule.
#![tactic(auto)]

mod checker;
mod code;
mod finding;
mod inside;
pub mod laws;
mod marks;
mod numbers;
mod seen;
mod sighting;
mod tree;

pub use checker::check;
pub use code::Code;
pub use finding::Finding;
