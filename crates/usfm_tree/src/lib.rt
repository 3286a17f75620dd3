//! Reads a USFM text into a tree by a style sheet. Its nodes borrow the text.
//!
//! A mark is given its style by the sheet. Paragraph, note and character marks begin nodes, a
//! closing mark ends the innermost node that it closes, and a milestone takes its attributes and
//! `\*`. Whatever text comes, it has a tree: a mark that begins no node and a closing mark that
//! closes none are leaves. So the leaves of each tree, marks, texts and closing marks in order,
//! join to the text. A tree is read whole, or walked over without making nodes.
//!
//! The USFM 3.0 documentation has paragraph markers without and character and note markers with
//! closing markers, `+` for nested ones, and milestones. What an opening or a closing mark ends
//! where marks are missing, and that nodes are at most 64 deep, is this project's own rule.
#![tactic(auto)]

mod build;
pub mod laws;
mod leaves;
mod milestone;
mod node;
mod open;
mod part;
mod read;
mod reader;
mod role;
mod step;
mod taken;
mod tree;
mod unwind;
mod walk;

pub use leaves::Leaves;
pub use node::{Branch, Leaf, Node, Text};
pub use step::{Entry, Step};
pub use tree::Tree;
pub use walk::TreeWalk;

#[cfg(test)]
mod tests;
