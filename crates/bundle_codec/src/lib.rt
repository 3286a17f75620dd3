//! Bundles: sets of operations as bytes, read in place, written, and joined.
#![tactic(auto)]

mod bundle;
mod fault;
mod joining;
mod judging;
pub mod laws;
mod summaries;
mod thinning;
mod views;
mod writing;

pub use bundle::whole::decode_whole;
pub use bundle::{Bundle, decode};
pub use fault::{BundleFault, JoinFault, SummaryFault, WholeFault};
pub use joining::join_bundles;
pub use judging::ids::ReplacedIds;
pub use summaries::{Summary, encode_outside};
pub use views::view::OpView;
pub use views::walk::BundleOps;
pub use writing::{encode, encode_after, encode_ops, encode_views};

#[cfg(test)]
mod tests;
