//! Replicas: the copies of a Scripture project, one for each person who edits. A replica takes in
//! bundles of operations from the others, edits segments, imports books, and shows and picks texts
//! from the set of all that it holds.
#![tactic(auto)]

mod change;
mod edit;
mod fault;
mod gathering;
mod ids;
mod import;
pub mod laws;
mod one_book;
mod pieces;
mod receive;
mod replica;
mod since;

pub use change::Change;
pub use fault::{EditFault, ImportFault, ReceiveFault, SinceFault};
pub use gathering::Gathering;
pub use pieces::piece_at;
pub use replica::Replica;
