//! What a sync changed, by segments and names: what came in from other copies, which texts the
//! files removed, and whose late texts the files replaced.
#![tactic(auto)]

mod came;
mod changes;
mod files;
mod gathered;
pub mod laws;
mod lines;
mod older;
mod part;
mod removed;
mod replaced;
mod shown;

pub use changes::{NamesAt, SyncChanges, sync_changes};
pub use files::FileEdits;
pub use lines::push_changes;

#[cfg(test)]
mod tests;
