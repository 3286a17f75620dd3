//! What a project holds of its segments, operation by operation: the history of a segment, what
//! changed since some ids were known, and the edits that have a text back.
#![tactic(auto)]

mod awaited;
mod change_lines;
mod changed;
mod entry;
mod fault;
mod gathered;
mod history;
mod ids;
pub mod laws;
mod lines;
mod named;
mod replacers;
mod restore;
mod showing;
mod since;
mod texts;
mod thinning;

pub use change_lines::changes_text;
pub use changed::{ChangedSegment, ShownText};
pub use entry::{Entry, Kept, SegmentHistory};
pub use fault::RestoreFault;
pub use history::histories;
pub use lines::history_text;
pub use named::{Named, has_books, is_named, named_segments};
pub use restore::{RestoredText, restored_id, restored_since};
pub use since::{changes, changes_in};
pub use thinning::{LeftOut, left_out};

#[cfg(test)]
mod tests;
