//! How a project stands: who made what is shown, what is in conflict and what is awaited, what
//! other copies have, and how far the chapters are written.
#![tactic(auto)]

mod chapters;
mod conflicts;
mod makers;
mod others;
mod progress;
mod status;
mod verses;

pub use chapters::{Chapter, chapters_of};
pub use conflicts::differ;
pub use makers::{Maker, makers_of, shown_names};
pub use others::{Other, status_text};
pub use progress::push_progress;
pub use status::{thinned_count, verses_written};
