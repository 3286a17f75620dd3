//! The command line of `usfm_team`: its subcommands with their words and their help, a line as it is
//! read, and the exit status of a command that was not refused.
#![tactic(auto)]

mod ending;
mod files;
mod given;
mod options;
mod places;
mod usage;
mod words;

pub use conflict_settling::Wanted;
pub use ending::Ending;
pub use files::{FilesLook, FilesWords, MergeWords};
pub use options::{asks_for_exit_code, asks_for_words};
pub use places::{JoinWords, Places, sync_places};
pub use plain_reading::{WIDTH, read_width};
pub use segment_history::Named;
pub use usage::VERSION;
pub use words::{Line, LineFault, NO_FOLDER, SyncWords, has_split_reference, read_words};
