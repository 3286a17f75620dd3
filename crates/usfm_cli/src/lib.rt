//! The commands of a Scripture project over the bytes of its file, and the folding of a stream of
//! bundles into a book, from a byte source to a byte sink.
//!
//! A [`ByteSink`] takes bytes and counts its failures, so that contracts can say what was written
//! and which writes failed. [`StdSink`] makes one of std's writers.
#![tactic(auto)]

mod combine;
mod command;
mod copies;
mod every_book;
mod fold;
mod gathered;
mod history;
pub mod laws;
mod missing;
mod over_books;
mod overtaken;
mod page;
mod projects;
mod reading;
mod remarks;
mod restoring;
mod settling;
mod sheet_reports;
mod steps;
mod turns;

pub use book_reports::{Form, SetOff};
pub use combine::{combine_bundles, combine_stream};
pub use command::Command;
pub use conflict_settling::{Answer, Asked, Manner, Wanted, ends_text};
pub use copies::{CopyFile, project_progress, project_status};
pub use fold::{fold_bundles, fold_stream};
pub use history::{project_changes, project_history};
pub use missing::project_missing;
pub use over_books::{check_project, find_project, word_project};
pub use overtaken::{StillShown, still_shown};
pub use page::project_page;
pub use project_file::create;
pub use projects::{Outcome, exec};
pub use reading::read_project;
pub use remarks::{
    FILES_GONE, NO_BOOK_FILE, NO_WORD, NOTHING_FOUND, NOTHING_MISSING, NOTHING_READ, NOTHING_WRONG,
    TEXT_BUNDLE, TEXT_NAME, is_text_name, look_remark, remark,
};
pub use restoring::{restored_id, restored_lines, restored_since, restoring_edit};
pub use segment_history::{Named, RestoredText};
pub use settling::{conflict_count, next_question, settling_edit};
pub use turns::{Outcomes, TurnFault, exec_in_turn};
pub use usfm_export::{ByteSink, StdSink, WriteFault, write_all, write_more};
