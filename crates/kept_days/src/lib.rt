//! The days of a folder of books: on each day on which a sync changes the project, the folder keeps
//! the summary of what the project was before, under the name of the day. Here it is decided which
//! of the days are left, which of them answers for a day that is asked for, and where the days are
//! that a word asks for.
//!
//! Nothing is read or written here, and no calendar is asked: a day is its name, and names are in
//! the order of their bytes, which is that of the days.
#![tactic(auto)]

mod days;
pub mod laws;
mod since;

pub use days::{MOST_DAYS, days_from, days_of, days_to_go, is_day};
pub use since::{Since, folder_of, since_what};

#[cfg(test)]
mod tests;
