//! The conflict report of a replica: the texts of each segment that shows two or more distinct
//! ones, and the ids of operations that are named and not held, as bytes or written to a sink.
#![tactic(auto)]

mod fault;
mod gather;
pub mod laws;
mod part;
mod report;
mod texts;

pub use fault::ReportFault;
pub use report::{report_text, write_report};
pub use texts::{ShownTexts, shown_texts};

#[cfg(test)]
mod tests;
