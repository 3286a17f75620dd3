//! The export of a book out of a replica: its picked texts in ascending order of keys, written to a
//! sink or given as bytes.
//!
//! A [`ByteSink`] takes bytes and counts its failures, so that contracts can say what was written
//! and whether it failed. [`StdSink`] makes one of a writer of std.
#![tactic(auto)]

mod export;
mod fault;
mod keys;
mod sink;
mod told;
mod writing;

pub use export::{book_text, write_book};
pub use fault::{ExportFault, TextFault};
pub use keys::{ExportedKeys, exported_keys};
pub use sink::{ByteSink, StdSink};
pub use told::within;
pub use writing::{WriteFault, write_all, write_more};
