//! Where bytes come from, and all of them read.
//!
//! A [`ByteSource`] gives bytes and counts its reads and failures, so that contracts can say what
//! was read and which reads failed. [`StdSource`] makes one of std's readers.
#![tactic(auto)]

mod reading;
mod source;

pub use reading::{MOST_BYTES, ReadFault, read_to_end};
pub use source::{ByteSource, StdSource};
