//! A place in a text, shown by the line that it is in, with what stands there set off.
//!
//! An excerpt has what is before and after the place in its line, as far as [`REACH`] bytes, so
//! that a long line is not written once for each place in it. Where a person reads it at a
//! terminal, no control character of the text reaches that.
#![tactic(auto)]

mod excerpt;

pub use excerpt::{REACH, SetOff, push_excerpt};
