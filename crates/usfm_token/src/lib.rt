//! Cuts a USFM text into marks and the texts between them, which borrow it.
//!
//! A mark is a backslash, then one `+` if it follows directly, then the longest run of ASCII
//! letters, digits, `-` and `_` (its name, perhaps empty), then one `*` if it follows directly. So
//! `\*` and a lone backslash are marks. All between marks is text, and no text is empty.
//!
//! The USFM 3.0 documentation has the backslash, the `+` of nested character markers, and the `*`
//! of closing ones. Which bytes a name has, and that each backslash begins a mark, is this
//! project's own rule.
#![tactic(auto)]

mod fault;
mod iter;
pub mod laws;
mod mark;
mod scan;
mod text;
mod token;

pub use fault::TokenFault;
pub use iter::{TokenIter, tokens};
pub use mark::Mark;
pub use text::read_text;
pub use token::Token;

#[cfg(test)]
mod tests;
