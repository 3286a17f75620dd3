//! Texts for a terminal: what others wrote is shown there, and no character of it is sent that
//! could hide or change what else is on the screen: each control character stands as `\x1b`, and
//! each bidirectional control as `\u202e`.
#![tactic(auto)]

mod bytes;
pub mod laws;
mod plain;
mod text;

pub use bytes::push_bytes;
pub use plain::{is_plain, push_line, push_lines};
pub use text::{CarriageReturn, push_text};

#[cfg(test)]
mod tests;
