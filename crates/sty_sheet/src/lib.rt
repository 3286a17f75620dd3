//! Reads Paratext's style sheets, as `usfm.sty`: the records of markers, lent from a sheet's text.
//!
//! Paratext's sheets have records begun by `\Marker`, and the fields `\Name`, `\Endmarker`,
//! `\OccursUnder`, `\StyleType` and `\TextType`, which are the ones read here. How lines, comments
//! and `#!` are read, and that a second record of a marker replaces the first, is this project's
//! own rule.
#![tactic(auto)]

mod fault;
mod field;
mod kind;
pub mod laws;
mod line;
mod listed;
mod reader;
mod records;
mod sheet;
mod style;
mod styles;
mod under;
mod words;

pub use fault::SheetFault;
pub use kind::StyleKind;
pub use sheet::Sheet;
pub use style::Style;
pub use styles::Styles;
pub use under::UnderWords;

#[cfg(test)]
mod tests;
