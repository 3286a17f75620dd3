//! A page about a project: one HTML 5 file for who would rather look than read, to be mailed and
//! printed. It says how the project stands, shows how far each chapter is, has each conflict with
//! its texts side by side, and lists what is awaited.
//!
//! The page names nothing outside itself, and without its script, by which conflicts are answered on
//! it, it says all of this. Each text of the project goes into it
//! with its control characters spelled out and with named references in the place of the characters
//! that HTML reads as markup.
#![tactic(auto)]

mod conflict;
mod gather;
pub mod laws;
mod markup;
mod parts;
mod progress;
mod said;
mod standing;
mod whole;

pub use gather::parts_of;
pub use parts::{BookProgress, PageConflict, PageParts};
pub use whole::{page, page_bytes};

#[cfg(test)]
mod tests;
