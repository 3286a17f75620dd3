//! Folders of files as the program changes them: the few calls that it makes of a disk, each with
//! what it does to the files and to what a crash may leave of them, and what is built of these
//! calls. What is promised of it holds at every moment, between two calls and within one.
#![tactic(auto)]

mod beginning;
mod disk;
mod memory;
mod names;
mod record;
mod recorded;
mod replacing;
mod staged;

pub use beginning::begin_file;
pub use disk::{Disk, DiskFault, Folder};
pub use memory::MemoryDisk;
pub use names::are_apart;
pub use record::{Call, Note, Record};
pub use recorded::{Calls, Recorded, Start, Unknown};
pub use replacing::replace_file;
pub use staged::StagedFiles;

#[cfg(test)]
mod recorded_tests;
#[cfg(test)]
mod tests;
