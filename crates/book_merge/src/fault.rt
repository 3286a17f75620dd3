ghost use Rattle.std.specs.Prelude.{◌≡◌};
ghost use Rattle.book_merge.specs.declared.fault.MergeFault.TheVariants.{Memory};

use std::alloc::AllocError;
use thiserror::Error;
use verse_cut::BookFault;

/// One of the three files of a merge.
#[derive(Clone, Copy, Debug, PartialEq, Eq)]
pub enum MergedFile {
    /// What both sides were written from.
    Base,
    /// The side that the merge is written to.
    Ours,
    /// The other side.
    Theirs,
}

/// Why files were not merged.
#[derive(Clone, Copy, Debug, PartialEq, Eq, Error)]
pub enum MergeFault {
    /// An allocation failed.
    #[error("out of memory")]
    Memory,
    /// The file does not begin as a book does.
    #[error("{1}")]
    BadFile(MergedFile, BookFault),
    /// The side begins with another book than BASE.
    #[error("a side is of another book than BASE")]
    OtherBook(MergedFile),
    /// The number of the last edit of an import would be above 10^15.
    #[error("no numbers are left for the edits")]
    NumbersUsedUp,
}

impl From<AllocError> for MergeFault {
    ghost from_gives = { λ _ fault. fault ≡ Memory };

    fn from(_: AllocError) -> MergeFault {
        MergeFault::Memory
    }
}
