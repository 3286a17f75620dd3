ghost use Rattle.std.specs.Prelude.{◌≡◌};
ghost use Rattle.replica_state.specs.declared.fault.EditFault.TheVariants as edit;
ghost use Rattle.replica_state.specs.declared.fault.ImportFault.TheVariants as import;
ghost use Rattle.replica_state.specs.declared.fault.ReceiveFault.TheVariants as receiving;
ghost use Rattle.replica_state.specs.declared.fault.SinceFault.TheVariants as since;
ghost use Rattle.replica_state.specs.Since.{of_receiving};

use op_core::OpId;
use std::alloc::{AllocError, AllocFailed};
use thiserror::Error;
use verse_cut::BookFault;

/// Why a bundle was not taken in. A replica is then unchanged, and a gathering is dropped.
#[derive(Clone, Copy, Debug, PartialEq, Eq, Error)]
pub enum ReceiveFault {
    /// An allocation failed.
    #[error("out of memory")]
    Memory,
    /// The replica and the bundle have operations of this id that do not agree.
    #[error("two operations that differ have one id: {} {}", .0.number, .0.name.text())]
    Clash(OpId),
}

/// Why a segment was not edited. The replica is then unchanged.
#[derive(Clone, Copy, Debug, PartialEq, Eq, Error)]
pub enum EditFault {
    /// An allocation failed.
    #[error("out of memory")]
    Memory,
    /// The text does not fit the book and the key.
    #[error("the text does not fit its book and key")]
    BadSegment,
    /// The book has no operation, and the key is not the head of the book.
    #[error("no operation is of the book")]
    NoBook,
    /// The segment does not show this id, the first such one of those that were given.
    #[error("the segment does not show {} {}", .0.number, .0.name.text())]
    NotShown(OpId),
    /// The next number would be above 10^15.
    #[error("no number is left for the edit")]
    NumbersUsedUp,
}

/// Why a file was not imported. The replica is then unchanged.
#[derive(Clone, Copy, Debug, PartialEq, Eq, Error)]
pub enum ImportFault {
    /// An allocation failed.
    #[error("out of memory")]
    Memory,
    /// The file does not begin as a book does.
    #[error("{0}")]
    BadFile(BookFault),
    /// The number of the last edit would be above 10^15.
    #[error("no numbers are left for the edits")]
    NumbersUsedUp,
}

/// Why a file was not imported since a base. The replica is then unchanged.
#[derive(Clone, Copy, Debug, PartialEq, Eq, Error)]
pub enum SinceFault {
    /// An allocation failed.
    #[error("out of memory")]
    Memory,
    /// The file does not begin as a book does.
    #[error("{0}")]
    BadFile(BookFault),
    /// The replica and the base have operations of this id that do not agree.
    #[error("two operations that differ have one id: {} {}", .0.number, .0.name.text())]
    Clash(OpId),
    /// The number of the last edit would be above 10^15.
    #[error("no numbers are left for the edits")]
    NumbersUsedUp,
}

impl From<AllocError> for ReceiveFault {
    ghost from_gives = { λ _ fault. fault ≡ receiving.Memory };

    fn from(_: AllocError) -> ReceiveFault {
        ReceiveFault::Memory
    }
}

impl<T: Drop> From<AllocFailed<T>> for ReceiveFault {
    ghost from_gives = { λ _ fault. fault ≡ receiving.Memory };

    fn from(_: AllocFailed<T>) -> ReceiveFault {
        ReceiveFault::Memory
    }
}

impl From<AllocError> for EditFault {
    ghost from_gives = { λ _ fault. fault ≡ edit.Memory };

    fn from(_: AllocError) -> EditFault {
        EditFault::Memory
    }
}

impl From<AllocError> for ImportFault {
    ghost from_gives = { λ _ fault. fault ≡ import.Memory };

    fn from(_: AllocError) -> ImportFault {
        ImportFault::Memory
    }
}

impl From<BookFault> for ImportFault {
    ghost from_gives = { λ from fault. fault ≡ import.BadFile from };

    fn from(fault: BookFault) -> ImportFault {
        ImportFault::BadFile(fault)
    }
}

impl From<AllocError> for SinceFault {
    ghost from_gives = { λ _ fault. fault ≡ since.Memory };

    fn from(_: AllocError) -> SinceFault {
        SinceFault::Memory
    }
}

impl From<BookFault> for SinceFault {
    ghost from_gives = { λ from fault. fault ≡ since.BadFile from };

    fn from(fault: BookFault) -> SinceFault {
        SinceFault::BadFile(fault)
    }
}

impl From<ReceiveFault> for SinceFault {
    ghost from_gives = { λ from fault. fault ≡ of_receiving from };

    fn from(fault: ReceiveFault) -> SinceFault {
        match fault {
            ReceiveFault::Memory => SinceFault::Memory,
            ReceiveFault::Clash(id) => SinceFault::Clash(id),
        }
    }
}
