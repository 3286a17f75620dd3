ghost use Rattle.std.specs.Prelude.{◌≡◌};
ghost use Rattle.folder_setup.specs.declared.fault.SpellFault.TheVariants.{Memory};

use std::alloc::AllocError;
use thiserror::Error;

/// Why a text is no setup.
#[derive(Clone, Copy, Debug, PartialEq, Eq, Error)]
pub enum SetupFault {
    /// The first line that is not the one that is due, or not whole, counted from 1. Where a text
    /// ends before its first line does, this is that line.
    #[error("line {line}: no line of a setup, or not in its place")]
    BadLine { line: usize },
}

/// Why a setup has no lines.
#[derive(Clone, Copy, Debug, PartialEq, Eq, Error)]
pub enum SpellFault {
    /// An allocation failed.
    #[error("out of memory")]
    Memory,
    /// A path or a name is empty, or has a line feed or a NUL.
    #[error("a path or a name that no line can have")]
    BadValue,
}

impl From<AllocError> for SpellFault {
    ghost from_gives = { λ _ fault. fault ≡ Memory };

    fn from(_: AllocError) -> Self {
        SpellFault::Memory
    }
}
