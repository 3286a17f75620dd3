ghost use Rattle.std.specs.Prelude.{◌≡◌};
ghost use Rattle.sty_sheet.specs.declared.fault.SheetFault.TheVariants.{Memory};

use std::alloc::AllocFailed;
use thiserror::Error;

/// Why a text is no style sheet: the fault of its first faulty line. Lines are counted from 1.
#[derive(Clone, Copy, Debug, PartialEq, Eq, Error)]
pub enum SheetFault {
    /// An allocation failed.
    #[error("out of memory")]
    Memory,
    /// A field that is read comes before the first `\Marker`.
    #[error("line {line}: a field before the first marker")]
    FieldBeforeMarker { line: usize },
    /// A `\Marker` has no value.
    #[error("line {line}: a marker without a name")]
    EmptyMarker { line: usize },
    /// The value of a `\StyleType` is none of Paragraph, Character, Note and Milestone.
    #[error("line {line}: an unknown style type")]
    BadStyleType { line: usize },
}

impl<T: Drop> From<AllocFailed<T>> for SheetFault {
    ghost from_gives = { λ _ e. e ≡ Memory };

    fn from(_: AllocFailed<T>) -> Self {
        SheetFault::Memory
    }
}
