ghost use Rattle.std.specs.Prelude.{◌≡◌};
ghost use Rattle.versification.specs.declared.fault.VersificationFault.TheVariants.{Memory};

use std::alloc::AllocError;
use thiserror::Error;

/// Why bytes are no versification. Lines are counted from 1.
#[derive(Clone, Copy, Debug, PartialEq, Eq, Error)]
pub enum VersificationFault {
    /// An allocation failed.
    #[error("out of memory")]
    Memory,
    /// The first line that has none of the forms.
    #[error("line {line}: no line of a versification")]
    BadLine { line: usize },
}

impl From<AllocError> for VersificationFault {
    ghost from_gives = { λ _ e. e ≡ Memory };

    fn from(_: AllocError) -> Self {
        VersificationFault::Memory
    }
}
