ghost use Rattle.std.specs.Prelude.{◌≡◌};
ghost use Rattle.segment_history.specs.declared.fault.RestoreFault.TheVariants as restoring;

use op_core::OpId;
use std::alloc::AllocError;
use thiserror::Error;

/// Why a text cannot be had back.
#[derive(Clone, Copy, Debug, Error)]
pub enum RestoreFault {
    /// An allocation failed.
    #[error("out of memory")]
    Memory,
    /// No operation that is held has the id.
    #[error("{0} is not held")]
    NotHeld(OpId),
    /// The text of the operation was left out.
    #[error("the text of {0} was left out")]
    LeftOut(OpId),
}

impl From<AllocError> for RestoreFault {
    ghost from_gives = { λ _ fault. fault ≡ restoring.Memory };

    fn from(_: AllocError) -> Self {
        RestoreFault::Memory
    }
}
