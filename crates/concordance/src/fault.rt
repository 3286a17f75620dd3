ghost use Rattle.std.specs.Prelude.{◌≡◌};
ghost use Rattle.concordance.specs.declared.fault.FindFault.TheVariants.{Memory};

use std::alloc::AllocError;
use thiserror::Error;

/// Why a needle is not looked for.
#[derive(Clone, Copy, Debug, PartialEq, Eq, Error)]
pub enum FindFault {
    /// The needle is empty.
    #[error("the needle is empty")]
    EmptyNeedle,
    /// An allocation failed.
    #[error("out of memory")]
    Memory,
}

impl From<AllocError> for FindFault {
    ghost from_gives = { λ _ fault. fault ≡ Memory };

    fn from(_: AllocError) -> FindFault {
        FindFault::Memory
    }
}
