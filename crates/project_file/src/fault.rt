ghost use Rattle.std.specs.Prelude.{◌≡◌};
ghost use Rattle.project_file.specs.declared.fault.CreateFault.TheVariants as creating;
ghost use Rattle.project_file.specs.declared.fault.LoadFault.TheVariants as loading;
ghost use Rattle.project_file.specs.Answers.{refusal_of};

use bundle_codec::{BundleFault, WholeFault};
use std::alloc::AllocError;
use thiserror::Error;

/// Why no project file was made.
#[derive(Clone, Copy, Debug, PartialEq, Eq, Error)]
pub enum CreateFault {
    /// 1: an allocation failed.
    #[error("out of memory")]
    Memory,
    /// 50: the text is anything but 1 to 32 of a to z, 0 to 9 and `-`.
    #[error("not a replica's name, which is 1 to 32 of a to z, 0 to 9 and `-`")]
    BadName,
}

/// Why bytes were not loaded.
#[derive(Clone, Copy, Debug, PartialEq, Eq, Error)]
pub enum LoadFault {
    /// 1: an allocation failed.
    #[error("out of memory")]
    Memory,
    /// 110: the bytes do not begin with `USFMPJ1`, a line feed, a length and a replica's name of
    /// that length.
    #[error("not a project file")]
    BadProject,
    /// 60 to 70: what follows the name is not one whole bundle.
    #[error("{0}")]
    Bundle(WholeFault),
}

impl From<AllocError> for CreateFault {
    ghost from_gives = { λ _ fault. fault ≡ creating.Memory };

    fn from(_: AllocError) -> CreateFault {
        CreateFault::Memory
    }
}

impl From<AllocError> for LoadFault {
    ghost from_gives = { λ _ fault. fault ≡ loading.Memory };

    fn from(_: AllocError) -> LoadFault {
        LoadFault::Memory
    }
}

impl From<WholeFault> for LoadFault {
    ghost from_gives = { λ from fault. fault ≡ refusal_of from };

    fn from(fault: WholeFault) -> LoadFault {
        match fault {
            WholeFault::Bundle(BundleFault::Memory) => LoadFault::Memory,
            fault => LoadFault::Bundle(fault),
        }
    }
}
