ghost use Rattle.std.specs.Prelude.{◌≡◌};
ghost use Rattle.usfm_export.specs.declared.fault.ExportFault.TheVariants.{WriteFailed};

use crate::WriteFault;
use thiserror::Error;

/// Why a book was not written.
#[derive(Clone, Copy, Debug, PartialEq, Eq, Error)]
pub enum ExportFault {
    /// 82: the book has no operation.
    #[error("the book has no operation")]
    NoBook,
    /// 90: the writer failed after it had taken this many bytes.
    #[error("the writer failed after {gone} bytes")]
    WriteFailed { gone: u64 },
}

impl From<WriteFault> for ExportFault {
    ghost from_gives = { λ from fault. fault ≡ WriteFailed from.gone };

    fn from(fault: WriteFault) -> Self {
        ExportFault::WriteFailed { gone: fault.gone }
    }
}

/// Why a book's text was not given.
#[derive(Clone, Copy, Debug, PartialEq, Eq, Error)]
pub enum TextFault {
    /// 1: an allocation failed.
    #[error("out of memory")]
    Memory,
    /// 82: the book has no operation.
    #[error("the book has no operation")]
    NoBook,
}
