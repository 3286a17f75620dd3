ghost use Rattle.std.specs.Prelude.{◌≡◌};
ghost use Rattle.conflict_report.specs.declared.fault.ReportFault.TheVariants as reporting;

use std::alloc::AllocError;
use thiserror::Error;
use usfm_export::WriteFault;

/// Why a report was not written.
#[derive(Clone, Copy, Debug, PartialEq, Eq, Error)]
pub enum ReportFault {
    /// 1: an allocation failed. Nothing was written.
    #[error("out of memory")]
    Memory,
    /// 90: the writer failed after it had taken this many bytes.
    #[error("the writer failed after {gone} bytes")]
    WriteFailed { gone: u64 },
}

impl From<AllocError> for ReportFault {
    ghost from_gives = { λ _ fault. fault ≡ reporting.Memory };

    fn from(_: AllocError) -> Self {
        ReportFault::Memory
    }
}

impl From<WriteFault> for ReportFault {
    ghost from_gives = { λ from fault. fault ≡ reporting.WriteFailed from.gone };

    fn from(fault: WriteFault) -> Self {
        ReportFault::WriteFailed { gone: fault.gone }
    }
}
