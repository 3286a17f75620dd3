ghost use Rattle.std.specs.Prelude.{◌≡◌};
ghost use Rattle.conflict_answers.specs.declared.fault.AnswersFault.TheVariants.{Memory};

use std::alloc::{AllocError, AllocFailed};
use thiserror::Error;

/// Why bytes are no file of answers. Lines are counted from 1.
#[derive(Clone, Copy, Debug, PartialEq, Eq, Error)]
pub enum AnswersFault {
    /// 1: an allocation failed.
    #[error("out of memory")]
    Memory,
    /// 85: the first line of no known form.
    #[error("line {line}: no line of a file of answers")]
    BadLine { line: usize },
}

impl From<AllocError> for AnswersFault {
    ghost from_gives = { λ _ fault. fault ≡ Memory };

    fn from(_: AllocError) -> Self {
        AnswersFault::Memory
    }
}

impl<T: Drop> From<AllocFailed<T>> for AnswersFault {
    ghost from_gives = { λ _ fault. fault ≡ Memory };

    fn from(_: AllocFailed<T>) -> Self {
        AnswersFault::Memory
    }
}
