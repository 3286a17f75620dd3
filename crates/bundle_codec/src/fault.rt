ghost use Rattle.std.specs.Prelude.{◌≡◌};
ghost use Rattle.bundle_codec.specs.Joining.{join_fault};
ghost use Rattle.bundle_codec.specs.declared.fault.BundleFault.TheVariants as bundle;
ghost use Rattle.bundle_codec.specs.declared.fault.WholeFault.TheVariants as whole;
ghost use Rattle.bundle_codec.specs.declared.fault.JoinFault.TheVariants as joining;

use op_core::OpId;
use std::alloc::AllocError;
use thiserror::Error;

/// Why bytes do not begin with a bundle: the first field, from left to right, that is cut or breaks
/// its rule, or else the first thinned operation that none names. An operation's place is counted
/// from 1.
#[derive(Clone, Copy, Debug, PartialEq, Eq, Error)]
pub enum BundleFault {
    /// An allocation failed, where all fields are right and an operation is thinned.
    #[error("out of memory")]
    Memory,
    /// The bytes differ from `USFMSR1` and from `USFMSR2`, each with a line feed, with one of which
    /// a bundle begins.
    #[error("not a bundle")]
    Magic,
    /// The bytes end inside a field. A proper front of a bundle, the empty one too, is refused so.
    #[error("a bundle that is cut")]
    Truncated,
    /// An operation's id is not greater than the one before it.
    #[error("operation {0}: its id does not come after the one before")]
    NotRising(u64),
    /// An operation's number is 0 or above 10^15, or its name is not 1 to 32 of a to z, 0 to 9 and
    /// `-`.
    #[error("operation {0}: not an id")]
    BadId(u64),
    /// An operation's book is not three of A to Z and 0 to 9, its chapter or verse is above 999,
    /// its place is neither head nor verse, its letter is none of a to z, or a head has a verse or
    /// a letter.
    #[error("operation {0}: not a book and a key in it")]
    BadKey(u64),
    /// A replaced id breaks the rules of an id, does not come after the one before it, or has a
    /// number that is not smaller than the operation's.
    #[error("operation {0}: not the ids that it can replace")]
    BadReplaced(u64),
    /// An operation's tag is not 1, and in format 2 not 0 either.
    #[error("operation {0}: an unknown tag")]
    BadTag(u64),
    /// An operation's text is not UTF-8.
    #[error("operation {0}: its text is not UTF-8")]
    NotUtf8(u64),
    /// An operation's text does not fit its book and key.
    #[error("operation {0}: its text does not fit its book and key")]
    BadText(u64),
    /// An operation is thinned and no operation of the bundle in its segment names it; or, with the
    /// place 0, a bundle of format 2 has no thinned operation.
    #[error("operation {0}: not thinned as it may be")]
    Unsupported(u64),
}

/// Why bytes are not one whole bundle.
#[derive(Clone, Copy, Debug, PartialEq, Eq, Error)]
pub enum WholeFault {
    /// The bytes do not begin with a bundle.
    #[error("{0}")]
    Bundle(BundleFault),
    /// A bundle and something more.
    #[error("something follows the bundle")]
    Trailing,
}

/// Why two bundles were not joined.
#[derive(Clone, Copy, Debug, PartialEq, Eq, Error)]
pub enum JoinFault {
    /// An allocation failed.
    #[error("out of memory")]
    Memory,
    /// The first bytes, or else the second, are not one whole bundle.
    #[error("{0}")]
    Bundle(WholeFault),
    /// Two operations that do not agree have this id.
    #[error("two operations that differ have one id: {} {}", .0.number, .0.name.text())]
    Clash(OpId),
}

/// Why bytes were not read as a summary.
#[derive(Clone, Copy, Debug, PartialEq, Eq, Error)]
pub enum SummaryFault {
    /// An allocation failed.
    #[error("out of memory")]
    Memory,
    /// The bytes are not one whole summary.
    #[error("not a summary")]
    BadSummary,
}

impl From<AllocError> for BundleFault {
    ghost from_gives = { λ _ fault. fault ≡ bundle.Memory };

    fn from(_: AllocError) -> BundleFault {
        BundleFault::Memory
    }
}

impl From<BundleFault> for WholeFault {
    ghost from_gives = { λ from fault. fault ≡ whole.Bundle from };

    fn from(fault: BundleFault) -> WholeFault {
        WholeFault::Bundle(fault)
    }
}

impl From<AllocError> for JoinFault {
    ghost from_gives = { λ _ fault. fault ≡ joining.Memory };

    fn from(_: AllocError) -> JoinFault {
        JoinFault::Memory
    }
}

impl From<WholeFault> for JoinFault {
    ghost from_gives = { λ from fault. fault ≡ join_fault from };

    fn from(fault: WholeFault) -> JoinFault {
        match fault {
            WholeFault::Bundle(BundleFault::Memory) => JoinFault::Memory,
            _ => JoinFault::Bundle(fault),
        }
    }
}
