use thiserror::Error;

/// Why bytes were not opened: what is the first to hold, in this order.
#[derive(Clone, Copy, Debug, PartialEq, Eq, Error)]
pub enum SealFault {
    /// The bytes differ from the magic, `USFMSB1` with a line feed.
    #[error("not a sealed bundle")]
    NotSealed,
    /// The bytes end before the bundle does, by the length that they state, or before that. A
    /// proper front of a sealed bundle, the empty one too, is refused so.
    #[error("a sealed bundle that is cut")]
    Truncated,
    /// Something follows the bundle, by the length that the bytes state.
    #[error("something follows the sealed bundle")]
    Trailing,
    /// The bundle has not the digest that the bytes state.
    #[error("a sealed bundle that was damaged")]
    Damaged,
}
