use thiserror::Error;

/// Why bytes are no text.
#[derive(Clone, Copy, Debug, PartialEq, Eq, Error)]
pub enum TokenFault {
    /// The bytes are not UTF-8. `valid` is the length in bytes of their longest front that is.
    #[error("not UTF-8 after {valid} bytes")]
    NotUtf8 { valid: usize },
}
