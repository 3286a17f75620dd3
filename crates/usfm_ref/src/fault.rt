use thiserror::Error;

/// Why a text is no book, key or reference.
#[derive(Clone, Copy, Debug, PartialEq, Eq, Error)]
pub enum RefFault {
    /// The text, or the first three bytes of a reference, are no book code: not three of A to Z
    /// and 0 to 9.
    #[error("not a book code, which is three of A to Z and 0 to 9")]
    BadBook,
    /// The text begins with a book code, and is no reference: a code, one space and a key. Where a
    /// key alone is read, the text is none.
    #[error("not a reference, which is a book code, one space and a key, as MAT 5:3")]
    BadRef,
}
