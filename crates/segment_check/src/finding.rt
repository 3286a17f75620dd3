use crate::code::Code;
use usfm_ref::Key;

/// What is found at a mark of a book.
#[derive(Clone, Copy, Debug, PartialEq, Eq)]
pub struct Finding {
    /// What is found.
    pub code: Code,
    /// Where the mark begins, in bytes from the start of the book.
    pub start: usize,
    /// The key of the piece of the book that holds the start.
    pub key: Key,
}
