use thiserror::Error;

/// Why a text is not of a book.
#[derive(Clone, Copy, Debug, PartialEq, Eq, Error)]
pub enum BookFault {
    /// The text does not begin with at most one U+FEFF, `\id` and a blank.
    #[error("the text does not begin with \\id and a blank")]
    NoId,
    /// After `\id` and one blank comes no book's code, and then a blank, a backslash or the end.
    #[error("no book code, which is three of A to Z and 0 to 9, stands after \\id")]
    BadBook,
}
