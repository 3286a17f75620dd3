use usfm_ref::Key;

/// A place in a book where a needle occurs.
#[derive(Clone, Copy, Debug)]
pub struct Hit<'a> {
    /// The key of the piece that holds its start.
    pub key: Key,
    /// Where in the book it starts, in bytes.
    pub start: usize,
    /// Its bytes, lent from the book.
    pub text: &'a str,
}
