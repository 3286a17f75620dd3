use crate::book::Book;
use crate::key::Key;

/// A segment: a key of a book. Segments go by book, and then by key.
#[derive(Clone, Copy, Debug, PartialEq, Eq, PartialOrd, Ord, Hash)]
pub struct Segment {
    pub book: Book,
    pub key: Key,
}
