// What somebody asks about.
use usfm_ref::Book;

/// What somebody asks about: a book, or one chapter of it.
#[derive(Clone, Copy, Debug, PartialEq, Eq)]
pub enum Part {
    /// All of the book.
    Whole(Book),
    /// The chapter of this number.
    OneChapter(Book, u16),
}
