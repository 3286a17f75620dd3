// A book's file.
ghost use Rattle.std.specs.Prelude.{◌≡◌, Err, IfOk, IfErr, Ok};
ghost use Rattle.verse_cut.specs.Reading.{book_in};

use usfm_ref::Book;
use verse_cut::{BookFault, book_of};

/// A book's file by the name that it was given: a text that begins with `\id` and a book's code.
#[derive(Clone, Copy, Debug)]
pub struct BookFile<'a> {
    pub(crate) name: &'a str,
    pub(crate) book: Book,
    pub(crate) text: &'a str,
}

impl<'a> BookFile<'a> {
    /// The file of this name with this text, which is of the book that it begins with, as an import
    /// takes it. It does not allocate.
    ///
    /// # Errors
    /// `NoId` where the text does not begin with at most one U+FEFF, `\id` and a blank, and else
    /// `BadBook` where no book's code, and what may follow it, comes after.
    pub fn new(name: &'a str, text: &'a str) -> Result<BookFile<'a>, BookFault>
        ensures file { IfOk result (λ file. (file.name.now ≡ name.now) × (file.text.now ≡ text.now)
            × (book_in text.now ≡ Ok file.book)) }
        ensures refused { IfErr result (λ fault. book_in text.now ≡ Err fault) }
    {
        let book = book_of(text)?;
        Ok(BookFile { name, book, text })
    }
}
