// The book of a merge.
ghost use Rattle.std.specs.Prelude.{◌≡◌};
ghost use Rattle.usfm_ref.specs.Books.{same_bytes};
ghost use Rattle.verse_cut.specs.Reading.{book_in};
ghost use Rattle.book_merge.specs.Merges as merges;

use crate::fault::{MergeFault, MergedFile};
use usfm_ref::Book;
use verse_cut::book_of;

// The book of three files; or the first that begins with no book, or else the first side that
// begins with another book than BASE.
pub(crate) fn merged_book(base: &str, ours: &str, theirs: &str) -> Result<Book, MergeFault>
    ensures { result ≡ merges.merged_book base.now ours.now theirs.now }
{
    let book = book_in(MergedFile::Base, base)?;
    let ours = book_in(MergedFile::Ours, ours)?;
    let theirs = book_in(MergedFile::Theirs, theirs)?;
    if !is_same(ours, book) {
        return Err(MergeFault::OtherBook(MergedFile::Ours));
    }
    if !is_same(theirs, book) {
        return Err(MergeFault::OtherBook(MergedFile::Theirs));
    }
    Ok(book)
}

// The book that a file begins with.
fn book_in(file: MergedFile, text: &str) -> Result<Book, MergeFault>
    ensures { result ≡ merges.book_or_bad file (book_in text.now) }
{
    match book_of(text) {
        Ok(book) => Ok(book),
        Err(fault) => Err(MergeFault::BadFile(file, fault)),
    }
}

// Whether two books are the same.
fn is_same(one: Book, other: Book) -> bool
    ensures { result ≡ same_bytes one other }
{
    one == other
}
