// Which conflicts are wanted.
ghost use Rattle.std.specs.Prelude.{◌≡◌};
ghost use Rattle.std.specs.List.{list_any};
ghost use Rattle.usfm_ref.specs.Segments.{segment};
ghost use Rattle.op_core.specs.Export.{has_book};
ghost use Rattle.conflict_settling.specs.Wanted as wanted;

use replica_state::Replica;
use usfm_ref::{Book, Key, RefFault, read_ref};

/// What somebody wants to settle: the conflicts of a book, or that of one segment.
#[derive(Clone, Copy, Debug, PartialEq, Eq)]
pub enum Wanted {
    /// Each conflict of the book.
    Whole(Book),
    /// The conflict of the segment, if it has one.
    One(Book, Key),
}

impl Wanted {
    /// Reads a word: a book's code, as `MAT`, or else a reference, as `MAT 5:3`.
    ///
    /// # Errors
    /// `BadBook` where the word is neither and its first three bytes are no book's code, and
    /// `BadRef` where they are, and what follows is no key.
    pub fn read(word: &str) -> Result<Wanted, RefFault>
        ensures { result ≡ wanted.wanted_in word.now }
    {
        if word.len() == 3 {
            return Ok(Wanted::Whole(Book::read(word)?));
        }
        let (book, key) = read_ref(word)?;
        Ok(Wanted::One(book, key))
    }

    // The book that it is of.
    pub(crate) fn book(&self) -> Book
        ensures { result ≡ wanted.book_of self.now }
    {
        match *self {
            Wanted::Whole(book) | Wanted::One(book, _) => book,
        }
    }

    // Whether it names the segment.
    fn names(&self, book: Book, key: Key) -> bool
        ensures { result ≡ wanted.names (segment book key) self.now }
    {
        match *self {
            Wanted::Whole(whole) => whole == book,
            Wanted::One(of, at) => of == book && at == key,
        }
    }
}

// Whether the segment is wanted: each one is where nothing is named.
pub(crate) fn is_wanted(all: &[Wanted], book: Book, key: Key) -> bool
    ensures { result ≡ wanted.is_wanted all.now (segment book key) }
{
    all.is_empty() || is_named(all, book, key)
}

// Whether one of them names the segment.
fn is_named(all: &[Wanted], book: Book, key: Key) -> bool
    ensures { result ≡ list_any (wanted.names (segment book key)) all.now }
{
    all.iter().any(|one| one.names(book, key))
}

// Whether the replica has an operation of the book of each.
pub(crate) fn has_books(replica: &Replica, all: &[Wanted]) -> bool
    ensures { result ≡ wanted.has_books replica.now.held all.now }
{
    all.iter().all(|one| has_book(replica, one.book()))
}

// Whether the replica has an operation of the book.
fn has_book(replica: &Replica, book: Book) -> bool
    ensures { result ≡ has_book replica.now.held book }
{
    replica.keys(book).next().is_some()
}
