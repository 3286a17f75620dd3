// What belongs to books, each found under its book, so that it costs little to ask for each book's
// among however many.
ghost use Rattle.std.specs.Prelude.{◌≡◌, IfOk, OnOk, option_map};
ghost use Rattle.book_folder.specs.ByBook.{AddsBook, HasBooks, Puts, under};
ghost use Rattle.book_folder.specs.Files.{is_one_of};

use std::alloc::{AllocError, Global};
use std::collections::{BTreeMap, BTreeSet};
use usfm_ref::Book;

// Puts something under a book, and returns what was there.
pub(crate) fn put<T: Drop>(
    by_book: &mut BTreeMap<Book, T>,
    book: Book,
    value: T,
) -> Result<Option<T>, AllocError>
    ensures was { IfOk result (λ was. was ≡ under by_book.old book) }
    ensures puts { OnOk result (Puts by_book.old book value by_book.new) }
{
    match by_book.insert(book, value) {
        Ok(was) => Ok(was),
        Err(_) => Err(AllocError),
    }
}

// What is under a book.
pub(crate) fn under<T>(by_book: &BTreeMap<Book, T>, book: Book) -> Option<&T>
    ensures { option_map (λ value. value.now) result ≡ under by_book.now book }
{
    by_book.get(&book)
}

// Some books, found at little cost.
#[derive(Debug, Drop)]
pub(crate) struct SomeBooks<'a> {
    pub(crate) books: &'a [Book],
    set: BTreeSet<Book>,
    ghost has: { HasBooks books.now set },
}

impl<'a> SomeBooks<'a> {
    // These books.
    pub(crate) fn new(alloc: Global, books: &'a [Book]) -> Result<SomeBooks<'a>, AllocError>
        ensures { IfOk result (λ some. some.books.now ≡ books.now) }
    {
        let set = set_of(alloc, books)?;
        Ok(SomeBooks { books, set })
    }

    // Whether a book is one of them.
    pub(crate) fn has(&self, book: Book) -> bool
        ensures { result ≡ is_one_of self.now.books.now book }
    {
        self.set.contains(&book)
    }
}

// The set of some books.
fn set_of(alloc: Global, books: &[Book]) -> Result<BTreeSet<Book>, AllocError>
    ensures { IfOk result (λ set. HasBooks books.now set) }
{
    let mut set = BTreeSet::new(alloc);
    let mut left = books;
    'books: while let [book, later @ ..] = left {
        add(&mut set, *book)?;
        left = later;
    }
    Ok(set)
}

// Adds a book.
fn add(set: &mut BTreeSet<Book>, book: Book) -> Result<(), AllocError>
    ensures { OnOk result (AddsBook set.old book set.new) }
{
    match set.insert(book) {
        Ok(_) => Ok(()),
        Err(_) => Err(AllocError),
    }
}
