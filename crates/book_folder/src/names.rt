// Which file is which book's, as it is written down.
ghost use Rattle.std.specs.Prelude.{◌≡◌, ◌++◌, [], ◌∷◌, IfOk, OnOk, map, option_map};
ghost use Rattle.book_folder.specs.ByBook.{HasFirsts};
ghost use Rattle.book_folder.specs.Files.{files_view};
ghost use Rattle.book_folder.specs.Naming as naming;
ghost use Rattle.book_folder.specs.Plans as plans;
ghost use Rattle.book_folder.specs.Taking.{listed};
ghost use Rattle.book_folder.specs.Wanted.{named_view, seen_view};

use crate::bases::other_than;
use crate::by_book::{put, under};
use crate::files::{BookFile, may_be_book, text_if};
use crate::folder::FolderIndex;
use crate::naming::has_byte;
use crate::plan::NewFile;
use crate::seen::{Named, Seen};
use std::alloc::{AllocError, Global};
use std::collections::BTreeMap;
use usfm_ref::Book;

// A book with the name of its file.
#[derive(Debug, Drop)]
pub(crate) struct BookName<'a> {
    pub(crate) book: Book,
    pub(crate) name: &'a str,
}

// The names that are there: those of the books' files, and then those that were written down of
// books without a file.
pub(crate) fn names_had<'a>(
    alloc: Global,
    folder: &FolderIndex<'_, 'a>,
) -> Result<Vec<BookName<'a>>, AllocError>
    ensures { IfOk result (λ names. map naming.book_name_view names.items
        ≡ naming.names_had (seen_view folder.now.seen) (files_view folder.now.files.now)) }
{
    let mut names = Vec::new(alloc);
    push_files(&mut names, folder.files)?;
    push_without_file(&mut names, folder)?;
    Ok(names)
}

// The names that are written down, if they are other than those that were.
pub(crate) fn other_names(
    alloc: Global,
    seen: &Seen<'_>,
    files: &[BookFile<'_>],
    made: &[NewFile],
) -> Result<Option<Vec<u8>>, AllocError>
    ensures { IfOk result (λ names. option_map (λ b. b.items) names
        ≡ naming.other_names (seen_view seen.now) (files_view files.now)
        (map plans.new_name_of (map plans.new_file_view made.now))) }
{
    let mut was = Vec::new(alloc);
    push_named(&mut was, seen.names)?;
    let mut names = Vec::new(alloc);
    push_files(&mut names, files)?;
    push_new(&mut names, made)?;
    push_named(&mut names, seen.names)?;
    let was = names_text(alloc, &was)?;
    Ok(other_than(&was, names_text(alloc, &names)?))
}

// Adds the names of books' files.
fn push_files<'a>(names: &mut Vec<BookName<'a>>, files: &[BookFile<'a>]) -> Result<(), AllocError>
    ensures { OnOk result (map naming.book_name_view names.new.items
        ≡ map naming.book_name_view names.old.items
        ++ map naming.named_file (files_view files.now)) }
{
    let mut left = files;
    'files: while let [file, later @ ..] = left {
        push_name(names, file.book, file.name)?;
        left = later;
    }
    Ok(())
}

// Adds a name.
fn push_name<'a>(names: &mut Vec<BookName<'a>>, book: Book, name: &'a str) -> Result<(), AllocError>
    ensures { OnOk result (map naming.book_name_view names.new.items
        ≡ map naming.book_name_view names.old.items ++ naming.named book name.now ∷ []) }
{
    match names.push(BookName { book, name }) {
        Ok(()) => Ok(()),
        Err(_) => Err(AllocError),
    }
}

// Adds the names of new files.
fn push_new<'a>(names: &mut Vec<BookName<'a>>, made: &'a [NewFile]) -> Result<(), AllocError>
    ensures { OnOk result (map naming.book_name_view names.new.items
        ≡ map naming.book_name_view names.old.items
        ++ map plans.new_name_of (map plans.new_file_view made.now)) }
{
    let mut left = made;
    'files: while let [file, later @ ..] = left {
        push_name(names, file.book, &file.name)?;
        left = later;
    }
    Ok(())
}

// Adds the names that were written down.
fn push_named<'a>(names: &mut Vec<BookName<'a>>, named: &'a [Named]) -> Result<(), AllocError>
    ensures { OnOk result (map naming.book_name_view names.new.items
        ≡ map naming.book_name_view names.old.items ++ map named_view named.now) }
{
    let mut left = named;
    'names: while let [one, later @ ..] = left {
        push_name(names, one.book, &one.name)?;
        left = later;
    }
    Ok(())
}

// Adds the names that were written down of books without a file.
fn push_without_file<'a>(
    names: &mut Vec<BookName<'a>>,
    folder: &FolderIndex<'_, 'a>,
) -> Result<(), AllocError>
    ensures { let files = files_view folder.now.files.now in
        OnOk result (map naming.book_name_view names.new.items
        ≡ map naming.book_name_view names.old.items
        ++ naming.without_file files (map named_view folder.now.seen.names.now)) }
{
    let mut left = folder.seen.names;
    'names: while let [one, later @ ..] = left {
        if folder.file_of(one.book).is_none() {
            push_name(names, one.book, &one.name)?;
        }
        left = later;
    }
    Ok(())
}

// Names in lines `CODE NAME`, in the order of books; of several of one book the first.
fn names_text(alloc: Global, names: &[BookName<'_>]) -> Result<Vec<u8>, AllocError>
    ensures { IfOk result (λ text. text.items
        ≡ naming.names_text (map naming.book_name_view names.now)) }
{
    let mut text = Vec::new(alloc);
    let ordered = in_order(alloc, names)?;
    let mut left = ordered.as_slice();
    'names: while let [named, later @ ..] = left {
        push_line(&mut text, named)?;
        left = later;
    }
    Ok(text)
}

// Adds the line of a name.
fn push_line(text: &mut Vec<u8>, named: &BookName<'_>) -> Result<(), AllocError>
    ensures { OnOk result (text.new.items
        ≡ text.old.items ++ naming.name_line (naming.book_name_view named.now)) }
{
    text.extend_from_slice(&named.book.code())?;
    text.extend_from_slice(b" ")?;
    text.extend_from_slice(named.name.as_bytes())?;
    text.extend_from_slice(b"\n")
}

// Names in the order of books; of several of one book the first.
fn in_order<'a>(alloc: Global, names: &[BookName<'a>]) -> Result<Vec<BookName<'a>>, AllocError>
    ensures { IfOk result (λ ordered. map naming.book_name_view ordered.items
        ≡ naming.in_order (map naming.book_name_view names.now)) }
{
    let books = books_named(alloc, names)?;
    let firsts = first_names(alloc, names)?;
    let mut ordered = Vec::new(alloc);
    let mut left = books.as_slice();
    'books: while let [book, later @ ..] = left {
        if let Some(named) = under(&firsts, *book) {
            push_name(&mut ordered, *book, named.name)?;
        }
        left = later;
    }
    Ok(ordered)
}

// The first of some names of each book, found under the book.
fn first_names<'n, 'a>(
    alloc: Global,
    names: &'n [BookName<'a>],
) -> Result<BTreeMap<Book, &'n BookName<'a>>, AllocError>
    ensures { let view = map naming.book_name_view names.now in
        IfOk result (λ firsts.
        HasFirsts (λ n. naming.book_name_view n.now) (λ n. n.book) view firsts) }
{
    let mut firsts = BTreeMap::new(alloc);
    let mut left = names;
    'names: while let [earlier @ .., named] = left {
        // Of several of one book, the first one is put last, and stays.
        put(&mut firsts, named.book, named)?;
        left = earlier;
    }
    Ok(firsts)
}

// The books of names, in their order, each once.
fn books_named(alloc: Global, names: &[BookName<'_>]) -> Result<Vec<Book>, AllocError>
    ensures { IfOk result (λ books. books.items
        ≡ naming.books_named (map naming.book_name_view names.now)) }
{
    let mut books = books_in(alloc, names)?;
    books.sort_unstable();
    books.dedup();
    Ok(books)
}

// The book of each name.
fn books_in(alloc: Global, names: &[BookName<'_>]) -> Result<Vec<Book>, AllocError>
    ensures { IfOk result (λ books. books.items
        ≡ map (λ n. n.book) (map naming.book_name_view names.now)) }
{
    let mut books = Vec::new(alloc);
    let mut left = names;
    'names: while let [named, later @ ..] = left {
        books.push(named.book)?;
        left = later;
    }
    Ok(books)
}

/// The names that are written down in lines `CODE NAME`, in the order of books; of several of one
/// book the first. What is no such line is skipped, and so is a name that is not one of a book's
/// file in the folder.
///
/// # Errors
/// Out of memory alone.
pub fn read_names(alloc: Global, bytes: &[u8]) -> Result<Vec<Named>, AllocError>
    ensures { IfOk result (λ names. map named_view names.items ≡ naming.read_names bytes.now) }
{
    let mut names = Vec::new(alloc);
    let Some(text) = text_if(bytes) else {
        return Ok(names);
    };
    let lines = names_in(alloc, text)?;
    let ordered = in_order(alloc, &lines)?;
    let mut left = ordered.as_slice();
    'names: while let [named, later @ ..] = left {
        let book = named.book;
        let name = String::from_str(alloc, named.name)?;
        names.push(Named { book, name })?;
        left = later;
    }
    Ok(names)
}

// The names that the lines of a text write down.
#[tactic(auto, using(crate::proofs::NameLines::names_in_last))]
fn names_in(alloc: Global, text: &str) -> Result<Vec<BookName<'_>>, AllocError>
    ensures { IfOk result (λ names. map naming.book_name_view names.items
        ≡ naming.names_in text.now) }
{
    let mut names = Vec::new(alloc);
    let mut left = text;
    'lines: while let Some((line, rest)) = left.split_once('\n') {
        push_name_in(&mut names, line)?;
        left = rest;
    }
    push_name_in(&mut names, left)?;
    Ok(names)
}

// Adds the name that a line writes down, if it is such a line.
fn push_name_in<'a>(names: &mut Vec<BookName<'a>>, line: &'a str) -> Result<(), AllocError>
    ensures { OnOk result (map naming.book_name_view names.new.items
        ≡ map naming.book_name_view names.old.items ++ listed (naming.name_in line.now)) }
{
    match name_in(line) {
        Some(named) => push_name(names, named.book, named.name),
        None => Ok(()),
    }
}

// The name that a line `CODE NAME` writes down, if it is such a line.
fn name_in(line: &str) -> Option<BookName<'_>>
    ensures { option_map naming.book_name_view result ≡ naming.name_in line.now }
{
    match line.split_once(' ') {
        Some((code, name)) => named_if(code, name),
        None => None,
    }
}

// A book with the name of its file, where these are one.
fn named_if<'a>(code: &str, name: &'a str) -> Option<BookName<'a>>
    ensures { option_map naming.book_name_view result ≡ naming.named_if code.now name.now }
{
    match Book::read(code) {
        Ok(book) if may_be_book(name) && !has_byte(name, b'/') => Some(BookName { book, name }),
        _ => None,
    }
}
