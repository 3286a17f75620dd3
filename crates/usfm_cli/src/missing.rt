// What is missing of a project by a versification: of all its books, or of those books and chapters
// that are named.
ghost use Rattle.std.specs.Prelude.{◌≡◌, ◌≤◌, ◌++◌, [], Ok, IfOk, IfErr, OnOk, if◌then◌else◌};
ghost use Rattle.std.specs.List.{flat_map, list_any};
ghost use Rattle.op_core.specs.Export.{has_book};
ghost use Rattle.op_core.specs.Lists.{books_of};
ghost use Rattle.project_file.specs.Projects.{project_at};
ghost use Rattle.versification.specs.Views.{verses_in};
ghost use Rattle.missing_verses.specs.Numbers.{below};
ghost use Rattle.usfm_cli.specs.Commands.{Gives, any_fault};
ghost use Rattle.command_faults.specs.Faults.{of_loading};
ghost use Rattle.usfm_cli.specs.Missing as missing;
ghost use Rattle.usfm_cli.specs.OverBooks as over;
ghost use Rattle.usfm_cli.specs.Projects.{RefusesFile};

use crate::copies::has_book;
use crate::every_book::as_text;
use crate::over_books::load_seen;
use command_faults::Fault;
use missing_verses::{Part, missing_in_book, missing_in_chapter};
use replica_state::Replica;
use std::alloc::{AllocError, Global};
use usfm_export::{TextFault, book_text};
use usfm_ref::Book;
use versification::Versification;

// Chapters are 0 to 999.
const CHAPTERS: u16 = 1000;

// The book that it is of.
fn book_of(part: &Part) -> Book
    ensures { result ≡ missing.book_named part.now }
{
    match *part {
        Part::Whole(book) | Part::OneChapter(book, _) => book,
    }
}

// Whether it is of the book.
fn is_of(part: &Part, book: Book) -> bool
    ensures { result ≡ missing.is_of book part.now }
{
    book_of(part) == book
}

// Whether it is all of the book.
fn is_book(part: &Part, book: Book) -> bool
    ensures { result ≡ missing.names_book book part.now }
{
    match *part {
        Part::Whole(other) => other == book,
        Part::OneChapter(_, _) => false,
    }
}

// Whether it is the chapter of the book.
fn is_chapter(part: &Part, book: Book, chapter: u16) -> bool
    ensures { result ≡ missing.names_chapter book chapter part.now }
{
    match *part {
        Part::Whole(_) => false,
        Part::OneChapter(other, number) => other == book && number == chapter,
    }
}

// By what a project is looked at.
#[derive(Clone, Copy, Debug)]
struct Look<'a> {
    versification: &'a Versification,
    // What is named; all books where nothing is.
    parts: &'a [Part],
    // Whether books are listed of which there is nothing.
    all: bool,
}

/// What is missing of a project by a versification, given the bytes of both files: of all books, or
/// of those parts that are named. Of each book it is what `missing_verses` lists of its export, in
/// the order of the books. A book of which there is nothing is listed where `all` asks for such
/// books, as `missing MRK`, if the versification has it.
///
/// # Errors
/// First those of the project: `BadProject` (110), `Bundle` (60 to 69), `Trailing` (70). Then
/// `BadVersification` (43) with the first line of the versification that has none of the forms, and
/// `NoBook` (82) where a named book has no operation, unless `all`. `Memory` (1) where an
/// allocation failed; it may come in the place of these two, since what the project holds is copied
/// before the versification is read, and that before the books are looked for.
pub fn project_missing(
    alloc: Global,
    project: &[u8],
    parts: &[Part],
    all: bool,
    versification: &[u8],
) -> Result<Vec<u8>, Fault>
    ensures answer { over.AnswersProject project.now
        (λ held. missing.missing_by held parts.now all versification.now) result }
    // A file that is no project is refused for that, whatever memory there is; but for its bundle,
    // where an operation of it is thinned.
    ensures no_project { IfErr (project_at project.now) (λ fault.
        RefusesFile project.now (of_loading fault) result) }
{
    let replica = load_seen(alloc, project, &None)?;
    missing_by(alloc, &replica, parts, all, versification)
}

// What is missing of a replica by the versification of a file.
fn missing_by(
    alloc: Global,
    replica: &Replica,
    parts: &[Part],
    all: bool,
    file: &[u8],
) -> Result<Vec<u8>, Fault>
    ensures { Gives any_fault
        (missing.missing_by replica.now.held parts.now all file.now) result }
{
    let versification = Versification::read(alloc, file)?;
    if !all && !have_operations(replica, parts) {
        return Err(Fault::NoBook);
    }
    let look = Look {
        versification: &versification,
        parts,
        all,
    };
    Ok(look.lines(alloc, replica)?)
}

// Whether each book that is named has an operation.
fn have_operations(replica: &Replica, parts: &[Part]) -> bool
    ensures { result ≡ missing.has_books replica.now.held parts.now }
{
    parts
        .iter()
        .all(|part| has_operation(replica, book_of(part)))
}

// Whether a book has an operation.
fn has_operation(replica: &Replica, book: Book) -> bool
    ensures { result ≡ has_book replica.now.held book }
{
    has_book(replica.set(), book)
}

// Whether something of the book is named.
fn are_of(parts: &[Part], book: Book) -> bool
    ensures { result ≡ list_any (missing.is_of book) parts.now }
{
    parts.iter().any(|part| is_of(part, book))
}

// Whether all of the book is named.
fn name_book(parts: &[Part], book: Book) -> bool
    ensures { result ≡ list_any (missing.names_book book) parts.now }
{
    parts.iter().any(|part| is_book(part, book))
}

// Whether the chapter of the book is named.
fn name_chapter(parts: &[Part], book: Book, chapter: u16) -> bool
    ensures { result ≡ missing.has_chapter parts.now book chapter }
{
    parts.iter().any(|part| is_chapter(part, book, chapter))
}

impl Look<'_> {
    // The lines of all books.
    fn lines(&self, alloc: Global, replica: &Replica) -> Result<Vec<u8>, AllocError>
        ensures { IfOk result (λ bytes. bytes.items
            ≡ missing.lines_by (verses_in self.now.versification.now) replica.now.held
            self.now.parts.now self.now.all) }
    {
        let books = self.books(alloc, replica)?;
        let mut bytes = Vec::new(alloc);
        for book in &books {
            self.push_book(alloc, replica, *book, &mut bytes)?;
        }
        Ok(bytes)
    }

    // The books that are looked at, in their order.
    fn books(&self, alloc: Global, replica: &Replica) -> Result<Vec<Book>, AllocError>
        ensures { IfOk result (λ books. books.items
            ≡ missing.books_by (verses_in self.now.versification.now) replica.now.held
            self.now.all) }
    {
        let mut books = self.named(alloc, replica)?;
        books.sort_unstable();
        books.dedup();
        Ok(books)
    }

    // The books with an operation, and where such are asked for of which there is nothing, those of
    // the versification.
    fn named(&self, alloc: Global, replica: &Replica) -> Result<Vec<Book>, AllocError>
        ensures { IfOk result (λ books. books.items ≡ books_of replica.now.held
            ++ (if self.now.all then (verses_in self.now.versification.now).books else [])) }
    {
        let mut books: Vec<Book> = replica.books().collect(alloc)?;
        if self.all {
            books.extend_from_slice(self.versification.books())?;
        }
        Ok(books)
    }

    // Appends the lines of a book.
    fn push_book(
        &self,
        alloc: Global,
        replica: &Replica,
        book: Book,
        bytes: &mut Vec<u8>,
    ) -> Result<(), AllocError>
        ensures { OnOk result (bytes.new.items ≡ bytes.old.items
            ++ missing.text_lines (verses_in self.now.versification.now) self.now.parts.now
            self.now.all book (missing.text_of replica.now.held book)) }
    {
        match book_text(alloc, replica, book) {
            Ok(text) => self.push_text(alloc, book, as_text(&text), bytes),
            Err(TextFault::NoBook) => self.push_text(alloc, book, "", bytes),
            Err(TextFault::Memory) => Err(AllocError),
        }
    }

    // Appends the lines of a book's text.
    fn push_text(
        &self,
        alloc: Global,
        book: Book,
        text: &str,
        bytes: &mut Vec<u8>,
    ) -> Result<(), AllocError>
        ensures { OnOk result (bytes.new.items ≡ bytes.old.items
            ++ missing.text_lines (verses_in self.now.versification.now) self.now.parts.now
            self.now.all book text.now) }
    {
        if text.is_empty() {
            self.push_absent(alloc, book, bytes)
        } else if self.is_whole(book) {
            let lines = missing_in_book(alloc, self.versification, book, text)?;
            bytes.extend_from_slice(&lines)
        } else {
            self.push_chapters(alloc, book, text, bytes)
        }
    }

    // Appends the line of a book of which there is nothing, if it is asked for.
    fn push_absent(&self, alloc: Global, book: Book, bytes: &mut Vec<u8>) -> Result<(), AllocError>
        ensures { OnOk result (bytes.new.items ≡ bytes.old.items
            ++ missing.absent_lines self.now.parts.now self.now.all book) }
    {
        if !self.all || !self.is_looked_at(book) {
            return Ok(());
        }
        let line = format!(in alloc; "missing {book}\n")?;
        bytes.extend_from_slice(line.as_bytes())
    }

    // Appends the lines of those chapters of a book's text that are named.
    fn push_chapters(
        &self,
        alloc: Global,
        book: Book,
        text: &str,
        bytes: &mut Vec<u8>,
    ) -> Result<(), AllocError>
        ensures { OnOk result (bytes.new.items ≡ bytes.old.items
            ++ flat_map (missing.named_lines (verses_in self.now.versification.now)
            self.now.parts.now book text.now) (below 1000)) }
    {
        for chapter in 0..CHAPTERS {
            self.push_chapter(alloc, book, text, chapter, bytes)?;
        }
        Ok(())
    }

    // Appends the lines of a chapter 0 to 999 of a book's text, if it is named.
    fn push_chapter(
        &self,
        alloc: Global,
        book: Book,
        text: &str,
        chapter: u16,
        bytes: &mut Vec<u8>,
    ) -> Result<(), AllocError>
        requires { chapter ≤ 999 }
        ensures { OnOk result (bytes.new.items ≡ bytes.old.items
            ++ missing.named_lines (verses_in self.now.versification.now) self.now.parts.now
            book text.now chapter) }
    {
        if !name_chapter(self.parts, book, chapter) {
            return Ok(());
        }
        let lines = missing_in_chapter(alloc, self.versification, book, text, chapter)?;
        bytes.extend_from_slice(&lines)
    }

    // Whether something of a book is looked at.
    fn is_looked_at(&self, book: Book) -> bool
        ensures { result ≡ missing.is_looked_at self.now.parts.now book }
    {
        self.parts.is_empty() || are_of(self.parts, book)
    }

    // Whether all of a book is looked at.
    fn is_whole(&self, book: Book) -> bool
        ensures { result ≡ missing.is_whole self.now.parts.now book }
    {
        self.parts.is_empty() || name_book(self.parts, book)
    }
}
