// The commands of a project.
ghost use Rattle.std.specs.Prelude.{◌≡◌};
ghost use Rattle.usfm_cli.specs.Commands.{only_tells};
ghost use Rattle.verse_cut.specs.Reading.{book_in};
ghost use Rattle.usfm_cli.specs.Seen.{book_if, book_of_file, edited_book, looked_at};

use crate::steps::text_in;
use op_core::OpId;
use usfm_ref::{Book, Key};
use verse_cut::book_of;

/// A command of a project. Files, bundles and texts are bytes as they came.
#[derive(Clone, Copy, Debug)]
pub enum Command<'a> {
    /// Takes in the file of a book, by the edits that make it the book's export: `added N`.
    Import(&'a [u8]),
    /// Takes in what was changed in the file of a book since it was written from the base, a
    /// bundle: `added N`.
    ImportSince {
        file: &'a [u8],
        base: &'a [u8],
    },
    /// Gives a segment a text, in the place of all that it shows: `made NUMBER NAME`.
    Edit {
        book: Book,
        key: Key,
        text: &'a [u8],
    },
    /// Gives a segment a text, in the place of some operations that it shows: `made NUMBER NAME`.
    EditOver {
        book: Book,
        key: Key,
        text: &'a [u8],
        ids: &'a [OpId],
    },
    /// Gives a segment the text of one of the operations that it shows, in the place of some: `made
    /// NUMBER NAME`.
    EditWith {
        book: Book,
        key: Key,
        of: OpId,
        ids: &'a [OpId],
    },
    /// Takes in a bundle: `new N`.
    Receive(&'a [u8]),
    /// Leaves out the texts of the operations that another one of their segment replaces:
    /// `thinned N`.
    Thin,
    /// Lists what a segment shows: for each operation `op NUMBER NAME LENGTH`, its text and a line
    /// feed.
    Shown(Book, Key),
    /// Gives the bundle of all operations.
    Send,
    /// Gives the text of a book.
    Export(Book),
    /// Gives the summary of the operations that are held.
    Summary,
    /// Gives the bundle of the operations that lie outside a summary, which is what another copy
    /// lacks, and where one of these is thinned, of all others of its segment.
    Delta(&'a [u8]),
    /// Reports the conflicts, and the operations that are awaited.
    Report,
    /// Reports what is found in a book by a style sheet: for each finding `REF CODE START`.
    Check(Book, &'a [u8]),
    /// Finds a needle in a book by a style sheet: for each hit `REF START`.
    Find(Book, &'a [u8], &'a str),
    /// Lists the words of a book by a style sheet: for each the form, and its keys.
    Words(Book, &'a [u8]),
}

impl Command<'_> {
    // Whether it only reports, and changes nothing.
    pub(crate) fn only_tells(&self) -> bool
        ensures { result ≡ only_tells self.now }
    {
        match self {
            Command::Import(_)
            | Command::ImportSince { .. }
            | Command::Edit { .. }
            | Command::EditOver { .. }
            | Command::EditWith { .. }
            | Command::Receive(_)
            | Command::Thin => false,
            Command::Shown(_, _)
            | Command::Send
            | Command::Export(_)
            | Command::Summary
            | Command::Delta(_)
            | Command::Report
            | Command::Check(_, _)
            | Command::Find(_, _, _)
            | Command::Words(_, _) => true,
        }
    }

    // The one book that it looks at, if it does not look at all of a project.
    pub(crate) fn looked_at(&self) -> Option<Book>
        ensures { result ≡ looked_at self.now }
    {
        match *self {
            Command::Import(_)
            | Command::ImportSince { .. }
            | Command::Edit { .. }
            | Command::EditOver { .. }
            | Command::EditWith { .. }
            | Command::Receive(_)
            | Command::Thin
            | Command::Send
            | Command::Summary
            | Command::Delta(_)
            | Command::Report => None,
            Command::Shown(book, _)
            | Command::Export(book)
            | Command::Check(book, _)
            | Command::Find(book, _, _)
            | Command::Words(book, _) => Some(book),
        }
    }

    // The one book that it edits, if it edits one, and that can be told.
    pub(crate) fn edited_book(&self) -> Option<Book>
        ensures { result ≡ edited_book self.now }
    {
        match *self {
            Command::Import(file) => book_of_file(file),
            Command::Edit { book, .. }
            | Command::EditOver { book, .. }
            | Command::EditWith { book, .. } => Some(book),
            Command::ImportSince { .. }
            | Command::Receive(_)
            | Command::Thin
            | Command::Shown(_, _)
            | Command::Send
            | Command::Export(_)
            | Command::Summary
            | Command::Delta(_)
            | Command::Report
            | Command::Check(_, _)
            | Command::Find(_, _, _)
            | Command::Words(_, _) => None,
        }
    }
}

// The book that a file begins with, if the file is text and begins with one.
fn book_of_file(file: &[u8]) -> Option<Book>
    ensures { result ≡ book_of_file file.now }
{
    match text_in(file) {
        Ok(text) => book_of_text(text),
        Err(_) => None,
    }
}

// The book that a text begins with, if it begins with one.
fn book_of_text(text: &str) -> Option<Book>
    ensures { result ≡ book_if (book_in text.now) }
{
    match book_of(text) {
        Ok(book) => Some(book),
        Err(_) => None,
    }
}
