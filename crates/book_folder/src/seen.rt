// What was read of a project and a folder, and what a person asked for.
ghost use Rattle.std.specs.Prelude.{◌≡◌};
ghost use Rattle.book_folder.specs.Wanted.{is_none_wanted, no_wishes, wishes_view};

use std::alloc::Global;
use usfm_ref::{Book, Key};

/// A plain file of a folder whose name may be that of a book's file.
#[derive(Clone, Copy, Debug)]
pub struct FoundFile<'a> {
    /// Its name in the folder.
    pub name: &'a str,
    /// Its bytes.
    pub bytes: &'a [u8],
}

/// Which file is a book's, as it was written down.
#[derive(Debug, Drop)]
pub struct Named {
    /// The book.
    pub book: Book,
    /// The name of its file in the folder.
    pub name: String,
}

/// What was read before a folder is planned.
#[derive(Clone, Copy, Debug)]
pub struct Seen<'a> {
    /// The bytes of the project's file.
    pub project: &'a [u8],
    /// The bundles that make up the base: what the files were written from.
    pub bases: &'a [Vec<u8>],
    /// The base that was being written when a command was cut short.
    pub next: Option<&'a [u8]>,
    /// The older bases before the base, the newest first.
    pub older: &'a [Vec<u8>],
    /// The books of which a new file stands in the program's folder, as a command that was cut
    /// short left it.
    pub unplaced: &'a [Book],
    /// The names of the books' files as they were written down, in the order of books.
    pub names: &'a [Named],
    /// The plain files whose names may be those of books' files, in the order of their names.
    pub files: &'a [FoundFile<'a>],
    /// The names of what else stands under such names.
    pub others: &'a [&'a str],
    /// The bundles that are given.
    pub bundles: &'a [Vec<u8>],
}

/// A segment, or all segments of a book.
#[derive(Clone, Copy, Debug)]
pub struct Wanted {
    /// The book.
    pub book: Book,
    /// The segment's key; all where there is none.
    pub key: Option<Key>,
}

/// What a person asked for, beyond what a folder's files say.
#[derive(Debug, Drop)]
pub struct Wishes {
    /// Whether texts that are gone from a file are gone on purpose.
    pub emptied: bool,
    /// Whether what came in was undone on purpose.
    pub undone: bool,
    /// Whether a file that undoes what came in is an older one, which did not have it.
    pub stale: bool,
    /// Whether a bundle of another project is to be joined.
    pub joined: bool,
    /// What a file settles.
    pub settled: Vec<Wanted>,
    /// A name that says how new files are to be named.
    pub form: Option<String>,
}

impl Wishes {
    /// No wishes.
    pub fn none(alloc: Global) -> Wishes
        ensures { wishes_view result ≡ no_wishes }
    {
        Wishes {
            emptied: false,
            undone: false,
            stale: false,
            joined: false,
            settled: Vec::new(alloc),
            form: None,
        }
    }

    // Whether no conflict is to be settled.
    pub(crate) fn settles_none(&self) -> bool
        ensures { result ≡ is_none_wanted (wishes_view self.now).settled }
    {
        match self.settled.as_slice() {
            [] => true,
            [_, ..] => false,
        }
    }
}
