// What stands under the names of the program's folder.
ghost use Rattle.std.specs.Prelude.{◌≡◌};
ghost use Rattle.book_folder.specs.Kept as kept;

use usfm_ref::Book;

/// How a name ends under which a file is written that is to get another name then.
pub const MADE_END: &str = ".made";

const NEW: &[u8] = b"new";

// What an older version of the program gave a book's files.
const BUNDLE: &[u8] = b"bundle";

const NEW_BUNDLE: &[u8] = b"bundle.new";

const NEW_TEXT: &[u8] = b"usfm.new";

/// What stands under a name in the program's folder, beside the bases and the file of names.
#[derive(Clone, Copy, Debug, PartialEq, Eq)]
pub enum KeptName {
    /// A book's new file, `CODE.new`, that was not put in its place.
    New(Book),
    /// The bundle of a book, `CODE.bundle`, which an older version of the program kept as its base.
    OldBase,
    /// What was half written: a file of the program, under a name that ends in `.made`, or, by an
    /// older version, `CODE.bundle.new` or `CODE.usfm.new`.
    HalfWritten,
    /// Something else.
    Other,
}

/// What stands under a name in the program's folder. It does not allocate.
pub fn kept_name(name: &str) -> KeptName
    ensures { result ≡ kept.kept_name name.now }
{
    if ends_in_made(name.as_bytes()) {
        return KeptName::HalfWritten;
    }
    match name.split_once('.') {
        Some((code, ending)) => named_by(code, ending),
        None => KeptName::Other,
    }
}

// Whether a name ends in `.made`.
fn ends_in_made(name: &[u8]) -> bool
    ensures { result ≡ kept.ends_in_made name.now }
{
    let (_, end) = name.split_at(name.len().saturating_sub(MADE_END.len()));
    end == MADE_END.as_bytes()
}

// What stands under a name that is a book's code, a full stop and an ending.
fn named_by(code: &str, ending: &str) -> KeptName
    ensures { result ≡ kept.named_by code.now ending.now }
{
    match Book::read(code) {
        Ok(book) => of_book(book, ending.as_bytes()),
        Err(_) => KeptName::Other,
    }
}

// What of a book has this ending.
fn of_book(book: Book, ending: &[u8]) -> KeptName
    ensures { result ≡ kept.of_book book ending.now }
{
    if ending == NEW {
        KeptName::New(book)
    } else if ending == BUNDLE {
        KeptName::OldBase
    } else if ending == NEW_BUNDLE || ending == NEW_TEXT {
        KeptName::HalfWritten
    } else {
        KeptName::Other
    }
}
