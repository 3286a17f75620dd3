// Which files of a folder are books'.
ghost use Rattle.std.specs.Prelude.{◌≡◌, ◌+◌, ◌<◌, ◌^◌, IfOk, length, map, option_map, take};
ghost use Rattle.std.specs.Str.Lossy.{utf8_valid_len};
ghost use Rattle.usfm_ref.specs.Books.{same_bytes};
ghost use Rattle.book_folder.specs.Files as which;
ghost use Rattle.book_folder.specs.Wanted.{found_view};

use crate::seen::{FoundFile, Seen};
use std::alloc::{AllocError, Global};
use usfm_ref::Book;
use usfm_token::{TokenFault, read_text};
use verse_cut::book_of;

const ENDINGS: [&[u8]; 2] = [b".usfm", b".sfm"];

/// Whether a file of this name in a folder may be a book's: it is not hidden, and the name ends in
/// `.usfm` or `.sfm`, in any case. It does not allocate.
pub fn may_be_book(name: &str) -> bool
    ensures { result ≡ which.may_be_book name.now }
{
    let name = name.as_bytes();
    !name.starts_with(b".") && ENDINGS.iter().any(|ending| ends_in(name, ending))
}

// Whether the name ends so, in any case of the letters A to Z.
fn ends_in(name: &[u8], ending: &[u8]) -> bool
    ensures { result ≡ which.ends_in name.now ending.now }
{
    let (_, end) = name.split_at(name.len().saturating_sub(ending.len()));
    end.eq_ignore_ascii_case(ending)
}

/// The book that a file begins with, by its front that is UTF-8: at most one U+FEFF, `\id`, a
/// blank, and a book's code that ends. It does not allocate.
pub fn book_begun(file: &[u8]) -> Option<Book>
    ensures { result ≡ which.book_begun file.now }
{
    book_of(text_front(file)).ok()
}

// The text that bytes are, if they are one.
pub(crate) fn text_if(bytes: &[u8]) -> Option<&str>
    ensures { option_map (λ text. text.now) result ≡ which.text_if bytes.now }
{
    match read_text(bytes) {
        Ok(text) => Some(text),
        Err(TokenFault::NotUtf8 { .. }) => None,
    }
}

// The longest front of a file that is UTF-8.
fn text_front(file: &[u8]) -> &str
    ensures { result.now ≡ take (utf8_valid_len file.now) file.now }
{
    match read_text(file) {
        Ok(text) => text,
        Err(TokenFault::NotUtf8 { valid }) => read_text(&file[..valid]).unwrap(),
    }
}

// A book's file, and which of those that were read it is.
#[derive(Debug, Drop)]
pub(crate) struct BookFile<'a> {
    pub(crate) at: usize,
    pub(crate) book: Book,
    pub(crate) name: &'a str,
    pub(crate) bytes: &'a [u8],
}

// The files that are not looked at yet, of which the first has this place.
#[derive(Drop)]
struct BookFiles<'a> {
    at: usize,
    left: &'a [FoundFile<'a>],
    ghost within: { at + length left.now < 2 ^ 64 },
}

impl<'a> Iterator for BookFiles<'a> {
    ghost use Rattle.std.specs.Iterator.{YieldsFirstBy, item_count};
    ghost use Rattle.book_folder.specs.Loops.{files_left};

    type Item = BookFile<'a>;

    ghost next_gives = { YieldsFirstBy which.file_view files_left };

    ghost remaining = { item_count files_left };

    fn next(&mut self) -> Option<BookFile<'a>> {
        'found: while let [found, later @ ..] = self.left {
            let at = self.at;
            self.left = later;
            self.at = at + 1;
            if let Some(book) = book_begun(found.bytes) {
                return Some(BookFile {
                    at,
                    book,
                    name: found.name,
                    bytes: found.bytes,
                });
            }
        }
        None
    }
}

// The files that begin with a book's `\id`, in the order of their names.
pub(crate) fn book_files<'a>(
    alloc: Global,
    seen: &Seen<'a>,
) -> Result<Vec<BookFile<'a>>, AllocError>
    ensures { IfOk result (λ made. which.files_view made.items
        ≡ which.files_from 0 (map found_view seen.now.files.now)) }
{
    BookFiles {
        at: 0,
        left: seen.files,
    }
    .collect(alloc)
}

// Whether two books are one, by their codes.
pub(crate) fn is_same_book(one: Book, other: Book) -> bool
    ensures { result ≡ same_bytes one other }
{
    let code = other.code();
    one.code().as_slice() == code.as_slice()
}
