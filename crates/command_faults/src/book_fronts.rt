// What a file is by its first bytes, and what is wrong with how a book's file begins.
ghost use Rattle.std.specs.Prelude.{◌≡◌, ◌<◌, Some, drop, length};
ghost use Rattle.command_faults.specs.BookFronts as fronts;

use crate::circumstances::Found;
use memchr::{memchr_iter, memmem};
use std::fmt;
use usfm_ref::Book;

/// How many bytes of a file's front show what it is.
pub const FRONT_BYTES: usize = 64;

/// What is wrong with a word that is to be a book's code, or with how a book's file begins.
#[derive(Clone, Copy, Debug, PartialEq, Eq, Drop)]
pub enum Slip {
    /// The code of this book is written in small letters.
    SmallLetters(Book),
    /// More than one blank comes before the code.
    Blanks,
    /// The first line that begins with `\id` and a space is this one, counted from 1.
    LaterLine(u64),
}

/// Why a file is no book's.
#[derive(Clone, Copy, Debug, PartialEq, Eq, Drop)]
pub enum NoBook {
    /// It is empty.
    Empty,
    /// It begins with the mark of UTF-16, in either order of bytes.
    Utf16,
    /// Its beginning has a slip.
    Slip(Slip),
    /// It does not begin as it has to.
    Other,
}

impl fmt::Display for NoBook {
    ghost output = { λ why. Some (fronts.no_book_words why) };

    fn fmt<W: fmt::Write>(&self, f: &mut fmt::Formatter<W>) -> fmt::Result {
        match self {
            NoBook::Empty => f.write_str("it is empty"),
            NoBook::Utf16 => f.write_str("it is UTF-16: save it as UTF-8"),
            NoBook::Slip(Slip::SmallLetters(book)) => {
                write!(
                    f,
                    "the code after \\id is in small letters: write \\id {book}"
                )
            }
            NoBook::Slip(Slip::Blanks) => f.write_str(
                "one space belongs between \\id and the code",
            ),
            NoBook::Slip(Slip::LaterLine(line)) => {
                write!(f, "\\id stands in line {line}: take out what is before it")
            }
            NoBook::Other => {
                f.write_str("it does not begin with \\id, one space and a book's code in capitals")
            }
        }
    }
}

/// What a file is, by its first bytes: a project, a bundle, sealed or not, or a summary by the first
/// seven of its magic, and a book's file by `\id` after at most one U+FEFF. What begins as these do,
/// but with another kind or number, is of a newer version, and so is a project or a sealed bundle
/// whose bundle is.
pub fn found_file(front: &[u8]) -> Found
    ensures { result ≡ fronts.found_file front.now }
{
    if front.starts_with(b"USFMPJ1") {
        if has_newer_bundle(front) {
            Found::Newer
        } else {
            Found::Project
        }
    } else if is_known_bundle(front) {
        Found::Bundle
    } else if front.starts_with(b"USFMSB1") {
        if seals_newer_bundle(front) {
            Found::Newer
        } else {
            Found::Bundle
        }
    } else if front.starts_with(b"USFMSS1") {
        Found::Summary
    } else if has_magic(front) {
        Found::Newer
    } else if front.starts_with(b"\\id") || front.starts_with(b"\xef\xbb\xbf\\id") {
        Found::BookFile
    } else {
        Found::Other
    }
}

// Whether bytes begin with the magic of a bundle.
fn is_known_bundle(front: &[u8]) -> bool
    ensures { result ≡ fronts.is_known_bundle front.now }
{
    front.starts_with(b"USFMSR1") || front.starts_with(b"USFMSR2")
}

// Whether bytes begin with `USFM`, two capital letters and a digit.
fn has_magic(front: &[u8]) -> bool
    ensures { result ≡ fronts.has_magic front.now }
{
    match front {
        [b'U', b'S', b'F', b'M', kind, more, number, ..] => {
            kind.is_ascii_uppercase() && more.is_ascii_uppercase() && number.is_ascii_digit()
        }
        _ => false,
    }
}

// Whether the bundle of a project is of a newer version. It comes after the magic, a byte with the
// length of the name, and the name.
fn has_newer_bundle(front: &[u8]) -> bool
    ensures { result ≡ fronts.has_newer_bundle front.now }
{
    match front.get(8) {
        Some(length) => match front.get(9 + *length as usize..) {
            Some(bundle) => is_newer_bundle(bundle),
            None => false,
        },
        None => false,
    }
}

// Whether the bundle of a sealed bundle is of a newer version. It comes after the magic, its length
// and its digest.
fn seals_newer_bundle(front: &[u8]) -> bool
    ensures { result ≡ fronts.seals_newer_bundle front.now }
{
    match front.get(48..) {
        Some(bundle) => is_newer_bundle(bundle),
        None => false,
    }
}

// Whether bytes, where a bundle is to begin, begin as one of a newer version.
fn is_newer_bundle(bundle: &[u8]) -> bool
    ensures { result ≡ fronts.is_newer_bundle bundle.now }
{
    has_magic(bundle) && !is_known_bundle(bundle)
}

/// The book whose code a word begins with in small letters: three bytes that are a code in
/// capitals, and are none as they stand, before the word's end, a space or a line's end.
pub fn book_meant(word: &[u8]) -> Option<Book>
    ensures { result ≡ fronts.book_meant word.now }
{
    match word {
        [a, b, c] => capital_code(*a, *b, *c),
        [a, b, c, b' ' | b'\r' | b'\n', ..] => capital_code(*a, *b, *c),
        _ => None,
    }
}

// The book of a code in capitals, if it was not written so.
fn capital_code(a: u8, b: u8, c: u8) -> Option<Book>
    ensures { result ≡ fronts.capital_code a b c }
{
    let capitals = [
        a.to_ascii_uppercase(),
        b.to_ascii_uppercase(),
        c.to_ascii_uppercase(),
    ];
    if capitals == [a, b, c] {
        None
    } else {
        code_book(capitals)
    }
}

fn code_book(code: [u8; 3]) -> Option<Book>
    ensures { result ≡ fronts.code_book code }
{
    Book::of_code(code)
}

/// Why the bytes of a file, which are not those of a book, are not.
pub fn why_no_book(bytes: &[u8]) -> NoBook
    ensures { result ≡ fronts.why_no_book bytes.now }
{
    if bytes.is_empty() {
        NoBook::Empty
    } else if bytes.starts_with(b"\xff\xfe") || bytes.starts_with(b"\xfe\xff") {
        NoBook::Utf16
    } else {
        by_slip(front_slip(bytes))
    }
}

// A slip, if there is one.
fn by_slip(slip: Option<Slip>) -> NoBook
    ensures { result ≡ fronts.by_slip slip }
{
    match slip {
        Some(slip) => NoBook::Slip(slip),
        None => NoBook::Other,
    }
}

/// What is wrong with how a book's file begins, where somebody can see what was meant: its code is
/// in small letters, or comes after more than one blank, or `\id` does not stand in the first line.
pub fn front_slip(bytes: &[u8]) -> Option<Slip>
    ensures { result ≡ fronts.front_slip bytes.now }
{
    let text = after_mark(bytes);
    if text.starts_with(b"\\id ") {
        code_slip(after_id(text))
    } else {
        later_line(text)
    }
}

// What follows the four bytes of `\id` and a space.
fn after_id(text: &[u8]) -> &[u8]
    ensures { result.now ≡ drop 4 text.now }
{
    if 4 < text.len() {
        text.split_at(4).1
    } else {
        &[]
    }
}

// What follows a first U+FEFF.
fn after_mark(bytes: &[u8]) -> &[u8]
    ensures { result.now ≡ fronts.after_mark bytes.now }
{
    match bytes {
        [0xef, 0xbb, 0xbf, text @ ..] => text,
        _ => bytes,
    }
}

// What is wrong with what follows `\id` and a space.
fn code_slip(code: &[u8]) -> Option<Slip>
    ensures { result ≡ fronts.code_slip code.now }
{
    match code {
        [b' ' | b'\t', ..] => Some(Slip::Blanks),
        _ => match book_meant(code) {
            Some(book) => Some(Slip::SmallLetters(book)),
            None => None,
        },
    }
}

// The first line after the first one that begins with `\id` and a space.
fn later_line(text: &[u8]) -> Option<Slip>
    ensures { result ≡ fronts.later_line text.now }
{
    match memmem::find(text, b"\n\\id ") {
        Some(at) => Some(Slip::LaterLine(line_after(text, at))),
        None => None,
    }
}

// The number of the line, counted from 1, that the line feed at a place begins.
fn line_after(text: &[u8], at: usize) -> u64
    requires { at < length text.now }
    ensures { result ≡ fronts.line_after text.now at }
{
    let (before, _) = text.split_at(at);
    memchr_iter(b'\n', before).count() as u64 + 2
}
