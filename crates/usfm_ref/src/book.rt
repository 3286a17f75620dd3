ghost use Rattle.std.specs.Prelude.{◌≡◌, ◌↔◌, not, Some, IsTrue, IsOk, IfOk, IfErr, IsSome, IfSome};
ghost use Rattle.std.specs.List.{position_or_len};
ghost use Rattle.std.specs.Ordering.{is_lt};
ghost use Rattle.usfm_ref.specs.Books.{is_book_code, book_of, rank_of, is_code_char, code_cmp};
ghost use Rattle.usfm_ref.specs.Books.{has_canon};
ghost use Rattle.usfm_ref.specs.Rising.{rises_by};

use crate::fault::RefFault;
use std::fmt;
use std::marker::Model;
use std::str::FromStr;

/// A book, by its code of three of A to Z and 0 to 9, as USFM 3.0 names books.
///
/// Books go in the order of the 66 books of the canon, Genesis to Revelation, and after them
/// every other code by its bytes.
#[derive(Clone, Copy, Debug, PartialEq, Eq, PartialOrd, Ord, Hash)]
pub struct Book {
    rank: u8,
    code: [u8; 3],
}

impl Model for Book {
    ghost use Rattle.std.specs.Prelude.{List, ℕ, ◌≡◌, IsTrue};
    ghost use Rattle.std.proofs.Common.{sym};
    ghost use Rattle.usfm_ref.specs.Books.{is_book_code, rank_of};

    ghost Value = { List ℕ };

    ghost view = { λ b. b.code };

    ghost invariant = { λ b. IsTrue (is_book_code b.code) × (b.rank ≡ rank_of b.code) };

    ghost inverse = { λ c. record { rank = rank_of c; code = c } };

    ghost inverse_ok = { λ b h i. record { rank = sym h.1 i; code = b.code } };
}

// The codes of the canon by their bytes, each with its place in the canon, so that a code is found
// by binary search.
static BY_CODE: [([u8; 3], u8); 66] = [
    (*b"1CH", 12),
    (*b"1CO", 45),
    (*b"1JN", 61),
    (*b"1KI", 10),
    (*b"1PE", 59),
    (*b"1SA", 8),
    (*b"1TH", 51),
    (*b"1TI", 53),
    (*b"2CH", 13),
    (*b"2CO", 46),
    (*b"2JN", 62),
    (*b"2KI", 11),
    (*b"2PE", 60),
    (*b"2SA", 9),
    (*b"2TH", 52),
    (*b"2TI", 54),
    (*b"3JN", 63),
    (*b"ACT", 43),
    (*b"AMO", 29),
    (*b"COL", 50),
    (*b"DAN", 26),
    (*b"DEU", 4),
    (*b"ECC", 20),
    (*b"EPH", 48),
    (*b"EST", 16),
    (*b"EXO", 1),
    (*b"EZK", 25),
    (*b"EZR", 14),
    (*b"GAL", 47),
    (*b"GEN", 0),
    (*b"HAB", 34),
    (*b"HAG", 36),
    (*b"HEB", 57),
    (*b"HOS", 27),
    (*b"ISA", 22),
    (*b"JAS", 58),
    (*b"JDG", 6),
    (*b"JER", 23),
    (*b"JHN", 42),
    (*b"JOB", 17),
    (*b"JOL", 28),
    (*b"JON", 31),
    (*b"JOS", 5),
    (*b"JUD", 64),
    (*b"LAM", 24),
    (*b"LEV", 2),
    (*b"LUK", 41),
    (*b"MAL", 38),
    (*b"MAT", 39),
    (*b"MIC", 32),
    (*b"MRK", 40),
    (*b"NAM", 33),
    (*b"NEH", 15),
    (*b"NUM", 3),
    (*b"OBA", 30),
    (*b"PHM", 56),
    (*b"PHP", 49),
    (*b"PRO", 19),
    (*b"PSA", 18),
    (*b"REV", 65),
    (*b"ROM", 44),
    (*b"RUT", 7),
    (*b"SNG", 21),
    (*b"TIT", 55),
    (*b"ZEC", 37),
    (*b"ZEP", 35),
];

impl Book {
    /// Reads a book's code.
    ///
    /// # Errors
    /// `BadBook` where the text is anything but three of A to Z and 0 to 9.
    pub fn read(text: &str) -> Result<Book, RefFault>
        ensures accepts { IsOk result ↔ IsTrue (is_book_code text.now) }
        ensures ok { IfOk result (λ book. book ≡ text.now) }
        ensures refused { IfErr result (λ fault. fault ≡ RefFault.BadBook) }
    {
        let [a, b, c] = text.as_bytes() else {
            return Err(RefFault::BadBook);
        };
        match Book::of_code([*a, *b, *c]) {
            Some(book) => Ok(book),
            None => Err(RefFault::BadBook),
        }
    }

    /// The book of three bytes. None where they are no book's code.
    pub fn of_code(code: [u8; 3]) -> Option<Book>
        ensures accepts { IsSome result ↔ IsTrue (is_book_code code) }
        ensures book { IfSome result (λ book. book ≡ code) }
    {
        if is_code_byte(code[0]) && is_code_byte(code[1]) && is_code_byte(code[2]) {
            Some(Book {
                rank: rank(&code),
                code,
            })
        } else {
            None
        }
    }

    /// The book's code: three bytes of ASCII.
    pub fn code(self) -> [u8; 3]
        ensures code { result ≡ self }
        ensures valid { IsTrue (is_book_code self) }
    {
        self.code
    }
}

/// Reads a book's code, as `Book::read` does.
impl FromStr for Book {
    type Err = RefFault;

    ghost from_str_gives = { λ text result. result ≡ book_of text };

    fn from_str(text: &str) -> Result<Book, RefFault> {
        Book::read(text)
    }
}

/// Writes the book's code.
impl fmt::Display for Book {
    ghost output = { λ book. Some book };

    fn fmt<W: fmt::Write>(&self, f: &mut fmt::Formatter<W>) -> fmt::Result {
        let [a, b, c] = self.code();
        let (a, b, c) = (char::from(a), char::from(b), char::from(c));
        write!(f, "{a}{b}{c}")
    }
}

fn is_code_byte(byte: u8) -> bool
    ensures { result ≡ is_code_char byte }
{
    byte.is_ascii_uppercase() || byte.is_ascii_digit()
}

// The place of a code in the canon, or 66.
fn rank(code: &[u8; 3]) -> u8
    ensures { result ≡ rank_of code.now }
{
    rank_among(&BY_CODE, code)
}

// The place of a code in the canon, or 66, by a list of the canon's codes that rises.
fn rank_among(known: &[([u8; 3], u8)], code: &[u8; 3]) -> u8
    requires rising { IsTrue (rises_by code_cmp (λ e. e.0) known.now) }
    requires canon { IsTrue (has_canon known.now) }
    ensures { result ≡ rank_of code.now }
{
    let at = place(known, code);
    if at < known.len() {
        let (found, rank) = known[at];
        if found == *code {
            return rank;
        }
    }
    66
}

// How many codes at the front are below this one.
fn place(known: &[([u8; 3], u8)], code: &[u8; 3]) -> usize
    requires rising { IsTrue (rises_by code_cmp (λ e. e.0) known.now) }
    ensures { result ≡ position_or_len (λ e. not (is_lt (code_cmp e.0 code.now))) known.now }
{
    known.partition_point(
        |entry| -> bool
            ensures { result ≡ is_lt (code_cmp entry.now.0 code.entry.now) }
        { entry.0.cmp(code).is_lt() },
    )
}
