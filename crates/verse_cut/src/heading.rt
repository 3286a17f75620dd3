ghost use Rattle.std.specs.Prelude.{◌≡◌, ◌↔◌, ℕ, List, IsTrue, IfOk, MatchOption, None, Some, Ok};
ghost use Rattle.std.specs.Prelude.{Err};
ghost use Rattle.usfm_ref.specs.Books.{is_book_code};
ghost use Rattle.verse_cut.specs.Fits.{BeginsWithId, IsHeaded, ends_code};
ghost use Rattle.verse_cut.specs.Reading as reading;

use crate::fault::BookFault;
use usfm_ref::{Book, is_blank};

/// The book that a text begins with: at most one U+FEFF, `\id`, one blank (space, tab, CR, LF),
/// the book's code, and then a blank, a backslash or the end. What comes after is not looked at.
/// It does not allocate.
///
/// # Errors
/// `NoId` where the text does not begin with at most one U+FEFF, `\id` and a blank, and else
/// `BadBook` where no code, and what may follow it, comes after.
pub fn book_of(text: &str) -> Result<Book, BookFault>
    ensures reads { IfOk result (λ book. IsHeaded book text.now) }
    ensures only { (book : List ℕ) → IsTrue (is_book_code book)
        → IsHeaded book text.now → result ≡ Ok book }
    ensures no_id { (result ≡ Err BookFault.NoId)
        ↔ ((after : List ℕ) → BeginsWithId text.now after → ⊥) }
    ensures value { result ≡ reading.book_in text.now }
{
    match after_id(text.as_bytes()) {
        None => Err(BookFault::NoId),
        Some(after) => match leading_book(after) {
            None => Err(BookFault::BadBook),
            Some(book) => Ok(book),
        },
    }
}

// Whether the text begins with `\id` and the book's code, which ends.
pub(crate) fn is_headed(book: Book, text: &str) -> bool
    ensures { result ≡ reading.is_headed book text.now }
{
    let Some(after) = after_id(text.as_bytes()) else {
        return false;
    };
    match after.split_first_chunk::<3>() {
        Some((code, rest)) => *code == book.code() && ends_code(rest),
        None => false,
    }
}

// What comes after `\id` and one blank at the front, or after U+FEFF at the front.
#[tactic(auto, unfolding(crate::specs::Reading::after_id))]
fn after_id(text: &[u8]) -> Option<&[u8]>
    ensures { MatchOption result (reading.after_id text.now ≡ None)
        (λ after. reading.after_id text.now ≡ Some after.now) }
{
    match text {
        [0xEF, 0xBB, 0xBF, bytes @ ..] => id_at(bytes),
        _ => id_at(text),
    }
}

fn id_at(bytes: &[u8]) -> Option<&[u8]>
    ensures { MatchOption result (reading.id_at bytes.now ≡ None)
        (λ after. reading.id_at bytes.now ≡ Some after.now) }
{
    match bytes {
        [b'\\', b'i', b'd', blank, after @ ..] if is_blank(*blank) => Some(after),
        _ => None,
    }
}

// Whether a code may end before these bytes.
fn ends_code(rest: &[u8]) -> bool
    ensures { result ≡ ends_code rest.now }
{
    match rest {
        [] => true,
        [first, ..] => is_blank(*first) || *first == b'\\',
    }
}

// The book whose code is at the front and ends.
fn leading_book(bytes: &[u8]) -> Option<Book>
    ensures { result ≡ reading.leading_book bytes.now }
{
    match bytes.split_first_chunk::<3>() {
        Some((code, rest)) if ends_code(rest) => Book::of_code(*code),
        _ => None,
    }
}
