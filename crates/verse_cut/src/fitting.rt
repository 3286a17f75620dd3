ghost use Rattle.std.specs.Prelude.{◌≡◌, ℕ, List, false};
ghost use Rattle.std.specs.Bool.{Decides};
ghost use Rattle.usfm_ref.specs.Keys.{book_head, same_key};
ghost use Rattle.usfm_token.specs.Tokens.{tokens_of};
ghost use Rattle.verse_cut.specs.Fits.{Fits};
ghost use Rattle.verse_cut.specs.Reading.{is_quiet, leads, text_fits};

use crate::heading::is_headed;
use crate::walk::Walk;
use usfm_ref::{Book, Key};

/// Whether a text fits a key of a book. It does not allocate.
///
/// A text fits the head of the book where it is at most one U+FEFF, `\id`, one blank, the book's
/// code, and then a blank, a backslash or the end, and no mark in it opens a piece. A text fits
/// every other key where it is empty, or begins with a mark of that key and has no mark of a
/// greater one after it, the key's chapter being the greatest at its front.
pub fn fits(book: Book, key: Key, text: &str) -> bool
    ensures fits { Decides result (Fits book key text.now) }
    ensures value { result ≡ text_fits book key text.now }
{
    if key.is_book_head() {
        is_headed(book, text) && is_quiet(key, text)
    } else {
        fits_below_head(key, text)
    }
}

/// Whether a text fits a key other than the head of the book, of which book does not matter. It
/// does not allocate.
pub fn fits_below_head(key: Key, text: &str) -> bool
    requires below { same_key key book_head ≡ false }
    ensures fits { (book : List ℕ) → Decides result (Fits book key text.now) }
    ensures value { (book : List ℕ) → result ≡ text_fits book key text.now }
{
    text.is_empty() || leads(key, text)
}

// Whether a mark with the key stands at the front, and no later one has a greater key.
fn leads(key: Key, text: &str) -> bool
    ensures { result ≡ leads key (tokens_of text.now) }
{
    let mut walk = Walk::new(text);
    walk.leads(key) && walk.next_above(key).is_none()
}

// Whether no mark has a key above this one, whose chapter is the greatest before them.
fn is_quiet(key: Key, text: &str) -> bool
    ensures { result ≡ is_quiet key (tokens_of text.now) }
{
    Walk::new(text).next_above(key).is_none()
}
