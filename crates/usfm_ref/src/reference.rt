ghost use Rattle.std.specs.Prelude.{◌≡◌, ◌↔◌, ◌≤◌, ℕ, List, take, IfOk, IfSome, MatchOption, None};
ghost use Rattle.std.specs.Prelude.{Some, Ok, Err, false};
ghost use Rattle.std.specs.String.{string_bytes};
ghost use Rattle.usfm_ref.specs.Books.{is_book_code};
ghost use Rattle.usfm_ref.specs.Keys.{KeyParts};
ghost use Rattle.usfm_ref.specs.References as references;
ghost use Rattle.usfm_ref.specs.References.{IsRefTo, key_text, ref_text};

use crate::book::Book;
use crate::fault::RefFault;
use crate::key::{Key, Place};
use crate::number::number_at;
use std::alloc::{AllocError, Global};
use std::str::FromStr;

/// Reads a reference: a book's code, one space and a key, as `MAT 0`, `MAT 5`, `MAT 5:3` or
/// `MAT 5:3a`. The numbers are 0 to 999 without leading zeros, the letter is one of a to z.
///
/// # Errors
/// `BadBook` where the first three bytes are no book's code, and else `BadRef` where the text is
/// no reference.
pub fn read_ref(text: &str) -> Result<(Book, Key), RefFault>
    ensures reads { IfOk result (λ r. IsRefTo text.now r.0 r.1) }
    ensures only { (book : List ℕ) (key : KeyParts) → IsRefTo text.now book key
        → result ≡ Ok (book, key) }
    ensures bad_book { (result ≡ Err RefFault.BadBook) ↔ (is_book_code (take 3 text.now) ≡ false) }
    ensures value { result ≡ references.ref_in text.now }
{
    let Some((code, after)) = text.as_bytes().split_first_chunk::<3>() else {
        return Err(RefFault::BadBook);
    };
    let Some(book) = Book::of_code(*code) else {
        return Err(RefFault::BadBook);
    };
    match key_after(after) {
        Some(key) => Ok((book, key)),
        None => Err(RefFault::BadRef),
    }
}

/// Writes a reference: the book's code, one space and the key, as `MAT 5:3a`. `read_ref` reads it
/// again.
///
/// # Errors
/// `AllocError` where there is no memory for the text.
pub fn write_ref(alloc: Global, book: Book, key: Key) -> Result<String, AllocError>
    ensures { IfOk result (λ text. string_bytes text ≡ ref_text book key) }
{
    format!(in alloc; "{book} {key}")
}

/// Writes a key: its chapter in decimal, and for a verse a colon, the verse in decimal and its
/// letter, as `0`, `5`, `5:3` or `5:3a`.
///
/// # Errors
/// `AllocError` where there is no memory for the text.
pub fn write_key(alloc: Global, key: Key) -> Result<String, AllocError>
    ensures { IfOk result (λ text. string_bytes text ≡ key_text key) }
{
    key.to_string(alloc)
}

// A number of one to three digits without leading zeros, and what comes after it.
#[tactic(auto, unfolding(crate::specs::References::plain_at))]
fn plain_at(bytes: &[u8]) -> Option<(u16, &[u8])>
    ensures value { MatchOption result (references.plain_at bytes.now ≡ None)
        (λ n. references.plain_at bytes.now ≡ Some (n.0, n.1.now)) }
    ensures within { IfSome result (λ n. n.0 ≤ 999) }
{
    match bytes {
        [b'0', b'0'..=b'9', ..] => None,
        _ => number_at(bytes),
    }
}

// The place of a key after its chapter.
#[tactic(auto, unfolding(crate::specs::References::place_in))]
fn place_in(bytes: &[u8]) -> Option<Place>
    ensures { result ≡ references.place_in bytes.now }
{
    let verse = match bytes {
        [] => return Some(Place::Head),
        [b':', verse @ ..] => verse,
        _ => return None,
    };
    let (number, letter) = match plain_at(verse)? {
        (number, []) => (number, None),
        (number, [letter @ b'a'..=b'z']) => (number, Some(*letter)),
        _ => return None,
    };
    Some(Place::Verse { number, letter })
}

#[tactic(auto, unfolding(crate::specs::References::key_in))]
fn key_in(bytes: &[u8]) -> Option<Key>
    ensures { result ≡ references.key_in bytes.now }
{
    let (chapter, after) = plain_at(bytes)?;
    let place = place_in(after)?;
    Some(Key { chapter, place })
}

/// Reads a key as `Display` writes it: `0`, `5`, `5:3` or `5:3a`. Any other text is `BadRef`.
impl FromStr for Key {
    type Err = RefFault;

    ghost from_str_gives = { λ text result. result ≡ references.key_of text };

    fn from_str(text: &str) -> Result<Key, RefFault> {
        key_in(text.as_bytes()).ok_or(RefFault::BadRef)
    }
}

// The key after one space.
#[tactic(auto, unfolding(crate::specs::References::key_after))]
fn key_after(bytes: &[u8]) -> Option<Key>
    ensures { result ≡ references.key_after bytes.now }
{
    match bytes {
        [b' ', key @ ..] => key_in(key),
        _ => None,
    }
}
