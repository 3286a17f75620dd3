// Books and keys, judged where they are in the bytes.
ghost use Rattle.std.specs.Prelude.{◌≡◌, IsTrue, IfOk, IsOk, Ok, Err};
ghost use Rattle.usfm_ref.specs.Books.{is_code_char, is_book_code};
ghost use Rattle.usfm_ref.specs.Keys.{is_key, is_place};
ghost use Rattle.verse_cut.specs.Reading.{text_fits};
ghost use Rattle.bundle_codec.specs.Reading.{Gives, place_at, key_at};
ghost use Rattle.bundle_codec.specs.Views.{key_view};

use super::fields::{u8_at, u8_in, u16_at, u16_in};
use crate::fault::BundleFault;
use usfm_ref::{Book, Key, Place};
use verse_cut::{fits, fits_below_head};

// A chapter and a place in it, which make a key.
#[derive(Clone, Copy, Debug)]
pub(crate) struct KeyView {
    pub(crate) chapter: u16,
    pub(crate) place: Place,
}

fn is_code_byte(byte: u8) -> bool
    ensures { result ≡ is_code_char byte }
{
    byte.is_ascii_uppercase() || byte.is_ascii_digit()
}

// Whether the bytes are a book's code.
pub(crate) fn is_book_code(bytes: &[u8]) -> bool
    ensures { result ≡ is_book_code bytes.now }
{
    match bytes {
        [a, b, c] => is_code_byte(*a) && is_code_byte(*b) && is_code_byte(*c),
        _ => false,
    }
}

// Judges the place at the front, field by field. What is a key is said by usfm_ref.
#[tactic(auto, unfolding(crate::specs::Reading::place_at))]
fn place_at(bad: BundleFault, bytes: &[u8]) -> Result<(Place, &[u8]), BundleFault>
    ensures reads { Gives (λ x. (x.0, x.1.now)) result (place_at bad bytes.now) }
    ensures right { IfOk result (λ x. IsTrue (is_place x.0)) }
{
    let (kind, rest) = u8_at(bytes)?;
    if kind > 1 {
        return Err(bad);
    }
    let (number, rest) = u16_at(rest)?;
    if number > if kind == 0 { 0 } else { 999 } {
        return Err(bad);
    }
    let (letter, rest) = u8_at(rest)?;
    let letter = match letter {
        0 => None,
        b'a'..=b'z' if kind == 1 => Some(letter),
        _ => return Err(bad),
    };
    if kind == 0 {
        return Ok((Place::Head, rest));
    }
    Ok((Place::Verse { number, letter }, rest))
}

// Judges the key at the front, field by field.
#[tactic(auto, unfolding(crate::specs::Reading::key_at))]
pub(crate) fn key_of(bad: BundleFault, bytes: &[u8]) -> Result<(KeyView, &[u8]), BundleFault>
    ensures reads { Gives (λ x. (key_view x.0, x.1.now)) result (key_at bad bytes.now) }
    ensures right { IfOk result (λ x. IsTrue (is_key x.0.chapter x.0.place)) }
{
    let (chapter, rest) = u16_at(bytes)?;
    if chapter > 999 {
        return Err(bad);
    }
    let (place, rest) = place_at(bad, rest)?;
    Ok((KeyView { chapter, place }, rest))
}

// The place at the front of bytes that were judged.
fn place_in(bad: BundleFault, bytes: &[u8]) -> (Place, &[u8])
    requires { IsOk (place_at bad bytes.now) }
    ensures { place_at bad bytes.now ≡ Ok (result.0, result.1.now) }
{
    let (kind, rest) = u8_in(bytes);
    let (number, rest) = u16_in(rest);
    let (letter, rest) = u8_in(rest);
    if kind == 0 {
        return (Place::Head, rest);
    }
    let letter = if letter == 0 { None } else { Some(letter) };
    (Place::Verse { number, letter }, rest)
}

// The key at the front of bytes that were judged.
pub(crate) fn key_in(bad: BundleFault, bytes: &[u8]) -> (KeyView, &[u8])
    requires { IsOk (key_at bad bytes.now) }
    ensures { key_at bad bytes.now ≡ Ok (key_view result.0, result.1.now) }
{
    let (chapter, rest) = u16_in(bytes);
    let (place, rest) = place_in(bad, rest);
    (KeyView { chapter, place }, rest)
}

// The book of a code that was judged.
pub(crate) fn book_in(code: &[u8]) -> Book
    requires { IsTrue (is_book_code code.now) }
    ensures { result ≡ code.now }
{
    let (code, _) = code.split_first_chunk::<3>().unwrap();
    Book::of_code(*code).unwrap()
}

// Whether a text fits a code and a key that were judged.
pub(crate) fn fits_segment(code: &[u8], key: KeyView, text: &str) -> bool
    requires code { IsTrue (is_book_code code.now) }
    requires key { IsTrue (is_key key.chapter key.place) }
    ensures { result ≡ text_fits code.now (key_view key) text.now }
{
    let key = Key {
        chapter: key.chapter,
        place: key.place,
    };
    if key.is_book_head() {
        fits(book_in(code), key, text)
    } else {
        // Most are verses, and their book need not be looked up.
        fits_below_head(key, text)
    }
}
