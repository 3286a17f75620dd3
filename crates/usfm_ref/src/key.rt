ghost use Rattle.std.specs.Prelude.{◌≡◌, ◌≤◌, ◌↔◌, Some, IsTrue, IsSome, IfSome};
ghost use Rattle.usfm_ref.specs.Keys as keys;
ghost use Rattle.usfm_ref.specs.Keys.{is_key};
ghost use Rattle.usfm_ref.specs.References.{key_text};

use std::fmt;
use std::marker::Model;

/// Where in a chapter: at its head, which is all before its first verse, or at a verse.
///
/// The head comes before all verses. Verses go by number, and at one number no letter comes
/// before `a`, and `a` before `b`.
#[derive(Clone, Copy, Debug, PartialEq, Eq, PartialOrd, Ord, Hash)]
pub enum Place {
    /// The head of the chapter; in chapter 0 that of the book.
    Head,
    /// A verse 0 to 999, or a part of one by its letter, the byte of a to z.
    Verse { number: u16, letter: Option<u8> },
}

/// A chapter 0 to 999 and a place in it: where in a book a text is.
///
/// Keys go by chapter, and then by place. A literal with a part out of its range is refused by the
/// proof.
#[derive(Clone, Copy, Debug, PartialEq, Eq, PartialOrd, Ord, Hash)]
pub struct Key {
    pub chapter: u16,
    pub place: Place,
}

impl Model for Key {
    ghost use Rattle.std.specs.Prelude.{IsTrue};
    ghost use Rattle.usfm_ref.specs.Keys.{KeyParts, is_key};

    ghost Value = { KeyParts };

    ghost view = { λ k. record { chapter = k.chapter; place = k.place } };

    ghost invariant = { λ k. IsTrue (is_key k.chapter k.place) };

    ghost inverse = { λ k. record { chapter = k.chapter; place = k.place } };
}

impl Key {
    /// The key of a chapter and a place. None where the chapter or the verse is above 999, or the
    /// letter is none of a to z.
    pub fn new(chapter: u16, place: Place) -> Option<Key>
        ensures accepts { IsSome result ↔ IsTrue (is_key chapter place) }
        ensures parts { IfSome result (λ k. k ≡ record { chapter = chapter; place = place }) }
    {
        let place_fits = match place {
            Place::Head => true,
            Place::Verse { number, letter } => {
                number <= 999 && letter.is_none_or(|letter| letter.is_ascii_lowercase())
            }
        };
        if chapter <= 999 && place_fits {
            Some(Key { chapter, place })
        } else {
            None
        }
    }

    /// The head of a chapter 0 to 999; that of chapter 0 is the head of the book.
    pub fn chapter_head(chapter: u16) -> Key
        requires { chapter ≤ 999 }
        ensures { result ≡ keys.chapter_head chapter }
    {
        Key {
            chapter,
            place: Place::Head,
        }
    }

    /// The head of this key's chapter.
    pub fn head(self) -> Key
        ensures { result ≡ keys.head_of self }
    {
        Key {
            chapter: self.chapter,
            place: Place::Head,
        }
    }

    /// Whether this is the head of the book.
    pub fn is_book_head(self) -> bool
        ensures { result ≡ keys.same_key self keys.book_head }
    {
        self.chapter == 0 && self.place == Place::Head
    }

    /// Whether this is a verse of the chapter.
    pub fn is_verse_of(self, chapter: u16) -> bool
        ensures { result ≡ keys.is_verse_of chapter self }
    {
        self.chapter == chapter && self.place != Place::Head
    }
}

/// Writes the key: its chapter in decimal, and for a verse a colon, the verse in decimal and its
/// letter, as `0`, `5`, `5:3` or `5:3a`.
impl fmt::Display for Key {
    ghost output = { λ key. Some (key_text key) };

    fn fmt<W: fmt::Write>(&self, f: &mut fmt::Formatter<W>) -> fmt::Result {
        let chapter = self.chapter;
        match self.place {
            Place::Head => write!(f, "{chapter}"),
            Place::Verse {
                number,
                letter: None,
            } => write!(f, "{chapter}:{number}"),
            Place::Verse {
                number,
                letter: Some(letter),
            } => {
                let letter = char::from(letter);
                write!(f, "{chapter}:{number}{letter}")
            }
        }
    }
}
