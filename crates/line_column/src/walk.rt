// The places of offsets, one after another in one pass.
ghost use Rattle.std.specs.Prelude.{◌≡◌, ◌+◌, ◌^◌, ◌<◌, ◌≤◌, [], ◌∷◌, ◌++◌, ℕ, List, length};
ghost use Rattle.line_column.specs.Places as places;

use std::marker::Model;

/// Where an offset of a text is.
#[derive(Clone, Copy, Debug, PartialEq, Eq)]
pub struct Place {
    /// The number of the line, from 1. A line ends with a line feed; a carriage return before it
    /// belongs to the line.
    pub line: usize,
    /// The number of the character in the line, from 1. U+FEFF at the front of the text is none.
    pub column: usize,
}

// Where a text begins.
const FRONT: Place = Place { line: 1, column: 1 };

/// A walk over a text, which says where offsets of it are. It allocates nothing, and looks at each
/// byte once as long as the offsets do not fall.
#[derive(Debug, Drop)]
pub struct Walk<'a> {
    text: &'a [u8],
    // How many bytes were passed, and where the next one is.
    passed: usize,
    place: Place,
}

impl<'a> Model for Walk<'a> {
    ghost use Rattle.std.specs.Prelude.{◌≡◌, ◌≤◌, ℕ, List, length};
    ghost use Rattle.line_column.specs.Places.{mark_length, place_at};

    ghost Value = { List ℕ };

    ghost view = { λ w. w.text.now };

    ghost invariant = { λ w. (mark_length w.text.now ≤ w.passed) × (w.passed ≤ length w.text.now)
        × (w.place ≡ place_at w.text.now w.passed) };
}

impl<'a> Walk<'a> {
    /// A walk that begins at the front of the text.
    pub fn new(text: &'a [u8]) -> Walk<'a>
        ensures { result ≡ text.now }
    {
        Walk {
            text,
            passed: mark_len(text),
            place: FRONT,
        }
    }

    /// Where an offset is, in bytes from the front of the text; that of an offset after its end is
    /// the end's. Where the offset is less than one that was asked before, the walk begins anew.
    pub fn place(&mut self, offset: usize) -> Place
        ensures place { result ≡ places.place_at self.old offset }
        ensures text { self.new ≡ self.old }
    {
        let end = clamped(self.text, offset);
        let (passed, here) = self.known(end);
        self.place = reached(self.text, passed, here, end);
        self.passed = end;
        self.place
    }

    // A place that is known, with its offset, which is no later one than this.
    fn known(&self, end: usize) -> (usize, Place)
        requires { places.mark_length self.now ≤ end }
        ensures front { places.mark_length self.now ≤ result.0 }
        ensures order { result.0 ≤ end }
        ensures place { result.1 ≡ places.place_at self.now result.0 }
    {
        if end < self.passed {
            (mark_len(self.text), FRONT)
        } else {
            (self.passed, self.place)
        }
    }
}

// An offset of the text, in the place of one after its end by that of the end, and in the place of
// one within U+FEFF at the front by what follows that.
#[tactic(auto, using(crate::proofs::Ends::within_mark, crate::proofs::Ends::after_end))]
fn clamped(text: &[u8], offset: usize) -> usize
    ensures front { places.mark_length text.now ≤ result }
    ensures within { result ≤ length text.now }
    ensures place { places.place_at text.now result ≡ places.place_at text.now offset }
{
    let mark = mark_len(text);
    if offset < mark {
        mark
    } else if text.len() < offset {
        text.len()
    } else {
        offset
    }
}

// Where an offset is, by the place of one that is not after it.
fn reached(text: &[u8], passed: usize, here: Place, end: usize) -> Place
    requires room { 1 + length text.now < 2 ^ 64 }
    requires front { places.mark_length text.now ≤ passed }
    requires order { passed ≤ end }
    requires within { end ≤ length text.now }
    requires here { here ≡ places.place_at text.now passed }
    ensures { result ≡ places.place_at text.now end }
{
    let (before, _) = text.split_at(end);
    let (_, part) = before.split_at(passed);
    after(here, part)
}

// How many bytes at the front are U+FEFF.
fn mark_len(text: &[u8]) -> usize
    ensures value { result ≡ places.mark_length text.now }
    ensures within { result ≤ length text.now }
{
    match text {
        [0xEF, 0xBB, 0xBF, ..] => 3,
        _ => 0,
    }
}

// Where bytes end with a part after them, where without it they end here.
fn after(place: Place, part: &[u8]) -> Place
    requires line { place.line + length part.now < 2 ^ 64 }
    requires column { place.column + length part.now < 2 ^ 64 }
    ensures { (front : List ℕ) → place ≡ places.end_of front
        → result ≡ places.end_of (front ++ part.now) }
{
    let mut here = place;
    for byte in part {
        here = past(here, *byte);
    }
    here
}

// The same with one byte after them.
fn past(place: Place, byte: u8) -> Place
    requires line { place.line + 1 < 2 ^ 64 }
    requires column { place.column + 1 < 2 ^ 64 }
    ensures end { (front : List ℕ) → place ≡ places.end_of front
        → result ≡ places.end_of (front ++ byte ∷ []) }
    ensures line { result.line ≤ place.line + 1 }
    ensures column { result.column ≤ place.column + 1 }
{
    let Place { line, column } = place;
    if byte == b'\n' {
        Place {
            line: line + 1,
            column: 1,
        }
    } else if begins_character(byte) {
        Place {
            line,
            column: column + 1,
        }
    } else {
        place
    }
}

fn begins_character(byte: u8) -> bool
    ensures { result ≡ places.begins_character byte }
{
    byte < 128 || 192 <= byte
}
