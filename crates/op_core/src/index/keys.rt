ghost use Rattle.std.specs.Prelude.{◌≡◌, ◌≤◌, ◌∷◌, [], MatchOption, IsTrue, length};
ghost use Rattle.std.specs.Iterator.{YieldsFirst, item_count};
ghost use Rattle.std.specs.List.{prefix_len};
ghost use Rattle.usfm_ref.specs.Books.{same_bytes};
ghost use Rattle.usfm_ref.specs.Rising.{rises_by};
ghost use Rattle.usfm_ref.specs.Segments.{segment_cmp};
ghost use Rattle.op_core.specs.Loops.Index.{home_of, chapter_keys, kept_keys, keys_left};

use super::chapter::Chapter;
use super::place::place_chapter;
use super::register::Register;
use crate::ids::search::Search;
use std::marker::Model;
use usfm_ref::{Book, Key, Segment};

/// The keys of a book with an operation, in ascending order, each once. Made by `OpSet::keys`; it
/// does not allocate.
#[derive(Debug, Drop)]
pub struct Keys<'a> {
    book: Book,
    registers: &'a [Register],
    chapters: &'a [Chapter],
}

impl<'a> Model for Keys<'a> {
    ghost use Rattle.std.specs.Prelude.{List};
    ghost use Rattle.usfm_ref.specs.Keys.{KeyParts};
    ghost use Rattle.op_core.specs.Loops.Index.{keys_left};

    ghost Value = { List KeyParts };

    ghost view = { λ s. keys_left s.book s.registers.now s.chapters.now };
}

impl<'a> Keys<'a> {
    pub(crate) fn new(book: Book, chapters: &'a [Chapter]) -> Keys<'a>
        requires { IsTrue (rises_by segment_cmp home_of chapters.now) }
        ensures { result ≡ chapter_keys book chapters.now }
    {
        let registers: &[Register] = &[];
        Keys {
            book,
            registers,
            chapters: chapters_in(book, chapters),
        }
    }
}

// The chapters of a book, which stand side by side: a walk over them need not look at the others.
fn chapters_in(book: Book, chapters: &[Chapter]) -> &[Chapter]
    requires { IsTrue (rises_by segment_cmp home_of chapters.now) }
    ensures { chapter_keys book result.now ≡ chapter_keys book chapters.now }
{
    let head = Segment {
        book,
        key: Key::chapter_head(0),
    };
    let from = place_chapter(chapters, &head, &mut Search::default());
    let (_, later) = chapters.split_at(from);
    let (own, _) = later.split_at(count_in(book, later));
    own
}

// How many chapters at the front are of a book.
fn count_in(book: Book, chapters: &[Chapter]) -> usize
    ensures count { result ≡ prefix_len (λ c. same_bytes c.book book) chapters.now }
    ensures within { result ≤ length chapters.now }
{
    chapters
        .iter()
        .take_while(|chapter| chapter.book == book)
        .count()
}

impl<'a> Iterator for Keys<'a> {
    type Item = Key;

    ghost next_gives = { YieldsFirst (λ s. s) };

    ghost remaining = { item_count (λ s. s) };

    fn next(&mut self) -> Option<Key> {
        let Some((key, registers, chapters)) = next_key(self.book, self.registers, self.chapters)
        else {
            return None;
        };
        self.registers = registers;
        self.chapters = chapters;
        Some(key)
    }
}

// The next key of the book, and what is left after it.
fn next_key<'a>(
    book: Book,
    registers: &'a [Register],
    chapters: &'a [Chapter],
) -> Option<(Key, &'a [Register], &'a [Chapter])>
    ensures { MatchOption result (keys_left book registers.now chapters.now ≡ [])
        (λ x. keys_left book registers.now chapters.now ≡ x.0 ∷ keys_left book x.1.now x.2.now) }
{
    let mut registers = registers;
    let mut chapters = chapters;
    'chapters: while let Some((chapter, later)) = chapters.split_first() {
        if let Some((key, rest)) = first_kept(registers) {
            return Some((key, rest, chapters));
        }
        registers = if chapter.book == book {
            &chapter.registers
        } else {
            &[]
        };
        chapters = later;
    }
    match first_kept(registers) {
        None => None,
        Some((key, rest)) => Some((key, rest, chapters)),
    }
}

// The key of the first register that shows an id, and the registers after it.
fn first_kept(registers: &[Register]) -> Option<(Key, &[Register])>
    ensures { MatchOption result (kept_keys registers.now ≡ [])
        (λ x. kept_keys registers.now ≡ x.0 ∷ kept_keys x.1.now) }
{
    let mut left = registers;
    'registers: while let Some((first, rest)) = left.split_first() {
        if !first.shown.is_empty() {
            return Some((first.key, rest));
        }
        left = rest;
    }
    None
}
