// The verses of a book as its export has them.
ghost use Rattle.std.specs.Prelude.{◌≡◌, ◌++◌, IfOk, OnOk};
ghost use Rattle.std.specs.Option.{option_to_list};
ghost use Rattle.usfm_ref.specs.Segments.{segment};
ghost use Rattle.usfm_token.specs.Tokens.{tokens_of};
ghost use Rattle.op_core.specs.Ops.{own_text};
ghost use Rattle.op_core.specs.Shown as shown;
ghost use Rattle.project_status.specs.Progress.{writes};
ghost use Rattle.project_status.specs.Verses as verses;

use covered_verses::covered_by;
use op_core::{Cursor, Op, OpSet, Picked};
use std::alloc::{AllocError, Global};
use usfm_ref::{Book, Key, Place};

// A verse that has a text in its book: its chapter, its numbers, which are several in a bridge, and
// whether it is written.
#[derive(Clone, Copy, Debug)]
pub(crate) struct Verse {
    pub(crate) chapter: u16,
    pub(crate) first: u16,
    pub(crate) last: u16,
    pub(crate) written: bool,
}

impl Verse {
    // Whether it is written and has the number.
    pub(crate) fn writes(&self, number: u16) -> bool
        ensures { result ≡ writes number self.now }
    {
        self.written && self.first <= number && number <= self.last
    }
}

// The verses of a book that have a text in its export, by rising key.
pub(crate) fn verses_of(alloc: Global, set: &OpSet, book: Book) -> Result<Vec<Verse>, AllocError>
    ensures { IfOk result (λ found. found.items ≡ verses.verses_of set.now book) }
{
    let mut found = Vec::new(alloc);
    push_verses(set, book, &mut found)?;
    Ok(found)
}

// Adds the verses of a book.
pub(crate) fn push_verses(set: &OpSet, book: Book, found: &mut Vec<Verse>) -> Result<(), AllocError>
    ensures { OnOk result (found.new.items ≡ found.old.items ++ verses.verses_of set.now book) }
{
    let mut cursor = set.cursor();
    for key in set.keys(book) {
        if let Some(verse) = verse_picked(&mut cursor, book, key) {
            found.push(verse)?;
        }
    }
    Ok(())
}

// The verse that is picked at a key.
fn verse_picked(cursor: &mut Cursor<'_>, book: Book, key: Key) -> Option<Verse>
    ensures verse { option_to_list result
        ≡ verses.verse_picked key (shown.pick cursor.old (segment book key)) }
    ensures same { cursor.new ≡ cursor.old }
{
    match cursor.pick(book, key) {
        Picked::Held(op) => verse_at(key, op),
        Picked::ChapterLine(_) | Picked::Nothing => None,
    }
}

// The verse that an operation's text is at a key.
fn verse_at(key: Key, op: &Op) -> Option<Verse>
    ensures { option_to_list result
        ≡ verses.verse_at key.chapter key.place (own_text op.now) }
{
    let Place::Verse { number, letter } = key.place else {
        return None;
    };
    let text = op.text_or_empty();
    if text.is_empty() {
        return None;
    }
    Some(verse_of(key.chapter, number, letter, text))
}

// The verse of this number and letter that a text is.
fn verse_of(chapter: u16, number: u16, letter: Option<u8>, text: &str) -> Verse
    ensures { result ≡ verses.verse_of chapter number letter (tokens_of text.now) }
{
    let covered = covered_by(number, letter, text);
    Verse {
        chapter,
        first: covered.first,
        last: covered.last,
        written: covered.written,
    }
}
