//! A walk over the marks of a text, with their keys.

ghost use Rattle.std.specs.Prelude.{◌≡◌, ◌<◌, ◌≤◌, ◌&&◌, [], length, drop, MatchOption};
ghost use Rattle.usfm_token.specs.Tokens.{tokens_of};
ghost use Rattle.usfm_token.specs.View.{lexeme};
ghost use Rattle.verse_cut.specs.Keys.{key_below};
ghost use Rattle.verse_cut.specs.Reading.{key_of};
ghost use Rattle.verse_cut.specs.Loops.Walks.{from_mark, may_have_key};

use usfm_ref::{Key, Place, chapter_after, verse_after};
use usfm_token::{Token, TokenIter};

// A mark that opens a piece: the text from its front on, its key, and what comes after it.
#[derive(Clone, Copy)]
pub(crate) struct Opening<'a> {
    pub(crate) here: &'a str,
    pub(crate) key: Key,
    pub(crate) after: &'a str,
}

// What is left of a text. A token is read only where a mark may have a key: few marks do, and
// `memchr` passes over all else.
#[derive(Drop)]
pub(crate) struct Walk<'a> {
    here: &'a str,
}

impl<'a> Walk<'a> {
    ghost use Rattle.verse_cut.specs.Loops.Walks.{GoesToEnd, OpensAt, TakesToken};
    ghost use Rattle.verse_cut.specs.Reading.{is_quiet, leads};

    pub(crate) fn new(text: &'a str) -> Self
        ensures { result.here.now ≡ text.now }
    {
        Walk { here: text }
    }

    // Takes the next token, and gives its key, if it is a mark that has one, for a verse in the
    // chapter.
    fn step(&mut self, chapter: u16) -> Option<Option<Key>>
        requires { chapter ≤ 999 }
        ensures { MatchOption result (tokens_of self.old.here.now ≡ [])
            (λ key. TakesToken chapter self.old.here.now self.new.here.now key) }
    {
        let mut tokens = TokenIter::new(self.here);
        let token = tokens.next()?;
        self.here = tokens.rest();
        Some(key_of(chapter, token, self.here))
    }

    // Whether the mark at the front has the key. The walk comes after it.
    pub(crate) fn leads(&mut self, key: Key) -> bool
        ensures { leads key (tokens_of self.old.here.now)
            ≡ (result && is_quiet key (tokens_of self.new.here.now)) }
    {
        self.step(key.chapter) == Some(Some(key))
    }

    // The next mark whose key is above this one, whose chapter is the greatest so far.
    pub(crate) fn next_above(&mut self, key: Key) -> Option<Opening<'a>>
        ensures { MatchOption result (GoesToEnd key self.old.here.now)
            (λ o. OpensAt key self.old.here.now o.here.now o.after.now o.key) }
    {
        let chapter = key.chapter;
        loop {
            let here = self.here;
            if here.is_empty() {
                return None;
            }
            if !may_have_key(here) {
                self.here = next_mark(here);
                continue;
            }
            if let Some(found) = self.step(chapter)? {
                if is_below(key, found) {
                    return Some(Opening {
                        here,
                        key: found,
                        after: self.here,
                    });
                }
            }
        }
    }
}

// Whether a mark is at the front whose name begins with `c` or `v`.
fn may_have_key(text: &str) -> bool
    ensures { result ≡ may_have_key text.now }
{
    matches!(text.as_bytes(), [b'\\', b'c' | b'v', ..])
}

// The text from the first mark after its first byte on.
fn next_mark(text: &str) -> &str
    requires { 0 < length text.now }
    ensures { result.now ≡ from_mark (drop 1 text.now) }
{
    let later = &text.as_bytes()[1..];
    let passed = memchr::memchr(b'\\', later).unwrap_or(later.len());
    let (_, here) = text.split_at(1 + passed);
    here
}

fn is_below(key: Key, other: Key) -> bool
    ensures { result ≡ key_below key other }
{
    key < other
}

// The key of a token, by what comes after it, where a verse is in the chapter. A number is read no
// further than the next mark.
#[tactic(auto, using(crate::proofs::Fronts::chapter_after_mark, crate::proofs::Fronts::verse_after_mark))]
fn key_of(chapter: u16, token: Token<'_>, after: &str) -> Option<Key>
    requires { chapter ≤ 999 }
    ensures { result ≡ key_of chapter (lexeme token.entry) (tokens_of after.now) }
{
    let Token::Mark(mark) = token else {
        return None;
    };
    if mark.nested() || mark.closing() {
        return None;
    }
    match mark.name() {
        "c" => chapter_after(after).map(Key::chapter_head),
        "v" => {
            let verse = verse_after(after)?;
            let place = Place::Verse {
                number: verse.number,
                letter: verse.letter,
            };
            Some(Key { chapter, place })
        }
        _ => None,
    }
}
