ghost use Rattle.std.specs.Prelude.{◌≡◌, ◌+◌, ◌^◌, ◌<◌, ◌++◌, length, IfOk};
ghost use Rattle.verse_cut.specs.Pieces.{IsCutOf, KeysRise, LieIn, pieces_of};
ghost use Rattle.verse_cut.specs.Views.{pieces_view};
ghost use Rattle.verse_cut.specs.Loops.Walks.{read_of};

use crate::walk::Walk;
use std::alloc::{AllocError, Global};
use usfm_ref::Key;

/// A piece of a book.
#[derive(Clone, Copy, Debug)]
pub struct Piece<'a> {
    /// The key of the mark that opens the piece; of the first piece, the head of the book.
    pub key: Key,
    /// The piece's bytes, lent from the book.
    pub text: &'a str,
    /// Where in the book the piece starts, in bytes.
    pub start: usize,
}

// The pieces of a book, one after the other: the key, the start and the text of the open one from
// its front on, and what of that text no token is taken of yet.
#[derive(Drop)]
struct Pieces<'a> {
    key: Key,
    start: usize,
    from: &'a str,
    rest: &'a str,
    is_done: bool,
    ghost within: { start + length from.now < 2 ^ 64 },
    ghost parts: { read_of from.now rest.now ++ rest.now ≡ from.now },
}

impl<'a> Pieces<'a> {
    ghost use Rattle.verse_cut.specs.Loops.Left.{pieces_left};

    fn new(text: &'a str) -> Self
        ensures { pieces_left result ≡ pieces_of text.now }
    {
        Pieces {
            key: Key::chapter_head(0),
            start: 0,
            from: text,
            rest: text,
            is_done: false,
        }
    }
}

impl<'a> Iterator for Pieces<'a> {
    ghost use Rattle.std.specs.Iterator.{YieldsFirstBy, item_count};
    ghost use Rattle.verse_cut.specs.Loops.Left.{pieces_left};
    ghost use Rattle.verse_cut.specs.Views.{piece_view};

    type Item = Piece<'a>;

    ghost next_gives = { YieldsFirstBy piece_view pieces_left };

    ghost remaining = { item_count pieces_left };

    fn next(&mut self) -> Option<Piece<'a>> {
        if self.is_done {
            return None;
        }
        let key = self.key;
        let start = self.start;
        match Walk::new(self.rest).next_above(key) {
            None => {
                self.is_done = true;
                let text = self.from;
                Some(Piece { key, text, start })
            }
            Some(opening) => {
                let text = before(self.from, opening.here);
                self.key = opening.key;
                self.start = start + text.len();
                self.from = opening.here;
                self.rest = opening.after;
                Some(Piece { key, text, start })
            }
        }
    }
}

// What of a text comes before its rest.
fn before<'a>(from: &'a str, rest: &'a str) -> &'a str
    requires { read_of from.now rest.now ++ rest.now ≡ from.now }
    ensures { result.now ≡ read_of from.now rest.now }
{
    let (text, _) = from.split_at(from.len() - rest.len());
    text
}

/// Cuts a book into pieces, at each mark whose key is greater than the head of the book and than
/// the keys of all marks before it. The first piece begins at 0, perhaps empty, and has the key of
/// the head of the book. Keys rise, and the pieces join to the book.
///
/// A mark `\c`, neither nested nor closing, with a number has the key of that chapter's head, and
/// a mark `\v`, likewise, that of the verse in the greatest chapter so far. No other mark has a
/// key.
///
/// # Errors
/// `AllocError` where there is no memory for the list.
pub fn cut(alloc: Global, text: &str) -> Result<Vec<Piece<'_>>, AllocError>
    ensures value { IfOk result (λ list. pieces_view list.items ≡ pieces_of text.now) }
    ensures cut { IfOk result (λ list. IsCutOf (pieces_view list.items) text.now) }
    ensures lie { IfOk result (λ list. LieIn text.now (pieces_view list.items)) }
    ensures rise { IfOk result (λ list. KeysRise (pieces_view list.items)) }
{
    Pieces::new(text).collect(alloc)
}
