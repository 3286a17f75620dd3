//! The keys of rising places.

ghost use Rattle.std.specs.Prelude.{◌≡◌, ℕ, ◌<◌, ◌≤◌, IsTrue};
ghost use Rattle.verse_cut.specs.Places.{key_at};
ghost use Rattle.concordance.specs.Loops.Reading.{are_neighbours, begin_of, end_of};
ghost use Rattle.concordance.specs.Loops.LeafViews.{pieces_left};
ghost use Rattle.verse_cut.specs.Views.{pieces_view};

use usfm_ref::Key;
use verse_cut::Piece;

// The pieces of a text from the one on that holds the place last asked for.
#[derive(Drop)]
pub(crate) struct Places<'p, 'a> {
    pub(crate) pieces: &'p [Piece<'a>],
}

impl<'p, 'a> Places<'p, 'a> {
    pub(crate) fn new(pieces: &'p [Piece<'a>]) -> Self
        ensures { pieces_left result ≡ pieces_view pieces.now }
    {
        Places { pieces }
    }

    // The key of the piece that holds a place, which is no smaller than the one asked for before.
    pub(crate) fn key_at(&mut self, at: usize) -> Key
        requires neighbours { IsTrue
            (are_neighbours (begin_of (pieces_left self.old)) (pieces_left self.old)) }
        requires begun { begin_of (pieces_left self.old) ≤ at }
        requires within { at < end_of (pieces_left self.old) }
        ensures value { result ≡ key_at (pieces_left self.old) at }
        ensures neighbours { IsTrue
            (are_neighbours (begin_of (pieces_left self.new)) (pieces_left self.new)) }
        ensures begun { begin_of (pieces_left self.new) ≤ at }
        ensures end { end_of (pieces_left self.new) ≡ end_of (pieces_left self.old) }
        ensures same { (n : ℕ) → at ≤ n
            → key_at (pieces_left self.new) n ≡ key_at (pieces_left self.old) n }
    {
        while let [_, next, ..] = self.pieces {
            if at < next.start {
                break;
            }
            self.pieces = &self.pieces[1..];
        }
        match self.pieces {
            [] => Key::chapter_head(0),
            [piece, ..] => piece.key,
        }
    }
}
