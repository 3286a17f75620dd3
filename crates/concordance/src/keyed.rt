//! Passages with the keys of the pieces that hold their starts.

ghost use Rattle.std.specs.Prelude.{◌≡◌, map, IsTrue};
ghost use Rattle.verse_cut.specs.Views.{pieces_view};
ghost use Rattle.concordance.specs.Hits.{keyed};
ghost use Rattle.concordance.specs.Loops.Reading.{hold_all};
ghost use Rattle.concordance.specs.Loops.LeafViews.{passages_view, pieces_left};

use crate::hit::Hit;
use crate::passage::Passage;
use crate::places::Places;
use verse_cut::Piece;

// Passages by rising starts, which are given each with its key.
#[derive(Drop)]
pub(crate) struct Keyed<'p, 'a> {
    pub(crate) passages: &'p [Passage<'a>],
    pub(crate) places: Places<'p, 'a>,
    ghost held: { IsTrue (hold_all (pieces_left places) (passages_view passages.now)) },
}

impl<'p, 'a> Keyed<'p, 'a> {
    ghost use Rattle.concordance.specs.Loops.KeyedViews.{hits_left};

    pub(crate) fn new(passages: &'p [Passage<'a>], pieces: &'p [Piece<'a>]) -> Self
        requires { IsTrue (hold_all (pieces_view pieces.now) (passages_view passages.now)) }
        ensures { hits_left result
            ≡ map (keyed (pieces_view pieces.now)) (passages_view passages.now) }
    {
        Keyed {
            passages,
            places: Places::new(pieces),
        }
    }
}

impl<'p, 'a> Iterator for Keyed<'p, 'a> {
    ghost use Rattle.std.specs.Iterator.{YieldsFirstBy, item_count};
    ghost use Rattle.concordance.specs.Views.{hit_view};
    ghost use Rattle.concordance.specs.Loops.KeyedViews.{hits_left};

    type Item = Hit<'a>;

    ghost next_gives = { YieldsFirstBy hit_view hits_left };

    ghost remaining = { item_count hits_left };

    fn next(&mut self) -> Option<Hit<'a>> {
        let Passage { start, text } = *self.passages.first()?;
        let key = self.places.key_at(start);
        self.passages = &self.passages[1..];
        Some(Hit { key, start, text })
    }
}
