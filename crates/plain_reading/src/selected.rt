//! The text of a part of a book, as it is gathered.

ghost use Rattle.std.specs.Prelude.{◌≤◌, length, string_bytes};

use std::alloc::AllocError;
use verse_cut::Piece;

// The text of a part, and how many bytes lie before each piece of it that is in conflict, from the
// one before it on, or from the front.
#[derive(Drop)]
pub(crate) struct Selected {
    pub(crate) text: String,
    pub(crate) gaps: Vec<usize>,
    // How many bytes lie before the last piece that is in conflict.
    pub(crate) last: usize,
    ghost before: { last ≤ length (string_bytes text) },
}

impl Selected {
    ghost use Rattle.std.specs.Prelude.{◌≡◌, ◌++◌, List, OnOk};
    ghost use Rattle.usfm_ref.specs.declared.segment.Segment.{Segment};
    ghost use Rattle.verse_cut.specs.Pieces.{PieceParts};
    ghost use Rattle.verse_cut.specs.Views.{piece_view};
    ghost use Rattle.plain_reading.specs.Loops.{gaps_past, gaps_with};

    // Takes a piece, which may be in conflict.
    pub(crate) fn take(&mut self, piece: &Piece<'_>, is_open: bool) -> Result<(), AllocError>
        ensures text { OnOk result (string_bytes self.new.text
            ≡ string_bytes self.old.text ++ piece.now.text.now) }
        ensures gaps { OnOk result ((left : List Segment) (later : List PieceParts)
            → gaps_with self.new left later
            ≡ gaps_past self.old is_open (piece_view piece.now) left later) }
    {
        let at = self.text.len();
        if is_open {
            self.gaps.push(at - self.last)?;
            self.last = at;
        }
        self.text.push_str(piece.text)
    }
}
