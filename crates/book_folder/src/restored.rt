// A file as nobody but a person changed it: what an editor did to line ends and to U+FEFF at the
// front is taken back.
ghost use Rattle.std.specs.Prelude.{◌≡◌, IfOk, IsTrue, string_bytes};
ghost use Rattle.usfm_ref.specs.Keys.{key_cmp};
ghost use Rattle.usfm_ref.specs.Rising.{rises_by};
ghost use Rattle.usfm_ref.specs.Segments.{segment};
ghost use Rattle.verse_cut.specs.Reading.{after_bom};
ghost use Rattle.verse_cut.specs.Views.{pieces_view};
ghost use Rattle.op_core.specs.Shown.{pick};
ghost use Rattle.book_folder.specs.Restored as restored;

use crate::likes::{LineEnds, is_like, push_in_line_ends};
use op_core::{Cursor, Picked};
use replica_state::Replica;
use std::alloc::{AllocError, Global};
use usfm_ref::{Book, Key};
use verse_cut::{Piece, cut};

const BYTE_ORDER_MARK: &str = "\u{FEFF}";

const BYTE_ORDER_MARK_BYTES: &[u8] = b"\xEF\xBB\xBF";

// A text with U+FEFF at its front as another one has it, and with line ends as that one has them;
// where it has some of each, LF.
pub(crate) fn in_manner_of(alloc: Global, was: &[u8], now: &str) -> Result<String, AllocError>
    ensures { IfOk result (λ made.
        string_bytes made ≡ restored.in_manner_of was.now now.now) }
{
    let mut made = String::new(alloc);
    if was.starts_with(BYTE_ORDER_MARK_BYTES) {
        made.push_str(BYTE_ORDER_MARK)?;
    }
    let ends = match LineEnds::of(was) {
        LineEnds::Mixed => LineEnds::Lf,
        known => known,
    };
    push_in_line_ends(&mut made, without_mark(now), ends)?;
    Ok(made)
}

// What comes after U+FEFF at the front, or all.
fn without_mark(text: &str) -> &str
    ensures { result.now ≡ after_bom text.now }
{
    text.strip_prefix(BYTE_ORDER_MARK).unwrap_or(text)
}

// The pieces that are not given yet, each as the text that a base picks there, where the two are
// like each other.
#[derive(Drop)]
struct RestoredPieces<'p, 'a> {
    base: Cursor<'a>,
    book: Book,
    left: &'p [Piece<'a>],
}

impl<'p, 'a> Iterator for RestoredPieces<'p, 'a> {
    ghost use Rattle.std.specs.Iterator.{YieldsFirstBy, item_count};
    ghost use Rattle.verse_cut.specs.Views.{piece_view};
    ghost use Rattle.book_folder.specs.Loops.{pieces_left};

    type Item = Piece<'a>;

    ghost next_gives = { YieldsFirstBy piece_view pieces_left };

    ghost remaining = { item_count pieces_left };

    fn next(&mut self) -> Option<Piece<'a>> {
        let Piece { key, text, start } = *self.left.first()?;
        self.left = &self.left[1..];
        let text = restored_text(&mut self.base, self.book, key, text);
        Some(Piece { key, text, start })
    }
}

// The pieces of a file, each as the text that a base picks there, where the two are like each
// other.
pub(crate) fn restored_pieces<'a>(
    alloc: Global,
    base: &'a Replica,
    book: Book,
    text: &'a str,
) -> Result<Vec<Piece<'a>>, AllocError>
    ensures pieces { IfOk result (λ made. pieces_view made.items
        ≡ restored.restored_pieces base.now.held book text.now) }
    ensures rise { IfOk result (λ made. IsTrue (rises_by key_cmp (λ p. p.key) made.items)) }
{
    let parts = cut(alloc, text)?;
    RestoredPieces {
        base: base.set().cursor(),
        book,
        left: &parts,
    }
    .collect(alloc)
}

// The text that a base picks for a key, where a piece is like it, and else the piece.
fn restored_text<'a>(base: &mut Cursor<'a>, book: Book, key: Key, piece: &'a str) -> &'a str
    ensures restored { result.now
        ≡ restored.restored_by (pick base.old (segment book key)) piece.now }
    ensures same { base.new ≡ base.old }
{
    match base.pick(book, key) {
        Picked::Held(op) if is_like(op.text_or_empty().as_bytes(), piece.as_bytes()) => {
            op.text_or_empty()
        }
        _ => piece,
    }
}
