// The pieces of a chapter, and what they cover.
ghost use Rattle.std.specs.Prelude.{◌≡◌, ◌≤◌, ◌==◌, not, length, IfOk};
ghost use Rattle.std.specs.List.{position_or_len, prefix_len};
ghost use Rattle.std.specs.Ordering.{is_lt};
ghost use Rattle.usfm_ref.specs.Keys.{key_cmp};
ghost use Rattle.std.specs.Option.{option_to_list};
ghost use Rattle.verse_cut.specs.Pieces.{KeysRise};
ghost use Rattle.verse_cut.specs.Views.{piece_view, pieces_view};
ghost use Rattle.missing_verses.specs.Numbers as numbers;

use covered_verses::{Covered, covered_by};
use std::alloc::{AllocError, Global};
use usfm_ref::{Key, Place};
use verse_cut::Piece;

// The pieces of a chapter among those of a book.
pub(crate) fn of_chapter<'p, 'a>(pieces: &'p [Piece<'a>], chapter: u16) -> &'p [Piece<'a>]
    requires chapter { chapter ≤ 999 }
    requires rising { KeysRise (pieces_view pieces.now) }
    ensures { pieces_view result.now ≡ numbers.of_chapter chapter (pieces_view pieces.now) }
{
    let (_, later) = pieces.split_at(before(pieces, Key::chapter_head(chapter)));
    let (own, _) = later.split_at(within(later, chapter));
    own
}

// How many pieces come before a key.
fn before(pieces: &[Piece<'_>], key: Key) -> usize
    requires { KeysRise (pieces_view pieces.now) }
    ensures value { result ≡ position_or_len (λ p. not (is_lt (key_cmp p.key key))) pieces.now }
    ensures within { result ≤ length pieces.now }
{
    pieces.partition_point(
        |piece| -> bool
            ensures { result ≡ is_lt (key_cmp piece.now.key key) }
        { piece.key < key },
    )
}

// How many pieces at the front are of the chapter.
fn within(pieces: &[Piece<'_>], chapter: u16) -> usize
    ensures value { result ≡ prefix_len (λ p. p.key.chapter == chapter) pieces.now }
    ensures within { result ≤ length pieces.now }
{
    pieces
        .iter()
        .take_while(|piece| piece.key.chapter == chapter)
        .count()
}

// What pieces cover.
pub(crate) fn covers_of(alloc: Global, pieces: &[Piece<'_>]) -> Result<Vec<Covered>, AllocError>
    ensures { IfOk result (λ covers.
        covers.items ≡ numbers.covers_of (pieces_view pieces.now)) }
{
    let mut covers = Vec::new(alloc);
    let mut left = pieces;
    'pieces: while let [piece, later @ ..] = left {
        if let Some(one) = covered_in(piece) {
            covers.push(one)?;
        }
        left = later;
    }
    Ok(covers)
}

// What a piece covers; nothing at a head.
pub(crate) fn covered_in(piece: &Piece<'_>) -> Option<Covered>
    ensures { option_to_list result ≡ numbers.covered_in (piece_view piece.now) }
{
    match piece.key.place {
        Place::Head => None,
        Place::Verse { number, letter } => Some(covered_by(number, letter, piece.text)),
    }
}
