// The pieces of a file by their keys.
ghost use Rattle.std.specs.Prelude.{◌≡◌, ◌≤◌, IsTrue, length, not};
ghost use Rattle.std.specs.List.{list_any, position_or_len};
ghost use Rattle.std.specs.Ordering.{is_lt};
ghost use Rattle.usfm_ref.specs.Keys.{is_verse_of, key_cmp};
ghost use Rattle.usfm_ref.specs.Rising.{rises_by};
ghost use Rattle.verse_cut.specs.Views.{pieces_view};
ghost use Rattle.replica_state.specs.Imports as imports;

use std::cmp::Ordering;
use usfm_ref::Key;
use verse_cut::Piece;

/// The text of the piece of a key, of pieces in ascending order of keys; empty where there is none.
/// It does not allocate.
pub fn piece_at<'a>(pieces: &[Piece<'a>], key: Key) -> &'a str
    requires rising { IsTrue (rises_by key_cmp (λ p. p.key) pieces.now) }
    ensures { result.now ≡ imports.piece_at (pieces_view pieces.now) key }
{
    let at = place_piece(pieces, key);
    if at < pieces.len() {
        let piece = &pieces[at];
        if order(piece, key).is_eq() {
            return piece.text;
        }
    }
    ""
}

// Whether a verse of the key's chapter has a piece.
pub(crate) fn has_verse(pieces: &[Piece<'_>], key: Key) -> bool
    ensures { result ≡ list_any (λ p. is_verse_of key.chapter p.key) pieces.now }
{
    pieces
        .iter()
        .any(|piece| piece.key.is_verse_of(key.chapter))
}

// How many pieces at the front have a key below this one.
fn place_piece(pieces: &[Piece<'_>], key: Key) -> usize
    requires rising { IsTrue (rises_by key_cmp (λ p. p.key) pieces.now) }
    ensures place { result ≡ position_or_len (λ p. not (is_lt (key_cmp p.key key))) pieces.now }
    ensures within { result ≤ length pieces.now }
{
    pieces.partition_point(
        |piece| -> bool
            ensures { result ≡ is_lt (key_cmp piece.now.key key) }
        { order(piece, key).is_lt() },
    )
}

// How the piece compares to the one of this key.
fn order(piece: &Piece<'_>, key: Key) -> Ordering
    ensures { result ≡ key_cmp piece.now.key key }
{
    piece.key.cmp(&key)
}
