// Verses under one number, as `\v 4-6`: which keys such a bridge covers.
ghost use Rattle.std.specs.Prelude.{◌≡◌, ◌≤◌, IfOk, IsTrue, None, length, not, option_map};
ghost use Rattle.std.specs.List.{position_or_len};
ghost use Rattle.std.specs.Ordering.{is_le, is_lt};
ghost use Rattle.usfm_ref.specs.Keys.{key_cmp};
ghost use Rattle.usfm_ref.specs.Numbers.{is_last, verse_in};
ghost use Rattle.usfm_ref.specs.Rising.{rises_by};
ghost use Rattle.verse_cut.specs.Views.{piece_view, pieces_view};
ghost use Rattle.book_folder.specs.BridgeLoops as loops;
ghost use Rattle.book_folder.specs.Bridges as bridges;

use std::alloc::{AllocError, Global};
use std::cmp::Ordering;
use usfm_ref::{Key, Place, verse_after};
use verse_cut::Piece;

// How far the bridges of a file's pieces go: for each piece, the greatest key to which it goes, or
// one before it.
pub(crate) fn farthest(alloc: Global, pieces: &[Piece<'_>]) -> Result<Vec<Key>, AllocError>
    ensures { IfOk result (λ made.
        made.items ≡ loops.farthest_from None (pieces_view pieces.now)) }
{
    let mut made = Vec::new(alloc);
    let mut far = None;
    let mut left = pieces;
    'pieces: while let [piece, later @ ..] = left {
        let next = farther(far, goes_to(piece));
        made.push(next)?;
        far = Some(next);
        left = later;
    }
    Ok(made)
}

// The greater of two keys.
fn farther(far: Option<Key>, end: Key) -> Key
    ensures { result ≡ loops.farther far end }
{
    match far {
        Some(far) if far.cmp(&end).is_gt() => far,
        _ => end,
    }
}

// The key to which a piece goes: the last one of its bridge, or its own.
fn goes_to(piece: &Piece<'_>) -> Key
    ensures { result ≡ bridges.goes_to (piece_view piece.now) }
{
    match bridge_last(piece.text) {
        Some((number, letter)) => Key {
            chapter: piece.key.chapter,
            place: Place::Verse {
                number,
                letter: Some(last_part(letter)),
            },
        },
        None => piece.key,
    }
}

// The letter of a verse's last part: its own, or z.
fn last_part(letter: Option<u8>) -> u8
    ensures { result ≡ bridges.last_part letter }
{
    match letter {
        Some(letter) => letter,
        None => b'z',
    }
}

// The last verse of the bridge that a piece begins with, if it does.
fn bridge_last(text: &str) -> Option<(u16, Option<u8>)>
    ensures value { result ≡ bridges.bridge_last text.now }
    ensures in_range { IsTrue (is_last result) }
{
    match after_verse_mark(text) {
        Some(after) => last_after(after),
        None => None,
    }
}

// The text directly after the mark `\v` that a piece begins with, if it does.
fn after_verse_mark(text: &str) -> Option<&str>
    ensures { option_map (λ after. after.now) result ≡ bridges.after_verse_mark text.now }
{
    text.strip_prefix("\\v")
}

// The last verse of the bridge that the text after the mark `\v` begins with, if it does.
fn last_after(after: &str) -> Option<(u16, Option<u8>)>
    ensures value { result ≡ bridges.last_of (verse_in after.now) }
    ensures in_range { IsTrue (is_last result) }
{
    match verse_after(after) {
        Some(verse) => verse.last,
        None => None,
    }
}

// Whether a key is covered by a bridge of a file, of which it is known how far its pieces go.
#[tactic(auto, using(crate::proofs::BridgeLaws::covered_none))]
pub(crate) fn is_covered(pieces: &[Piece<'_>], far: &[Key], key: Key) -> bool
    requires rising { IsTrue (rises_by key_cmp (λ p. p.key) pieces.now) }
    requires far { far.now ≡ loops.farthest_from None (pieces_view pieces.now) }
    ensures { result ≡ bridges.is_covered (pieces_view pieces.now) key }
{
    let before = count_before(pieces, key);
    if before == 0 {
        return false;
    }
    is_up_to(key, far[before - 1])
}

// Whether a key is another one, or comes before it.
fn is_up_to(key: Key, end: Key) -> bool
    ensures { result ≡ is_le (key_cmp key end) }
{
    key.cmp(&end).is_le()
}

// How many pieces at the front have a key below this one.
fn count_before(pieces: &[Piece<'_>], key: Key) -> usize
    requires rising { IsTrue (rises_by key_cmp (λ p. p.key) pieces.now) }
    ensures place { result ≡ position_or_len (λ p. not (is_lt (key_cmp p.key key))) pieces.now }
    ensures within { result ≤ length pieces.now }
{
    pieces.partition_point(
        |piece| -> bool
            ensures { result ≡ is_lt (key_cmp piece.now.key key) }
        { order(piece, key).is_lt() },
    )
}

// How the piece compares to the one of this key.
fn order(piece: &Piece<'_>, key: Key) -> Ordering
    ensures { result ≡ key_cmp piece.now.key key }
{
    piece.key.cmp(&key)
}
