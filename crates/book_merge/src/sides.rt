// How the two sides of a merge are read.
ghost use Rattle.std.specs.Prelude.{◌≡◌, ◌++◌, IfOk, IsTrue, OnOk, string_bytes};
ghost use Rattle.std.specs.List.{flat_map};
ghost use Rattle.usfm_ref.specs.Books.{same_bytes};
ghost use Rattle.usfm_ref.specs.Keys.{key_cmp};
ghost use Rattle.usfm_ref.specs.Rising.{rises_by};
ghost use Rattle.verse_cut.specs.Views.{pieces_view};
ghost use Rattle.book_merge.specs.Sides as sides;

use crate::wording::same_wording;
use replica_state::piece_at;
use std::alloc::{AllocError, Global};
use verse_cut::Piece;

// THEIRS as it is read: the texts of its pieces, one after the other.
pub(crate) fn theirs_read(
    alloc: Global,
    base: &[Piece<'_>],
    ours: &[Piece<'_>],
    theirs: &[Piece<'_>],
) -> Result<String, AllocError>
    requires base { IsTrue (rises_by key_cmp (λ p. p.key) base.now) }
    requires ours { IsTrue (rises_by key_cmp (λ p. p.key) ours.now) }
    ensures { IfOk result (λ read. string_bytes read ≡
        flat_map (sides.theirs_piece (pieces_view base.now) (pieces_view ours.now))
        (pieces_view theirs.now)) }
{
    let mut read = String::new(alloc);
    for piece in theirs {
        let was = piece_at(base, piece.key);
        let other = piece_at(ours, piece.key);
        read.push_str(theirs_text(alloc, was, other, piece.text)?)?;
    }
    Ok(read)
}

// OURS as it is read: the texts of its pieces, one after the other.
pub(crate) fn ours_read(
    alloc: Global,
    base: &[Piece<'_>],
    ours: &[Piece<'_>],
    theirs: &[Piece<'_>],
) -> Result<String, AllocError>
    requires base { IsTrue (rises_by key_cmp (λ p. p.key) base.now) }
    requires theirs { IsTrue (rises_by key_cmp (λ p. p.key) theirs.now) }
    ensures { IfOk result (λ read. string_bytes read ≡
        flat_map (sides.ours_piece (pieces_view base.now) (pieces_view theirs.now))
        (pieces_view ours.now)) }
{
    let mut read = String::new(alloc);
    for piece in ours {
        let was = piece_at(base, piece.key);
        let other = piece_at(theirs, piece.key);
        read.push_str(ours_text(alloc, was, piece.text, other)?)?;
    }
    Ok(read)
}

// The text of THEIRS in a segment, by the texts of the three files there.
fn theirs_text<'a>(
    alloc: Global,
    base: &'a str,
    ours: &'a str,
    theirs: &'a str,
) -> Result<&'a str, AllocError>
    ensures { IfOk result (λ text. text.now
        ≡ sides.theirs_text base.now ours.now theirs.now) }
{
    if is_same(theirs, base) || is_same(ours, base) {
        return Ok(theirs);
    }
    if same_wording(alloc, theirs, ours)? {
        return Ok(ours);
    }
    if same_wording(alloc, theirs, base)? {
        return Ok(base);
    }
    Ok(theirs)
}

// The text of OURS in a segment, by the texts of the three files there.
fn ours_text<'a>(
    alloc: Global,
    base: &'a str,
    ours: &'a str,
    theirs: &'a str,
) -> Result<&'a str, AllocError>
    ensures { IfOk result (λ text. text.now
        ≡ sides.ours_text base.now ours.now theirs.now) }
{
    if !same_wording(alloc, ours, base)? {
        return Ok(ours);
    }
    if same_wording(alloc, theirs, base)? {
        return Ok(ours);
    }
    Ok(base)
}

// Whether two texts are the same.
fn is_same(one: &str, other: &str) -> bool
    ensures { result ≡ same_bytes one.now other.now }
{
    one.as_bytes() == other.as_bytes()
}
