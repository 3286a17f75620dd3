// What was changed in a file, of a segment and of all.
ghost use Rattle.std.specs.Prelude.{◌≡◌, IfOk, IsTrue, map, option_map};
ghost use Rattle.usfm_ref.specs.Keys.{key_cmp};
ghost use Rattle.usfm_ref.specs.Rising.{rises_by};
ghost use Rattle.verse_cut.specs.Views.{pieces_view};
ghost use Rattle.replica_state.specs.Changes.{change_view, changes_view};
ghost use Rattle.replica_state.specs.Imports.{walked_keys};
ghost use Rattle.book_folder.specs.Taking as taking;
ghost use Rattle.book_folder.specs.Wanted.{wanted_view};

use crate::conflicts::is_in_conflict;
use crate::files::is_same_book;
use crate::seen::Wanted;
use op_core::{Cursor, OpId};
use replica_state::{Change, Replica, piece_at};
use std::alloc::{AllocError, Global};
use usfm_ref::{Book, Key};
use verse_cut::Piece;

// What was changed in a file, at the keys that it may concern, which rise.
pub(crate) fn changes<'a>(
    alloc: Global,
    replica: &Replica,
    base: &Replica,
    settled: &[Wanted],
    book: Book,
    pieces: &[Piece<'a>],
    keys: &[Key],
) -> Result<Vec<Change<'a>>, AllocError>
    requires rising { IsTrue (rises_by key_cmp (λ p. p.key) pieces.now) }
    requires walked { keys.now ≡ walked_keys replica.now.held book (pieces_view pieces.now) }
    ensures { IfOk result (λ made. changes_view made.items
        ≡ taking.file_changes replica.now.held base.now.held (map wanted_view settled.now)
        book (pieces_view pieces.now)) }
{
    let mut base = base.set().cursor();
    let mut changes = Vec::new(alloc);
    let mut left = keys;
    'keys: while let [key, later @ ..] = left {
        if let Some(change) = change_at(alloc, replica, &mut base, settled, book, pieces, *key)? {
            changes.push(change)?;
        }
        left = later;
    }
    Ok(changes)
}

// The change of a key: where the file is to settle its conflict, the file's piece over all that the
// base shows and the project still does; else what was changed in the file, if anything was.
#[tactic(auto, unfolding(crate::specs::Taking::change_at))]
fn change_at<'a>(
    alloc: Global,
    replica: &Replica,
    base: &mut Cursor<'_>,
    settled: &[Wanted],
    book: Book,
    pieces: &[Piece<'a>],
    key: Key,
) -> Result<Option<Change<'a>>, AllocError>
    requires rising { IsTrue (rises_by key_cmp (λ p. p.key) pieces.now) }
    ensures change { IfOk result (λ made. option_map change_view made
        ≡ taking.change_at replica.now.held base.old (map wanted_view settled.now)
        book (pieces_view pieces.now) key) }
    ensures same { base.new ≡ base.old }
{
    if let Some(ids) = settling_ids(alloc, replica, base, settled, book, key)? {
        let text = piece_at(pieces, key);
        return Ok(Some(Change { key, text, ids }));
    }
    replica.since_change(base, book, pieces, key)
}

// The ids that a file replaces where it settles the conflict of a key.
fn settling_ids(
    alloc: Global,
    replica: &Replica,
    base: &mut Cursor<'_>,
    settled: &[Wanted],
    book: Book,
    key: Key,
) -> Result<Option<Vec<OpId>>, AllocError>
    ensures ids { IfOk result (λ ids. option_map (λ i. i.items) ids ≡ taking.settling_ids
        replica.now.held base.old (map wanted_view settled.now) book key) }
    ensures same { base.new ≡ base.old }
{
    if !is_wanted(settled, book, key)
        || !is_in_conflict(alloc, base, book, key)?
        || !is_in_conflict(alloc, &mut replica.set().cursor(), book, key)?
    {
        return Ok(None);
    }
    let ids = replica.shown_of(book, key, base.shown_ids(book, key))?;
    if ids.is_empty() {
        return Ok(None);
    }
    Ok(Some(ids))
}

// Whether a segment is among those that are wanted.
fn is_wanted(wanted: &[Wanted], book: Book, key: Key) -> bool
    ensures { result ≡ taking.is_wanted (map wanted_view wanted.now) book key }
{
    let mut left = wanted;
    'wanted: while let [one, later @ ..] = left {
        if is_same_book(one.book, book) && is_key(one.key, key) {
            return true;
        }
        left = later;
    }
    false
}

// Whether a key is the one that is wanted, or any is.
fn is_key(wanted: Option<Key>, key: Key) -> bool
    ensures { result ≡ taking.is_key wanted key }
{
    match wanted {
        Some(wanted) => wanted == key,
        None => true,
    }
}
