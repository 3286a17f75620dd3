// What is asked before a file is taken in: whether texts that are gone from it, or texts that came
// in and are undone in it, are meant.
ghost use Rattle.std.specs.Prelude.{◌≡◌, ◌||◌, IfOk, IsTrue, not, option_map};
ghost use Rattle.usfm_ref.specs.Keys.{key_cmp};
ghost use Rattle.usfm_ref.specs.Rising.{rises_by};
ghost use Rattle.verse_cut.specs.Views.{pieces_view};
ghost use Rattle.op_core.specs.CutsBack.{picked_at};
ghost use Rattle.usfm_ref.specs.Segments.{segment};
ghost use Rattle.op_core.specs.Shown.{is_empty, pick};
ghost use Rattle.book_folder.specs.Asks as asks;
ghost use Rattle.book_folder.specs.Likes.{like};
ghost use Rattle.book_folder.specs.Taking as taking;
ghost use Rattle.book_folder.specs.Wanted.{wishes_view};
ghost use Rattle.book_folder.specs.declared.refusal.FolderFault.TheVariants.{Emptied, Undone};

use crate::bridges::{farthest, is_covered};
use crate::likes::is_like;
use crate::refusal::FolderFault;
use crate::taking::{Beside, has_book};
use op_core::{Cursor, Picked, ReplicaName, chapter_line};
use replica_state::{Replica, piece_at};
use std::alloc::{AllocError, Global};
use usfm_ref::{Book, Key};
use verse_cut::Piece;

// What is asked about a file: the fault, and the keys for which it is asked, rising.
#[derive(Debug, Drop)]
pub(crate) struct AskedKeys {
    pub(crate) fault: FolderFault,
    pub(crate) keys: Vec<Key>,
}

// What a file is asked about first: texts that came in and that it undoes, then texts that are gone
// from it.
pub(crate) fn asked(
    alloc: Global,
    beside: &Beside<'_>,
    own: ReplicaName,
    book: Book,
    pieces: &[Piece<'_>],
) -> Result<Option<AskedKeys>, AllocError>
    requires rising { IsTrue (rises_by key_cmp (λ p. p.key) pieces.now) }
    ensures { let view = pieces_view pieces.now in
        let base = beside.now.base.now.held in
        IfOk result (λ made. option_map taking.asked_view made
        ≡ taking.asked (wishes_view beside.now.wishes.now)
        (asks.undone beside.now.older.now base own book view) (asks.emptied base book view)) }
{
    if let Some(asked) = asked_undone(alloc, beside, own, book, pieces)? {
        return Ok(Some(asked));
    }
    asked_emptied(alloc, beside, book, pieces)
}

// Asks about texts that came in and that a file undoes, unless that is meant, or its base is an
// older one by then.
fn asked_undone(
    alloc: Global,
    beside: &Beside<'_>,
    own: ReplicaName,
    book: Book,
    pieces: &[Piece<'_>],
) -> Result<Option<AskedKeys>, AllocError>
    requires rising { IsTrue (rises_by key_cmp (λ p. p.key) pieces.now) }
    ensures { let wishes = wishes_view beside.now.wishes.now in
        let undone = asks.undone beside.now.older.now beside.now.base.now.held own book
        (pieces_view pieces.now) in
        IfOk result (λ made. option_map taking.asked_view made
        ≡ taking.asked_by Undone (wishes.undone || wishes.stale) undone) }
{
    if beside.wishes.undone || beside.wishes.stale {
        return Ok(None);
    }
    match undone(alloc, beside, own, book, pieces)? {
        Some(keys) => {
            let fault = FolderFault::Undone(keys.len());
            Ok(Some(AskedKeys { fault, keys }))
        }
        None => Ok(None),
    }
}

// Asks about texts that are gone from a file, unless that is meant.
fn asked_emptied(
    alloc: Global,
    beside: &Beside<'_>,
    book: Book,
    pieces: &[Piece<'_>],
) -> Result<Option<AskedKeys>, AllocError>
    requires rising { IsTrue (rises_by key_cmp (λ p. p.key) pieces.now) }
    ensures { let wishes = wishes_view beside.now.wishes.now in
        let gone = asks.emptied beside.now.base.now.held book (pieces_view pieces.now) in
        IfOk result (λ made. option_map taking.asked_view made
        ≡ taking.asked_by Emptied wishes.emptied gone) }
{
    if beside.wishes.emptied {
        return Ok(None);
    }
    match emptied(alloc, beside.base, book, pieces)? {
        Some(keys) => {
            let fault = FolderFault::Emptied(keys.len());
            Ok(Some(AskedKeys { fault, keys }))
        }
        None => Ok(None),
    }
}

// The keys that a file undoes by the first of the older bases by which it undoes any.
fn undone(
    alloc: Global,
    beside: &Beside<'_>,
    own: ReplicaName,
    book: Book,
    pieces: &[Piece<'_>],
) -> Result<Option<Vec<Key>>, AllocError>
    requires rising { IsTrue (rises_by key_cmp (λ p. p.key) pieces.now) }
    ensures { IfOk result (λ keys. option_map (λ ks. ks.items) keys ≡ asks.undone
        beside.now.older.now beside.now.base.now.held own book (pieces_view pieces.now)) }
{
    let mut left = beside.older;
    'older: while let [older, later @ ..] = left {
        let keys = undone_since(alloc, older, beside.base, own, book, pieces)?;
        if keys.is_some() {
            return Ok(keys);
        }
        left = later;
    }
    Ok(None)
}

// The keys that a file undoes by an older base, where there are any.
#[tactic(auto, unfolding(crate::specs::Asks::undone_since))]
fn undone_since(
    alloc: Global,
    older: &Replica,
    base: &Replica,
    own: ReplicaName,
    book: Book,
    pieces: &[Piece<'_>],
) -> Result<Option<Vec<Key>>, AllocError>
    requires rising { IsTrue (rises_by key_cmp (λ p. p.key) pieces.now) }
    ensures { IfOk result (λ keys. option_map (λ ks. ks.items) keys
        ≡ asks.undone_since older.now.held base.now.held own book (pieces_view pieces.now)) }
{
    if !has_book(older, book) {
        return Ok(None);
    }
    let keys = undone_keys(alloc, older, base, own, book, pieces)?;
    if keys.is_empty() {
        return Ok(None);
    }
    Ok(Some(keys))
}

// The keys for which a base has a text and a file has none, where that is asked about: they are at
// least two.
fn emptied(
    alloc: Global,
    base: &Replica,
    book: Book,
    pieces: &[Piece<'_>],
) -> Result<Option<Vec<Key>>, AllocError>
    requires rising { IsTrue (rises_by key_cmp (λ p. p.key) pieces.now) }
    ensures { IfOk result (λ keys. option_map (λ ks. ks.items) keys
        ≡ asks.emptied base.now.held book (pieces_view pieces.now)) }
{
    let keys = gone_keys(alloc, base, book, pieces)?;
    if keys.len() < 2 {
        return Ok(None);
    }
    Ok(Some(keys))
}

// The keys for which a base has a text and a file has none, rising, without those that a bridge of
// the file covers.
fn gone_keys(
    alloc: Global,
    base: &Replica,
    book: Book,
    pieces: &[Piece<'_>],
) -> Result<Vec<Key>, AllocError>
    requires rising { IsTrue (rises_by key_cmp (λ p. p.key) pieces.now) }
    ensures { IfOk result (λ keys. keys.items
        ≡ asks.gone_keys base.now.held book (pieces_view pieces.now)) }
{
    let far = farthest(alloc, pieces)?;
    let mut cursor = base.set().cursor();
    let mut keys = Vec::new(alloc);
    for key in base.keys(book) {
        if piece_at(pieces, key).is_empty()
            && has_text(&mut cursor, book, key)
            && !is_covered(pieces, &far, key)
        {
            keys.push(key)?;
        }
    }
    Ok(keys)
}

// Whether a text is picked for a key.
fn has_text(cursor: &mut Cursor<'_>, book: Book, key: Key) -> bool
    ensures text { result ≡ not (is_empty (picked_at cursor.old book key)) }
    ensures same { cursor.new ≡ cursor.old }
{
    match cursor.pick(book, key) {
        Picked::Nothing => false,
        Picked::Held(op) => !op.text_or_empty().is_empty(),
        Picked::ChapterLine(_) => true,
    }
}

// The keys of a book for which another's text came in between an older base and a base, and a file
// has the older one.
fn undone_keys(
    alloc: Global,
    older: &Replica,
    base: &Replica,
    own: ReplicaName,
    book: Book,
    pieces: &[Piece<'_>],
) -> Result<Vec<Key>, AllocError>
    requires rising { IsTrue (rises_by key_cmp (λ p. p.key) pieces.now) }
    ensures { IfOk result (λ keys. keys.items
        ≡ asks.undone_keys older.now.held base.now.held own book (pieces_view pieces.now)) }
{
    let mut older = older.set().cursor();
    let mut newer = base.set().cursor();
    let mut undone = Vec::new(alloc);
    for key in base.keys(book) {
        if is_new_of_another(&mut older, &mut newer, own, book, key)
            && is_picked(&mut older, book, key, piece_at(pieces, key))
        {
            undone.push(key)?;
        }
    }
    Ok(undone)
}

// Whether a file lacks a text of another's that came in between an older base and a base.
pub(crate) fn lacks_any(
    older: &Replica,
    base: &Replica,
    own: ReplicaName,
    book: Book,
    pieces: &[Piece<'_>],
) -> bool
    requires rising { IsTrue (rises_by key_cmp (λ p. p.key) pieces.now) }
    ensures { result
        ≡ asks.lacks_any older.now.held base.now.held own book (pieces_view pieces.now) }
{
    let mut older = older.set().cursor();
    let mut newer = base.set().cursor();
    for key in base.keys(book) {
        if is_new_of_another(&mut older, &mut newer, own, book, key)
            && !is_picked(&mut newer, book, key, piece_at(pieces, key))
        {
            return true;
        }
    }
    false
}

// Whether a file has the text of a key that a replica picks.
pub(crate) fn has_text_of(
    cursor: &mut Cursor<'_>,
    book: Book,
    pieces: &[Piece<'_>],
    key: Key,
) -> bool
    requires rising { IsTrue (rises_by key_cmp (λ p. p.key) pieces.now) }
    ensures text { result ≡ asks.has_text_of cursor.old book (pieces_view pieces.now) key }
    ensures same { cursor.new ≡ cursor.old }
{
    is_picked(cursor, book, key, piece_at(pieces, key))
}

// Whether what a base picks for a key is another replica's, and not like what an older base picks.
fn is_new_of_another(
    older: &mut Cursor<'_>,
    base: &mut Cursor<'_>,
    own: ReplicaName,
    book: Book,
    key: Key,
) -> bool
    ensures new { let picked = pick base.old (segment book key) in
        result ≡ asks.is_new_of_another older.old own book key picked }
    ensures same { (older.new ≡ older.old) × (base.new ≡ base.old) }
{
    match base.pick(book, key) {
        Picked::Held(op) => {
            op.id().name != own && !is_picked(older, book, key, op.text_or_empty())
        }
        _ => false,
    }
}

// Whether a text is like the one that is picked for a key.
fn is_picked(cursor: &mut Cursor<'_>, book: Book, key: Key, text: &str) -> bool
    ensures like { result ≡ like (picked_at cursor.old book key) text.now }
    ensures same { cursor.new ≡ cursor.old }
{
    match cursor.pick(book, key) {
        Picked::Nothing => is_like(b"", text.as_bytes()),
        Picked::Held(op) => is_like(op.text_or_empty().as_bytes(), text.as_bytes()),
        Picked::ChapterLine(chapter) => is_like(chapter_line(chapter).bytes(), text.as_bytes()),
    }
}

// Of how many segments a file has another text than a replica picks.
pub(crate) fn unlikeness(
    replica: &Replica,
    book: Book,
    pieces: &[Piece<'_>],
) -> Result<usize, AllocError>
    requires rising { IsTrue (rises_by key_cmp (λ p. p.key) pieces.now) }
    ensures { IfOk result (λ count.
        count ≡ asks.unlikeness replica.now.held book (pieces_view pieces.now)) }
{
    let keys = replica.walked_keys(book, pieces)?;
    Ok(
        keys.iter()
            .filter(|key| !has_text_of(&mut replica.set().cursor(), book, pieces, **key))
            .count(),
    )
}
