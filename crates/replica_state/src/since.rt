// Imports of a file that was changed since a bundle.
ghost use Rattle.std.specs.Prelude.{◌≡◌, ◌≢◌, ◌&&◌, [], None, Some, option_map, Err, IfOk, IfErr};
ghost use Rattle.std.specs.Prelude.{IfSome, IsOk, IsTrue, OnErr, map, if◌then◌else◌};
ghost use Rattle.std.specs.List.{list_any};
ghost use Rattle.usfm_ref.specs.Books.{same_bytes};
ghost use Rattle.usfm_ref.specs.Keys.{key_cmp};
ghost use Rattle.usfm_ref.specs.Rising.{rises_by};
ghost use Rattle.usfm_ref.specs.Segments.{segment};
ghost use Rattle.verse_cut.specs.Fits.{Fits};
ghost use Rattle.verse_cut.specs.Reading.{book_in};
ghost use Rattle.verse_cut.specs.Views.{pieces_view};
ghost use Rattle.op_core.specs.Ids.{is_none_left};
ghost use Rattle.op_core.specs.Ops.{own_text};
ghost use Rattle.op_core.specs.Shown.{last, text_if_any};
ghost use Rattle.op_core.specs.Sets.{clash};
ghost use Rattle.replica_state.specs.Changes.{change_view, changes_view};
ghost use Rattle.replica_state.specs.Imports as imports;
ghost use Rattle.replica_state.specs.Receives as receives;
ghost use Rattle.replica_state.specs.Since as since;

use crate::change::Change;
use crate::fault::SinceFault;
use crate::import::is_due;
use crate::pieces::piece_at;
use crate::replica::Replica;
use bundle_codec::Bundle;
use op_core::{Cursor, Op, OpId, OpSet};
use std::alloc::{AllocError, Global};
use std::mem;
use usfm_ref::{Book, Key};
use verse_cut::{Piece, book_of, cut};

impl Replica {
    /// Takes in what was changed in a file since it was written, and says how many edits that is.
    /// The base is the bundle that the file was written from, as its book's export.
    ///
    /// The base is received first. Then, for each key whose piece in the file differs from what the
    /// base picks there, absent counting as empty, and for the head of a chapter that would lose
    /// its line as in an import, the segment gets the file's piece, in the order of keys. The edit
    /// names what the segment shows of that which stood in the file, and no other id: the texts
    /// that came in since stay shown beside it. There is none where nothing is left to name and the
    /// new text is shown already.
    ///
    /// # Errors
    /// - `BadFile` where the file does not begin with at most one U+FEFF, `\id`, a blank, and a
    ///   book's code that ends.
    /// - `Clash` with the least id under which the replica and the base have operations that do not
    ///   agree.
    /// - `NumbersUsedUp` where an edit is due and the last one's number would be above 10^15.
    /// - `Memory` where an allocation failed.
    ///
    /// The first of them is answered, and the replica is then unchanged: it has not received the
    /// base either. A file that is no book's is never refused as out of memory, nor is a clash that
    /// comes in the base before what is new.
    pub fn import_since(&mut self, base: &Bundle<'_>, file: &str) -> Result<u64, SinceFault>
        ensures step { result ≢ Err SinceFault.Memory →
            since.imported_since self.old base.now file.now
            ≡ record { after = self.new; answer = result } }
        ensures bad_file { IfErr (book_in file.now)
            (λ fault. result ≡ Err (SinceFault.BadFile fault)) }
        // A clash is never reported as out of memory where nothing new comes before it in the base.
        ensures clash { let before = receives.before_clash self.old.held base.now in
            IsOk (book_in file.now) → receives.lacked self.old.held before ≡ []
            → IfSome (clash self.old.held base.now) (λ id. result ≡ Err (SinceFault.Clash id)) }
        ensures err { OnErr result (self.new ≡ self.old) }
    {
        let book = book_of(file)?;
        let lacked = self.copy_lacked(base)?;
        let was = self.holding_bundle(base)?;
        let pieces = cut(self.alloc, file)?;
        if lacked.is_empty() && base.is_full() {
            // Nothing is to be received, and so nothing to be undone where the edits are refused.
            return self.make_since(&was, book, &pieces);
        }
        let mut after = self.copy()?;
        after.receive(base)?;
        let count = after.make_since(&was, book, &pieces)?;
        self.replace_by(after);
        Ok(count)
    }

    // Puts another replica in its place.
    fn replace_by(&mut self, after: Replica)
        ensures { self.new ≡ after }
    {
        let _ = mem::replace(self, after);
    }

    // A replica of the same name that holds the same.
    fn copy(&self) -> Result<Replica, AllocError>
        ensures { IfOk result (λ copy. copy ≡ self.now) }
    {
        let mut ops = Vec::new(self.alloc);
        for op in self.set.iter() {
            ops.push(op.copy(self.alloc)?)?;
        }
        let mut set = OpSet::new(self.alloc);
        set.join_rising(ops)?;
        Ok(self.holding(set))
    }

    // A replica of the same name that holds what a bundle has.
    fn holding_bundle(&self, bundle: &Bundle<'_>) -> Result<Replica, AllocError>
        ensures { IfOk result (λ r. r ≡ record { name = self.now.name; held = bundle.now }) }
    {
        Ok(self.holding(bundle.to_set(self.alloc)?))
    }

    // A replica of the same name that holds a set.
    fn holding(&self, set: OpSet) -> Replica
        ensures { result ≡ record { name = self.now.name; held = set } }
    {
        // The name's text and the set's operations show that both are within their rules.
        let name = self.name;
        let _ = name.text();
        let _ = set.iter();
        Replica {
            alloc: self.alloc,
            name,
            set,
        }
    }

    // Makes what was changed in a file, and says how many edits that is.
    fn make_since(
        &mut self,
        was: &Replica,
        book: Book,
        pieces: &[Piece<'_>],
    ) -> Result<u64, SinceFault>
        requires rising { IsTrue (rises_by key_cmp (λ p. p.key) pieces.now) }
        requires fits { (key : _) →
            Fits book key (imports.piece_at (pieces_view pieces.now) key) }
        ensures step { let changes = since.since_changes self.old.held was.now.held book
            (pieces_view pieces.now) in
            result ≢ Err SinceFault.Memory →
            since.changed self.old self.old book changes
            ≡ record { after = self.new; answer = result } }
        ensures err { OnErr result (self.new ≡ self.old) }
    {
        let changes = self.since_changes(was, book, pieces)?;
        let Some(first) = self.first_number(changes.len()) else {
            return Err(SinceFault::NumbersUsedUp);
        };
        Ok(self.make(first, book, &changes)?)
    }

    // What was changed in a file, of rising keys.
    fn since_changes<'a>(
        &self,
        was: &Replica,
        book: Book,
        pieces: &[Piece<'a>],
    ) -> Result<Vec<Change<'a>>, AllocError>
        requires rising { IsTrue (rises_by key_cmp (λ p. p.key) pieces.now) }
        ensures { let made = since.since_changes self.now.held was.now.held book
            (pieces_view pieces.now) in
            IfOk result (λ changes. changes_view changes.items ≡ made) }
    {
        let mut changes = Vec::new(self.alloc);
        let mut base = was.set.cursor();
        let keys = self.walked_keys(book, pieces)?;
        for key in &keys {
            if let Some(change) = self.since_change(&mut base, book, pieces, *key)? {
                changes.push(change)?;
            }
        }
        Ok(changes)
    }

    /// The change of a key, if a file has another text there than the set of a cursor, from which
    /// the file was written: the file's piece, over those ids that the segment shows and whose
    /// text stood in the file. The pieces are those of the file, in ascending order of keys.
    ///
    /// # Errors
    /// Out of memory alone.
    pub fn since_change<'a>(
        &self,
        base: &mut Cursor<'_>,
        book: Book,
        pieces: &[Piece<'a>],
        key: Key,
    ) -> Result<Option<Change<'a>>, AllocError>
        requires rising { IsTrue (rises_by key_cmp (λ p. p.key) pieces.now) }
        ensures change { let view = pieces_view pieces.now in
            IfOk result (λ change. option_map change_view change
            ≡ (if since.is_changed self.now.held base.old book view key
            then Some (since.since_change self.now.held base.old book view key)
            else None)) }
        ensures same { base.new ≡ base.old }
    {
        if !is_due(base, book, pieces, key) {
            return Ok(None);
        }
        let text = piece_at(pieces, key);
        let ids = self.seen_ids(base, book, key)?;
        if self.is_shown_already(book, key, &ids, text)? {
            return Ok(None);
        }
        Ok(Some(Change { key, text, ids }))
    }

    // Whether a segment shows a text, and no ids are to be named.
    fn is_shown_already(
        &self,
        book: Book,
        key: Key,
        ids: &[OpId],
        text: &str,
    ) -> Result<bool, AllocError>
        ensures { IfOk result (λ is. is ≡ (is_none_left ids.now
            && since.shows_text self.now.held (segment book key) text.now)) }
    {
        if ids.is_empty() {
            self.shows_text(book, key, text)
        } else {
            Ok(false)
        }
    }

    // The ids that a segment shows, of those whose text stood in a file that was written from the
    // set of a cursor.
    fn seen_ids(&self, base: &mut Cursor<'_>, book: Book, key: Key) -> Result<Vec<OpId>, AllocError>
        ensures ids { IfOk result (λ ids.
            ids.items ≡ since.seen_ids self.now.held base.old (segment book key)) }
        ensures same { base.new ≡ base.old }
    {
        let stood = stood_ids(self.alloc, base, book, key)?;
        self.given_ids(book, key, &stood)
    }

    // Whether an operation that the segment shows has the text.
    fn shows_text(&self, book: Book, key: Key, text: &str) -> Result<bool, AllocError>
        ensures { IfOk result (λ shows.
            shows ≡ since.shows_text self.now.held (segment book key) text.now) }
    {
        let shown = self.shown(self.alloc, book, key)?;
        Ok(has_text(&shown, text))
    }
}

// The ids that a segment shows with the text of the greatest of them.
fn stood_ids(
    alloc: Global,
    base: &mut Cursor<'_>,
    book: Book,
    key: Key,
) -> Result<Vec<OpId>, AllocError>
    ensures ids { IfOk result (λ ids. ids.items ≡ since.stood_ids base.old (segment book key)) }
    ensures same { base.new ≡ base.old }
{
    let shown = base.shown(alloc, book, key)?;
    let text = greatest_text(&shown);
    let mut ids = Vec::new(alloc);
    for op in &shown {
        if is_text(op, text) {
            ids.push(op.id())?;
        }
    }
    Ok(ids)
}

// The text of the last of some operations, empty where there is none.
fn greatest_text<'a>(ops: &[&'a Op]) -> &'a str
    ensures { result.now ≡ text_if_any (last (map (λ op. op.now) ops.now)) }
{
    let mut text = "";
    for op in ops {
        text = op.text_or_empty();
    }
    text
}

// Whether one of some operations has the text.
fn has_text(ops: &[&Op], text: &str) -> bool
    ensures { result ≡ list_any (λ o. same_bytes (own_text o) text.now)
        (map (λ op. op.now) ops.now) }
{
    for op in ops {
        if is_text(op, text) {
            return true;
        }
    }
    false
}

// Whether the text is the operation's.
fn is_text(op: &Op, text: &str) -> bool
    ensures { result ≡ same_bytes (own_text op.now) text.now }
{
    op.text_or_empty().as_bytes() == text.as_bytes()
}
