// Imports of a book's file into a replica.
ghost use Rattle.std.specs.Prelude.{◌≡◌, ◌≢◌, Err, IfOk, IfErr, IsTrue, OnErr, OnOk, ◌++◌, map};
ghost use Rattle.usfm_ref.specs.Books.{same_bytes};
ghost use Rattle.usfm_ref.specs.Keys.{key_cmp, head_of};
ghost use Rattle.usfm_ref.specs.Rising.{rises_by};
ghost use Rattle.verse_cut.specs.Reading.{book_in};
ghost use Rattle.verse_cut.specs.Views.{pieces_view};
ghost use Rattle.op_core.specs.Lists.{keys_of};
ghost use Rattle.replica_state.specs.Changes.{changes_view};
ghost use Rattle.replica_state.specs.Imports as imports;
ghost use Rattle.replica_state.specs.Steps.{step, Import, Imported};

use crate::change::Change;
use crate::fault::ImportFault;
use crate::pieces::{has_verse, piece_at};
use crate::replica::Replica;
use op_core::{Cursor, Picked, chapter_line};
use std::alloc::AllocError;
use usfm_ref::{Book, Key};
use verse_cut::{Piece, book_of, cut};

impl Replica {
    /// Takes in the file of a book, by the edits that make it the book's export, and says how many
    /// they are. For each key whose picked text differs from the file's piece, absent counting as
    /// empty, it gives the segment that piece, in the order of keys. So it does for the head of a
    /// chapter that is picked as the chapter's own line, where the file has that line and no verse
    /// of the chapter. What is picked is that of the replica before the import.
    ///
    /// # Errors
    /// - `BadFile` where the file does not begin with at most one U+FEFF, `\id`, a blank, and a
    ///   book's code that ends.
    /// - `NumbersUsedUp` where an edit is due and the last one's number would be above 10^15.
    /// - `Memory` where an allocation failed.
    ///
    /// The first of them is answered, and the replica is then unchanged. A file that is no book's
    /// is never refused as out of memory.
    pub fn import(&mut self, file: &str) -> Result<u64, ImportFault>
        ensures step { result ≢ Err ImportFault.Memory →
            step self.old (Import file.now) ≡ record { after = self.new; reply = Imported result } }
        ensures bad_file { IfErr (book_in file.now)
            (λ fault. result ≡ Err (ImportFault.BadFile fault)) }
        ensures err { OnErr result (self.new ≡ self.old) }
    {
        let book = book_of(file)?;
        let pieces = cut(self.alloc, file)?;
        let changes = self.due_changes(book, &pieces)?;
        let Some(first) = self.first_number(changes.len()) else {
            return Err(ImportFault::NumbersUsedUp);
        };
        Ok(self.make(first, book, &changes)?)
    }

    // The changes that an import makes, of rising keys.
    fn due_changes<'a>(
        &self,
        book: Book,
        pieces: &[Piece<'a>],
    ) -> Result<Vec<Change<'a>>, AllocError>
        requires rising { IsTrue (rises_by key_cmp (λ p. p.key) pieces.now) }
        ensures { let due = imports.due_changes self.now.held book (pieces_view pieces.now) in
            IfOk result (λ changes. changes_view changes.items ≡ due) }
    {
        let mut changes = Vec::new(self.alloc);
        let mut cursor = self.set.cursor();
        let keys = self.walked_keys(book, pieces)?;
        for key in &keys {
            if is_due(&mut cursor, book, pieces, *key) {
                let text = piece_at(pieces, *key);
                let ids = cursor.shown_ids(book, *key).to_vec(self.alloc)?;
                changes.push(Change {
                    key: *key,
                    text,
                    ids,
                })?;
            }
        }
        Ok(changes)
    }

    /// The keys that a change of a book's file may concern: those of the book with an operation,
    /// the heads of their chapters, and the keys of the file's pieces, in ascending order, each
    /// once.
    ///
    /// # Errors
    /// Out of memory alone.
    pub fn walked_keys(&self, book: Book, pieces: &[Piece<'_>]) -> Result<Vec<Key>, AllocError>
        ensures { let walked = imports.walked_keys self.now.held book (pieces_view pieces.now) in
            IfOk result (λ keys. keys.items ≡ walked) }
    {
        let mut keys = self.gathered_keys(book, pieces)?;
        keys.sort_unstable();
        keys.dedup();
        Ok(keys)
    }

    // The same keys in no order.
    fn gathered_keys(&self, book: Book, pieces: &[Piece<'_>]) -> Result<Vec<Key>, AllocError>
        ensures { let held = keys_of self.now.held book in
            IfOk result (λ keys.
            keys.items ≡ map head_of held ++ (held ++ map (λ p. p.key) pieces.now)) }
    {
        let held = self.held_keys(book)?;
        let mut keys = Vec::new(self.alloc);
        push_heads(&mut keys, &held)?;
        keys.extend_from_slice(&held)?;
        push_piece_keys(&mut keys, pieces)?;
        Ok(keys)
    }

    // The book's keys with an operation.
    fn held_keys(&self, book: Book) -> Result<Vec<Key>, AllocError>
        ensures { IfOk result (λ keys. keys.items ≡ keys_of self.now.held book) }
    {
        self.set.keys(book).collect(self.alloc)
    }
}

// Whether an import into the set of a cursor edits the key.
pub(crate) fn is_due(cursor: &mut Cursor<'_>, book: Book, pieces: &[Piece<'_>], key: Key) -> bool
    requires rising { IsTrue (rises_by key_cmp (λ p. p.key) pieces.now) }
    ensures due { result ≡ imports.is_due cursor.old book (pieces_view pieces.now) key }
    ensures same { cursor.new ≡ cursor.old }
{
    let piece = piece_at(pieces, key);
    match cursor.pick(book, key) {
        Picked::Nothing => !piece.is_empty(),
        Picked::Held(op) => op.text_or_empty() != piece,
        Picked::ChapterLine(chapter) => {
            if is_same(chapter_line(chapter).bytes(), piece) {
                return !has_verse(pieces, key);
            }
            true
        }
    }
}

// Adds the heads of the chapters of some keys.
fn push_heads(keys: &mut Vec<Key>, held: &[Key]) -> Result<(), AllocError>
    ensures { OnOk result (keys.new.items ≡ keys.old.items ++ map head_of held.now) }
{
    for key in held {
        keys.push(key.head())?;
    }
    Ok(())
}

// Adds the keys of some pieces.
fn push_piece_keys(keys: &mut Vec<Key>, pieces: &[Piece<'_>]) -> Result<(), AllocError>
    ensures { OnOk result (keys.new.items ≡ keys.old.items ++ map (λ p. p.key) pieces.now) }
{
    for piece in pieces {
        keys.push(piece.key)?;
    }
    Ok(())
}

// Whether the bytes are those of a text.
fn is_same(bytes: &[u8], text: &str) -> bool
    ensures { result ≡ same_bytes bytes.now text.now }
{
    bytes == text.as_bytes()
}
