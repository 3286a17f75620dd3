// Edits of a replica.
ghost use Rattle.std.specs.Prelude.{◌≡◌, ◌≢◌, [], None, Err, IfOk, IfErr, IsOk, IsTrue, OnOk};
ghost use Rattle.std.specs.Prelude.{OnErr, filter, length};
ghost use Rattle.std.specs.List.{AllByRecursion};
ghost use Rattle.std.specs.Option.{option_copied};
ghost use Rattle.usfm_ref.specs.Segments.{segment};
ghost use Rattle.op_core.specs.Export.{has_book};
ghost use Rattle.op_core.specs.Lists.{shown_ids};
ghost use Rattle.op_core.specs.NextIds.{given_ids, is_among};
ghost use Rattle.op_core.specs.Sets.{get, join, rises};
ghost use Rattle.op_core.specs.Thinned.{is_legal};
ghost use Rattle.replica_state.specs.Edits as edits;
ghost use Rattle.replica_state.specs.Steps.{step, Edit, EditOver, Edited, with_ops};

use crate::change::Change;
use crate::fault::EditFault;
use crate::ids::{first_not_among, given_among, is_among};
use crate::replica::Replica;
use op_core::{Op, OpId};
use std::alloc::AllocError;
use usfm_ref::{Book, Key};
use verse_cut::fits;

impl Replica {
    /// Gives a segment a text, by an operation of the replica that names all ids which the segment
    /// shows, and answers its id: the replica's name, and the greatest held number and one.
    ///
    /// # Errors
    /// - `BadSegment` where the text does not fit the book and the key.
    /// - `NoBook` where the book has no operation and the key is not the head of the book.
    /// - `NumbersUsedUp` where the number would be above 10^15.
    /// - `Memory` where an allocation failed.
    ///
    /// The first of them is answered, and the replica is then unchanged. No other refusal needs
    /// an allocation.
    pub fn edit(&mut self, book: Book, key: Key, text: &str) -> Result<OpId, EditFault>
        ensures step { result ≢ Err EditFault.Memory →
            step self.old (Edit (segment book key) text.now)
            ≡ record { after = self.new; reply = Edited result } }
        ensures refused { IfErr (edits.edit_op self.old (segment book key) text.now)
            (λ fault. result ≡ Err fault) }
        ensures err { OnErr result (self.new ≡ self.old) }
    {
        if let Some(fault) = self.edit_fault(book, key, text) {
            return Err(fault);
        }
        let Some(number) = self.first_number(1) else {
            return Err(EditFault::NumbersUsedUp);
        };
        let ids = self.shown_ids(book, key)?;
        self.make(number, book, &[Change { key, text, ids }])?;
        Ok(self.own_id(number))
    }

    /// Gives a segment a text, by an operation of the replica that names the given ids, and answers
    /// its id: the replica's name, and the greatest held number and one. The ids are in any order,
    /// and one that is repeated counts once. No ids name nothing.
    ///
    /// # Errors
    /// - `BadSegment` where the text does not fit the book and the key.
    /// - `NoBook` where the book has no operation and the key is not the head of the book.
    /// - `NotShown` with the first of the ids that the segment does not show.
    /// - `NumbersUsedUp` where the number would be above 10^15.
    /// - `Memory` where an allocation failed.
    ///
    /// The first of them is answered, and the replica is then unchanged. No other refusal needs
    /// an allocation.
    pub fn edit_over(
        &mut self,
        book: Book,
        key: Key,
        text: &str,
        over: &[OpId],
    ) -> Result<OpId, EditFault>
        ensures step { result ≢ Err EditFault.Memory →
            step self.old (EditOver (segment book key) text.now over.now)
            ≡ record { after = self.new; reply = Edited result } }
        ensures refused { IfErr (edits.edit_over_op self.old (segment book key) text.now over.now)
            (λ fault. result ≡ Err fault) }
        ensures err { OnErr result (self.new ≡ self.old) }
    {
        if let Some(fault) = self.edit_fault(book, key, text) {
            return Err(fault);
        }
        if let Some(id) = self.first_not_shown(book, key, over) {
            return Err(EditFault::NotShown(*id));
        }
        let Some(number) = self.first_number(1) else {
            return Err(EditFault::NumbersUsedUp);
        };
        let ids = over.to_vec(self.alloc)?;
        self.make(number, book, &[Change { key, text, ids }])?;
        Ok(self.own_id(number))
    }

    // Why an edit of the segment may not begin, if it may not.
    fn edit_fault(&self, book: Book, key: Key, text: &str) -> Option<EditFault>
        ensures { result ≡ edits.edit_fault self.now.held (segment book key) text.now }
    {
        if !fits(book, key, text) {
            Some(EditFault::BadSegment)
        } else if self.has_book(book) || key.is_book_head() {
            None
        } else {
            Some(EditFault::NoBook)
        }
    }

    // Whether the book has an operation.
    fn has_book(&self, book: Book) -> bool
        ensures { result ≡ has_book self.now.held book }
    {
        self.set.keys(book).next().is_some()
    }

    // The ids that the segment shows.
    pub(crate) fn shown_ids(&self, book: Book, key: Key) -> Result<Vec<OpId>, AllocError>
        ensures { IfOk result (λ ids. ids.items ≡ shown_ids self.now.held (segment book key)) }
    {
        self.set.shown_ids(book, key).to_vec(self.alloc)
    }

    // The ids that the segment shows, of those that are given.
    pub(crate) fn given_ids(
        &self,
        book: Book,
        key: Key,
        given: &[OpId],
    ) -> Result<Vec<OpId>, AllocError>
        ensures { IfOk result (λ ids.
            ids.items ≡ given_ids self.now.held (segment book key) given.now) }
    {
        given_among(self.alloc, self.set.shown_ids(book, key), given)
    }

    /// Whether the segment shows an operation of this id. It does not allocate.
    pub fn shows_id(&self, book: Book, key: Key, id: OpId) -> bool
        ensures { result ≡ is_among (shown_ids self.now.held (segment book key)) id }
    {
        is_among(self.set.shown_ids(book, key), id)
    }

    /// Those of some ids that the segment shows, in the same order.
    ///
    /// # Errors
    /// Out of memory alone.
    pub fn shown_of(&self, book: Book, key: Key, ids: &[OpId]) -> Result<Vec<OpId>, AllocError>
        ensures { IfOk result (λ shown. shown.items
            ≡ filter (is_among (shown_ids self.now.held (segment book key))) ids.now) }
    {
        let mut shown = Vec::new(self.alloc);
        for id in ids {
            if self.shows_id(book, key, *id) {
                shown.push(*id)?;
            }
        }
        Ok(shown)
    }

    // The first of some ids that the segment does not show.
    pub(crate) fn first_not_shown<'a>(
        &self,
        book: Book,
        key: Key,
        ids: &'a [OpId],
    ) -> Option<&'a OpId>
        ensures { option_copied result
            ≡ edits.first_not_shown self.now.held (segment book key) ids.now }
    {
        first_not_among(ids, self.set.shown_ids(book, key))
    }

    // Adds operations that rise by id and of which none is held, and says how many they are.
    // Nothing is allocated where there are none.
    pub(crate) fn join_new(&mut self, new: Vec<Op>) -> Result<u64, AllocError>
        requires rising { IsTrue (rises new.items) }
        requires apart { AllByRecursion (λ o. get self.old.held o.id ≡ None) new.items }
        requires legal { IsTrue (is_legal (join self.old.held new.items)) }
        ensures ok { OnOk result (self.new ≡ with_ops self.old new.items) }
        ensures count { IfOk result (λ n. n ≡ length new.items) }
        ensures none { new.items ≡ [] → IsOk result }
        ensures err { OnErr result (self.new ≡ self.old) }
    {
        let count = self.set.join_rising(new)?;
        // The set's operations show that they are within their rules.
        let _ = self.set.iter();
        Ok(count)
    }
}
