// Changes of segments: what an import makes, however it found them.
ghost use Rattle.std.specs.Prelude.{◌≡◌, ◌≢◌, ◌<◌, ◌≤◌, ◌+◌, [], Ok, Err, IfOk, IfErr, IfSome};
ghost use Rattle.std.specs.Prelude.{IsOk, OnErr, OnOk, length};
ghost use Rattle.std.specs.List.{AllByRecursion};
ghost use Rattle.usfm_ref.specs.Segments.{segment};
ghost use Rattle.verse_cut.specs.Fits.{Fits};
ghost use Rattle.op_core.specs.NextIds.{given_ids, greatest_number};
ghost use Rattle.replica_state.specs.Changes.{change_view, changes_view};
ghost use Rattle.replica_state.specs.Changes as changing;
ghost use Rattle.replica_state.specs.Edits as edits;
ghost use Rattle.replica_state.specs.States.{IsState};
ghost use Rattle.replica_state.specs.Steps.{edited_all, with_ops};

use crate::fault::EditFault;
use crate::replica::Replica;
use op_core::{LAST_NUMBER, Op, OpId};
use std::alloc::AllocError;
use usfm_ref::{Book, Key};
use verse_cut::fits;

/// A change of a segment of a book.
#[derive(Debug, Drop)]
pub struct Change<'a> {
    /// The segment's key.
    pub key: Key,
    /// The text that the segment gets.
    pub text: &'a str,
    /// The ids of the operations that the text replaces, in any order.
    pub ids: Vec<OpId>,
}

impl Replica {
    /// Makes changes of a book, and says how many edits that is: for each, in their order, an
    /// operation of the replica that gives the segment the text and names the ids, each once. The
    /// first one's number is the greatest held number and one, and those of the others follow on.
    /// No edit names another: where two changes have one key, both texts are shown. Where there are
    /// no changes, it does not allocate.
    ///
    /// # Errors
    /// - `BadSegment` or `NotShown` for the first of the changes that may not be made: where its
    ///   text does not fit the book and the key; or else with the first of its ids that the segment
    ///   does not show.
    /// - `NumbersUsedUp` where there are changes and the last one's number would be above 10^15.
    /// - `Memory` where an allocation failed.
    ///
    /// The first of them is answered, and the replica is then unchanged. No other refusal needs
    /// an allocation.
    pub fn change(&mut self, book: Book, changes: &[Change<'_>]) -> Result<u64, EditFault>
        ensures step { let made = changing.changes_ops self.old book (changes_view changes.now) in
            result ≢ Err EditFault.Memory →
            edited_all self.old self.old made ≡ record { after = self.new; answer = result } }
        ensures refused { IfErr (changing.changes_ops self.old book (changes_view changes.now))
            (λ fault. result ≡ Err fault) }
        ensures none { changes.now ≡ [] → result ≡ Ok 0 }
        ensures err { OnErr result (self.new ≡ self.old) }
    {
        if let Some(fault) = self.first_fault(book, changes) {
            return Err(fault);
        }
        let Some(first) = self.first_number(changes.len()) else {
            return Err(EditFault::NumbersUsedUp);
        };
        Ok(self.make(first, book, changes)?)
    }

    // Why the first of the changes that may not be made may not, if there is one.
    fn first_fault(&self, book: Book, changes: &[Change<'_>]) -> Option<EditFault>
        ensures { result ≡ changing.first_fault self.now.held book (changes_view changes.now) }
    {
        for change in changes {
            if let Some(fault) = self.change_fault(book, change) {
                return Some(fault);
            }
        }
        None
    }

    // Why the change may not be made, if it may not.
    fn change_fault(&self, book: Book, change: &Change<'_>) -> Option<EditFault>
        ensures { result ≡ changing.change_fault self.now.held book (change_view change.now) }
    {
        if !fits(book, change.key, change.text) {
            return Some(EditFault::BadSegment);
        }
        self.first_not_shown(book, change.key, &change.ids)
            .map(|id| EditFault::NotShown(*id))
    }

    // The number of the first of this many operations more, if numbers are left for all of them.
    pub(crate) fn first_number(&self, count: usize) -> Option<u64>
        ensures number { result ≡ edits.first_number self.now.held count }
        ensures beyond { IfSome result (λ first. greatest_number self.now.held < first) }
        ensures room { IfSome result (λ first. first + count ≤ LAST_NUMBER + 1) }
        ensures state { IsState self.now }
    {
        let greatest = self.set.greatest_number();
        if greatest <= LAST_NUMBER && count as u64 <= LAST_NUMBER - greatest {
            Some(greatest + 1)
        } else {
            None
        }
    }

    // The id of this number with the replica's name.
    pub(crate) fn own_id(&self, number: u64) -> OpId
        requires first { 1 ≤ number }
        requires last { number ≤ LAST_NUMBER }
        ensures id { result ≡ edits.own_id self.now number }
        ensures state { IsState self.now }
    {
        OpId {
            number,
            name: self.name,
        }
    }

    // Makes the edits of some changes, numbered from the first one on, and says how many they are.
    // Nothing is allocated where there are none.
    pub(crate) fn make(
        &mut self,
        first: u64,
        book: Book,
        changes: &[Change<'_>],
    ) -> Result<u64, AllocError>
        requires beyond { greatest_number self.old.held < first }
        requires room { first + length changes.now ≤ LAST_NUMBER + 1 }
        requires fits { AllByRecursion (λ c. Fits book c.key c.text) (changes_view changes.now) }
        ensures ok { let made = changing.edits_from first self.old book
            (changes_view changes.now) in
            OnOk result (self.new ≡ with_ops self.old made) }
        ensures count { IfOk result (λ n. n ≡ length changes.now) }
        ensures none { changes.now ≡ [] → IsOk result }
        ensures err { OnErr result (self.new ≡ self.old) }
    {
        let edits = self.edits_of(first, book, changes)?;
        self.join_new(edits)
    }

    // The edits of some changes, numbered from the first one on.
    fn edits_of(
        &self,
        first: u64,
        book: Book,
        changes: &[Change<'_>],
    ) -> Result<Vec<Op>, AllocError>
        requires beyond { greatest_number self.now.held < first }
        requires room { first + length changes.now ≤ LAST_NUMBER + 1 }
        requires fits { AllByRecursion (λ c. Fits book c.key c.text) (changes_view changes.now) }
        ensures ops { let made = changing.edits_from first self.now book
            (changes_view changes.now) in
            IfOk result (λ ops. ops.items ≡ made) }
        ensures none { changes.now ≡ [] → IsOk result }
        ensures state { IsState self.now }
    {
        let mut ops = Vec::with_capacity(self.alloc, changes.len())?;
        let mut number = first;
        for change in changes {
            let edit = self.edit_of(self.own_id(number), book, change)?;
            ops.push(edit)?;
            number += 1;
        }
        Ok(ops)
    }

    // The edit of a change by an id beyond all that are held.
    fn edit_of(&self, id: OpId, book: Book, change: &Change<'_>) -> Result<Op, AllocError>
        requires beyond { greatest_number self.now.held < id.number }
        requires fits { Fits book change.now.key change.now.text.now }
        ensures op { let g = segment book change.now.key in
            let named = given_ids self.now.held g change.now.ids.items in
            IfOk result (λ op. op ≡ edits.edit_with id g named change.now.text.now) }
    {
        let replaced = self.given_ids(book, change.key, &change.ids)?;
        let text = String::from_str(self.alloc, change.text)?;
        Ok(Op::new(id, book, change.key, replaced, text))
    }
}
