ghost use Rattle.std.specs.Prelude.{◌≡◌, ◌≢◌, ◌&&◌, ◌+◌, ◌↔◌, [], ◌∷◌, length, map};
ghost use Rattle.std.specs.Prelude.{not, is_none};
ghost use Rattle.std.specs.Prelude.{None, IsTrue, IsOk, IfOk, IfErr, OnOk, OnErr};
ghost use Rattle.std.specs.Option.{option_copied};
ghost use Rattle.usfm_ref.specs.Segments.{segment};
ghost use Rattle.usfm_ref.specs.Segments as segments;
ghost use Rattle.op_core.specs.Ops as ops;
ghost use Rattle.op_core.specs.Sets as sets;
ghost use Rattle.op_core.specs.Thinned as thinned;
ghost use Rattle.op_core.specs.Shown as texts;
ghost use Rattle.op_core.specs.Lists as lists;
ghost use Rattle.op_core.specs.Loops.Index.{IsIndex};
ghost use Rattle.op_core.specs.NextIds as next_ids;
ghost use Rattle.std.specs.List.{AllByRecursion};
ghost use Rattle.usfm_ref.specs.Keys.{is_verse_of};

pub(crate) mod cursor;
mod thinning;

use self::cursor::{Cursor, lacks_text};
use crate::fault::SetFault;
use crate::ids::op_id::OpId;
use crate::ids::search::Search;
use crate::index::books::Books;
use crate::index::chapter::Chapter;
use crate::index::keys::Keys;
use crate::index::place::any_key_beside;
use crate::index::{enroll, push_awaited};
use crate::lists::merge::{
    clash, has_new, look_at_each, merge, place_first, remove_held, reserve_ops, tail_of,
};
use crate::lists::place::{find_op, op_at, place_last};
use crate::operations::op::Op;
use crate::operations::ops::Ops;
use crate::operations::picked::Picked;
use std::alloc::{AllocError, Global};
use std::marker::Model;
use std::slice;
use usfm_ref::{Book, Key, Segment};

/// A set of operations, of which no two have one id. It keeps the allocator that it was made with.
#[derive(Debug, Drop)]
pub struct OpSet {
    ops: Vec<Op>,
    chapters: Vec<Chapter>,
    search: Search,
}

impl Model for OpSet {
    ghost use Rattle.std.specs.Prelude.{List};
    ghost use Rattle.op_core.specs.Ops.{Operation};
    ghost use Rattle.op_core.specs.Sets.{IsOpSet};
    ghost use Rattle.op_core.specs.Loops.Index.{IsIndex};
    ghost use Rattle.op_core.specs.Thinned.{is_legal};
    ghost use Rattle.std.specs.Prelude.{IsTrue};

    ghost Value = { List Operation };

    ghost view = { λ s. s.ops.items };

    ghost invariant = { λ s. IsOpSet s.ops.items × IsIndex s.ops.items s.chapters.items
        × IsTrue (is_legal s.ops.items) };
}

impl OpSet {
    /// The empty set. It does not allocate.
    pub fn new(alloc: Global) -> OpSet
        ensures { result ≡ [] }
    {
        OpSet {
            ops: Vec::new(alloc),
            chapters: Vec::new(alloc),
            search: Search::default(),
        }
    }

    /// How many operations it holds.
    pub fn len(&self) -> usize
        ensures { result ≡ length self.now }
    {
        self.ops.len()
    }

    /// Whether it holds none.
    pub fn is_empty(&self) -> bool
        ensures { IsTrue result ↔ (self.now ≡ []) }
    {
        self.ops.is_empty()
    }

    /// The operations, in ascending order of ids, lent from the set. It does not allocate.
    pub fn iter(&self) -> Ops<'_>
        ensures items { result ≡ self.now }
        ensures set { sets.IsOpSet self.now }
        ensures legal { IsTrue (thinned.is_legal self.now) }
    {
        Ops::new(&self.ops)
    }

    /// The greatest number of an operation, 0 where it has none. It does not allocate.
    pub fn greatest_number(&self) -> u64
        ensures { result ≡ next_ids.greatest_number self.now }
    {
        match self.ops.last() {
            None => 0,
            Some(op) => op.id().number,
        }
    }

    /// The held operation of an id, lent from the set. It does not allocate.
    pub fn get(&self, id: &OpId) -> Option<&Op>
        ensures { option_copied result ≡ sets.get self.now id.now }
    {
        find_op(&self.ops, *id, &mut Search::default())
    }

    /// What looks up one id or one segment after another, fastest in ascending order. Making it
    /// does not allocate.
    pub fn cursor(&self) -> Cursor<'_>
        ensures { result ≡ self.now }
    {
        Cursor::new(self)
    }

    /// Adds an operation with its text, and says whether it is new. Where its id is held, what is
    /// held stays, thinned if it was, and nothing is allocated.
    ///
    /// # Errors
    /// `Clash` with the operation's id where a held operation has that id and does not agree with
    /// it; `Memory` where an allocation failed. The set is then unchanged, and the operation
    /// dropped.
    pub fn insert(&mut self, op: Op) -> Result<bool, SetFault>
        requires full { IsTrue (ops.is_full op) }
        ensures ok { OnOk result (self.new ≡ sets.put op self.old) }
        ensures new { IfOk result (λ new. new ≡ is_none (sets.get self.old op.id)) }
        ensures agrees { OnOk result (sets.clash self.old (op ∷ []) ≡ None) }
        ensures refused { IfErr result (sets.IsRefusal (sets.clash self.old (op ∷ []))) }
        ensures held { sets.get self.old op.id ≢ None → result ≢ Err SetFault.Memory }
        ensures err { OnErr result (self.new ≡ self.old) }
    {
        let id = op.id();
        let at = place_last(&self.ops, id, &mut self.search);
        if let Some(held) = op_at(&self.ops, at, id, &mut self.search) {
            return if held.agrees(&op) {
                Ok(false)
            } else {
                Err(SetFault::Clash(id))
            };
        }
        self.ops.reserve(1)?;
        let alloc = *self.ops.allocator();
        let new = slice::from_ref(&op);
        enroll(&mut self.chapters, alloc, &self.ops, new, &mut self.search)?;
        self.ops.insert(at, op).unwrap();
        Ok(true)
    }

    /// Adds the operations of another set, and says how many are new. An operation that either set
    /// has thinned is thinned in the union. Where the id of each is held already, or the set holds
    /// nothing and takes over the other one, nothing is allocated.
    ///
    /// # Errors
    /// `Clash` with the least id under which the two sets hold operations that do not agree;
    /// `Memory` where an allocation failed. The set is then unchanged, and the other one dropped.
    pub fn join(&mut self, other: OpSet) -> Result<u64, SetFault>
        ensures ok { OnOk result (self.new ≡ sets.join self.old other) }
        ensures count { IfOk result (λ n. length self.new ≡ length self.old + n) }
        ensures agrees { OnOk result (sets.clash self.old other ≡ None) }
        ensures refused { IfErr result (sets.IsRefusal (sets.clash self.old other)) }
        ensures held { sets.AreHeld self.old other → result ≢ Err SetFault.Memory }
        ensures empty { self.old ≡ [] → IsOk result }
        ensures err { OnErr result (self.new ≡ self.old) }
    {
        if self.is_empty() {
            return Ok(self.take_over(other));
        }
        if let Some(id) = clash(&self.ops, &other.ops, &mut self.search) {
            return Err(SetFault::Clash(id));
        }
        if !has_new(&self.ops, &other.ops, &mut self.search) {
            self.leave_thinned(&other.ops);
            return Ok(0);
        }
        let mut new = other.ops;
        let thinned = thinning::ids(*self.ops.allocator(), &new)?;
        remove_held(&mut new, &self.ops, &mut self.search);
        let count = self.join_rising(new)?;
        self.leave_texts(&thinned);
        Ok(count)
    }

    // Takes over another set, where it holds nothing, and says how many operations that has.
    fn take_over(&mut self, other: OpSet) -> u64
        requires { self.old ≡ [] }
        ensures new { self.new ≡ sets.join self.old other }
        ensures count { length self.new ≡ length self.old + result }
        ensures agrees { sets.clash self.old other ≡ None }
    {
        let count = other.len();
        let OpSet { ops, chapters, .. } = other;
        self.ops = ops;
        self.chapters = chapters;
        count as u64
    }

    /// Adds operations that rise by id and of which none is held, and says how many they are. In
    /// the union each thinned operation has to be named by one of its segment. What lies after the
    /// first of them is moved once, however many they are. Where there are none, it does not
    /// allocate.
    ///
    /// # Errors
    /// Out of memory alone. The set is then unchanged, and the operations dropped.
    pub fn join_rising(&mut self, new: Vec<Op>) -> Result<u64, AllocError>
        requires rising { IsTrue (sets.rises new.items) }
        requires apart { AllByRecursion (λ o. sets.get self.old o.id ≡ None) new.items }
        requires legal { IsTrue (thinned.is_legal (sets.join self.old new.items)) }
        ensures ok { OnOk result (self.new ≡ sets.join self.old new.items) }
        ensures count { IfOk result (λ n. n ≡ length new.items) }
        ensures none { new.items ≡ [] → IsOk result }
        ensures err { OnErr result (self.new ≡ self.old) }
    {
        if new.is_empty() {
            return Ok(0);
        }
        look_at_each(&new);
        let count = new.len();
        let from = place_first(&self.ops, &new, &mut self.search);
        let alloc = *self.ops.allocator();
        let tail = tail_of(alloc, self.ops.len(), from, count)?;
        reserve_ops(&mut self.ops, count)?;
        enroll(&mut self.chapters, alloc, &self.ops, &new, &mut self.search)?;
        merge(&mut self.ops, new, tail, from, &mut self.search);
        Ok(count as u64)
    }

    /// The ids of the operations that the segment shows, in ascending order, lent from the set;
    /// none where the segment has no operation. It does not allocate.
    pub fn shown_ids(&self, book: Book, key: Key) -> &[OpId]
        ensures { result.now ≡ lists.shown_ids self.now (segment book key) }
    {
        self.cursor().shown_ids(book, key)
    }

    /// The books with an operation, in the order of books. The walk does not allocate.
    pub fn books(&self) -> Books<'_>
        ensures { result ≡ lists.books_of self.now }
    {
        Books::new(self.index())
    }

    /// The keys of a book with an operation, in ascending order. The walk does not allocate.
    pub fn keys(&self, book: Book) -> Keys<'_>
        ensures { result ≡ lists.keys_of self.now book }
    {
        Keys::new(book, self.index())
    }

    /// The ids that a held operation names and none has, in ascending order, each once. Where there
    /// is none, it does not allocate.
    ///
    /// # Errors
    /// Out of memory alone.
    pub fn awaited(&self, alloc: Global) -> Result<Vec<OpId>, AllocError>
        ensures ids { IfOk result (λ ids. ids.items ≡ lists.awaited self.now) }
        ensures none { lists.awaited self.now ≡ [] → IsOk result }
    {
        let mut ids = Vec::new(alloc);
        push_awaited(self.index(), self.ops(), &mut ids)?;
        ids.sort_unstable();
        ids.dedup();
        Ok(ids)
    }

    /// How many comparisons the calls that change the set made to find what they change: each of
    /// two ids or of two segments adds one, up to `u64::MAX`. Whether two operations of one id
    /// agree is not counted. It is no part of the set, and may rise in a refused call.
    pub fn compared(&self) -> u64 {
        self.search.compared
    }

    /// What the segment shows: the operations of it whose ids no operation of it names as replaced,
    /// in ascending order, lent from the set. Where it shows none, it does not allocate.
    ///
    /// # Errors
    /// Out of memory alone.
    pub fn shown(&self, alloc: Global, book: Book, key: Key) -> Result<Vec<&Op>, AllocError>
        ensures ops { IfOk result
            (λ v. map (λ op. op.now) v.items ≡ texts.shown self.now (segment book key)) }
        ensures none { texts.shown self.now (segment book key) ≡ [] → IsOk result }
    {
        self.cursor().shown(alloc, book, key)
    }

    /// What is picked for the segment's text in its book's export: the chapter's own line for a
    /// head from chapter 1 on whose text would be empty while some verse of the chapter has a text,
    /// else the shown operation with the greatest id, if there is one. It does not allocate.
    pub fn pick(&self, book: Book, key: Key) -> Picked<'_>
        ensures { texts.picked result ≡ texts.pick self.now (segment book key) }
    {
        self.cursor().pick(book, key)
    }

    // The index, chapter by chapter. What holds of it, and of the operations, is known to those who
    // read it.
    fn index(&self) -> &[Chapter]
        ensures set { sets.IsOpSet self.now }
        ensures index { IsIndex self.now result.now }
    {
        &self.chapters
    }

    // The operations, rising by id.
    fn ops(&self) -> &[Op]
        ensures ops { result.now ≡ self.now }
        ensures rising { IsTrue (sets.rises result.now) }
    {
        &self.ops
    }

    fn is_text_empty(&self, segment: &Segment) -> bool
        ensures { result ≡ texts.is_empty (texts.text_of self.now segment.now) }
    {
        lacks_text(self.cursor().greatest(segment))
    }

    // Whether some verse of the chapter has a text that is not empty.
    fn has_verse_text(&self, segment: &Segment) -> bool
        ensures { result ≡ texts.has_verse_text self.now segment.now.book segment.now.key.chapter }
    {
        any_key_beside(
            self.index(),
            segment,
            |key| -> bool
                ensures { result ≡ (is_verse_of segment.entry.now.key.chapter key.now
                    && not (texts.is_empty (texts.text_of self.entry.now
                    (segments.segment segment.entry.now.book key.now)))) }
            {
                let own = Segment {
                    book: segment.book,
                    key: *key,
                };
                key.is_verse_of(segment.key.chapter) && !self.is_text_empty(&own)
            },
        )
    }
}
