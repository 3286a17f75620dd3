// Looking up one id or one segment after another.
ghost use Rattle.std.specs.Prelude.{◌≡◌, [], IfOk, IsOk, map};
ghost use Rattle.std.specs.Option.{option_copied};
ghost use Rattle.usfm_ref.specs.Segments.{segment};
ghost use Rattle.op_core.specs.Lists as lists;
ghost use Rattle.op_core.specs.NextIds.{is_among};
ghost use Rattle.op_core.specs.Sets as sets;
ghost use Rattle.op_core.specs.Shown as texts;

use super::OpSet;
use crate::ids::has_id;
use crate::ids::op_id::OpId;
use crate::ids::search::Search;
use crate::index::place::shown_of;
use crate::lists::place::find_near;
use crate::operations::op::Op;
use crate::operations::picked::Picked;
use std::alloc::{AllocError, Global};
use std::marker::Model;
use usfm_ref::{Book, Key, Place, Segment};

/// Looks up operations and segments in a set, which it borrows. Made by `OpSet::cursor`. It begins
/// each search where the last one ended, so that a segment or an id that comes directly after the
/// last one is found in a few comparisons. In any order it answers as the set does. Only `shown`
/// allocates.
#[derive(Debug, Drop)]
pub struct Cursor<'a> {
    set: &'a OpSet,
    // Where the last searches ended.
    search: Search,
}

impl<'a> Model for Cursor<'a> {
    ghost use Rattle.std.specs.Prelude.{List};
    ghost use Rattle.op_core.specs.Ops.{Operation};

    ghost Value = { List Operation };

    ghost view = { λ s. s.set.now };
}

impl<'a> Cursor<'a> {
    pub(super) fn new(set: &'a OpSet) -> Cursor<'a>
        ensures { result ≡ set.now }
    {
        Cursor {
            set,
            search: Search::default(),
        }
    }

    /// The held operation of an id, lent from the set.
    pub fn find(&mut self, id: &OpId) -> Option<&'a Op>
        ensures found { option_copied result ≡ sets.get self.old id.now }
        ensures same { self.new ≡ self.old }
    {
        let ops = self.set.ops();
        find_near(ops, *id, &mut self.search)
    }

    /// The ids of the operations that the segment shows, as `OpSet::shown_ids` answers.
    pub fn shown_ids(&mut self, book: Book, key: Key) -> &'a [OpId]
        ensures ids { result.now ≡ lists.shown_ids self.old (segment book key) }
        ensures set { sets.IsOpSet self.old }
        ensures same { self.new ≡ self.old }
    {
        let segment = Segment { book, key };
        shown_of(self.set.index(), &segment, &mut self.search)
    }

    /// Whether the segment of an operation shows its id.
    pub fn shows(&mut self, op: &Op) -> bool
        ensures shows { result ≡ is_among (lists.shown_ids self.old op.now.segment) op.now.id }
        ensures same { self.new ≡ self.old }
    {
        let ids = shown_of(self.set.index(), &op.segment(), &mut self.search);
        has_id(ids, op.id(), &mut self.search)
    }

    /// What the segment shows, as `OpSet::shown` answers. Where it shows none, it does not
    /// allocate.
    ///
    /// # Errors
    /// Out of memory alone.
    pub fn shown(&mut self, alloc: Global, book: Book, key: Key) -> Result<Vec<&'a Op>, AllocError>
        ensures ops { IfOk result
            (λ v. map (λ op. op.now) v.items ≡ texts.shown self.old (segment book key)) }
        ensures none { texts.shown self.old (segment book key) ≡ [] → IsOk result }
        ensures set { sets.IsOpSet self.old }
        ensures same { self.new ≡ self.old }
    {
        let ids = self.shown_ids(book, key);
        let mut shown = Vec::with_capacity(alloc, ids.len())?;
        for id in ids {
            if let Some(op) = self.find(id) {
                shown.push(op)?;
            }
        }
        Ok(shown)
    }

    /// What is picked for the segment's text, as `OpSet::pick` answers.
    pub fn pick(&mut self, book: Book, key: Key) -> Picked<'a>
        ensures picked { texts.picked result ≡ texts.pick self.old (segment book key) }
        ensures same { self.new ≡ self.old }
    {
        let segment = Segment { book, key };
        let greatest = self.greatest(&segment);
        if key.place == Place::Head
            && key.chapter >= 1
            && lacks_text(greatest)
            && self.set.has_verse_text(&segment)
        {
            return Picked::ChapterLine(key.chapter);
        }
        match greatest {
            None => Picked::Nothing,
            Some(op) => Picked::Held(op),
        }
    }

    // The shown operation with the greatest id.
    pub(super) fn greatest(&mut self, segment: &Segment) -> Option<&'a Op>
        ensures found { option_copied result ≡ texts.last (texts.shown self.old segment.now) }
        ensures same { self.new ≡ self.old }
    {
        let id = shown_of(self.set.index(), segment, &mut self.search).last()?;
        find_near(self.set.ops(), *id, &mut self.search)
    }
}

// Whether there is no operation, or one whose text is empty or left out.
pub(super) fn lacks_text(op: Option<&Op>) -> bool
    ensures { result ≡ texts.is_empty (texts.text_if_any (option_copied op.entry)) }
{
    match op {
        None => true,
        Some(op) => op.text_or_empty().is_empty(),
    }
}
