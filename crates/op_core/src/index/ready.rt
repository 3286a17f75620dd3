// What new operations change, segment by segment, and the room for it. Nothing that the index keeps
// changes yet.
ghost use Rattle.std.specs.Prelude.{◌≡◌, IsTrue, IfOk};
ghost use Rattle.op_core.specs.Ids.{ids_rise};
ghost use Rattle.op_core.specs.Sets as sets;
ghost use Rattle.op_core.specs.NextIds.{is_among};
ghost use Rattle.op_core.specs.Loops.Index.{IsOrderly, IsIndex, register_of, shown_in, missing_in};
ghost use Rattle.op_core.specs.Loops.Index.{is_there};
ghost use Rattle.op_core.specs.Loops.Index.{IsAt, IsSameBut, IsChangeOf, IsRisingChange, HasRoomIn};
ghost use Rattle.op_core.specs.Loops.Index.{Readies};
ghost use Rattle.op_core.specs.Loops.Turns.{never_fall, comes, is_called};
ghost use Rattle.op_core.specs.Loops.Changes.{AreChanges, AllHaveRoom};

use super::change::{Aside, Change};
use super::chapter::{Chapter, ready_at_key};
use super::lay::lay;
use super::place::place_chapter;
use super::turns::{Turn, gather_arrived, gather_named, run_len};
use crate::ids::search::Search;
use crate::operations::op::Op;
use std::alloc::{AllocError, Global};
use usfm_ref::Segment;

// What changes at each segment as the operations of the turns arrive, by segments that rise.
pub(crate) fn ready_all(
    chapters: &mut Vec<Chapter>,
    alloc: Global,
    held: &[Op],
    new: &[Op],
    turns: &[Turn],
    search: &mut Search,
) -> Result<Vec<Change>, AllocError>
    requires held { IsTrue (sets.rises held.now) }
    requires index { IsIndex held.now chapters.old.items }
    requires sorted { IsTrue (never_fall turns.now) }
    ensures same { Readies chapters.old.items chapters.new.items }
    ensures changes { IfOk result (λ changes.
        AreChanges held.now new.now turns.now chapters.new.items changes.items) }
    ensures room { IfOk result (λ changes. AllHaveRoom chapters.new.items changes.items) }
{
    let mut changes = Vec::new(alloc);
    let mut aside = Aside::new(alloc);
    let mut rest = turns;
    'runs: while let Some((first, others)) = rest.split_first() {
        let len = 1 + run_len(first, others, search);
        let (own, later) = rest.split_at(len);
        let change = ready_run(
            chapters,
            alloc,
            held,
            new,
            &first.segment,
            own,
            &mut aside,
            search,
        )?;
        changes.push(change)?;
        rest = later;
    }
    Ok(changes)
}

// What changes at the segment of some turns, which are all of that segment.
fn ready_run(
    chapters: &mut Vec<Chapter>,
    alloc: Global,
    held: &[Op],
    new: &[Op],
    segment: &Segment,
    own: &[Turn],
    aside: &mut Aside,
    search: &mut Search,
) -> Result<Change, AllocError>
    requires held { IsTrue (sets.rises held.now) }
    requires index { IsIndex held.now chapters.old.items }
    ensures same { Readies chapters.old.items chapters.new.items }
    ensures change { IfOk result (λ c. IsChangeOf held.now segment.now
        (comes new.now own.now) (is_called new.now own.now)
        (shown_in (register_of segment.now chapters.new.items))
        (missing_in (register_of segment.now chapters.new.items)) c) }
    ensures rising { IfOk result IsRisingChange }
    ensures room { IfOk result (λ c. HasRoomIn c (register_of segment.now chapters.new.items)) }
{
    lay(chapters, alloc, segment, search)?;
    gather_arrived(&mut aside.arrived, new, own, search)?;
    gather_named(&mut aside.named, new, own, search)?;
    ready(chapters, alloc, held, segment, aside, search)
}

// What changes at a segment, which has a register, as the arrived ids of `aside` come there, and
// the room for that.
fn ready(
    chapters: &mut Vec<Chapter>,
    alloc: Global,
    held: &[Op],
    segment: &Segment,
    aside: &mut Aside,
    search: &mut Search,
) -> Result<Change, AllocError>
    requires held { IsTrue (sets.rises held.now) }
    requires orderly { IsOrderly chapters.old.items }
    requires there { IsTrue (is_there segment.now chapters.old.items) }
    requires shown { IsTrue
        (ids_rise (shown_in (register_of segment.now chapters.old.items))) }
    requires missing { IsTrue
        (ids_rise (missing_in (register_of segment.now chapters.old.items))) }
    requires arrived { IsTrue (ids_rise aside.old.arrived.items) }
    requires named { IsTrue (ids_rise aside.old.named.items) }
    ensures same { IsAt IsSameBut segment.now chapters.old.items chapters.new.items }
    ensures change { IfOk result (λ c. IsChangeOf held.now segment.now
        (is_among aside.old.arrived.items) (is_among aside.old.named.items)
        (shown_in (register_of segment.now chapters.old.items))
        (missing_in (register_of segment.now chapters.old.items)) c) }
    ensures rising { IfOk result IsRisingChange }
    ensures room { IfOk result
        (λ c. HasRoomIn c (register_of segment.now chapters.new.items)) }
{
    let at = place_chapter(chapters, segment, search);
    ready_at_key(
        &mut chapters[at].registers,
        alloc,
        held,
        segment,
        aside,
        search,
    )
}
