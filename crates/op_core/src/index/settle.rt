// Changes made in the index, for which there is room. It does not allocate.
ghost use Rattle.std.specs.Prelude.{◌≡◌, IsTrue};
ghost use Rattle.std.specs.List.{AllByRecursion};
ghost use Rattle.usfm_ref.specs.Segments.{segment_cmp};
ghost use Rattle.usfm_ref.specs.declared.segment.Segment.{Segment};
ghost use Rattle.usfm_ref.specs.Rising.{rises_by};
ghost use Rattle.op_core.specs.Ids.{ids_rise};
ghost use Rattle.op_core.specs.Loops.Index.{register_of, shown_in, missing_in, change_at};
ghost use Rattle.op_core.specs.Loops.Index.{IsOrderly, IsAt, Takes};
ghost use Rattle.op_core.specs.Loops.Index.{HasRoomIn, IsRisingChange};
ghost use Rattle.op_core.specs.Loops.Changes.{AllHaveRoom, Settles};

use super::change::Change;
use super::chapter::{Chapter, take_at_key};
use super::place::place_chapter;
use crate::ids::search::Search;
use usfm_ref::Segment;

// Makes each of the changes, which rise by their segments.
pub(crate) fn settle_all(chapters: &mut Vec<Chapter>, mut changes: Vec<Change>, search: &mut Search)
    requires orderly { IsOrderly chapters.old.items }
    requires shown { (g : Segment) →
        IsTrue (ids_rise (shown_in (register_of g chapters.old.items))) }
    requires missing { (g : Segment) →
        IsTrue (ids_rise (missing_in (register_of g chapters.old.items))) }
    requires rising { IsTrue (rises_by segment_cmp change_at changes.items) }
    requires each { AllByRecursion IsRisingChange changes.items }
    requires room { AllHaveRoom chapters.old.items changes.items }
    ensures { Settles changes.items chapters.old.items chapters.new.items }
{
    'changes: while let Some(change) = changes.pop() {
        settle(chapters, change, search);
    }
}

// Makes one change.
fn settle(chapters: &mut Vec<Chapter>, change: Change, search: &mut Search)
    requires orderly { IsOrderly chapters.old.items }
    requires shown { IsTrue
        (ids_rise (shown_in (register_of (change_at change) chapters.old.items))) }
    requires missing { IsTrue
        (ids_rise (missing_in (register_of (change_at change) chapters.old.items))) }
    requires change { IsRisingChange change }
    requires room { HasRoomIn change (register_of (change_at change) chapters.old.items) }
    ensures { IsAt (Takes change) (change_at change) chapters.old.items chapters.new.items }
{
    let segment = Segment {
        book: change.book,
        key: change.key,
    };
    let at = place_chapter(chapters, &segment, search);
    take_at_key(&mut chapters[at].registers, change, search);
}
