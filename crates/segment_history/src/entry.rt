// An operation in the history of its segment.
use op_core::OpId;
use std::marker::Model;
use usfm_ref::Segment;

/// What is kept of an operation.
#[derive(Clone, Copy, Debug)]
pub enum Kept<'a> {
    /// Its text, lent from the bundle's bytes.
    Text(&'a str),
    /// All but its text, which was left out.
    Thinned,
    /// Nothing but its id: an operation names it, and none that is held has it.
    Awaited,
}

/// An operation of a segment.
#[derive(Debug, Drop)]
pub struct Entry<'a> {
    /// The operation's id.
    pub id: OpId,
    /// What is kept of it.
    pub kept: Kept<'a>,
    /// The ids of the held operations of the segment that name it as replaced, in ascending order.
    pub replaced_by: Vec<OpId>,
}

impl<'a> Model for Entry<'a> {
    ghost use Rattle.segment_history.specs.Histories.{EntryParts};
    ghost use Rattle.segment_history.specs.Entries.{kept_part};

    ghost Value = { EntryParts };

    ghost view = { λ e. record {
      id = e.id;
      kept = kept_part e.kept;
      replaced_by = e.replaced_by.items;
    } };
}

/// All that a project holds of a segment.
#[derive(Debug, Drop)]
pub struct SegmentHistory<'a> {
    /// The segment.
    pub segment: Segment,
    /// Its operations, held or awaited, in descending order of ids.
    pub entries: Vec<Entry<'a>>,
}

impl<'a> Model for SegmentHistory<'a> {
    ghost use Rattle.segment_history.specs.Histories.{HistoryParts};

    ghost Value = { HistoryParts };

    ghost view = { λ h. record { segment = h.segment; entries = h.entries.items } };
}
