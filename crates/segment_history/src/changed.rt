// A segment that changed.
use crate::entry::Kept;
use op_core::{OpId, ReplicaName};
use std::marker::Model;
use usfm_ref::Segment;

/// An operation that is shown.
#[derive(Clone, Copy, Debug)]
pub struct ShownText<'a> {
    /// The operation's id.
    pub id: OpId,
    /// What is kept of it: its text, or all but its text.
    pub kept: Kept<'a>,
}

/// A segment of which an operation is held that is not known.
#[derive(Debug, Drop)]
pub struct ChangedSegment<'a> {
    /// The segment.
    pub segment: Segment,
    /// The names under which its operations were made that are not known, each once, in ascending
    /// order.
    pub makers: Vec<ReplicaName>,
    /// What the known operations show by themselves, in descending order of ids.
    pub was: Vec<ShownText<'a>>,
    /// What is shown, in descending order of ids.
    pub now_shown: Vec<ShownText<'a>>,
}

impl<'a> Model for ChangedSegment<'a> {
    ghost use Rattle.std.specs.Prelude.{map};
    ghost use Rattle.segment_history.specs.Changes.{ChangedParts};
    ghost use Rattle.segment_history.specs.Entries.{shown_text};

    ghost Value = { ChangedParts };

    ghost view = { λ c. record {
      segment = c.segment;
      makers = c.makers.items;
      was = map shown_text c.was.items;
      now_shown = map shown_text c.now_shown.items;
    } };
}
