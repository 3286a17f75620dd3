// New operations sorted by their segments, so that those of one segment stand beside each other.
ghost use Rattle.std.specs.Prelude.{◌≡◌, ◌≤◌, IsTrue, ◌∷◌, IfOk, OnOk, take, drop, length};
ghost use Rattle.std.specs.List.{AllByRecursion, list_all};
ghost use Rattle.std.specs.Ordering.{is_lt};
ghost use Rattle.usfm_ref.specs.Segments.{segment_cmp};
ghost use Rattle.op_core.specs.Ids.{Id, ids_rise};
ghost use Rattle.op_core.specs.NextIds.{is_among};
ghost use Rattle.op_core.specs.Loops.Turns.{never_fall, comes, is_called, AreTurnsOf};

use crate::ids::op_id::OpId;
use crate::ids::search::Search;
use crate::ids::sort_ids;
use crate::operations::op::Op;
use std::alloc::{AllocError, Global};
use std::cmp::Ordering;
use usfm_ref::Segment;

/// The segment of a new operation, and where among the new ones it is.
#[derive(Clone, Copy, Debug)]
pub(crate) struct Turn {
    pub(crate) segment: Segment,
    pub(crate) at: usize,
}

impl Turn {
    // How its segment stands to that of another one.
    pub(crate) fn order(&self, other: &Turn) -> Ordering
        ensures { result ≡ segment_cmp self.now.segment other.now.segment }
    {
        self.segment.cmp(&other.segment)
    }
}

// New operations in the order of their segments.
pub(crate) fn turns_of(
    alloc: Global,
    new: &[Op],
    search: &mut Search,
) -> Result<Vec<Turn>, AllocError>
    ensures { IfOk result (λ turns. AreTurnsOf new.now turns.items) }
{
    let mut turns = Vec::with_capacity(alloc, new.len())?;
    for at in 0..new.len() {
        let segment = new[at].segment();
        turns.push(Turn { segment, at })?;
    }
    turns.sort_by(|a, b| {
        search.count();
        a.order(b)
    })?;
    Ok(turns)
}

// How many turns at the front are of the segment of the one before them.
pub(crate) fn run_len(first: &Turn, turns: &[Turn], search: &mut Search) -> usize
    requires { IsTrue (never_fall (first.now ∷ turns.now)) }
    ensures within { result ≤ length turns.now }
    ensures own { AllByRecursion (λ t. t.segment ≡ first.now.segment) (take result turns.now) }
    ensures later { IsTrue (list_all (λ t. is_lt (segment_cmp first.now.segment t.segment))
        (drop result turns.now)) }
{
    for at in 0..turns.len() {
        search.count();
        if !turns[at].order(first).is_eq() {
            return at;
        }
    }
    turns.len()
}

// Puts into a list the ids of the operations whose turn it is, in place of what it has.
pub(crate) fn gather_arrived(
    ids: &mut Vec<OpId>,
    new: &[Op],
    own: &[Turn],
    search: &mut Search,
) -> Result<(), AllocError>
    ensures rising { OnOk result (IsTrue (ids_rise ids.new.items)) }
    ensures members { OnOk result ((q : Id) → is_among ids.new.items q ≡ comes new.now own.now q) }
{
    ids.clear();
    for turn in own {
        if let Some(op) = new.get(turn.at) {
            ids.push(op.id())?;
        }
    }
    sort_ids(ids, search);
    Ok(())
}

// The same with the ids that they name.
pub(crate) fn gather_named(
    ids: &mut Vec<OpId>,
    new: &[Op],
    own: &[Turn],
    search: &mut Search,
) -> Result<(), AllocError>
    ensures rising { OnOk result (IsTrue (ids_rise ids.new.items)) }
    ensures members { OnOk result ((q : Id) → is_among ids.new.items q
        ≡ is_called new.now own.now q) }
{
    ids.clear();
    for turn in own {
        if let Some(op) = new.get(turn.at) {
            ids.extend_from_slice(op.replaced())?;
        }
    }
    sort_ids(ids, search);
    Ok(())
}
