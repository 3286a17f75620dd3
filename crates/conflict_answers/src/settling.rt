// What an answer makes of a replica.
ghost use Rattle.std.specs.Prelude.{◌≡◌, ◌≢◌, Err, IfOk, OnErr, option_map, string_bytes};
ghost use Rattle.conflict_answers.specs.Answers.{view};
ghost use Rattle.conflict_answers.specs.Settling as settlings;
ghost use Rattle.conflict_answers.specs.Settling.{settled};

use crate::answer::{Answer, Choice};
use op_core::OpId;
use replica_state::{EditFault, Replica};
use std::alloc::{AllocError, Global};
use usfm_ref::Segment;

/// What became of an answer.
#[derive(Clone, Copy, Debug, PartialEq, Eq)]
pub enum Settled {
    /// An edit of this id was made.
    Made(OpId),
    /// Nothing was made: one of the ids is not shown any more in the segment, or the text does not
    /// fit it.
    Left,
    /// Nothing was chosen.
    NotNow,
}

/// Makes of an answer one edit over exactly the ids of its line, with the text of the taken one or
/// with a text of one's own. What the segment shows besides stays.
///
/// # Errors
/// - `NumbersUsedUp` where the number would be above 10^15.
/// - `Memory` where an allocation failed.
///
/// The replica is then unchanged, as where nothing is made.
pub fn settle(
    alloc: Global,
    replica: &mut Replica,
    answer: &Answer<'_>,
) -> Result<Settled, EditFault>
    ensures settled { result ≢ Err EditFault.Memory →
        settled replica.old (view answer.now) ≡ record { after = replica.new; told = result } }
    ensures err { OnErr result (replica.new ≡ replica.old) }
{
    let Segment { book, key } = answer.segment;
    match answer.choice {
        Choice::NotNow => Ok(Settled::NotNow),
        Choice::Own(text) => told_of(replica.edit_over(book, key, text, &answer.ids)),
        Choice::Take(id) => match shown_text(alloc, replica, answer.segment, id)? {
            None => Ok(Settled::Left),
            Some(text) => told_of(replica.edit_over(book, key, text.as_str(), &answer.ids)),
        },
    }
}

// What is told of an edit.
fn told_of(edit: Result<OpId, EditFault>) -> Result<Settled, EditFault>
    ensures { result ≡ settlings.told_of edit }
{
    match edit {
        Ok(id) => Ok(Settled::Made(id)),
        Err(EditFault::BadSegment | EditFault::NoBook | EditFault::NotShown(_)) => {
            Ok(Settled::Left)
        }
        Err(fault) => Err(fault),
    }
}

// A copy of the text of the operation of an id, where the segment shows it.
fn shown_text(
    alloc: Global,
    replica: &Replica,
    segment: Segment,
    id: OpId,
) -> Result<Option<String>, AllocError>
    ensures { IfOk result (λ text. option_map (λ t. string_bytes t) text
        ≡ settlings.shown_text replica.now.held segment id) }
{
    if !replica.shows_id(segment.book, segment.key, id) {
        return Ok(None);
    }
    match replica.set().get(&id) {
        None => Ok(None),
        Some(op) => Ok(Some(String::from_str(alloc, op.text_or_empty())?)),
    }
}
