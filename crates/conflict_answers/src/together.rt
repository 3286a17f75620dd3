// Answers that are settled together, and what is told of them.
ghost use Rattle.std.specs.Prelude.{◌≡◌, ◌≢◌, ◌++◌, ◌∷◌, [], Err, IfOk, OnOk, option_map};
ghost use Rattle.std.specs.Prelude.{count_by};
ghost use Rattle.conflict_answers.specs.Answers.{view, views};
ghost use Rattle.conflict_answers.specs.Together as told_as;

use crate::answer::Answer;
use crate::settling::{Settled, settle};
use crate::writing::push_counted;
use replica_state::{EditFault, Replica};
use std::alloc::{AllocError, Global};
use usfm_ref::{Segment, write_ref};

/// What answers make that are settled together.
#[derive(Debug, Drop)]
pub struct Settlement {
    /// The replica after all of them.
    pub replica: Replica,
    /// What is told of them: for each a line `left REF` if it was left, and `remark REF LEN`, its
    /// remark of LEN bytes and a line feed, if it has one; in the end `settled N`, how many edits
    /// were made, and `left N`, how many answers were left.
    pub text: Vec<u8>,
}

/// Settles answers one after another, all or none: each as `settle` does, on what those before it
/// made.
///
/// # Errors
/// Those of `settle`, of the first answer that is refused: `NumbersUsedUp`, or `Memory` where an
/// allocation failed.
pub fn settle_all(
    alloc: Global,
    replica: Replica,
    answers: &[Answer<'_>],
) -> Result<Settlement, EditFault>
    ensures { result ≢ Err EditFault.Memory →
        told_as.settled_together replica (views answers.now) ≡ told_as.ended_view result }
{
    let mut replica = replica;
    let mut told = Vec::new(alloc);
    let mut text = Vec::new(alloc);
    settle_each(alloc, &mut replica, answers, &mut told, &mut text)?;
    push_counts(alloc, &mut text, &told)?;
    Ok(Settlement { replica, text })
}

// Settles one answer after another.
fn settle_each(
    alloc: Global,
    replica: &mut Replica,
    answers: &[Answer<'_>],
    told: &mut Vec<Settled>,
    text: &mut Vec<u8>,
) -> Result<(), EditFault>
    ensures { result ≢ Err EditFault.Memory → told_as.settled_on
        (record { after = replica.old; told = told.old.items; lines = text.old.items })
        (views answers.now)
        ≡ told_as.made_by
        (record { after = replica.new; told = told.new.items; lines = text.new.items }) result }
{
    for answer in answers {
        settle_next(alloc, replica, answer, told, text)?;
    }
    Ok(())
}

// Settles one answer more.
fn settle_next(
    alloc: Global,
    replica: &mut Replica,
    answer: &Answer<'_>,
    told: &mut Vec<Settled>,
    text: &mut Vec<u8>,
) -> Result<(), EditFault>
    ensures { result ≢ Err EditFault.Memory → told_as.next_settled
        (record { after = replica.old; told = told.old.items; lines = text.old.items })
        (view answer.now)
        ≡ told_as.made_by
        (record { after = replica.new; told = told.new.items; lines = text.new.items }) result }
{
    let settled = settle(alloc, replica, answer)?;
    Ok(keep_told(alloc, answer, settled, told, text)?)
}

// Keeps what became of an answer, and adds what is told of it.
fn keep_told(
    alloc: Global,
    answer: &Answer<'_>,
    settled: Settled,
    told: &mut Vec<Settled>,
    text: &mut Vec<u8>,
) -> Result<(), AllocError>
    ensures told { OnOk result (told.new.items ≡ told.old.items ++ settled ∷ []) }
    ensures lines { OnOk result (text.new.items
        ≡ text.old.items ++ told_as.told_lines (view answer.now) settled) }
{
    push_told(alloc, text, answer, &settled)?;
    told.push(settled)?;
    Ok(())
}

// Adds what is told of an answer.
fn push_told(
    alloc: Global,
    text: &mut Vec<u8>,
    answer: &Answer<'_>,
    settled: &Settled,
) -> Result<(), AllocError>
    ensures { OnOk result (text.new.items
        ≡ text.old.items ++ told_as.told_lines (view answer.now) settled.now) }
{
    push_left(alloc, text, answer.segment, settled)?;
    push_said(alloc, text, answer.segment, answer.remark)
}

// Adds that an answer was left.
fn push_left(
    alloc: Global,
    text: &mut Vec<u8>,
    segment: Segment,
    settled: &Settled,
) -> Result<(), AllocError>
    ensures { OnOk result (text.new.items
        ≡ text.old.items ++ told_as.left_line segment settled.now) }
{
    match settled {
        Settled::Left => {
            let reference = write_ref(alloc, segment.book, segment.key)?;
            text.extend_from_slice(b"left ")?;
            text.extend_from_slice(reference.as_bytes())?;
            text.push(b'\n')?;
            Ok(())
        }
        Settled::Made(_) | Settled::NotNow => Ok(()),
    }
}

// Adds a remark, if there is one.
fn push_said(
    alloc: Global,
    text: &mut Vec<u8>,
    segment: Segment,
    remark: Option<&str>,
) -> Result<(), AllocError>
    ensures { OnOk result (text.new.items
        ≡ text.old.items ++ told_as.said_lines segment (option_map (λ t. t.now) remark.entry)) }
{
    match remark {
        None => Ok(()),
        Some(remark) => {
            let word = remark_of(alloc, segment)?;
            push_counted(alloc, text, &word, remark)
        }
    }
}

// `remark` and the reference of a segment.
fn remark_of(alloc: Global, segment: Segment) -> Result<Vec<u8>, AllocError>
    ensures { IfOk result (λ word. word.items ≡ told_as.remark_of segment) }
{
    let reference = write_ref(alloc, segment.book, segment.key)?;
    let mut word = Vec::new(alloc);
    word.extend_from_slice(b"remark ")?;
    word.extend_from_slice(reference.as_bytes())?;
    Ok(word)
}

// Adds how many edits were made, and how many answers were left.
fn push_counts(alloc: Global, text: &mut Vec<u8>, told: &[Settled]) -> Result<(), AllocError>
    ensures { OnOk result (text.new.items ≡ text.old.items ++ told_as.count_lines told.now) }
{
    let made = made_count(told);
    let left = left_count(told);
    let lines = format!(in alloc; "settled {made}\nleft {left}\n")?;
    text.extend_from_slice(lines.as_bytes())?;
    Ok(())
}

fn made_count(told: &[Settled]) -> usize
    ensures { result ≡ count_by told_as.is_made told.now }
{
    told.iter().filter(|one| is_made(*one)).count()
}

fn left_count(told: &[Settled]) -> usize
    ensures { result ≡ count_by told_as.is_left told.now }
{
    told.iter().filter(|one| is_left(*one)).count()
}

fn is_made(told: &Settled) -> bool
    ensures { result ≡ told_as.is_made told.now }
{
    matches!(told, Settled::Made(_))
}

fn is_left(told: &Settled) -> bool
    ensures { result ≡ told_as.is_left told.now }
{
    matches!(told, Settled::Left)
}
