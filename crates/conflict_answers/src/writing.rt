// Files of answers written.
ghost use Rattle.std.specs.Prelude.{◌≡◌, [], ◌∷◌, ◌++◌, IfOk, OnOk, option_map};
ghost use Rattle.std.specs.List.{flat_map};
ghost use Rattle.op_core.specs.Ids.{id_text};
ghost use Rattle.conflict_answers.specs.Answers.{chosen, view, views};
ghost use Rattle.conflict_answers.specs.Spelling as lines;
ghost use Rattle.conflict_answers.specs.Spelling.{spelling};

use crate::answer::{Answer, Choice};
use op_core::OpId;
use std::alloc::{AllocError, Global};
use usfm_ref::{Segment, write_ref};

/// The file of some answers, which `read` reads again where they may travel: each with two ids at
/// least, each once, and the taken id one of them.
///
/// # Errors
/// Out of memory alone.
pub fn spelled(alloc: Global, answers: &[Answer<'_>]) -> Result<Vec<u8>, AllocError>
    ensures { IfOk result (λ bytes. bytes.items ≡ spelling (views answers.now)) }
{
    let mut bytes = Vec::new(alloc);
    bytes.extend_from_slice(b"USFM answers 1\n")?;
    push_answers(alloc, &mut bytes, answers)?;
    Ok(bytes)
}

// Adds answers.
fn push_answers(
    alloc: Global,
    bytes: &mut Vec<u8>,
    answers: &[Answer<'_>],
) -> Result<(), AllocError>
    ensures { OnOk result (bytes.new.items
        ≡ bytes.old.items ++ flat_map (λ a. lines.answer_lines (view a)) answers.now) }
{
    for answer in answers {
        push_answer(alloc, bytes, answer)?;
    }
    Ok(())
}

// Adds an answer.
fn push_answer(alloc: Global, bytes: &mut Vec<u8>, answer: &Answer<'_>) -> Result<(), AllocError>
    ensures { OnOk result (bytes.new.items
        ≡ bytes.old.items ++ lines.answer_lines (view answer.now)) }
{
    push_conflict(alloc, bytes, answer.segment, &answer.ids)?;
    push_choice(alloc, bytes, &answer.choice)?;
    push_remark(alloc, bytes, answer.remark)
}

// Adds the line of a conflict.
fn push_conflict(
    alloc: Global,
    bytes: &mut Vec<u8>,
    segment: Segment,
    ids: &[OpId],
) -> Result<(), AllocError>
    ensures { OnOk result (bytes.new.items
        ≡ bytes.old.items ++ (lines.conflict_text segment ids.now ++ 10 ∷ [])) }
{
    let reference = write_ref(alloc, segment.book, segment.key)?;
    bytes.extend_from_slice(b"conflict ")?;
    bytes.extend_from_slice(reference.as_bytes())?;
    push_ids(alloc, bytes, ids)?;
    bytes.push(b'\n')?;
    Ok(())
}

// Adds ids, each after a space.
fn push_ids(alloc: Global, bytes: &mut Vec<u8>, ids: &[OpId]) -> Result<(), AllocError>
    ensures { OnOk result (bytes.new.items ≡ bytes.old.items ++ lines.id_texts ids.now) }
{
    for id in ids {
        push_id(alloc, bytes, id)?;
    }
    Ok(())
}

// Adds an id after a space.
fn push_id(alloc: Global, bytes: &mut Vec<u8>, id: &OpId) -> Result<(), AllocError>
    ensures { OnOk result (bytes.new.items ≡ bytes.old.items ++ 32 ∷ id_text id.now) }
{
    let word = format!(in alloc; " {id}")?;
    bytes.extend_from_slice(word.as_bytes())?;
    Ok(())
}

// Adds what was chosen.
fn push_choice(alloc: Global, bytes: &mut Vec<u8>, choice: &Choice<'_>) -> Result<(), AllocError>
    ensures { OnOk result (bytes.new.items
        ≡ bytes.old.items ++ lines.chosen_lines (chosen choice.now)) }
{
    match choice {
        Choice::Take(id) => push_take(alloc, bytes, *id),
        Choice::Own(text) => push_counted(alloc, bytes, b"text", text),
        Choice::NotNow => Ok(()),
    }
}

// Adds the line of the id that was taken.
fn push_take(alloc: Global, bytes: &mut Vec<u8>, id: OpId) -> Result<(), AllocError>
    ensures { OnOk result (bytes.new.items ≡ bytes.old.items ++ lines.take_line id) }
{
    let line = format!(in alloc; "take {id}\n")?;
    bytes.extend_from_slice(line.as_bytes())?;
    Ok(())
}

// Adds a remark, if there is one.
fn push_remark(alloc: Global, bytes: &mut Vec<u8>, remark: Option<&str>) -> Result<(), AllocError>
    ensures { OnOk result (bytes.new.items
        ≡ bytes.old.items ++ lines.remark_lines (option_map (λ t. t.now) remark.entry)) }
{
    match remark {
        None => Ok(()),
        Some(text) => push_counted(alloc, bytes, b"remark", text),
    }
}

// Adds a text after a line that announces its length, and a line feed.
pub(crate) fn push_counted(
    alloc: Global,
    bytes: &mut Vec<u8>,
    word: &[u8],
    text: &str,
) -> Result<(), AllocError>
    ensures { OnOk result (bytes.new.items
        ≡ bytes.old.items ++ lines.counted_lines word.now text.now) }
{
    let len = format!(in alloc; " {}\n", text.len())?;
    bytes.extend_from_slice(word)?;
    bytes.extend_from_slice(len.as_bytes())?;
    bytes.extend_from_slice(text.as_bytes())?;
    bytes.push(b'\n')?;
    Ok(())
}
