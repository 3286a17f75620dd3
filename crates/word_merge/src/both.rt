// Two changes of one text, joined.
ghost use Rattle.std.specs.Prelude.{◌≡◌, ◌++◌, None, IfOk, IfSome, OnOk, string_bytes};
ghost use Rattle.word_diff.specs.Parts.{span, spans};
ghost use Rattle.word_diff.specs.Words.{texts};
ghost use Rattle.word_merge.specs.Pieces.{IsBoth};
ghost use Rattle.word_merge.specs.Steps as steps;

use crate::merging::merged;
use std::alloc::{AllocError, Global};
use word_diff::{Kind, Part, differences, words};

/// Two changes of one text, joined: the text in which all is changed that `one` changes of `common`,
/// and all that `other` changes of it. None where the changes are of one place.
///
/// Each word of it is one of `common`, `one` or `other`, in order; what either change adds is in it,
/// and what either removes is not (`IsBoth`). The changes are of one place where, by what differs
/// between the texts word by word, a change of the one and one of the other are neighbours
/// (`AreOfOnePlace`).
///
/// # Errors
///
/// Out of memory alone.
pub fn both_changes<'a>(
    alloc: Global,
    common: &'a str,
    one: &'a str,
    other: &'a str,
) -> Result<Option<String>, AllocError>
    ensures both { IfOk result (λ found. IfSome found (λ text.
        IsBoth common.now one.now other.now (string_bytes text))) }
    ensures none { IfOk result (λ found. found ≡ None
        → steps.AreOfOnePlace common.now one.now other.now) }
{
    let one_steps = steps(alloc, common, one)?;
    let other_steps = steps(alloc, common, other)?;
    merged(alloc, &one_steps, &other_steps)
}

// What differs between two texts, as steps of one word each.
fn steps<'a>(alloc: Global, old: &'a str, new: &'a str) -> Result<Vec<Part<'a>>, AllocError>
    ensures { IfOk result (λ made. steps.LeadTo old.now new.now (spans made.items)) }
{
    let parts = differences(alloc, old, new)?;
    steps_of(alloc, &parts)
}

// Parts with their words apart.
fn steps_of<'a>(alloc: Global, parts: &[Part<'a>]) -> Result<Vec<Part<'a>>, AllocError>
    ensures { IfOk result (λ made. spans made.items ≡ steps.steps_of (spans parts.now)) }
{
    let mut made = Vec::new(alloc);
    for part in parts {
        push_steps(alloc, &mut made, part)?;
    }
    Ok(made)
}

// Adds the words of a part, each as a step.
fn push_steps<'a>(
    alloc: Global,
    made: &mut Vec<Part<'a>>,
    part: &Part<'a>,
) -> Result<(), AllocError>
    ensures { OnOk result (spans made.new.items
        ≡ spans made.old.items ++ steps.steps_in (span part.now)) }
{
    let list = words(alloc, part.text)?;
    push_each(made, part.kind, &list)
}

// Adds each of these words as a step of this kind.
fn push_each<'a>(made: &mut Vec<Part<'a>>, kind: Kind, words: &[&'a str]) -> Result<(), AllocError>
    ensures { OnOk result (spans made.new.items
        ≡ spans made.old.items ++ steps.each kind (texts words.now)) }
{
    for text in words {
        made.push(Part { kind, text: *text })?;
    }
    Ok(())
}
