ghost use Rattle.std.specs.Prelude.{◌≤◌, IfOk, OnOk, length};
ghost use Rattle.word_diff.specs.Parts.{spans};
ghost use Rattle.word_diff.specs.Steps.{AddsLongestParts, AddsParts, Compares};
ghost use Rattle.word_diff.specs.Words.{texts};

use crate::ends::{end_len, front_len};
use crate::part::{Kind, Part};
use crate::table::{MAX_WORDS, len_from, table};
use std::alloc::{AllocError, Global};

// Adds each of these words as a part of this kind.
fn push_each<'a>(steps: &mut Vec<Part<'a>>, kind: Kind, words: &[&'a str]) -> Result<(), AllocError>
    ensures { OnOk result (AddsParts steps.old.items steps.new.items kind words.now) }
{
    for text in words {
        steps.push(Part { kind, text: *text })?;
    }
    Ok(())
}

// Adds the words of both lists so that no more of them can be kept.
fn push_longest<'a>(
    alloc: Global,
    steps: &mut Vec<Part<'a>>,
    old: &[&'a str],
    new: &[&'a str],
) -> Result<(), AllocError>
    requires small { length old.now ≤ MAX_WORDS }
    requires few { length new.now ≤ MAX_WORDS }
    ensures { OnOk result (AddsLongestParts steps.old.items steps.new.items old.now new.now) }
{
    let rows = table(alloc, old, new)?;
    let (old_len, new_len) = (old.len(), new.len());
    let (mut i, mut j) = (0, 0);
    while i < old_len && j < new_len {
        if old[i] == new[j] {
            let text = old[i];
            let kind = Kind::Kept;
            steps.push(Part { kind, text })?;
            i += 1;
            j += 1;
        } else if len_from(&rows, old, new, i, j + 1) <= len_from(&rows, old, new, i + 1, j) {
            let text = old[i];
            let kind = Kind::Removed;
            steps.push(Part { kind, text })?;
            i += 1;
        } else {
            let text = new[j];
            let kind = Kind::Added;
            steps.push(Part { kind, text })?;
            j += 1;
        }
    }
    push_each(steps, Kind::Removed, &old[i..])?;
    push_each(steps, Kind::Added, &new[j..])
}

// The words of both texts, each as a part.
pub(crate) fn steps<'a>(
    alloc: Global,
    old: &[&'a str],
    new: &[&'a str],
) -> Result<Vec<Part<'a>>, AllocError>
    ensures { IfOk result (λ list. Compares (spans list.items) (texts old.now) (texts new.now)) }
{
    let (old_front, old_rest) = old.split_at(front_len(old, new));
    let (_, new_rest) = new.split_at(old_front.len());
    let end = end_len(old_rest, new_rest);
    let (old_middle, old_end) = old_rest.split_at(old_rest.len() - end);
    let (new_middle, _) = new_rest.split_at(new_rest.len() - end);
    let mut steps = Vec::new(alloc);
    push_each(&mut steps, Kind::Kept, old_front)?;
    if old.len().max(new.len()) <= MAX_WORDS {
        push_longest(alloc, &mut steps, old_middle, new_middle)?;
    } else {
        push_each(&mut steps, Kind::Removed, old_middle)?;
        push_each(&mut steps, Kind::Added, new_middle)?;
    }
    push_each(&mut steps, Kind::Kept, old_end)?;
    Ok(steps)
}
