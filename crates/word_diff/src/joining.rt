ghost use Rattle.std.specs.Prelude.{◌≡◌, ◌^◌, ◌<◌, IfOk, length, if◌then◌else◌};
ghost use Rattle.std.specs.List.{prefix_len};
ghost use Rattle.std.specs.Str.{IsCharBoundary};
ghost use Rattle.word_diff.specs.Joins.{Joins, all_bytes};
ghost use Rattle.word_diff.specs.Kinds.{is_new, is_old};
ghost use Rattle.word_diff.specs.Parts.{spans, texts_of};
ghost use Rattle.word_diff.specs.Steps.{AreOrdered, same_kind};
ghost use Rattle.word_diff.specs.Words.{joined, words_of};

use crate::part::{Kind, Part};
use std::alloc::{AllocError, Global};

// How many parts at the front are of this kind.
fn run_len(parts: &[Part<'_>], kind: Kind) -> usize
    ensures { result ≡ prefix_len (λ part. same_kind part.kind kind) parts.now }
{
    parts.iter().take_while(|part| part.kind == kind).count()
}

// How many bytes these parts have.
fn total_len(parts: &[Part<'_>]) -> usize
    requires { length (joined (all_bytes (spans parts.now))) < 2 ^ 64 }
    ensures { result ≡ length (joined (all_bytes (spans parts.now))) }
{
    let mut total = 0;
    for part in parts {
        total += part.text.len();
    }
    total
}

// The length where a part is on this side, and else nothing.
fn len_on(is_here: bool, len: usize) -> usize
    ensures { result ≡ (if is_here then len else 0) }
{
    if is_here { len } else { 0 }
}

// The first text where a part is on its side, and else the second.
fn lent<'a>(is_old: bool, old: &'a str, new: &'a str) -> &'a str
    ensures { result.now ≡ (if is_old then old.now else new.now) }
{
    if is_old { old } else { new }
}

// The steps with all neighbours of one kind as one part.
pub(crate) fn join_neighbours<'a>(
    alloc: Global,
    old: &'a str,
    new: &'a str,
    steps: &[Part<'a>],
) -> Result<Vec<Part<'a>>, AllocError>
    requires old_words { texts_of is_old (spans steps.now) ≡ words_of old.now }
    requires new_words { texts_of is_new (spans steps.now) ≡ words_of new.now }
    requires ordered { AreOrdered (spans steps.now) }
    ensures { IfOk result (λ list. Joins (spans list.items) (spans steps.now)) }
{
    let mut parts = Vec::new(alloc);
    let (mut old_rest, mut new_rest) = (old, new);
    let mut at = 0;
    while at < steps.len() {
        let kind = steps[at].kind;
        let end = at + run_len(&steps[at..], kind);
        let len = total_len(&steps[at..end]);
        let (old_text, old_after) = old_rest.split_at(len_on(kind.is_old(), len));
        let (new_text, new_after) = new_rest.split_at(len_on(kind.is_new(), len));
        let text = lent(kind.is_old(), old_text, new_text);
        parts.push(Part { kind, text })?;
        old_rest = old_after;
        new_rest = new_after;
        at = end;
    }
    Ok(parts)
}
