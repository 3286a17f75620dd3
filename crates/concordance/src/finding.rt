//! The hits of a needle.

ghost use Rattle.std.specs.Prelude.{◌≡◌, ◌≢◌, ◌↔◌, ◌<◌, ◌≤◌, ◌+◌, ◌^◌, ◌++◌, [], Err};
ghost use Rattle.std.specs.Prelude.{slice_range, length, map, OnOk, OnErr, IfOk, IsTrue, IsFalse};
ghost use Rattle.memchr.specs.Find.{Nowhere, OccursAt, matches};
ghost use Rattle.std.specs.List.{flat_map, All};
ghost use Rattle.std.specs.Str.{IsCharBoundary, IsUtf8};
ghost use Rattle.sty_sheet.specs.Views.{records_of};
ghost use Rattle.concordance.specs.Hits as spec;
ghost use Rattle.concordance.specs.Passages.{StandApart};
ghost use Rattle.concordance.specs.Loops.Reading.{EndsWithin};
ghost use Rattle.concordance.specs.Loops.LeafViews.{passage_view, passages_view};
ghost use Rattle.concordance.specs.Views.{hits_view};
ghost use Rattle.concordance.specs.declared.fault.FindFault.TheVariants.{EmptyNeedle, Memory};

use crate::fault::FindFault;
use crate::hit::Hit;
use crate::keyed::Keyed;
use crate::passage::Passage;
use crate::plain::plain_leaves;
use memchr::memmem::{self, Finder};
use std::alloc::{AllocError, Global};
use sty_sheet::Sheet;
use verse_cut::cut;

// This many bytes of a text from a place on.
fn part(text: &str, at: usize, len: usize) -> &str
    requires within { at + len ≤ length text.now }
    requires start { IsCharBoundary text.now at }
    requires end { IsCharBoundary text.now (at + len) }
    ensures { result.now ≡ slice_range text.now at (at + len) }
{
    &text[at..at + len]
}

// Puts the occurrences in a passage after others.
fn push_occurrences<'a>(
    found: &mut Vec<Passage<'a>>,
    finder: &Finder<'_>,
    passage: Passage<'a>,
) -> Result<(), AllocError>
    requires fits { passage.start + length passage.text.now < 2 ^ 64 }
    requires some { 0 < length finder.now }
    requires utf8 { IsUtf8 finder.now }
    ensures { OnOk result (passages_view found.new.items
        ≡ passages_view found.old.items
        ++ spec.occurrences finder.now (passage_view passage.entry)) }
{
    let len = finder.needle().len();
    for at in finder.find_iter(passage.text.as_bytes()) {
        let start = passage.start + at;
        let text = part(passage.text, at, len);
        found.push(Passage { start, text })?;
    }
    Ok(())
}

// The occurrences in passages, in order.
fn occurrences<'a>(
    alloc: Global,
    needle: &str,
    passages: &[Passage<'a>],
) -> Result<Vec<Passage<'a>>, AllocError>
    requires fit { All EndsWithin (passages_view passages.now) }
    requires some { 0 < length needle.now }
    ensures { IfOk result (λ found. passages_view found.items
        ≡ flat_map (spec.occurrences needle.now) (passages_view passages.now)) }
{
    let finder = Finder::new(needle.as_bytes());
    let mut found = Vec::new(alloc);
    for passage in passages {
        push_occurrences(&mut found, &finder, *passage)?;
    }
    Ok(found)
}

/// The places in a book where a needle occurs, in order, by a style sheet.
///
/// A hit lies in one plain leaf: a text inside a paragraph whose style has the text of verses,
/// outside notes and milestones, without the number after `\v` and without the attributes before a
/// closing mark. In each leaf hits are found from the left, and none overlaps one before it.
///
/// # Errors
/// `EmptyNeedle` exactly where the needle is empty, and else `Memory` where an allocation fails. A
/// search for a needle that occurs nowhere in the text, not even in a mark or a note, never answers
/// `Memory`.
pub fn find<'a>(
    alloc: Global,
    text: &'a str,
    sheet: &Sheet<'_>,
    needle: &str,
) -> Result<Vec<Hit<'a>>, FindFault>
    ensures hits { IfOk result (λ hits. hits_view hits.items
        ≡ spec.hits_of (records_of sheet.now) text.now needle.now) }
    ensures apart { IfOk result (λ hits.
        StandApart text.now 0 (map spec.passage_of (hits_view hits.items))) }
    ensures empty { (result ≡ Err EmptyNeedle) ↔ (needle.now ≡ []) }
    ensures memory { result ≡ Err Memory → matches text.now needle.now 0 ≢ [] }
{
    if needle.is_empty() {
        return Err(FindFault::EmptyNeedle);
    }
    let hits = hits_of(alloc, text, sheet, needle)?;
    Ok(hits)
}

// Whether a needle occurs anywhere in a text.
fn occurs(text: &str, needle: &str) -> bool
    ensures yes { IsTrue result → matches text.now needle.now 0 ≢ [] }
    ensures no { IsFalse result → Nowhere (OccursAt text.now needle.now) 0 (length text.now + 1) }
{
    memmem::find(text.as_bytes(), needle.as_bytes()).is_some()
}

fn hits_of<'a>(
    alloc: Global,
    text: &'a str,
    sheet: &Sheet<'_>,
    needle: &str,
) -> Result<Vec<Hit<'a>>, AllocError>
    requires some { 0 < length needle.now }
    ensures hits { IfOk result (λ hits. hits_view hits.items
        ≡ spec.hits_of (records_of sheet.now) text.now needle.now) }
    ensures memory { OnErr result (matches text.now needle.now 0 ≢ []) }
{
    if !occurs(text, needle) {
        return Ok(Vec::new(alloc));
    }
    let leaves = plain_leaves(alloc, text, sheet)?;
    let found = occurrences(alloc, needle, &leaves)?;
    if found.is_empty() {
        return Ok(Vec::new(alloc));
    }
    let pieces = cut(alloc, text)?;
    Keyed::new(&found, &pieces).collect(alloc)
}
