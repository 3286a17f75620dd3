//! Places in a tree, and what marks and words are seen as there.

ghost use Rattle.std.specs.Prelude.{◌≡◌, true, length, take, drop};
ghost use Rattle.std.specs.Str.{IsCharBoundary};
ghost use Rattle.usfm_token.specs.View.{mark_parts};
ghost use Rattle.usfm_tree.specs.SheetViews.{styles_of};
ghost use Rattle.book_reading.specs.Loops.Gathered.{entered};
ghost use Rattle.book_reading.specs.Loops.GatheringViews.{place_view};
ghost use Rattle.book_reading.specs.Stretches as stretches;

use crate::kind::block_kind;
use crate::lead::{Lead, named_lead};
use crate::run::Sort;
use memchr::memchr;
use sty_sheet::{Sheet, StyleKind};
use usfm_token::Mark;

// What the open nodes say of what stands in them: whether it is in a note, the name of the
// innermost character mark, and whether attributes may stand before the innermost's closing mark.
#[derive(Clone, Copy)]
pub(crate) struct Place<'a> {
    pub(crate) in_note: bool,
    pub(crate) style: &'a str,
    pub(crate) has_attributes: bool,
}

// A place in a node.
pub(crate) fn within<'a>(outer: Place<'a>, kind: StyleKind, name: &'a str) -> Place<'a>
    ensures { place_view result ≡ entered (place_view outer.entry) kind name.entry.now }
{
    match kind {
        StyleKind::Paragraph => Place {
            in_note: outer.in_note,
            style: "",
            has_attributes: false,
        },
        StyleKind::Note => Place {
            in_note: true,
            style: "",
            has_attributes: false,
        },
        StyleKind::Character => Place {
            in_note: outer.in_note,
            style: name,
            has_attributes: true,
        },
        StyleKind::Milestone => Place {
            in_note: outer.in_note,
            style: outer.style,
            has_attributes: true,
        },
    }
}

// What the mark of a node is seen as.
pub(crate) fn mark_sort(kind: StyleKind, name: &str) -> Sort
    ensures { result ≡ stretches.mark_sort kind name.now }
{
    match kind {
        StyleKind::Paragraph => Sort::Paragraph(block_kind(name)),
        StyleKind::Note => Sort::Caller,
        StyleKind::Character | StyleKind::Milestone => Sort::Markup,
    }
}

// Whether the sheet has a style for a mark that is not a closing one.
pub(crate) fn is_known(sheet: &Sheet<'_>, mark: Mark<'_>) -> bool
    ensures { result ≡ stretches.is_known (styles_of sheet.now) (mark_parts mark.entry) }
{
    !mark.closing() && sheet.style_of(mark.name()).is_some()
}

// What a mark that is alone is seen as.
pub(crate) fn leaf_sort(is_known: bool) -> Sort
    ensures { result ≡ stretches.leaf_sort is_known }
{
    if is_known {
        Sort::Markup
    } else {
        Sort::Unknown
    }
}

// What may stand after it.
pub(crate) fn leaf_lead(is_known: bool, name: &str) -> Lead
    ensures { result ≡ stretches.leaf_lead is_known name.now }
{
    if is_known {
        named_lead(name)
    } else {
        Lead::Nothing
    }
}

// What words of a style are seen as.
pub(crate) fn words_sort(style: &str) -> Sort
    ensures { result ≡ stretches.words_sort style.now }
{
    if style == "fig" {
        Sort::Caption
    } else {
        Sort::Words
    }
}

// The words, and the attributes from the first bar on, if they may end with some.
pub(crate) fn split_words(may_end: bool, text: &str) -> (&str, &str)
    ensures words { result.0.now ≡ take (stretches.words_length may_end text.now) text.now }
    ensures attributes { result.1.now ≡ drop (stretches.words_length may_end text.now) text.now }
{
    text.split_at(words_len(may_end, text))
}

// The bytes of words before their attributes, if they may end with some.
fn words_len(may_end: bool, text: &str) -> usize
    ensures value { result ≡ stretches.words_length may_end text.now }
    ensures boundary { IsCharBoundary text.now result }
{
    if may_end {
        bar_or_end(text)
    } else {
        text.len()
    }
}

// Where the first bar is, or the end.
fn bar_or_end(text: &str) -> usize
    ensures value { result ≡ stretches.words_length true text.now }
    ensures boundary { IsCharBoundary text.now result }
{
    memchr(b'|', text.as_bytes()).unwrap_or(text.len())
}
