//! What of a text belongs to the mark directly before it.

ghost use Rattle.std.specs.Prelude.{◌≡◌, ◌≤◌, ◌+◌, length};
ghost use Rattle.std.specs.Str.{IsCharBoundary};
ghost use Rattle.std.specs.List.{prefix_len};
ghost use Rattle.usfm_ref.specs.Numbers as numbers;
ghost use Rattle.usfm_tree.specs.Reading.{is_note_kind};
ghost use Rattle.book_reading.specs.Leads as leads;

use crate::run::Sort;
use sty_sheet::StyleKind;
use usfm_ref::{is_blank, verse_after};

/// What may stand at the front of a text, by the mark directly before it.
#[derive(Clone, Copy, Debug)]
pub(crate) enum Lead {
    /// Nothing: no mark is there, or one that closes or that the sheet does not know.
    Nothing,
    /// The blanks after a mark.
    Blanks,
    /// The sign that a note's author chose for its caller.
    Sign,
    /// The number of a verse.
    Verse,
    /// The number of a chapter.
    Chapter,
}

// After a mark that the sheet knows, by its name.
pub(crate) fn named_lead(name: &str) -> Lead
    ensures { result ≡ leads.named_lead name.now }
{
    if name == "v" {
        Lead::Verse
    } else if name == "c" {
        Lead::Chapter
    } else {
        Lead::Blanks
    }
}

// After a mark that begins a node of a kind.
pub(crate) fn node_lead(kind: StyleKind, name: &str) -> Lead
    ensures { result ≡ leads.node_lead kind name.now }
{
    if kind == StyleKind::Note {
        Lead::Sign
    } else {
        named_lead(name)
    }
}

// What the number after a mark is.
pub(crate) fn number_sort(lead: Lead) -> Sort
    ensures { result ≡ leads.number_sort lead }
{
    match lead {
        Lead::Chapter => Sort::Chapter,
        Lead::Nothing | Lead::Blanks | Lead::Sign | Lead::Verse => Sort::Verse,
    }
}

pub(crate) fn blanks_len(bytes: &[u8]) -> usize
    ensures value { result ≡ leads.blank_length bytes.now }
    ensures within { result ≤ length bytes.now }
{
    bytes.iter().take_while(|b| is_blank(**b)).count()
}

// The blanks at the front, and what follows.
pub(crate) fn split_blanks(text: &str) -> (&str, &str)
    ensures blanks { result.0.now ≡ leads.blanks_of text.now }
    ensures rest { result.1.now ≡ leads.after_blanks text.now }
{
    text.split_at(blanks_len(text.as_bytes()))
}

fn verse_len(text: &str) -> usize
    ensures value { result ≡ leads.verse_length (numbers.verse_in text.now) }
    ensures boundary { IsCharBoundary text.now result }
{
    match verse_after(text) {
        None => 0,
        Some(verse) => verse.length,
    }
}

// The bytes of the number of a verse or a chapter, with the blanks before it.
pub(crate) fn number_len(lead: Lead, text: &str) -> usize
    ensures value { result ≡ leads.number_length lead text.now }
    ensures boundary { IsCharBoundary text.now result }
{
    match lead {
        Lead::Verse | Lead::Chapter => verse_len(text),
        Lead::Nothing | Lead::Blanks | Lead::Sign => 0,
    }
}

// Whether a word ends before these bytes.
fn ends_word(bytes: &[u8]) -> bool
    ensures { result ≡ leads.ends_word bytes.now }
{
    match bytes {
        [] => true,
        [first, ..] => is_blank(*first),
    }
}

// The bytes of the sign of a note's caller at the front, with the blanks after it.
fn sign_len(bytes: &[u8]) -> usize
    ensures value { result ≡ leads.sign_length bytes.now }
    ensures within { result ≤ length bytes.now }
{
    match bytes {
        [b'+' | b'-', rest @ ..] if ends_word(rest) => 1 + blanks_len(rest),
        _ => 0,
    }
}

// The bytes of blanks at the front, and of a sign after them.
fn signed_len(bytes: &[u8]) -> usize
    ensures { result
        ≡ leads.blank_length bytes.now + leads.sign_length (leads.after_blanks bytes.now) }
{
    let blanks = blanks_len(bytes);
    let (_, rest) = bytes.split_at(blanks);
    blanks + sign_len(rest)
}

// The bytes at the front of a text that belong to the mark before it.
pub(crate) fn gap_len(lead: Lead, text: &str) -> usize
    ensures value { result ≡ leads.gap_length lead text.now }
    ensures boundary { IsCharBoundary text.now result }
{
    match lead {
        Lead::Nothing => 0,
        Lead::Blanks | Lead::Verse | Lead::Chapter => blanks_len(text.as_bytes()),
        Lead::Sign => signed_len(text.as_bytes()),
    }
}
