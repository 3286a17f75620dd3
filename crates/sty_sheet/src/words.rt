//! Blanks, words and values of a line.

ghost use Rattle.std.specs.Prelude.{◌≡◌, [], ◌∷◌, MatchOption, slice_get, IsUtf8};
ghost use Rattle.std.specs.List.{prefix_len, suffix_len};
ghost use Rattle.std.specs.Option.{option_map};
ghost use Rattle.usfm_ref.specs.Numbers.{is_blank};
ghost use Rattle.sty_sheet.specs.Lines.{not_blank, after_blanks, trimmed, first_word, after_word};
ghost use Rattle.sty_sheet.specs.Fields.{is_word, kind_named};
ghost use Rattle.sty_sheet.specs.Records.{words_of, without_star, closing_name};

use crate::kind::StyleKind;
use usfm_ref::is_blank;

// How many blanks are at the front.
fn blanks_in_front(bytes: &[u8]) -> usize
    ensures { result ≡ prefix_len is_blank bytes.now }
{
    bytes.iter().take_while(|b| is_blank(**b)).count()
}

// How many blanks are at the end.
fn blanks_at_end(bytes: &[u8]) -> usize
    ensures { result ≡ suffix_len is_blank bytes.now }
{
    bytes.iter().rev().take_while(|b| is_blank(**b)).count()
}

// How many bytes come before the first blank, or the end.
fn word_len(bytes: &[u8]) -> usize
    ensures { result ≡ prefix_len not_blank bytes.now }
{
    bytes.iter().take_while(|b| !is_blank(**b)).count()
}

// The text without the blanks at its front.
pub(crate) fn after_blanks(text: &str) -> &str
    ensures { result.now ≡ after_blanks text.now }
{
    text.split_at(blanks_in_front(text.as_bytes())).1
}

// The text without the blanks at both ends.
pub(crate) fn trimmed(text: &str) -> &str
    ensures { result.now ≡ trimmed text.now }
{
    let front = after_blanks(text);
    front
        .split_at(front.len() - blanks_at_end(front.as_bytes()))
        .0
}

// The text up to the first blank, and what follows.
pub(crate) fn split_word(text: &str) -> (&str, &str)
    ensures word { result.0.now ≡ first_word text.now }
    ensures rest { result.1.now ≡ after_word text.now }
    ensures utf8 { IsUtf8 result.1.now }
{
    text.split_at(word_len(text.as_bytes()))
}

// The first of the words that blanks divide, and what follows it.
pub(crate) fn next_word(text: &str) -> Option<(&str, &str)>
    ensures { let words = words_of text.now in
        MatchOption result (words ≡ []) (λ p. words ≡ p.0.now ∷ words_of p.1.now) }
{
    let (word, rest) = split_word(after_blanks(text));
    if word.is_empty() {
        None
    } else {
        Some((word, rest))
    }
}

// The word at a place, counted from 0.
pub(crate) fn word_at(text: &str, place: usize) -> Option<&str>
    ensures { option_map (λ w. w.now) result ≡ slice_get (words_of text.now) place }
{
    let mut ahead = text;
    let mut more = place;
    while let Some((word, rest)) = next_word(ahead) {
        if more == 0 {
            return Some(word);
        }
        more -= 1;
        ahead = rest;
    }
    None
}

// Whether a text is this word, in whatever ASCII case.
pub(crate) fn is_word(word: &str, text: &str) -> bool
    ensures { result ≡ is_word word.now text.now }
{
    word.eq_ignore_ascii_case(text)
}

pub(crate) fn kind_named(text: &str) -> Option<StyleKind>
    ensures { result ≡ kind_named text.now }
{
    if is_word("Paragraph", text) {
        return Some(StyleKind::Paragraph);
    }
    if is_word("Character", text) {
        return Some(StyleKind::Character);
    }
    if is_word("Note", text) {
        return Some(StyleKind::Note);
    }
    if is_word("Milestone", text) {
        return Some(StyleKind::Milestone);
    }
    None
}

fn without_star(text: &str) -> &str
    ensures { result.now ≡ without_star text.now }
{
    if !text.is_empty() && text.as_bytes()[text.len() - 1] == b'*' {
        text.split_at(text.len() - 1).0
    } else {
        text
    }
}

// The closing name that an Endmarker gives.
pub(crate) fn closing_name(text: &str) -> Option<&str>
    ensures { option_map (λ n. n.now) result ≡ closing_name text.now }
{
    let name = without_star(text);
    if name.is_empty() { None } else { Some(name) }
}
