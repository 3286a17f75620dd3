//! Runs of word characters.

ghost use Rattle.std.specs.Prelude.{◌≡◌, ◌<◌, ◌+◌, ◌^◌, ◌++◌, length, chars, IsUtf8, OnOk, IfOk};
ghost use Rattle.std.specs.List.{flat_map, All};
ghost use Rattle.concordance.specs.Loops.Reading.{EndsWithin, IsText};
ghost use Rattle.concordance.specs.Loops.RunReading.{rest_after, front_bytes};
ghost use Rattle.concordance.specs.Loops.LeafViews.{passage_view, passages_view};
ghost use Rattle.concordance.specs.Words as words;

use crate::passage::Passage;
use std::alloc::{AllocError, Global};
use unicode::properties::{GeneralCategory, is_alphabetic};

// Whether a character is alphabetic, or a mark that combines with others. ASCII's letters are asked
// first, since most texts have few others and the tables take longer.
fn is_word_char(c: char) -> bool
    ensures { result ≡ words.is_word_char c }
{
    if c.is_ascii() {
        return c.is_ascii_alphabetic();
    }
    is_alphabetic(c) || is_combining(GeneralCategory::for_char(c))
}

fn is_combining(category: GeneralCategory) -> bool
    ensures { result ≡ words.is_combining category }
{
    matches!(
        category,
        GeneralCategory::NonspacingMark
            | GeneralCategory::SpacingMark
            | GeneralCategory::EnclosingMark
    )
}

// What comes after the word characters at the front of a text, or after the others.
fn after_front(text: &str, is_word: bool) -> &str
    ensures front { text.now ≡ front_bytes is_word (chars text.now) ++ result.now }
    ensures rest { chars result.now ≡ rest_after is_word (chars text.now) }
{
    let mut chars = text.chars();
    loop {
        let rest = chars.as_str();
        match chars.next() {
            Some(c) if is_word_char(c) == is_word => {}
            _ => return rest,
        }
    }
}

// Puts the runs in a passage after others.
fn push_runs<'a>(runs: &mut Vec<Passage<'a>>, passage: Passage<'a>) -> Result<(), AllocError>
    requires { passage.start + length passage.text.now < 2 ^ 64 }
    ensures utf8 { IsUtf8 passage.entry.text.now }
    ensures runs { OnOk result (passages_view runs.new.items
        ≡ passages_view runs.old.items ++ words.runs_in (passage_view passage.entry)) }
{
    let mut rest = passage.text;
    loop {
        let at = after_front(rest, false);
        if at.is_empty() {
            return Ok(());
        }
        rest = after_front(at, true);
        let start = passage.start + (passage.text.len() - at.len());
        let text = at.split_at(at.len() - rest.len()).0;
        runs.push(Passage { start, text })?;
    }
}

// The runs in passages, in order.
pub(crate) fn runs<'a>(
    alloc: Global,
    passages: &[Passage<'a>],
) -> Result<Vec<Passage<'a>>, AllocError>
    requires { All EndsWithin (passages_view passages.now) }
    ensures text { IfOk result (λ _. All IsText (passages_view passages.now)) }
    ensures runs { IfOk result (λ found. passages_view found.items
        ≡ flat_map words.runs_in (passages_view passages.now)) }
{
    let mut found = Vec::new(alloc);
    for passage in passages {
        push_runs(&mut found, *passage)?;
    }
    Ok(found)
}
