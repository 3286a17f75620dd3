//! `tokens FILE ROUNDS`: counts the tokens of a text.
use crate::rounds::Given;
use anyhow::Result;
use usfm_token::{Token, TokenIter};

#[derive(Clone, Copy, Debug, Default)]
struct Tally {
    marks: u64,
    mark_bytes: u64,
    name_bytes: u64,
    nested: u64,
    closing: u64,
    texts: u64,
    text_bytes: u64,
}

pub(crate) fn told(given: &Given<'_>) -> Result<String> {
    let text = given.text(1, "a file")?;
    let rounds = given.rounds(2)?;
    let (least, counts) = rounds.least(|| Ok(count_tokens(text.as_str())))?;
    let nanos = least.as_nanos();
    Ok(format!(in given.rt.alloc(); "{nanos} {counts:?}")?)
}

#[inline(never)]
fn count_tokens(text: &str) -> Tally {
    let mut counts = Tally::default();
    for token in TokenIter::new(text) {
        match token {
            Token::Mark(mark) => {
                counts.marks = counts.marks.wrapping_add(1);
                counts.mark_bytes = counts.mark_bytes.wrapping_add(mark.slice().len() as u64);
                counts.name_bytes = counts.name_bytes.wrapping_add(mark.name().len() as u64);
                counts.nested = counts.nested.wrapping_add(u64::from(mark.nested()));
                counts.closing = counts.closing.wrapping_add(u64::from(mark.closing()));
            }
            Token::Text(words) => {
                counts.texts = counts.texts.wrapping_add(1);
                counts.text_bytes = counts.text_bytes.wrapping_add(words.len() as u64);
            }
        }
    }
    counts
}
