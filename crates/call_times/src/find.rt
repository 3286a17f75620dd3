//! `find SHEET FILE NEEDLE ROUNDS`: looks for a needle in a book by a style sheet. It tells how
//! many hits there are, and the sum of their ends and of the numbers of their keys.
use crate::rounds::Given;
use crate::sums::key_sum;
use anyhow::Result;
use concordance::{Hit, find};
use sty_sheet::Sheet;

pub(crate) fn told(given: &Given<'_>) -> Result<String> {
    let alloc = given.rt.alloc();
    let sheet_text = given.text(1, "a sheet")?;
    let text = given.text(2, "a file")?;
    let needle = given.word(3, "a needle")?;
    let rounds = given.rounds(4)?;
    let sheet = Sheet::read(alloc, sheet_text.as_str())?;
    let (least, hits) = rounds.least(|| Ok(find(alloc, text.as_str(), &sheet, needle)?))?;
    let nanos = least.as_nanos();
    Ok(format!(in alloc; "{nanos} {} {}", hits.len(), sum_of(&hits))?)
}

fn sum_of(hits: &[Hit<'_>]) -> u64 {
    let mut sum: u64 = 0;
    for hit in hits {
        sum = sum
            .wrapping_add(hit.start as u64)
            .wrapping_add(hit.text.len() as u64)
            .wrapping_add(key_sum(hit.key));
    }
    sum
}
