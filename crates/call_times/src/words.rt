//! `words SHEET FILE ROUNDS`: lists the words of a book by a style sheet. It tells how many words
//! there are, the sum of their lengths, and the sum of the numbers of their keys.
use crate::rounds::Given;
use crate::sums::key_sum;
use anyhow::Result;
use concordance::{Word, words};
use sty_sheet::Sheet;

pub(crate) fn told(given: &Given<'_>) -> Result<String> {
    let alloc = given.rt.alloc();
    let sheet_text = given.text(1, "a sheet")?;
    let text = given.text(2, "a file")?;
    let rounds = given.rounds(3)?;
    let sheet = Sheet::read(alloc, sheet_text.as_str())?;
    let (least, list) = rounds.least(|| Ok(words(alloc, text.as_str(), &sheet)?))?;
    let nanos = least.as_nanos();
    let (lengths, sum) = sums_of(&list);
    Ok(format!(in alloc; "{nanos} {} {lengths} {sum}", list.len())?)
}

fn sums_of(list: &[Word]) -> (u64, u64) {
    let mut lengths: u64 = 0;
    let mut sum: u64 = 0;
    for word in list {
        lengths = lengths.wrapping_add(word.form().len() as u64);
        for key in word.keys() {
            sum = sum.wrapping_add(key_sum(*key));
        }
    }
    (lengths, sum)
}
