//! `check SHEET FILE ROUNDS`: checks a book by a style sheet. It tells how many findings of each
//! code there are, and the sum of their starts and of the numbers of their keys.
use crate::rounds::Given;
use crate::sums::key_sum;
use anyhow::Result;
use segment_check::{Code, Finding, check};
use sty_sheet::Sheet;

const CODES: [Code; 10] = [
    Code::UnknownMarker,
    Code::StrayClose,
    Code::UnclosedChar,
    Code::UnclosedNote,
    Code::TooDeep,
    Code::BadNumber,
    Code::BadBridge,
    Code::NotRising,
    Code::Overlap,
    Code::NotUnder,
];

pub(crate) fn told(given: &Given<'_>) -> Result<String> {
    let alloc = given.rt.alloc();
    let sheet_text = given.text(1, "a sheet")?;
    let text = given.text(2, "a file")?;
    let rounds = given.rounds(3)?;
    let sheet = Sheet::read(alloc, sheet_text.as_str())?;
    let (least, findings) = rounds.least(|| Ok(check(alloc, text.as_str(), &sheet)?))?;
    let nanos = least.as_nanos();
    let counts = CODES.map(|code| count(&findings, code));
    let sum = sum_of(&findings);
    Ok(format!(in alloc; "{nanos} {counts:?} {sum}")?)
}

fn count(findings: &[Finding], code: Code) -> u64 {
    let mut count: u64 = 0;
    for finding in findings {
        if finding.code == code {
            count = count.wrapping_add(1);
        }
    }
    count
}

fn sum_of(findings: &[Finding]) -> u64 {
    let mut sum: u64 = 0;
    for finding in findings {
        sum = sum
            .wrapping_add(finding.start as u64)
            .wrapping_add(key_sum(finding.key));
    }
    sum
}
