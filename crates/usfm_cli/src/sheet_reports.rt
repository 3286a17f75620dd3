// What commands report of a book by a style sheet.
ghost use Rattle.usfm_cli.specs.Commands.{Gives};
ghost use Rattle.usfm_cli.specs.SheetReports as reports;

use crate::steps::text_in;
use book_reports::{finding_lines, hit_lines, word_lines};
use command_faults::Fault;
use replica_state::Replica;
use std::alloc::Global;
use sty_sheet::Sheet;
use usfm_export::book_text;
use usfm_ref::Book;

// The findings in a book, a line for each.
pub(crate) fn check(
    alloc: Global,
    replica: &Replica,
    book: Book,
    sheet: &[u8],
) -> Result<Vec<u8>, Fault>
    ensures { Gives (reports.is_after_sheet sheet.now)
        (reports.checked replica.now.held book sheet.now) result }
{
    let sheet = Sheet::read(alloc, text_in(sheet)?)?;
    let bytes = book_text(alloc, replica, book)?;
    let found = segment_check::check(alloc, text_in(&bytes)?, &sheet)?;
    Ok(finding_lines(alloc, book, &found)?)
}

// The hits of a needle in a book, a line for each.
pub(crate) fn find(
    alloc: Global,
    replica: &Replica,
    book: Book,
    sheet: &[u8],
    needle: &str,
) -> Result<Vec<u8>, Fault>
    ensures { Gives (reports.is_after_sheet sheet.now)
        (reports.searched replica.now.held book sheet.now needle.now) result }
{
    let sheet = Sheet::read(alloc, text_in(sheet)?)?;
    let bytes = book_text(alloc, replica, book)?;
    let hits = concordance::find(alloc, text_in(&bytes)?, &sheet, needle)?;
    Ok(hit_lines(alloc, book, &hits)?)
}

// The words of a book, a line for each.
pub(crate) fn words(
    alloc: Global,
    replica: &Replica,
    book: Book,
    sheet: &[u8],
) -> Result<Vec<u8>, Fault>
    ensures { Gives (reports.is_after_sheet sheet.now)
        (reports.listed replica.now.held book sheet.now) result }
{
    let sheet = Sheet::read(alloc, text_in(sheet)?)?;
    let bytes = book_text(alloc, replica, book)?;
    let words = concordance::words(alloc, text_in(&bytes)?, &sheet)?;
    Ok(word_lines(alloc, &words)?)
}
