// What is reported of a book.
ghost use Rattle.std.specs.Prelude.{◌≡◌, ◌<◌, ◌↔◌, [], length, Err, IfOk};
ghost use Rattle.std.specs.List.{All};
ghost use Rattle.sty_sheet.specs.Views.{records_of};
ghost use Rattle.segment_check.specs.Findings.{findings};
ghost use Rattle.concordance.specs.Hits.{hits_of};
ghost use Rattle.concordance.specs.Views.{hits_view};
ghost use Rattle.concordance.specs.declared.fault.FindFault.TheVariants.{EmptyNeedle};
ghost use Rattle.book_reports.specs.Loops.Places.{HitFits};
ghost use Rattle.book_reports.specs.Reports as reports;

use crate::form::Form;
use crate::formed::{findings_in, hits_in};
use concordance::{FindFault, Hit};
use segment_check::Finding;
use std::alloc::{AllocError, Global};
use sty_sheet::Sheet;
use usfm_ref::Book;

/// The findings in the text of a book, a line for each: `REF CODE START`, or by lines and columns
/// `REF:LINE:COLUMN: CODE`; with the line of the text after it, where something is to set off the
/// mark.
///
/// # Errors
/// `AllocError` where an allocation failed.
pub fn check_book(
    alloc: Global,
    form: Form,
    sheet: &Sheet<'_>,
    book: Book,
    text: &str,
) -> Result<Vec<u8>, AllocError>
    ensures { IfOk result (λ bytes.
        bytes.items ≡ reports.checked form (records_of sheet.now) book text.now) }
{
    let found = findings_in_text(alloc, sheet, text)?;
    let (places, set_off) = (form.places(), form.set_off);
    findings_in(alloc, places, set_off, "", book, text.as_bytes(), &found)
}

/// The findings in the text of a book that a file of this name has, a line for each: `REF CODE
/// START`, or by lines and columns `FILE:LINE:COLUMN: CODE REF`; with the line of the text after
/// it, where something is to set off the mark.
///
/// # Errors
/// `AllocError` where an allocation failed.
pub fn check_file(
    alloc: Global,
    form: Form,
    sheet: &Sheet<'_>,
    file: &str,
    book: Book,
    text: &str,
) -> Result<Vec<u8>, AllocError>
    ensures { IfOk result (λ bytes. bytes.items
        ≡ reports.checked_file form (records_of sheet.now) file.now book text.now) }
{
    let found = findings_in_text(alloc, sheet, text)?;
    let (places, set_off) = (form.places_in_file(), form.set_off);
    findings_in(alloc, places, set_off, file, book, text.as_bytes(), &found)
}

/// The hits of a needle in the text of a book, a line for each: `REF START`, or by lines and
/// columns `REF:LINE:COLUMN: found`; with the line of the text after it, where something is to set
/// off the needle.
///
/// # Errors
/// `EmptyNeedle` exactly where the needle is empty, and else `Memory` where an allocation failed.
pub fn find_book(
    alloc: Global,
    form: Form,
    sheet: &Sheet<'_>,
    needle: &str,
    book: Book,
    text: &str,
) -> Result<Vec<u8>, FindFault>
    ensures hits { IfOk result (λ bytes. bytes.items
        ≡ reports.searched form (records_of sheet.now) needle.now book text.now) }
    ensures empty { (result ≡ Err EmptyNeedle) ↔ (needle.now ≡ []) }
{
    let hits = hits_in_text(alloc, sheet, needle, text)?;
    let (places, set_off) = (form.places(), form.set_off);
    Ok(hits_in(alloc, places, set_off, "", book, text.as_bytes(), &hits)?)
}

/// The hits of a needle in the text of a book that a file of this name has, a line for each: `REF
/// START`, or by lines and columns `FILE:LINE:COLUMN: found REF`; with the line of the text after
/// it, where something is to set off the needle.
///
/// # Errors
/// `EmptyNeedle` exactly where the needle is empty, and else `Memory` where an allocation failed.
pub fn find_file(
    alloc: Global,
    form: Form,
    sheet: &Sheet<'_>,
    needle: &str,
    file: &str,
    book: Book,
    text: &str,
) -> Result<Vec<u8>, FindFault>
    ensures hits { IfOk result (λ bytes. bytes.items
        ≡ reports.searched_file form (records_of sheet.now) needle.now file.now book text.now) }
    ensures empty { (result ≡ Err EmptyNeedle) ↔ (needle.now ≡ []) }
{
    let hits = hits_in_text(alloc, sheet, needle, text)?;
    let (places, set_off) = (form.places_in_file(), form.set_off);
    Ok(hits_in(alloc, places, set_off, file, book, text.as_bytes(), &hits)?)
}

// The findings in a text, each of which starts in it.
fn findings_in_text(
    alloc: Global,
    sheet: &Sheet<'_>,
    text: &str,
) -> Result<Vec<Finding>, AllocError>
    ensures found { IfOk result (λ found.
        found.items ≡ findings (records_of sheet.now) text.now) }
    ensures within { IfOk result (λ found. All (λ f. f.start < length text.now) found.items) }
{
    let found = segment_check::check(alloc, text, sheet)?;
    Ok(found)
}

// The hits of a needle in a text, each of which ends in it.
fn hits_in_text<'a>(
    alloc: Global,
    sheet: &Sheet<'_>,
    needle: &str,
    text: &'a str,
) -> Result<Vec<Hit<'a>>, FindFault>
    ensures hits { IfOk result (λ hits. hits_view hits.items
        ≡ hits_of (records_of sheet.now) text.now needle.now) }
    ensures within { IfOk result (λ hits. All (HitFits text.now) (hits_view hits.items)) }
    ensures empty { (result ≡ Err EmptyNeedle) ↔ (needle.now ≡ []) }
{
    let hits = concordance::find(alloc, text, sheet, needle)?;
    Ok(hits)
}
