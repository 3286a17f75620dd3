// What is reported of several files.
ghost use Rattle.std.specs.Prelude.{◌≡◌, ◌≢◌, ◌↔◌, ◌++◌, [], Err, IfOk, OnOk};
ghost use Rattle.sty_sheet.specs.Views.{records_of};
ghost use Rattle.concordance.specs.declared.fault.FindFault.TheVariants.{EmptyNeedle};
ghost use Rattle.versification.specs.Views.{verses_in};
ghost use Rattle.file_reports.specs.Files as reports;

use crate::file::BookFile;
use book_reports::{BookWord, Form, check_file, find_file, push_words, words_by_form};
use concordance::FindFault;
use missing_verses::missing_in_book;
use std::alloc::{AllocError, Global};
use sty_sheet::Sheet;
use versification::Versification;

/// The findings in files, as `check_file` gives them of each, in the order of the files.
///
/// # Errors
/// `AllocError` where an allocation failed.
pub fn check_files(
    alloc: Global,
    sheet: &Sheet<'_>,
    files: &[BookFile<'_>],
    form: Form,
) -> Result<Vec<u8>, AllocError>
    ensures { IfOk result (λ bytes.
        bytes.items ≡ reports.checked form (records_of sheet.now) files.now) }
{
    let mut bytes = Vec::new(alloc);
    for file in files {
        let lines = check_file(alloc, form, sheet, file.name, file.book, file.text)?;
        bytes.extend_from_slice(&lines)?;
    }
    Ok(bytes)
}

/// The hits of a needle in files, as `find_file` gives them of each, in the order of the files.
///
/// # Errors
/// `EmptyNeedle` exactly where the needle is empty, and else `Memory` where an allocation failed.
pub fn find_files(
    alloc: Global,
    sheet: &Sheet<'_>,
    needle: &str,
    files: &[BookFile<'_>],
    form: Form,
) -> Result<Vec<u8>, FindFault>
    ensures hits { IfOk result (λ bytes. bytes.items
        ≡ reports.searched form (records_of sheet.now) needle.now files.now) }
    ensures empty { (result ≡ Err EmptyNeedle) ↔ (needle.now ≡ []) }
{
    if needle.is_empty() {
        return Err(FindFault::EmptyNeedle);
    }
    Ok(found_in_files(alloc, sheet, needle, files, form)?)
}

// The hits of a needle that is not empty.
fn found_in_files(
    alloc: Global,
    sheet: &Sheet<'_>,
    needle: &str,
    files: &[BookFile<'_>],
    form: Form,
) -> Result<Vec<u8>, AllocError>
    requires { needle.now ≢ [] }
    ensures { IfOk result (λ bytes. bytes.items
        ≡ reports.searched form (records_of sheet.now) needle.now files.now) }
{
    let mut bytes = Vec::new(alloc);
    for file in files {
        push_found(alloc, &mut bytes, form, sheet, needle, file)?;
    }
    Ok(bytes)
}

// Appends the hits in a file.
fn push_found(
    alloc: Global,
    bytes: &mut Vec<u8>,
    form: Form,
    sheet: &Sheet<'_>,
    needle: &str,
    file: &BookFile<'_>,
) -> Result<(), AllocError>
    requires { needle.now ≢ [] }
    ensures { OnOk result (bytes.new.items ≡ bytes.old.items
        ++ reports.searched_one form (records_of sheet.now) needle.now file.now) }
{
    match find_file(alloc, form, sheet, needle, file.name, file.book, file.text) {
        Ok(lines) => bytes.extend_from_slice(&lines),
        Err(_) => Err(AllocError),
    }
}

/// The words of files, a line `FORM BOOK KEY ..` for each word of each file: by their forms, and
/// those of one form in the order of the files.
///
/// # Errors
/// `AllocError` where an allocation failed.
pub fn word_files(
    alloc: Global,
    sheet: &Sheet<'_>,
    files: &[BookFile<'_>],
) -> Result<Vec<u8>, AllocError>
    ensures { IfOk result (λ bytes.
        bytes.items ≡ reports.listed (records_of sheet.now) files.now) }
{
    let mut words: Vec<BookWord> = Vec::new(alloc);
    for file in files {
        push_words(alloc, &mut words, sheet, file.book, file.text)?;
    }
    words_by_form(alloc, words)
}

/// What is missing of files by a versification, as `missing_in_book` lists it of each, in the order
/// of the files.
///
/// # Errors
/// `AllocError` where an allocation failed.
pub fn missing_files(
    alloc: Global,
    versification: &Versification,
    files: &[BookFile<'_>],
) -> Result<Vec<u8>, AllocError>
    ensures { IfOk result (λ bytes.
        bytes.items ≡ reports.missing (verses_in versification.now) files.now) }
{
    let mut bytes = Vec::new(alloc);
    for file in files {
        let lines = missing_in_book(alloc, versification, file.book, file.text)?;
        bytes.extend_from_slice(&lines)?;
    }
    Ok(bytes)
}
