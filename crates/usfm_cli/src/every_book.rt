// What is reported of every book of a replica by a style sheet.
ghost use Rattle.std.specs.Prelude.{◌≡◌, ◌≢◌, ◌↔◌, ◌++◌, [], Err, IfOk, OnOk, IsUtf8};
ghost use Rattle.op_core.specs.Export.{export};
ghost use Rattle.sty_sheet.specs.Views.{records_of};
ghost use Rattle.concordance.specs.declared.fault.FindFault.TheVariants.{EmptyNeedle};
ghost use Rattle.book_reports.specs.Reports.{checked, searched};
ghost use Rattle.book_reports.specs.BookWords.{in_book};
ghost use Rattle.usfm_cli.specs.EveryBook as every;

use book_reports::{BookWord, Form, check_book, find_book, push_words, words_by_form};
use concordance::FindFault;
use replica_state::Replica;
use std::alloc::{AllocError, Global};
use sty_sheet::Sheet;
use usfm_export::book_text;
use usfm_ref::Book;
use usfm_token::read_text;

// The findings in all books of a replica, as `check_book` gives them of each, in the order of the
// books.
//
// # Errors
// `AllocError` where an allocation failed.
pub(crate) fn check_books(
    alloc: Global,
    form: Form,
    sheet: &Sheet<'_>,
    replica: &Replica,
) -> Result<Vec<u8>, AllocError>
    ensures { IfOk result (λ bytes. bytes.items
        ≡ every.all_checked form (records_of sheet.now) replica.now.held) }
{
    let mut bytes = Vec::new(alloc);
    for book in replica.books() {
        push_checked(alloc, &mut bytes, form, sheet, replica, book)?;
    }
    Ok(bytes)
}

// Appends the findings in a book that has an operation.
fn push_checked(
    alloc: Global,
    bytes: &mut Vec<u8>,
    form: Form,
    sheet: &Sheet<'_>,
    replica: &Replica,
    book: Book,
) -> Result<(), AllocError>
    ensures { OnOk result (bytes.new.items ≡ bytes.old.items
        ++ checked form (records_of sheet.now) book (export replica.now.held book)) }
{
    let text = export_of(alloc, replica, book)?;
    let lines = check_book(alloc, form, sheet, book, as_text(&text))?;
    bytes.extend_from_slice(&lines)
}

// The hits of a needle in all books of a replica, as `find_book` gives them of each, in the order
// of the books.
//
// # Errors
// `EmptyNeedle` exactly where the needle is empty, and else `Memory` where an allocation failed.
pub(crate) fn find_books(
    alloc: Global,
    form: Form,
    sheet: &Sheet<'_>,
    needle: &str,
    replica: &Replica,
) -> Result<Vec<u8>, FindFault>
    ensures hits { IfOk result (λ bytes. bytes.items
        ≡ every.all_searched form (records_of sheet.now) needle.now replica.now.held) }
    ensures empty { (result ≡ Err EmptyNeedle) ↔ (needle.now ≡ []) }
{
    if needle.is_empty() {
        return Err(FindFault::EmptyNeedle);
    }
    Ok(found_in_books(alloc, form, sheet, needle, replica)?)
}

// The hits of a needle that is not empty.
fn found_in_books(
    alloc: Global,
    form: Form,
    sheet: &Sheet<'_>,
    needle: &str,
    replica: &Replica,
) -> Result<Vec<u8>, AllocError>
    requires { needle.now ≢ [] }
    ensures { IfOk result (λ bytes. bytes.items
        ≡ every.all_searched form (records_of sheet.now) needle.now replica.now.held) }
{
    let mut bytes = Vec::new(alloc);
    for book in replica.books() {
        push_found(alloc, &mut bytes, form, sheet, needle, replica, book)?;
    }
    Ok(bytes)
}

// Appends the hits in a book that has an operation.
fn push_found(
    alloc: Global,
    bytes: &mut Vec<u8>,
    form: Form,
    sheet: &Sheet<'_>,
    needle: &str,
    replica: &Replica,
    book: Book,
) -> Result<(), AllocError>
    requires { needle.now ≢ [] }
    ensures { OnOk result (bytes.new.items ≡ bytes.old.items
        ++ searched form (records_of sheet.now) needle.now book
        (export replica.now.held book)) }
{
    let text = export_of(alloc, replica, book)?;
    match find_book(alloc, form, sheet, needle, book, as_text(&text)) {
        Ok(lines) => bytes.extend_from_slice(&lines),
        Err(_) => Err(AllocError),
    }
}

// The words of all books of a replica, a line `FORM BOOK KEY ..` for each word of each book: by
// their forms, and those of one form in the order of the books.
//
// # Errors
// `AllocError` where an allocation failed.
pub(crate) fn word_books(
    alloc: Global,
    sheet: &Sheet<'_>,
    replica: &Replica,
) -> Result<Vec<u8>, AllocError>
    ensures { IfOk result (λ bytes.
        bytes.items ≡ every.all_listed (records_of sheet.now) replica.now.held) }
{
    let mut words = Vec::new(alloc);
    for book in replica.books() {
        push_words_of(alloc, &mut words, sheet, replica, book)?;
    }
    words_by_form(alloc, words)
}

// Appends the words of a book that has an operation.
fn push_words_of(
    alloc: Global,
    words: &mut Vec<BookWord>,
    sheet: &Sheet<'_>,
    replica: &Replica,
    book: Book,
) -> Result<(), AllocError>
    ensures { OnOk result (words.new.items ≡ words.old.items
        ++ in_book (records_of sheet.now) book (export replica.now.held book)) }
{
    let text = export_of(alloc, replica, book)?;
    push_words(alloc, words, sheet, book, as_text(&text))
}

// The export of a book that has an operation.
fn export_of(alloc: Global, replica: &Replica, book: Book) -> Result<Vec<u8>, AllocError>
    ensures text { IfOk result (λ text. text.items ≡ export replica.now.held book) }
    ensures utf8 { IfOk result (λ text. IsUtf8 text.items) }
{
    book_text(alloc, replica, book).map_err(|_| AllocError)
}

// Bytes that are UTF-8, as text.
pub(crate) fn as_text(bytes: &[u8]) -> &str
    requires { IsUtf8 bytes.now }
    ensures { result.now ≡ bytes.now }
{
    match read_text(bytes) {
        Ok(text) => text,
        Err(_) => unreachable!(),
    }
}
