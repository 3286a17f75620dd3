// The words of several books.
ghost use Rattle.std.specs.Prelude.{◌≡◌, ◌++◌, IfOk, OnOk};
ghost use Rattle.sty_sheet.specs.Views.{records_of};
ghost use Rattle.book_reports.specs.BookWords as spec;

use crate::lines::push_keys;
use concordance::Word;
use std::alloc::{AllocError, Global};
use sty_sheet::Sheet;
use usfm_ref::Book;

/// A word of a book.
#[derive(Debug, Drop)]
pub struct BookWord {
    /// The book.
    pub book: Book,
    /// The word, with its keys in the book.
    pub word: Word,
}

/// Appends the words of the text of a book.
///
/// # Errors
/// `AllocError` where an allocation failed. Some of the words may be appended.
pub fn push_words(
    alloc: Global,
    words: &mut Vec<BookWord>,
    sheet: &Sheet<'_>,
    book: Book,
    text: &str,
) -> Result<(), AllocError>
    ensures { OnOk result (words.new.items
        ≡ words.old.items ++ spec.in_book (records_of sheet.now) book text.now) }
{
    for word in concordance::words(alloc, text, sheet)? {
        words.push(BookWord { book, word })?;
    }
    Ok(())
}

/// The words of several books, a line `FORM BOOK KEY ..` for each: by their forms, and those of one
/// form in the order in which they were given.
///
/// # Errors
/// `AllocError` where an allocation failed.
pub fn words_by_form(alloc: Global, mut words: Vec<BookWord>) -> Result<Vec<u8>, AllocError>
    ensures { IfOk result (λ bytes.
        bytes.items ≡ spec.word_lines (spec.by_form words.items)) }
{
    sort_by_form(&mut words)?;
    lines(alloc, &words)
}

// Puts words in the order of their forms.
fn sort_by_form(words: &mut Vec<BookWord>) -> Result<(), AllocError>
    ensures { OnOk result (words.new.items ≡ spec.by_form words.old.items) }
{
    words.sort_by(|a, b| a.word.form().cmp(b.word.form()))?;
    Ok(())
}

// A line for each word.
fn lines(alloc: Global, words: &[BookWord]) -> Result<Vec<u8>, AllocError>
    ensures { IfOk result (λ bytes. bytes.items ≡ spec.word_lines words.now) }
{
    let mut bytes = Vec::new(alloc);
    for word in words {
        push_word(alloc, &mut bytes, word)?;
    }
    Ok(bytes)
}

// Appends the line of a word.
fn push_word(alloc: Global, bytes: &mut Vec<u8>, word: &BookWord) -> Result<(), AllocError>
    ensures { OnOk result (bytes.new.items ≡ bytes.old.items ++ spec.word_line word.now) }
{
    bytes.extend_from_slice(word.word.form().as_bytes())?;
    bytes.push(b' ')?;
    bytes.extend_from_slice(&word.book.code())?;
    push_keys(alloc, bytes, word.word.keys())?;
    bytes.push(b'\n')?;
    Ok(())
}
