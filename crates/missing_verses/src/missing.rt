ghost use Rattle.std.specs.Prelude.{◌≡◌, ◌≤◌, ◌++◌, IfOk, OnOk};
ghost use Rattle.verse_cut.specs.Pieces.{KeysRise};
ghost use Rattle.verse_cut.specs.Views.{pieces_view};
ghost use Rattle.versification.specs.Views.{verses_in};
ghost use Rattle.missing_verses.specs.Lines as lines;
ghost use Rattle.missing_verses.specs.Numbers.{of_chapter};

use crate::chapter::{Chapter, found_in};
use crate::lines::{push_beyond, push_each, push_empty, push_missing};
use crate::pieces::{covers_of, of_chapter};
use std::alloc::{AllocError, Global};
use usfm_ref::Book;
use verse_cut::{Piece, cut};
use versification::Versification;

// Chapters are 0 to 999.
const CHAPTERS: u16 = 1000;

/// What is missing of a book by a versification, given the book's text, chapter by chapter: in each
/// `missing MAT 28` where there is nothing of the chapter, or a line such as `missing MAT 1:4-25`
/// for each run of verses that no verse and no bridge covers; then `beyond MAT 1:26` for each
/// segment with a verse from 1 on that the versification, which has the book, does not have;
/// `twice MAT 1:5` for each verse that a bridge and a later segment have, but for different parts
/// of it; and `empty MAT 1:7` for each segment of a verse without words. Nothing where the text is
/// empty.
///
/// # Errors
/// `AllocError` where an allocation failed.
pub fn missing_in_book(
    alloc: Global,
    versification: &Versification,
    book: Book,
    text: &str,
) -> Result<Vec<u8>, AllocError>
    ensures { IfOk result (λ bytes.
        bytes.items ≡ lines.book_lines (verses_in versification.now) book text.now) }
{
    let mut bytes = Vec::new(alloc);
    if text.is_empty() {
        return Ok(bytes);
    }
    let pieces = cut(alloc, text)?;
    for chapter in 0..CHAPTERS {
        push_lines(alloc, versification, book, &pieces, chapter, &mut bytes)?;
    }
    Ok(bytes)
}

/// The same of one chapter 0 to 999 of a book. Where the text has nothing of the chapter, it is
/// missing, if the versification has it.
///
/// # Errors
/// `AllocError` where an allocation failed.
pub fn missing_in_chapter(
    alloc: Global,
    versification: &Versification,
    book: Book,
    text: &str,
    chapter: u16,
) -> Result<Vec<u8>, AllocError>
    requires { chapter ≤ 999 }
    ensures { IfOk result (λ bytes. bytes.items
        ≡ lines.chapter_lines (verses_in versification.now) book text.now chapter) }
{
    let mut bytes = Vec::new(alloc);
    let pieces = cut(alloc, text)?;
    push_lines(alloc, versification, book, &pieces, chapter, &mut bytes)?;
    Ok(bytes)
}

// Appends the lines of a chapter.
fn push_lines(
    alloc: Global,
    versification: &Versification,
    book: Book,
    pieces: &[Piece<'_>],
    number: u16,
    bytes: &mut Vec<u8>,
) -> Result<(), AllocError>
    requires chapter { number ≤ 999 }
    requires rising { KeysRise (pieces_view pieces.now) }
    ensures { OnOk result (bytes.new.items ≡ bytes.old.items ++ lines.lines_of
        (verses_in versification.now) book number
        (of_chapter number (pieces_view pieces.now))) }
{
    let chapter = Chapter {
        versification,
        book,
        number,
    };
    push_own(alloc, &chapter, of_chapter(pieces, number), bytes)
}

// Appends the lines of a chapter with these pieces.
fn push_own(
    alloc: Global,
    chapter: &Chapter<'_>,
    own: &[Piece<'_>],
    bytes: &mut Vec<u8>,
) -> Result<(), AllocError>
    requires { chapter.now.number ≤ 999 }
    ensures { OnOk result (bytes.new.items ≡ bytes.old.items ++ lines.lines_of
        (verses_in chapter.now.versification.now) chapter.now.book chapter.now.number
        (pieces_view own.now)) }
{
    if own.is_empty() && !chapter.has_verses() {
        return Ok(());
    }
    let covers = covers_of(alloc, own)?;
    let found = found_in(alloc, chapter, &covers)?;
    push_missing(alloc, chapter, own, &found.missing, bytes)?;
    push_beyond(alloc, chapter, own, bytes)?;
    push_each(alloc, "twice", chapter, &found.twice, bytes)?;
    push_empty(alloc, chapter.book, own, bytes)
}
