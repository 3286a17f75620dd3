// How far the chapters are, as a picture.
ghost use Rattle.std.specs.Prelude.{◌≡◌, ◌++◌, OnOk, map};
ghost use Rattle.std.specs.List.{flat_map};
ghost use Rattle.project_page.specs.Pages as pages;
ghost use Rattle.project_page.specs.Parts.{book_view};
ghost use Rattle.plain_line.specs.declared.text.CarriageReturn.TheVariants as returning;
ghost use Rattle.project_page.specs.Said.{said};

use crate::BookProgress;
use crate::markup::{
    ALL, BOOK, BOOK_END, CHAPTER, CHAPTER_END, CHAPTER_NUMBER, CHAPTER_VERSES, CHAPTER_WRITTEN,
    CHAPTERS, FEW, MOST, NONE, PROGRESS, SOME,
};
use crate::said::{push_html, push_name, push_number};
use project_status::Chapter;
use std::alloc::{AllocError, Global};
use usfm_ref::Book;

// Adds the books, in their order.
#[tactic(auto, unfolding(crate::specs::Pages::progress))]
pub(crate) fn push_progress(
    alloc: Global,
    page: &mut Vec<u8>,
    books: &[BookProgress],
) -> Result<(), AllocError>
    ensures { OnOk result (page.new.items
        ≡ page.old.items ++ pages.progress said (map book_view books.now)) }
{
    push_html(page, PROGRESS)?;
    for book in books {
        push_book(alloc, page, book)?;
    }
    Ok(())
}

#[tactic(auto, unfolding(crate::specs::Pages::book_row))]
fn push_book(alloc: Global, page: &mut Vec<u8>, book: &BookProgress) -> Result<(), AllocError>
    ensures { OnOk result (page.new.items
        ≡ page.old.items ++ pages.book_row said (book_view book.now)) }
{
    push_html(page, BOOK)?;
    push_code(alloc, page, book.book)?;
    push_html(page, CHAPTERS)?;
    push_chapters(alloc, page, &book.chapters)?;
    push_html(page, BOOK_END)
}

// Adds a book's code.
fn push_code(alloc: Global, page: &mut Vec<u8>, book: Book) -> Result<(), AllocError>
    ensures { OnOk result (page.new.items ≡ page.old.items ++ said returning.LeftOut book) }
{
    let code = format!(in alloc; "{book}")?;
    push_name(alloc, page, &code)
}

fn push_chapters(alloc: Global, page: &mut Vec<u8>, chapters: &[Chapter]) -> Result<(), AllocError>
    ensures { OnOk result (page.new.items
        ≡ page.old.items ++ flat_map pages.chapter_cell chapters.now) }
{
    for chapter in chapters {
        push_chapter(alloc, page, chapter)?;
    }
    Ok(())
}

#[tactic(auto, unfolding(crate::specs::Pages::chapter_cell))]
fn push_chapter(alloc: Global, page: &mut Vec<u8>, chapter: &Chapter) -> Result<(), AllocError>
    ensures { OnOk result (page.new.items ≡ page.old.items ++ pages.chapter_cell chapter.now) }
{
    push_html(page, CHAPTER)?;
    push_html(page, shade(chapter))?;
    push_number(alloc, page, CHAPTER_NUMBER, usize::from(chapter.chapter))?;
    push_number(alloc, page, CHAPTER_WRITTEN, usize::from(chapter.written))?;
    push_number(alloc, page, CHAPTER_VERSES, usize::from(chapter.verses))?;
    push_html(page, CHAPTER_END)
}

// The shade of a chapter, by the share of its verses that have a text.
#[tactic(auto, unfolding(crate::specs::Pages::shade))]
fn shade(chapter: &Chapter) -> &'static str
    ensures { result.now ≡ pages.shade chapter.now }
{
    let written = u32::from(chapter.written);
    let verses = u32::from(chapter.verses);
    if written == 0 {
        NONE
    } else if verses <= written {
        ALL
    } else if 2 * verses <= 3 * written {
        MOST
    } else if verses <= 3 * written {
        SOME
    } else {
        FEW
    }
}
