ghost use Rattle.std.specs.Prelude.{◌≡◌, ◌∷◌, [], None, Some, MatchOption};
ghost use Rattle.std.specs.List.{list_any};
ghost use Rattle.std.specs.Iterator.{YieldsFirst, item_count};
ghost use Rattle.op_core.specs.Loops.Index.{is_kept, books_left};

use super::chapter::Chapter;
use super::register::Register;
use std::marker::Model;
use usfm_ref::Book;

/// The books with an operation, in ascending order, each once. Made by `OpSet::books`; it does
/// not allocate.
#[derive(Debug, Drop)]
pub struct Books<'a> {
    last: Option<Book>,
    chapters: &'a [Chapter],
}

impl<'a> Model for Books<'a> {
    ghost use Rattle.std.specs.Prelude.{List, ℕ};
    ghost use Rattle.op_core.specs.Loops.Index.{books_left};

    ghost Value = { List (List ℕ) };

    ghost view = { λ s. books_left s.last s.chapters.now };
}

impl<'a> Books<'a> {
    pub(crate) fn new(chapters: &'a [Chapter]) -> Books<'a>
        ensures { result ≡ books_left None chapters.now }
    {
        Books {
            last: None,
            chapters,
        }
    }
}

impl<'a> Iterator for Books<'a> {
    type Item = Book;

    ghost next_gives = { YieldsFirst (λ s. s) };

    ghost remaining = { item_count (λ s. s) };

    fn next(&mut self) -> Option<Book> {
        let Some((book, chapters)) = next_book(self.last, self.chapters) else {
            return None;
        };
        self.last = Some(book);
        self.chapters = chapters;
        Some(book)
    }
}

// The next book after the last one, and the chapters after its first.
fn next_book(last: Option<Book>, chapters: &[Chapter]) -> Option<(Book, &[Chapter])>
    ensures { MatchOption result (books_left last chapters.now ≡ [])
        (λ x. books_left last chapters.now ≡ x.0 ∷ books_left (Some x.0) x.1.now) }
{
    let mut left = chapters;
    'chapters: while let Some((chapter, later)) = left.split_first() {
        if last != Some(chapter.book) && is_any_kept(&chapter.registers) {
            return Some((chapter.book, later));
        }
        left = later;
    }
    None
}

fn is_any_kept(registers: &[Register]) -> bool
    ensures { result ≡ list_any is_kept registers.now }
{
    registers.iter().any(|register| !register.shown.is_empty())
}
