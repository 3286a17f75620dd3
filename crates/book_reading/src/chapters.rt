ghost use Rattle.std.specs.Prelude.{◌≡◌, ◌≤◌, ◌+◌, List, [], ◌∷◌, length, not};
ghost use Rattle.std.specs.List.{prefix_len};
ghost use Rattle.book_reading.specs.Chapters.{chapters_of};
ghost use Rattle.book_reading.specs.Readings as readings;
ghost use Rattle.book_reading.specs.Views.{chapters_left, run_view, runs_view};
ghost use Rattle.book_reading.specs.declared.run.Run.{Run};

use crate::blocks::Blocks;
use crate::kind::BlockKind;
use crate::notes::Notes;
use crate::run::{Run, Sort};

/// A chapter, or what comes before all chapters.
#[derive(Clone, Copy, Debug)]
pub struct Chapter<'r, 'a> {
    /// Its runs in the order of the text, the first of which is its mark, if it has one.
    pub runs: &'r [Run<'a>],
}

/// The chapters of a reading, one after another. It does not allocate.
#[derive(Drop)]
pub struct Chapters<'r, 'a> {
    pub(crate) rest: &'r [Run<'a>],
}

/// The chapters of runs, one after another: each begins with its mark, but for what comes before
/// all these marks.
pub fn chapters_in<'r, 'a>(runs: &'r [Run<'a>]) -> Chapters<'r, 'a>
    ensures { chapters_left result ≡ chapters_of (runs_view runs.entry.now) }
{
    Chapters { rest: runs }
}

impl<'r, 'a> Chapter<'r, 'a> {
    ghost use Rattle.book_reading.specs.Blocks.{blocks_of, notes_of};
    ghost use Rattle.book_reading.specs.Views.{blocks_left, notes_left};

    /// Its blocks in order: each begins with the mark of a paragraph, but for one before all these
    /// marks.
    pub fn blocks(self) -> Blocks<'r, 'a>
        ensures { blocks_left result ≡ blocks_of (runs_view self.entry.runs.now) }
    {
        Blocks { rest: self.runs }
    }

    /// Its notes in order.
    pub fn notes(self) -> Notes<'r, 'a>
        ensures { notes_left result ≡ notes_of (runs_view self.entry.runs.now) }
    {
        Notes { rest: self.runs }
    }
}

// Whether a run is seen as the mark of a chapter.
fn begins_chapter(sort: Sort) -> bool
    ensures { result ≡ readings.begins_chapter sort }
{
    match sort {
        Sort::Paragraph(BlockKind::Chapter) => true,
        _ => false,
    }
}

// Whether a run is the mark of a chapter and stands in no note.
fn starts_chapter(run: &Run<'_>) -> bool
    ensures { result ≡ readings.starts_chapter (run_view run.now) }
{
    begins_chapter(run.sort) && run.note.is_none()
}

// How many runs at the front begin no chapter.
fn front_len(runs: &[Run<'_>]) -> usize
    ensures value { result ≡ prefix_len (λ r. not (readings.starts_chapter (run_view r))) runs.now }
    ensures within { result ≤ length runs.now }
{
    runs.iter().take_while(|run| !starts_chapter(run)).count()
}

// How many runs the first chapter has.
fn first_len(runs: &[Run<'_>]) -> usize
    ensures none { runs.now ≡ [] → result ≡ 0 }
    ensures some { (x : Run) (xs : List Run) → runs.now ≡ x ∷ xs
        → result ≡ 1 + prefix_len (λ r. not (readings.starts_chapter (run_view r))) xs }
    ensures within { result ≤ length runs.now }
{
    match runs.split_first() {
        None => 0,
        Some((_, others)) => 1 + front_len(others),
    }
}

impl<'r, 'a> Iterator for Chapters<'r, 'a> {
    ghost use Rattle.std.specs.Iterator.{YieldsFirstBy, item_count};
    ghost use Rattle.book_reading.specs.Views.{chapter_view};

    type Item = Chapter<'r, 'a>;

    ghost next_gives = { YieldsFirstBy chapter_view chapters_left };

    ghost remaining = { item_count chapters_left };

    fn next(&mut self) -> Option<Chapter<'r, 'a>> {
        let _first = self.rest.first()?;
        let count = first_len(self.rest);
        let runs = &self.rest[..count];
        self.rest = &self.rest[count..];
        Some(Chapter { runs })
    }
}
