ghost use Rattle.std.specs.Prelude.{◌≡◌, ◌≤◌, ◌+◌, List, [], ◌∷◌, length, not};
ghost use Rattle.std.specs.List.{prefix_len};
ghost use Rattle.book_reading.specs.Blocks as blocks;
ghost use Rattle.book_reading.specs.Readings.{is_caller};
ghost use Rattle.book_reading.specs.Views.{run_view};
ghost use Rattle.book_reading.specs.declared.run.Run.{Run};

use crate::run::{Run, Sort};

/// A note: its mark, and all that follows of it.
#[derive(Clone, Copy, Debug)]
pub struct Note<'r, 'a> {
    /// Its number in its chapter, from 1.
    pub number: Option<usize>,
    /// Its runs, the first of which is its mark.
    pub runs: &'r [Run<'a>],
}

/// The notes of a reading, one after another. It does not allocate.
#[derive(Drop)]
pub struct Notes<'r, 'a> {
    pub(crate) rest: &'r [Run<'a>],
}

fn is_caller(sort: Sort) -> bool
    ensures { result ≡ is_caller sort }
{
    matches!(sort, Sort::Caller)
}

// Whether a run stands in the note which has begun before it.
fn goes_on(run: &Run<'_>) -> bool
    ensures { result ≡ blocks.goes_on (run_view run.now) }
{
    run.note.is_some() && !is_caller(run.sort)
}

// How many runs at the front do.
fn front_len(runs: &[Run<'_>]) -> usize
    ensures value { result ≡ prefix_len (λ r. blocks.goes_on (run_view r)) runs.now }
    ensures within { result ≤ length runs.now }
{
    runs.iter().take_while(|run| goes_on(run)).count()
}

// How many runs are before the first mark of a note.
fn passed_len(runs: &[Run<'_>]) -> usize
    ensures value { result ≡ prefix_len (λ r. not (is_caller r.sort)) runs.now }
    ensures within { result ≤ length runs.now }
{
    runs.iter().take_while(|run| !is_caller(run.sort)).count()
}

// How many runs a note has whose mark is the first.
fn first_len(runs: &[Run<'_>]) -> usize
    ensures none { runs.now ≡ [] → result ≡ 0 }
    ensures some { (x : Run) (xs : List Run) → runs.now ≡ x ∷ xs
        → result ≡ 1 + prefix_len (λ r. blocks.goes_on (run_view r)) xs }
    ensures within { result ≤ length runs.now }
{
    match runs.split_first() {
        None => 0,
        Some((_, others)) => 1 + front_len(others),
    }
}

impl<'r, 'a> Iterator for Notes<'r, 'a> {
    ghost use Rattle.std.specs.Iterator.{YieldsFirstBy, item_count};
    ghost use Rattle.book_reading.specs.Views.{note_view, notes_left};

    type Item = Note<'r, 'a>;

    ghost next_gives = { YieldsFirstBy note_view notes_left };

    ghost remaining = { item_count notes_left };

    fn next(&mut self) -> Option<Note<'r, 'a>> {
        let passed = passed_len(self.rest);
        let from = &self.rest[passed..];
        let number = from.first()?.note;
        let count = first_len(from);
        let runs = &from[..count];
        self.rest = &self.rest[passed + 1..];
        Some(Note { number, runs })
    }
}
