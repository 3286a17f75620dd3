ghost use Rattle.std.specs.Prelude.{◌≡◌, IfOk};
ghost use Rattle.usfm_tree.specs.SheetViews.{styles_of};
ghost use Rattle.book_reading.specs.Laws.{joined_runs};
ghost use Rattle.book_reading.specs.Readings.{reading_of};
ghost use Rattle.book_reading.specs.Views.{runs_in};

use crate::chapters::Chapters;
use crate::gathering::Gathering;
use crate::run::Run;
use crate::written::Written;
use std::alloc::{AllocError, Global};
use sty_sheet::Sheet;
use usfm_tree::TreeWalk;

/// What a reader sees of a text, as runs that borrow it.
#[derive(Drop)]
pub struct Reading<'a> {
    runs: Vec<Run<'a>>,
}

impl<'a> Reading<'a> {
    ghost use Rattle.book_reading.specs.Chapters.{chapters_of};
    ghost use Rattle.book_reading.specs.Views.{chapters_left, runs_view};

    /// The runs in the order of the text, those of notes at the notes' marks. They join to the
    /// text.
    pub fn runs(&self) -> &[Run<'a>]
        ensures { runs_view result.now ≡ runs_in self.now }
    {
        self.runs.as_slice()
    }

    /// The chapters in order: each begins with its mark, but for what comes before all these marks.
    pub fn chapters(&self) -> Chapters<'_, 'a>
        ensures { chapters_left result ≡ chapters_of (runs_in self.now) }
    {
        Chapters {
            rest: self.runs.as_slice(),
        }
    }
}

/// What a reader sees of a text by a style sheet. The notes of each chapter are numbered from 1.
///
/// # Errors
///
/// `AllocError` where an allocation failed.
pub fn read<'a>(alloc: Global, sheet: &Sheet<'_>, text: &'a str) -> Result<Reading<'a>, AllocError>
    ensures value { IfOk result (λ reading.
        runs_in reading ≡ reading_of (styles_of sheet.now) text.entry.now) }
    ensures nothing_is_left_out { IfOk result (λ reading.
        joined_runs (runs_in reading) ≡ text.entry.now) }
{
    let mut gathering = Gathering::new(alloc);
    let mut walk = TreeWalk::new(alloc, text, sheet);
    while let Some(step) = walk.next_step()? {
        gathering.take(sheet, step)?;
    }
    gathering.settle(false)?;
    let Gathering {
        written: Written { runs, notes: _ },
        waiting: _,
        lead: _,
        around: _,
    } = gathering;
    Ok(Reading { runs })
}
