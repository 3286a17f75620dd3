//! Runs with a word where something is in conflict.

ghost use Rattle.std.specs.Prelude.{◌≡◌, IfOk};
ghost use Rattle.book_reading.specs.Views.{run_view, runs_view};
ghost use Rattle.plain_reading.specs.Parts as parts;
ghost use Rattle.plain_reading.specs.Loops.{gaps_left};

use book_reading::{Run, Sort};
use std::alloc::{AllocError, Global};

const CONFLICT: &str = " [conflict] ";

// The word that marks a conflict, where a run stands.
fn conflict_at<'a>(run: &Run<'a>) -> Run<'a>
    ensures { run_view result ≡ parts.conflict_at (run_view run.now) }
{
    Run {
        sort: Sort::Words,
        style: "",
        note: run.note,
        text: CONFLICT,
    }
}

// The gaps that are left: what is left of the first, and those after it.
#[derive(Clone, Copy, Debug)]
pub(crate) struct Countdown<'g> {
    pub(crate) gap: Option<usize>,
    pub(crate) later: &'g [usize],
}

impl<'g> Countdown<'g> {
    fn new(gaps: &'g [usize]) -> Self
        ensures { gaps_left result ≡ gaps.now }
    {
        match gaps {
            [] => Countdown {
                gap: None,
                later: &[],
            },
            [gap, later @ ..] => Countdown {
                gap: Some(*gap),
                later,
            },
        }
    }

    // Whether the first gap has ended.
    fn is_due(&self) -> bool
        ensures { result ≡ parts.is_due (gaps_left self.now) }
    {
        match self.gap {
            None => false,
            Some(gap) => gap == 0,
        }
    }

    // Those after a gap that has ended.
    fn not_due(self) -> Countdown<'g>
        ensures { gaps_left result ≡ parts.not_due (gaps_left self.entry) }
    {
        match self.gap {
            Some(0) => Countdown::new(self.later),
            _ => self,
        }
    }

    // What is left where so many bytes more are passed.
    fn passed(self, count: usize) -> Countdown<'g>
        ensures { gaps_left result ≡ parts.passed count (gaps_left self.entry) }
    {
        match self.gap {
            None => self,
            Some(gap) => Countdown {
                gap: Some(gap.saturating_sub(count)),
                later: self.later,
            },
        }
    }
}

// The runs, with the word after the run at the end of each gap.
pub(crate) fn marked<'a>(
    alloc: Global,
    gaps: &[usize],
    runs: &[Run<'a>],
) -> Result<Vec<Run<'a>>, AllocError>
    ensures { IfOk result (λ list.
        runs_view list.items ≡ parts.marked gaps.now (runs_view runs.now)) }
{
    let mut list = Vec::new(alloc);
    let mut left = Countdown::new(gaps);
    let mut rest = runs;
    'runs: while let [run, later @ ..] = rest {
        list.push(*run)?;
        if left.is_due() {
            list.push(conflict_at(run))?;
        }
        left = left.not_due().passed(run.text.len());
        rest = later;
    }
    Ok(list)
}
