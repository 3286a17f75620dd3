//! The runs that have been written so far.

ghost use Rattle.std.specs.Prelude.{◌≤◌, length};

use crate::kind::BlockKind;
use crate::lead::{Lead, gap_len, number_len, number_sort, split_blanks};
use crate::place::{Place, split_words, words_sort};
use crate::run::{Run, Sort};
use std::alloc::AllocError;
use usfm_token::Mark;

// The runs so far, and how many notes of the last chapter have begun.
#[derive(Drop)]
pub(crate) struct Written<'a> {
    pub(crate) runs: Vec<Run<'a>>,
    pub(crate) notes: usize,
    ghost few: { notes ≤ length runs.items },
}

impl<'a> Written<'a> {
    ghost use Rattle.std.specs.Prelude.{◌≡◌, ◌≤◌, ◌+◌, ◌++◌, ◌∷◌, List, OnOk};
    ghost use Rattle.std.specs.Option.{option_map};
    ghost use Rattle.usfm_token.specs.View.{mark_parts};
    ghost use Rattle.book_reading.specs.Loops.Gathered as gathered;
    ghost use Rattle.book_reading.specs.Loops.GatheringViews.{place_view, runs_with};
    ghost use Rattle.book_reading.specs.Readings.{notes_after};
    ghost use Rattle.book_reading.specs.Stretches as stretches;
    ghost use Rattle.book_reading.specs.Stretches.{Stretch};

    // How many notes of its chapter have begun with a run of this sort.
    fn notes_with(&self, sort: Sort) -> usize
        ensures value { result ≡ notes_after self.now.notes sort }
        ensures one_more { result ≤ self.now.notes + 1 }
    {
        match sort {
            Sort::Caller => self.notes + 1,
            Sort::Paragraph(BlockKind::Chapter) => 0,
            _ => self.notes,
        }
    }

    // Writes a stretch of the text, if it has bytes.
    pub(crate) fn push(
        &mut self,
        sort: Sort,
        place: Place<'a>,
        text: &'a str,
    ) -> Result<(), AllocError>
        ensures { OnOk result ((later : List Stretch) → runs_with self.new later
            ≡ runs_with self.old
            (stretches.stretch (place_view place.entry) sort text.entry.now ∷ later)) }
    {
        if text.is_empty() {
            return Ok(());
        }
        let number = self.notes_with(sort);
        self.runs.push(Run {
            sort,
            style: place.style,
            note: place.in_note.then_some(number),
            text,
        })?;
        self.notes = number;
        Ok(())
    }

    // Writes the stretches of a text.
    pub(crate) fn push_text(
        &mut self,
        place: Place<'a>,
        may_end: bool,
        lead: Lead,
        text: &'a str,
    ) -> Result<(), AllocError>
        ensures { OnOk result ((later : List Stretch) → runs_with self.new later
            ≡ runs_with self.old
            (stretches.text_stretches (place_view place.entry) may_end lead text.entry.now
            ++ later)) }
    {
        let (front, rest) = text.split_at(number_len(lead, text));
        let (blanks, number) = split_blanks(front);
        let (gap, rest) = rest.split_at(gap_len(lead, rest));
        let (words, attributes) = split_words(may_end, rest);
        self.push(Sort::Markup, place, blanks)?;
        self.push(number_sort(lead), place, number)?;
        self.push(Sort::Markup, place, gap)?;
        self.push(words_sort(place.style), place, words)?;
        self.push(Sort::Markup, place, attributes)
    }

    // Writes a whole milestone, which takes a text or none.
    pub(crate) fn push_milestone(
        &mut self,
        inner: Place<'a>,
        lead: Lead,
        mark: Mark<'a>,
        text: Option<&'a str>,
        close: Option<Mark<'a>>,
    ) -> Result<(), AllocError>
        ensures { OnOk result ((later : List Stretch) → runs_with self.new later
            ≡ runs_with self.old (gathered.milestone (place_view inner.entry) lead
            (mark_parts mark.entry) (option_map (λ t. t.now) text.entry)
            (option_map mark_parts close.entry) later)) }
    {
        self.push(Sort::Markup, inner, mark.slice())?;
        self.push_optional(inner, close.is_some(), lead, text)?;
        self.push_close(inner, close)
    }

    // Writes the stretches of a text, if there is one.
    fn push_optional(
        &mut self,
        place: Place<'a>,
        may_end: bool,
        lead: Lead,
        text: Option<&'a str>,
    ) -> Result<(), AllocError>
        ensures { let text = option_map (λ t. t.now) text.entry in
            OnOk result ((later : List Stretch) → runs_with self.new later
            ≡ runs_with self.old (gathered.optional (place_view place.entry) may_end lead text
            later)) }
    {
        match text {
            None => Ok(()),
            Some(text) => self.push_text(place, may_end, lead, text),
        }
    }

    // Writes the closing mark of a node, if it has one.
    fn push_close(&mut self, place: Place<'a>, close: Option<Mark<'a>>) -> Result<(), AllocError>
        ensures { let close = option_map mark_parts close.entry in
            OnOk result ((later : List Stretch) → runs_with self.new later
            ≡ runs_with self.old
            (stretches.close_stretches (place_view place.entry) close ++ later)) }
    {
        match close {
            None => Ok(()),
            Some(mark) => self.push(Sort::Markup, place, mark.slice()),
        }
    }
}
