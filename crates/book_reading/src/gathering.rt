//! A reading, gathered on a walk over a text's tree.

ghost use Rattle.std.specs.Prelude.{◌≡◌, List, [], None, OnOk, if◌then◌else◌};
ghost use Rattle.std.specs.Option.{option_map};
ghost use Rattle.usfm_token.specs.View.{mark_parts};
ghost use Rattle.usfm_tree.specs.Events.{Event, ends_before};
ghost use Rattle.usfm_tree.specs.Reading.{Styles};
ghost use Rattle.usfm_tree.specs.SheetViews.{styles_of};
ghost use Rattle.usfm_tree.specs.StepViews.{entry_before, step_before};
ghost use Rattle.book_reading.specs.Loops.Gathered as gathered;
ghost use Rattle.book_reading.specs.Loops.GatheringViews.{place_view, places, reading_with};
ghost use Rattle.book_reading.specs.Loops.GatheringViews.{runs_with, waiting_of};
ghost use Rattle.book_reading.specs.Readings.{runs_of};
ghost use Rattle.book_reading.specs.Stretches.{Stretch, node_end};
ghost use Rattle.book_reading.specs.declared.lead.Lead.TheVariants as leads;

use crate::lead::{Lead, node_lead};
use crate::place::{Place, is_known, leaf_lead, leaf_sort, mark_sort, within};
use crate::run::Sort;
use crate::written::Written;
use std::alloc::{AllocError, Global};
use sty_sheet::{Sheet, StyleKind};
use usfm_token::Mark;
use usfm_tree::{Entry, Step};

// A text that was met, of which it is not known yet whether it ends with attributes, and what may
// stand at its front.
#[derive(Clone, Copy)]
pub(crate) struct Waiting<'a> {
    pub(crate) lead: Lead,
    pub(crate) text: &'a str,
}

// The runs so far; a text that waits, if any; what may stand at the front of a text that comes
// next; and the open nodes, the innermost last.
#[derive(Drop)]
pub(crate) struct Gathering<'a> {
    pub(crate) written: Written<'a>,
    pub(crate) waiting: Option<Waiting<'a>>,
    pub(crate) lead: Lead,
    pub(crate) around: Vec<Place<'a>>,
}

// Whether attributes may end a text before an entry.
fn attributes_may_end(place: Place<'_>, entry: Entry<'_, '_>) -> bool
    ensures { result ≡ gathered.attributes_may_end (place_view place.entry) entry.entry }
{
    place.has_attributes && matches!(entry, Entry::Close(_))
}

// A text without where it begins.
fn text_of<'a>(text: Option<(usize, &'a str)>) -> Option<&'a str>
    ensures { option_map (λ t. t.now) result ≡ option_map (λ t. t.1.now) text.entry }
{
    match text {
        None => None,
        Some((_, text)) => Some(text),
    }
}

// What may stand after a milestone, which takes a text or none.
fn milestone_lead(lead: Lead, has_text: bool, close: Option<Mark<'_>>) -> Lead
    ensures { let close = option_map mark_parts close.entry in
        result ≡ node_end (if has_text then leads.Nothing else lead) close }
{
    match close {
        Some(_) => Lead::Nothing,
        None if has_text => Lead::Nothing,
        None => lead,
    }
}

impl<'a> Gathering<'a> {
    // Nothing is gathered yet.
    pub(crate) fn new(alloc: Global) -> Self
        ensures { (styles : Styles) (events : List Event) → reading_with styles result events
            ≡ runs_of 0 (gathered.gathered styles [] leads.Nothing None events) }
    {
        let written = Written {
            runs: Vec::new(alloc),
            notes: 0,
        };
        Gathering {
            written,
            waiting: None,
            lead: Lead::Nothing,
            around: Vec::new(alloc),
        }
    }

    // The place in the innermost open node.
    fn innermost(&self) -> Place<'a>
        ensures { place_view result ≡ gathered.innermost (places self.now) }
    {
        match self.around.last() {
            None => Place {
                in_note: false,
                style: "",
                has_attributes: false,
            },
            Some(place) => *place,
        }
    }

    // Writes the text that waits.
    pub(crate) fn settle(&mut self, may_end: bool) -> Result<(), AllocError>
        ensures runs { OnOk result ((later : List Stretch) → runs_with self.new.written later
            ≡ runs_with self.old.written (gathered.settled (gathered.innermost (places self.old))
            may_end (waiting_of self.old) later)) }
        ensures waiting { OnOk result (waiting_of self.new ≡ None) }
        ensures lead { OnOk result (self.new.lead ≡ self.old.lead) }
        ensures around { OnOk result (places self.new ≡ places self.old) }
    {
        if let Some(Waiting { lead, text }) = self.waiting {
            let place = self.innermost();
            self.written.push_text(place, may_end, lead, text)?;
            self.waiting = None;
        }
        Ok(())
    }

    // Ends this many nodes without closing marks.
    fn end(&mut self, count: usize) -> Result<(), AllocError>
        ensures { OnOk result ((styles : Styles) (later : List Event)
            → reading_with styles self.new later
            ≡ reading_with styles self.old (ends_before count later)) }
    {
        if count > 0 {
            self.settle(false)?;
            self.around
                .truncate(self.around.len().saturating_sub(count));
        }
        Ok(())
    }

    // Takes an entry.
    fn enter(&mut self, sheet: &Sheet<'_>, entry: Entry<'a, '_>) -> Result<(), AllocError>
        ensures { OnOk result ((later : List Event)
            → reading_with (styles_of sheet.now) self.new later
            ≡ reading_with (styles_of sheet.now) self.old (entry_before entry.entry later)) }
    {
        let may_end = attributes_may_end(self.innermost(), entry);
        self.settle(may_end)?;
        self.enter_settled(sheet, entry)
    }

    // Takes an entry where no text waits.
    fn enter_settled(&mut self, sheet: &Sheet<'_>, entry: Entry<'a, '_>) -> Result<(), AllocError>
        requires { waiting_of self.old ≡ None }
        ensures { OnOk result ((later : List Event)
            → reading_with (styles_of sheet.now) self.new later
            ≡ reading_with (styles_of sheet.now) self.old (entry_before entry.entry later)) }
    {
        let place = self.innermost();
        match entry {
            Entry::Text(_, text) => {
                let lead = self.lead;
                self.waiting = Some(Waiting { lead, text });
                self.lead = Lead::Nothing;
            }
            Entry::Leaf(mark) => {
                let is_known = is_known(sheet, mark);
                self.written.push(leaf_sort(is_known), place, mark.slice())?;
                self.lead = leaf_lead(is_known, mark.name());
            }
            Entry::Begin(kind, mark, _) => {
                let inner = within(place, kind, mark.name());
                self.written
                    .push(mark_sort(kind, mark.name()), inner, mark.slice())?;
                self.around.push(inner)?;
                self.lead = node_lead(kind, mark.name());
            }
            Entry::Close(mark) => {
                self.written.push(Sort::Markup, place, mark.slice())?;
                self.around.pop();
                self.lead = Lead::Nothing;
            }
            Entry::Milestone(mark, text, close) => {
                let inner = within(place, StyleKind::Milestone, mark.name());
                let lead = node_lead(StyleKind::Milestone, mark.name());
                self.written
                    .push_milestone(inner, lead, mark, text_of(text), close)?;
                self.lead = milestone_lead(lead, text.is_some(), close);
            }
        }
        Ok(())
    }

    // Takes a step of a walk.
    pub(crate) fn take(&mut self, sheet: &Sheet<'_>, step: Step<'a, '_>) -> Result<(), AllocError>
        ensures { OnOk result ((later : List Event)
            → reading_with (styles_of sheet.now) self.new later
            ≡ reading_with (styles_of sheet.now) self.old (step_before step.entry later)) }
    {
        self.end(step.ended)?;
        self.enter(sheet, step.entry)
    }
}
