//! The plain leaves of a text, gathered on a walk over its tree.

ghost use Rattle.std.specs.Prelude.{◌≡◌, ◌<◌, ◌+◌, ◌^◌, ◌++◌, List, [], Some, None};
ghost use Rattle.std.specs.Prelude.{length, OnOk, IfOk};
ghost use Rattle.std.specs.List.{before_first};
ghost use Rattle.std.specs.Option.{option_map};
ghost use Rattle.std.specs.Str.{IsCharBoundary};
ghost use Rattle.sty_sheet.specs.Records.{Record, mark_style};
ghost use Rattle.sty_sheet.specs.Views.{record_of, records_of};
ghost use Rattle.usfm_ref.specs.Numbers.{verse_in};
ghost use Rattle.usfm_token.specs.Tokens.{MarkParts};
ghost use Rattle.usfm_token.specs.View.{mark_parts};
ghost use Rattle.usfm_tree.specs.Events.{Event, ends_before};
ghost use Rattle.usfm_tree.specs.StepViews.{IsStyled, entry_before, step_before};
ghost use Rattle.concordance.specs.Loops.Gathered as gathered;
ghost use Rattle.concordance.specs.Loops.Gathered.{EntryFits, innermost, settled};
ghost use Rattle.concordance.specs.Plain as plain;
ghost use Rattle.concordance.specs.Loops.LeafViews.{passage_view, passages_view, mark_before};
ghost use Rattle.concordance.specs.Loops.LeafViews.{waiting_of};
ghost use Rattle.concordance.specs.Loops.LeafViews.{enclosures, leaves_with};

use crate::passage::Passage;
use memchr::memchr;
use std::alloc::{AllocError, Global};
use sty_sheet::{Sheet, Style, StyleKind};
use usfm_ref::verse_after;
use usfm_token::Mark;
use usfm_tree::{Entry, Step, TreeWalk};

// An open node, as a text in it sees it: it or a node around it has the text of verses, it or one
// around it is a note or a milestone, and it is a character node.
#[derive(Clone, Copy)]
pub(crate) struct Enclosure {
    pub(crate) in_verse_text: bool,
    pub(crate) in_aside: bool,
    pub(crate) is_character: bool,
}

// The plain leaves so far; a text that will be one, while it is not known whether attributes may
// end it; the mark directly before what comes next, if one is there; and the open nodes, the
// innermost last.
#[derive(Drop)]
pub(crate) struct Gathering<'a> {
    pub(crate) leaves: Vec<Passage<'a>>,
    pub(crate) waiting: Option<Passage<'a>>,
    pub(crate) before: Option<Mark<'a>>,
    pub(crate) around: Vec<Enclosure>,
}

// The bytes of the number directly after the mark `\v`, with the blanks and the bridge.
fn number_len(before: Option<Mark<'_>>, text: &str) -> usize
    ensures value { result ≡ plain.number_length (option_map mark_parts before.entry) text.now }
    ensures boundary { IsCharBoundary text.now result }
{
    match before {
        Some(mark) if mark.slice() == "\\v" => verse_len(text),
        _ => 0,
    }
}

fn verse_len(text: &str) -> usize
    ensures value { result ≡ plain.verse_length (verse_in text.now) }
    ensures boundary { IsCharBoundary text.now result }
{
    match verse_after(text) {
        None => 0,
        Some(verse) => verse.length,
    }
}

// What comes before the first bar, or all.
fn before_bar(text: &str) -> &str
    ensures { result.now ≡ before_first plain.is_bar text.now }
{
    let end = memchr(b'|', text.as_bytes()).unwrap_or(text.len());
    text.split_at(end).0
}

fn is_aside(kind: StyleKind) -> bool
    ensures { result ≡ plain.is_aside_kind kind }
{
    matches!(kind, StyleKind::Note | StyleKind::Milestone)
}

// A node in another, with its mark's style.
fn enclosed(outer: Enclosure, kind: StyleKind, style: &Style<'_>) -> Enclosure
    ensures { (sheet : List Record) (m : MarkParts)
        → mark_style sheet m.name ≡ Some (record_of style.now)
        → result ≡ gathered.enclosed sheet outer kind m }
{
    let is_verse_text = kind == StyleKind::Paragraph && style.verse_text();
    Enclosure {
        in_verse_text: is_verse_text || outer.in_verse_text,
        in_aside: is_aside(kind) || outer.in_aside,
        is_character: kind == StyleKind::Character,
    }
}

// A text that counts, without the number before it.
fn counted<'a>(
    enclosure: Enclosure,
    before: Option<Mark<'_>>,
    start: usize,
    text: &'a str,
) -> Option<Passage<'a>>
    requires { start + length text.now < 2 ^ 64 }
    ensures { let before = option_map mark_parts before.entry in
        option_map passage_view result ≡ gathered.counted enclosure before start text.entry.now }
{
    if enclosure.in_aside || !enclosure.in_verse_text {
        return None;
    }
    let count = number_len(before, text);
    let text = text.split_at(count).1;
    Some(Passage {
        start: start + count,
        text,
    })
}

// Whether attributes may end a text before an entry: a character node ends there with its mark.
fn attributes_may_end(innermost: Enclosure, entry: Entry<'_, '_>) -> bool
    ensures { result ≡ gathered.attributes_may_end innermost entry.entry }
{
    innermost.is_character && matches!(entry, Entry::Close(_))
}

// The mark after a milestone: its `\*`, or its own mark, unless a text follows that.
fn milestone_end<'a>(
    mark: Mark<'a>,
    text: Option<(usize, &str)>,
    close: Option<Mark<'a>>,
) -> Option<Mark<'a>>
    ensures { let text = option_map (λ t. t.1.now) text.entry in
        let close = option_map mark_parts close.entry in
        option_map mark_parts result
        ≡ gathered.milestone_end (mark_parts mark.entry) text close }
{
    match (text, close) {
        (_, Some(close)) => Some(close),
        (Some(_), None) => None,
        (None, None) => Some(mark),
    }
}

impl<'a> Gathering<'a> {
    // The innermost open node.
    fn innermost(&self) -> Enclosure
        ensures { result ≡ innermost (enclosures self.now) }
    {
        match self.around.last() {
            None => Enclosure {
                in_verse_text: false,
                in_aside: false,
                is_character: false,
            },
            Some(enclosure) => *enclosure,
        }
    }

    // Makes the text that waits a leaf.
    fn settle(&mut self, may_end_with_attributes: bool) -> Result<(), AllocError>
        ensures leaves { OnOk result (passages_view self.new.leaves.items
            ≡ passages_view self.old.leaves.items
            ++ settled may_end_with_attributes (waiting_of self.old) []) }
        ensures waiting { OnOk result (waiting_of self.new ≡ None) }
        ensures before { OnOk result (mark_before self.new ≡ mark_before self.old) }
        ensures around { OnOk result (enclosures self.new ≡ enclosures self.old) }
    {
        if let Some(Passage { start, text }) = self.waiting {
            let text = if may_end_with_attributes {
                before_bar(text)
            } else {
                text
            };
            self.leaves.push(Passage { start, text })?;
            self.waiting = None;
        }
        Ok(())
    }

    // Ends this many nodes without closing marks.
    fn end(&mut self, count: usize) -> Result<(), AllocError>
        ensures { OnOk result ((sheet : List Record) (later : List Event)
            → leaves_with sheet self.new later
            ≡ leaves_with sheet self.old (ends_before count later)) }
    {
        if count > 0 {
            self.settle(false)?;
            self.around
                .truncate(self.around.len().saturating_sub(count));
        }
        Ok(())
    }

    // Takes an entry.
    fn enter(&mut self, entry: Entry<'a, '_>) -> Result<(), AllocError>
        requires { EntryFits entry }
        ensures { OnOk result ((sheet : List Record) (later : List Event)
            → IsStyled sheet entry.entry → leaves_with sheet self.new later
            ≡ leaves_with sheet self.old (entry_before entry.entry later)) }
    {
        let innermost = self.innermost();
        self.settle(attributes_may_end(innermost, entry))?;
        match entry {
            Entry::Text(start, text) => {
                self.waiting = counted(innermost, self.before, start, text);
                self.before = None;
            }
            Entry::Leaf(mark) => self.before = Some(mark),
            Entry::Begin(kind, mark, style) => {
                self.around.push(enclosed(innermost, kind, style))?;
                self.before = Some(mark);
            }
            Entry::Close(mark) => {
                self.around.pop();
                self.before = Some(mark);
            }
            Entry::Milestone(mark, text, close) => {
                self.before = milestone_end(mark, text, close);
            }
        }
        Ok(())
    }

    // Takes a step of a walk.
    fn take(&mut self, step: Step<'a, '_>) -> Result<(), AllocError>
        requires { EntryFits step.entry }
        ensures { OnOk result ((sheet : List Record) (later : List Event)
            → IsStyled sheet step.entry.entry → leaves_with sheet self.new later
            ≡ leaves_with sheet self.old (step_before step.entry later)) }
    {
        self.end(step.ended)?;
        self.enter(step.entry)
    }
}

// The plain leaves of a text, in order.
pub(crate) fn plain_leaves<'a>(
    alloc: Global,
    text: &'a str,
    sheet: &Sheet<'_>,
) -> Result<Vec<Passage<'a>>, AllocError>
    ensures { IfOk result (λ leaves.
        passages_view leaves.items ≡ plain.plain_leaves (records_of sheet.now) text.now) }
{
    let mut gathering = Gathering {
        leaves: Vec::new(alloc),
        waiting: None,
        before: None,
        around: Vec::new(alloc),
    };
    let mut walk = TreeWalk::new(alloc, text, sheet);
    while let Some(step) = walk.next_step()? {
        gathering.take(step)?;
    }
    gathering.settle(false)?;
    let Gathering {
        leaves,
        waiting: _,
        before: _,
        around: _,
    } = gathering;
    Ok(leaves)
}
