//! What the tree of a text says of the marks of the text, gathered on a walk over it.

ghost use Rattle.std.specs.Prelude.{◌≡◌, ◌∷◌, ℕ, List, [], Option, Some, OnOk, IfOk, slice_set};
ghost use Rattle.std.specs.Borrow.{Bor};
ghost use Rattle.std.specs.Option.{option_map};
ghost use Rattle.sty_sheet.specs.Records.{Record, mark_style};
ghost use Rattle.sty_sheet.specs.Views.{record_of, records_of};
ghost use Rattle.usfm_token.specs.Tokens.{MarkParts};
ghost use Rattle.usfm_token.specs.View.{mark_parts};
ghost use Rattle.usfm_tree.specs.Events.{Event, begins, ends, events_before, ends_before};
ghost use Rattle.usfm_tree.specs.Reading.{tree_of};
ghost use Rattle.usfm_tree.specs.SheetViews.{styles_of};
ghost use Rattle.usfm_tree.specs.StepViews.{IsStyled, entry_before, placed_text};
ghost use Rattle.usfm_tree.specs.StepViews.{step_before};
ghost use Rattle.segment_check.specs.Loops.TreeViews.{inside_view};
ghost use Rattle.segment_check.specs.Loops.Sightings.{surroundings_in, levels};
ghost use Rattle.segment_check.specs.Loops.TreeViews.{seen_in};
ghost use Rattle.segment_check.specs.Loops.Sightings.{but_innermost, closed_in, seen_with};

use crate::inside::Inside;
use crate::seen::Seen;
use crate::tree::{closed, leaf_seen, milestone_seen, node_seen};
use std::alloc::{AllocError, Global};
use sty_sheet::{Sheet, Style, StyleKind};
use usfm_token::Mark;
use usfm_tree::{Entry, Step, TreeWalk};

// A node that is open: what is around a mark in it, where the list has what is seen of its own
// mark, and what is seen of that if the node ends with a closing mark.
#[derive(Clone, Copy)]
pub(crate) struct OpenNode<'a> {
    pub(crate) inside: Inside<'a>,
    pub(crate) place: usize,
    pub(crate) closed: Seen,
}

// What is seen of the marks so far, and the open nodes, the innermost last. A mark that begins a
// node is seen as one of a node that is not closed, until a closing mark ends the node.
#[derive(Drop)]
pub(crate) struct Sighting<'a> {
    pub(crate) seen: Vec<Seen>,
    pub(crate) open_nodes: Vec<OpenNode<'a>>,
}

impl<'a> Sighting<'a> {
    // What is around a mark here.
    fn inside(&self) -> Inside<'a>
        ensures { inside_view result ≡ surroundings_in (levels self.now.open_nodes.items) }
    {
        match self.open_nodes.last() {
            None => Inside::root(),
            Some(node) => node.inside,
        }
    }

    // Ends this many nodes without closing marks.
    fn end(&mut self, count: usize)
        ensures { (sheet : List Record) (later : List Event)
            → seen_with sheet self.new later ≡ seen_with sheet self.old (ends_before count later) }
    {
        self.open_nodes
            .truncate(self.open_nodes.len().saturating_sub(count));
    }

    // Begins a node.
    fn begin(
        &mut self,
        sheet: &Sheet<'_>,
        kind: StyleKind,
        mark: Mark<'a>,
        style: &Style<'_>,
    ) -> Result<(), AllocError>
        requires { mark_style (records_of sheet.now) (mark_parts mark).name
            ≡ Some (record_of style.now) }
        ensures { OnOk result ((later : List Event) → let rs = records_of sheet.now in
            seen_with rs self.new later
            ≡ seen_with rs self.old (begins kind (mark_parts mark.entry) ∷ later)) }
    {
        let inside = self.inside();
        let seen = node_seen(sheet, inside, kind, mark, style);
        self.open_nodes.push(OpenNode {
            inside: inside.within(kind, mark.name()),
            place: self.seen.len(),
            closed: closed(seen),
        })?;
        self.seen.push(seen)?;
        Ok(())
    }

    // Ends the innermost node with a closing mark.
    fn close(&mut self) -> Result<(), AllocError>
        ensures { OnOk result ((sheet : List Record) (m : MarkParts) (later : List Event)
            → seen_with sheet self.new later
            ≡ seen_with sheet self.old (ends (Some m) ∷ later)) }
    {
        self.shut();
        self.seen.push(Seen::nothing())?;
        Ok(())
    }

    // Ends the innermost node, and sees its mark as one of a node that is closed.
    fn shut(&mut self)
        ensures seen { self.new.seen.items
            ≡ closed_in (levels self.old.open_nodes.items) self.old.seen.items }
        ensures open_nodes { levels self.new.open_nodes.items
            ≡ but_innermost (levels self.old.open_nodes.items) }
    {
        if let Some(node) = self.open_nodes.pop() {
            self.see_again(node.place, node.closed);
        }
    }

    // Sees the mark at a place anew.
    fn see_again(&mut self, place: usize, seen: Seen)
        ensures seen { self.new.seen.items ≡ slice_set self.old.seen.items place seen }
        ensures open_nodes { self.new.open_nodes ≡ self.old.open_nodes }
    {
        if place < self.seen.len() {
            self.seen[place] = seen;
        }
    }

    // Takes a milestone, with its closing mark, if it has one.
    fn span(
        &mut self,
        sheet: &Sheet<'_>,
        mark: Mark<'_>,
        close: Option<Mark<'_>>,
    ) -> Result<(), AllocError>
        ensures { OnOk result ((text : Option (ℕ × Bor (List ℕ))) (later : List Event)
            → let rs = records_of sheet.now in
            let end = ends (option_map mark_parts close.entry) in
            seen_with rs self.new later
            ≡ seen_with rs self.old (begins StyleKind.Milestone (mark_parts mark.entry)
            ∷ events_before (placed_text text) (end ∷ later))) }
    {
        self.seen.push(milestone_seen(sheet, mark))?;
        if close.is_some() {
            self.seen.push(Seen::nothing())?;
        }
        Ok(())
    }

    // Takes an entry.
    fn enter(&mut self, sheet: &Sheet<'_>, entry: Entry<'a, '_>) -> Result<(), AllocError>
        requires { IsStyled (records_of sheet.now) entry }
        ensures { OnOk result ((later : List Event) → let rs = records_of sheet.now in
            seen_with rs self.new later
            ≡ seen_with rs self.old (entry_before entry.entry later)) }
    {
        match entry {
            Entry::Text(..) => Ok(()),
            Entry::Leaf(mark) => {
                let seen = leaf_seen(sheet, self.inside(), mark);
                self.seen.push(seen)?;
                Ok(())
            }
            Entry::Begin(kind, mark, style) => self.begin(sheet, kind, mark, style),
            Entry::Close(_) => {
                self.close()?;
                Ok(())
            }
            Entry::Milestone(mark, _, close) => {
                self.span(sheet, mark, close)?;
                Ok(())
            }
        }
    }

    // Takes a step of a walk.
    fn take(&mut self, sheet: &Sheet<'_>, step: Step<'a, '_>) -> Result<(), AllocError>
        requires { IsStyled (records_of sheet.now) step.entry }
        ensures { OnOk result ((later : List Event) → let rs = records_of sheet.now in
            seen_with rs self.new later ≡ seen_with rs self.old (step_before step.entry later)) }
    {
        self.end(step.ended);
        self.enter(sheet, step.entry)
    }
}

// What the tree of a text says of the marks of the text, in order.
pub(crate) fn see_marks(
    alloc: Global,
    text: &str,
    sheet: &Sheet<'_>,
) -> Result<Vec<Seen>, AllocError>
    ensures { let tree = tree_of (styles_of sheet.now) text.now in
        IfOk result (λ seen. seen.items ≡ seen_in (records_of sheet.now) [] tree) }
{
    let mut sighting = Sighting {
        seen: Vec::new(alloc),
        open_nodes: Vec::new(alloc),
    };
    let mut walk = TreeWalk::new(alloc, text, sheet);
    while let Some(step) = walk.next_step()? {
        sighting.take(sheet, step)?;
    }
    let Sighting {
        seen,
        open_nodes: _,
    } = sighting;
    Ok(seen)
}
