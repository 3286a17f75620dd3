//! Walking over a tree that is not made.

ghost use Rattle.std.specs.Prelude.{◌≡◌, ◌≤◌, length};
ghost use Rattle.usfm_token.specs.View.{rest_of};

use crate::open::Open;
use crate::role::role_of;
use crate::step::{Entry, Step};
use crate::unwind::{enter, unwind};
use std::alloc::{AllocError, Global};
use sty_sheet::Sheet;
use usfm_token::TokenIter;

/// Walks over the tree of a text from the front. It makes no nodes, and keeps no more of the tree
/// than which nodes are open.
#[derive(Drop)]
pub struct TreeWalk<'a, 's> {
    pub(crate) sheet: &'s Sheet<'s>,
    pub(crate) source: &'a str,
    pub(crate) tokens: TokenIter<'a>,
    pub(crate) open_nodes: Vec<Open<'s, ()>>,
    ghost within: { length (rest_of tokens) ≤ length source.now },
}

impl<'a, 's> TreeWalk<'a, 's> {
    ghost use Rattle.std.specs.Prelude.{None, IfOk, IfSome, OnErr};
    ghost use Rattle.sty_sheet.specs.Views.{records_of};
    ghost use Rattle.usfm_tree.specs.Events.{events_of};
    ghost use Rattle.usfm_tree.specs.Reading.{tree_of};
    ghost use Rattle.usfm_tree.specs.SheetViews.{styles_of};
    ghost use Rattle.usfm_tree.specs.StepViews.{BeginsNoMilestone, IsNext, IsStyled};
    ghost use Rattle.usfm_tree.specs.WalkViews.{events_ahead, records_by};

    /// A walk over the tree of a text by a style sheet. It allocates nothing yet.
    pub fn new(alloc: Global, source: &'a str, sheet: &'s Sheet<'_>) -> Self
        ensures events { let tree = tree_of (styles_of sheet.now) source.entry.now in
            events_ahead result ≡ events_of tree }
        ensures records { records_by result ≡ records_of sheet.now }
    {
        TreeWalk {
            sheet: &*sheet,
            source,
            tokens: TokenIter::new(source),
            open_nodes: Vec::new(alloc),
        }
    }

    /// What it meets at the next mark or text, and `None` at the end, where the nodes end that are
    /// still open; after it the walk is as before, so that it answers the end again. A milestone is
    /// one step, with the text and the mark that it takes.
    ///
    /// # Errors
    ///
    /// `AllocError` where there is no memory for one open node more. The walk is then as before.
    pub fn next_step(&mut self) -> Result<Option<Step<'a, 's>>, AllocError>
        ensures next { IfOk result (λ step.
            IsNext (events_ahead self.old) step (events_ahead self.new)) }
        ensures ended { IfOk result (λ step.
            step ≡ None → events_ahead self.new ≡ events_ahead self.old) }
        ensures style { IfOk result (λ step.
            IfSome step (λ s. IsStyled (records_by self.old) s.entry)) }
        ensures whole_milestones { IfOk result (λ step.
            IfSome step (λ s. BeginsNoMilestone s.entry)) }
        ensures records { records_by self.new ≡ records_by self.old }
        ensures unchanged { OnErr result (events_ahead self.new ≡ events_ahead self.old) }
    {
        // There is room before anything changes.
        self.open_nodes.reserve(1)?;
        let start = self.source.len() - self.tokens.rest().len();
        let Some(token) = self.tokens.next() else {
            return Ok(None);
        };
        let role = role_of(self.sheet, token);
        let (ended, close) = unwind(&mut self.open_nodes, role);
        if let Some(mark) = close {
            let entry = Entry::Close(mark);
            return Ok(Some(Step { ended, entry }));
        }
        let rest = self.tokens.rest();
        let (entry, after) = enter(&mut self.open_nodes, role, start, self.source.len(), rest);
        self.tokens = TokenIter::new(after);
        Ok(Some(Step { ended, entry }))
    }
}
