//! Reading a tree with a stack of open nodes.

ghost use Rattle.std.specs.Prelude.{◌≡◌, ◌<◌, ◌≤◌, ◌∷◌, ◌++◌, is_some, if◌then◌else◌, length};
ghost use Rattle.std.specs.Prelude.{OnOk, IfOk, false, [], List, ℕ};
ghost use Rattle.std.specs.Option.{option_map};
ghost use Rattle.usfm_token.specs.Tokens.{tokens_of, mark_bytes};
ghost use Rattle.usfm_token.specs.View.{mark_parts};
ghost use Rattle.usfm_tree.specs.Forest.{nothing, leaf, close_bytes, ◌then◌};
ghost use Rattle.usfm_tree.specs.Reading as reading;
ghost use Rattle.usfm_tree.specs.Loops.ReaderViews.{frames_of, sofar_of, spans_of, Adjoins, EndsIn};
ghost use Rattle.usfm_tree.specs.Loops.RoleViews.{role_view};
ghost use Rattle.usfm_tree.specs.Loops.Stack.{Ends, Resumes, Enters, resume, opens_of};
ghost use Rattle.usfm_tree.specs.Loops.Stack.{closing_mark};
ghost use Rattle.usfm_tree.specs.Loops.TakenViews.{EntersTo};
ghost use Rattle.usfm_tree.specs.Views.{view, forest_of};

use crate::build::{leaf_node, milestone_node, node_of, text_kids, text_node};
use crate::milestone::takes;
use crate::node::{Branch, Node};
use crate::open::{DEEPEST, Open, closing, ended};
use crate::role::Role;
use std::alloc::{AllocError, Global};
use std::mem;
use sty_sheet::StyleKind;
use usfm_token::Mark;

// Where an open node begins, its mark, the text from its mark on, and what comes before it in its
// parent.
#[derive(Drop)]
pub(crate) struct Begun<'a> {
    pub(crate) start: usize,
    pub(crate) mark: Mark<'a>,
    pub(crate) from: &'a str,
    pub(crate) before: Vec<Node<'a>>,
}

// The open nodes, the innermost last, and the kids of the innermost so far.
#[derive(Drop)]
pub(crate) struct Reader<'a, 's> {
    pub(crate) open_nodes: Vec<Open<'s, Begun<'a>>>,
    pub(crate) kids: Vec<Node<'a>>,
}

// What is in a text before what is left of it.
fn cut_off<'a>(from: &'a str, rest: &str) -> &'a str
    requires { EndsIn from.now rest.now }
    ensures { (x : List ℕ) → from.now ≡ x ++ rest.now → result.now ≡ x }
{
    from.split_at(from.len() - rest.len()).0
}

// What is left after a token that gives the innermost node this closing mark, or none.
fn left_after<'a>(role: Role<'a, '_>, count: usize, at: &'a str, rest: &'a str) -> &'a str
    requires token { at.now ≡ reading.role_bytes (role_view role) ++ rest.now }
    ensures value { result.now
        ≡ (if is_some (closing_mark (role_view role.entry) count) then rest.entry.now
        else at.entry.now) }
    ensures whole { close_bytes (closing_mark (role_view role.entry) count) ++ result.now
        ≡ at.entry.now }
{
    match role {
        Role::Closes(_) => { if count == 1 { rest } else { at } }
        Role::Plain(_) | Role::Alone(_) | Role::Spans(_) | Role::Opens(..) => at,
    }
}

impl<'a, 's> Reader<'a, 's> {
    // Puts a node at the end of the innermost open node.
    #[tactic(auto, using(crate::proofs::ReaderLemmas::forest_of_push))]
    fn put(&mut self, node: Node<'a>) -> Result<(), AllocError>
        ensures kids { OnOk result (sofar_of self.new ≡ (sofar_of self.old then view node.entry)) }
        ensures frames { OnOk result (frames_of self.new ≡ frames_of self.old) }
        ensures spans { OnOk result (spans_of self.new ≡ spans_of self.old) }
    {
        self.kids.push(node)?;
        Ok(())
    }

    // Begins a node.
    fn begin(
        &mut self,
        alloc: Global,
        kind: StyleKind,
        closer: Option<&'s str>,
        start: usize,
        mark: Mark<'a>,
        from: &'a str,
    ) -> Result<(), AllocError>
        ensures kids { OnOk result (sofar_of self.new ≡ nothing) }
        ensures frames { OnOk result (frames_of self.new ≡ record {
          open_node = record {
            kind = kind;
            nested = (mark_parts mark.entry).nested;
            closer = option_map (λ n. n.now) closer.entry;
          };
          start = start;
          mark = mark_parts mark.entry;
          before = sofar_of self.old;
        } ∷ frames_of self.old) }
        ensures spans { OnOk result (spans_of self.new
            ≡ record {
              from = from.entry.now;
              mark = mark_parts mark.entry;
              before = sofar_of self.old;
            } ∷ spans_of self.old) }
    {
        let before = mem::replace(&mut self.kids, Vec::new(alloc));
        let kept = Begun {
            start,
            mark,
            from,
            before,
        };
        self.open_nodes.push(Open {
            kind,
            closer,
            nested: mark.nested(),
            kept,
        })?;
        Ok(())
    }

    // Ends the innermost open node, before the rest of the text.
    fn end(&mut self, close: Option<Mark<'a>>, rest: &'a str) -> Result<(), AllocError>
        requires some { 0 < length (frames_of self.old) }
        requires adjoins { Adjoins (spans_of self.old) (sofar_of self.old)
            (close_bytes (option_map mark_parts close) ++ rest.now) }
        ensures adjoins { OnOk result (Adjoins (spans_of self.new) (sofar_of self.new)
            rest.entry.now) }
        ensures ends { OnOk result (Ends (frames_of self.old) (sofar_of self.old)
            (option_map mark_parts close.entry) (frames_of self.new) (sofar_of self.new)) }
    {
        let Some(open) = self.open_nodes.pop() else {
            unreachable!();
        };
        let Open {
            kind,
            closer: _,
            nested: _,
            kept,
        } = open;
        let Begun {
            start,
            mark,
            from,
            before,
        } = kept;
        let kids = mem::replace(&mut self.kids, before);
        let slice = cut_off(from, rest);
        let branch = Branch {
            start,
            slice,
            mark,
            kids,
            close,
        };
        self.kids.push(node_of(kind, branch))?;
        Ok(())
    }

    // Ends the innermost open node, where the token ends some. Answers whether it closed that node,
    // and so is used up.
    fn unwind_once(
        &mut self,
        role: Role<'a, 's>,
        count: usize,
        at: &'a str,
        rest: &'a str,
    ) -> Result<bool, AllocError>
        requires counted { count ≡ reading.ended (opens_of (frames_of self.old)) (role_view role) }
        requires some { 0 < count }
        requires adjoins { Adjoins (spans_of self.old) (sofar_of self.old) at.now }
        requires token { at.now ≡ reading.role_bytes (role_view role) ++ rest.now }
        ensures adjoins { IfOk result (λ closed. Adjoins (spans_of self.new) (sofar_of self.new)
            (if closed then rest.entry.now else at.entry.now)) }
        ensures resumes { IfOk result (λ closed. Resumes (role_view role.entry) (sofar_of self.old)
            (frames_of self.old) (sofar_of self.new) (frames_of self.new) closed) }
        ensures shorter { OnOk result (length (frames_of self.new) < length (frames_of self.old)) }
    {
        let close = closing(role, count);
        self.end(close, left_after(role, count, at, rest))?;
        Ok(close.is_some())
    }

    // Ends what the token ends. Answers whether it closed a node, and so is used up.
    #[tactic(auto, using(crate::proofs::ReaderLemmas::opens_of_frames, crate::proofs::ReaderLemmas::resumes_twice))]
    pub(crate) fn unwind(
        &mut self,
        role: Role<'a, 's>,
        at: &'a str,
        rest: &'a str,
    ) -> Result<bool, AllocError>
        requires adjoins { Adjoins (spans_of self.old) (sofar_of self.old) at.now }
        requires token { at.now ≡ reading.role_bytes (role_view role) ++ rest.now }
        ensures adjoins { IfOk result (λ closed. Adjoins (spans_of self.new) (sofar_of self.new)
            (if closed then rest.entry.now else at.entry.now)) }
        ensures resumes { IfOk result (λ closed. Resumes (role_view role.entry) (sofar_of self.old)
            (frames_of self.old) (sofar_of self.new) (frames_of self.new) closed) }
        ensures settled { IfOk result (λ closed. closed ≡ false
            → reading.ended (opens_of (frames_of self.new)) (role_view role.entry) ≡ 0) }
    {
        let mut count = ended(self.open_nodes.as_slice(), role);
        while count != 0 {
            if self.unwind_once(role, count, at, rest)? {
                return Ok(true);
            }
            count = ended(self.open_nodes.as_slice(), role);
        }
        Ok(false)
    }

    fn enter_text(&mut self, start: usize, slice: &'a str, rest: &'a str) -> Result<(), AllocError>
        requires adjoins { Adjoins (spans_of self.old) (sofar_of self.old) (slice.now ++ rest.now) }
        ensures adjoins { OnOk result (Adjoins (spans_of self.new) (sofar_of self.new)
            rest.entry.now) }
        ensures enters { OnOk result (Enters (reading.plain slice.entry.now) start
            (sofar_of self.old) (frames_of self.old) (sofar_of self.new) (frames_of self.new)) }
    {
        self.put(text_node(start, slice))?;
        Ok(())
    }

    // A mark that is a leaf: by its record, as a closing mark that closes nothing, or by its depth.
    fn enter_leaf(&mut self, start: usize, mark: Mark<'a>, rest: &'a str) -> Result<(), AllocError>
        requires adjoins { Adjoins (spans_of self.old) (sofar_of self.old)
            (mark_bytes (mark_parts mark) ++ rest.now) }
        ensures adjoins { OnOk result (Adjoins (spans_of self.new) (sofar_of self.new)
            rest.entry.now) }
        ensures kids { OnOk result (sofar_of self.new
            ≡ (sofar_of self.old then leaf start (mark_parts mark.entry) nothing)) }
        ensures frames { OnOk result (frames_of self.new ≡ frames_of self.old) }
    {
        self.put(leaf_node(start, mark))?;
        Ok(())
    }

    // Takes a token that ends nothing and spans nothing.
    fn enter(
        &mut self,
        alloc: Global,
        role: Role<'a, 's>,
        start: usize,
        at: &'a str,
        rest: &'a str,
    ) -> Result<(), AllocError>
        requires adjoins { Adjoins (spans_of self.old) (sofar_of self.old) at.now }
        requires token { at.now ≡ reading.role_bytes (role_view role) ++ rest.now }
        requires settled { reading.ended (opens_of (frames_of self.old)) (role_view role) ≡ 0 }
        requires no_milestone { reading.is_span (role_view role) ≡ false }
        ensures adjoins { OnOk result (Adjoins (spans_of self.new) (sofar_of self.new)
            rest.entry.now) }
        ensures enters { OnOk result (Enters (role_view role.entry) start (sofar_of self.old)
            (frames_of self.old) (sofar_of self.new) (frames_of self.new)) }
    {
        match role {
            Role::Plain(slice) => {
                self.enter_text(start, slice, rest)?;
                Ok(())
            }
            Role::Alone(mark) => {
                self.enter_leaf(start, mark, rest)?;
                Ok(())
            }
            Role::Closes(mark) => {
                self.enter_leaf(start, mark, rest)?;
                Ok(())
            }
            Role::Opens(kind, style, mark) => {
                if self.open_nodes.len() < DEEPEST {
                    self.begin(alloc, kind, style.closer(), start, mark, at)?;
                    Ok(())
                } else {
                    self.enter_leaf(start, mark, rest)?;
                    Ok(())
                }
            }
            Role::Spans(_) => unreachable!(),
        }
    }

    // Takes a milestone mark, with what of the rest belongs to it: the source ends at `end`.
    // Answers what is left.
    fn enter_milestone(
        &mut self,
        alloc: Global,
        mark: Mark<'a>,
        start: usize,
        end: usize,
        at: &'a str,
        rest: &'a str,
    ) -> Result<&'a str, AllocError>
        requires adjoins { Adjoins (spans_of self.old) (sofar_of self.old) at.now }
        requires token { at.now ≡ mark_bytes (mark_parts mark) ++ rest.now }
        requires within { length rest.now ≤ end }
        ensures enters { IfOk result (λ after. EntersTo (reading.spans (mark_parts mark.entry))
            start end rest.entry.now after.now (sofar_of self.old) (frames_of self.old)
            (sofar_of self.new) (frames_of self.new)) }
        ensures adjoins { IfOk result (λ after. Adjoins (spans_of self.new) (sofar_of self.new)
            after.now) }
        ensures within { IfOk result (λ after. length after.now ≤ length rest.entry.now) }
        ensures fewer { IfOk result (λ after.
            length (tokens_of after.now) ≤ length (tokens_of rest.entry.now)) }
    {
        if self.open_nodes.len() >= DEEPEST {
            self.enter_leaf(start, mark, rest)?;
            return Ok(rest);
        }
        let taken = takes(rest);
        let kids = text_kids(alloc, end - rest.len(), taken.text)?;
        let slice = cut_off(at, taken.after);
        self.put(milestone_node(start, slice, mark, kids, taken.close))?;
        Ok(taken.after)
    }

    // Takes a token that ends nothing. Answers what is left after it.
    pub(crate) fn take(
        &mut self,
        alloc: Global,
        role: Role<'a, 's>,
        start: usize,
        end: usize,
        at: &'a str,
        rest: &'a str,
    ) -> Result<&'a str, AllocError>
        requires adjoins { Adjoins (spans_of self.old) (sofar_of self.old) at.now }
        requires token { at.now ≡ reading.role_bytes (role_view role) ++ rest.now }
        requires within { length rest.now ≤ end }
        requires settled { reading.ended (opens_of (frames_of self.old)) (role_view role) ≡ 0 }
        ensures enters { IfOk result (λ after. EntersTo (role_view role.entry) start end
            rest.entry.now after.now (sofar_of self.old) (frames_of self.old) (sofar_of self.new)
            (frames_of self.new)) }
        ensures adjoins { IfOk result (λ after. Adjoins (spans_of self.new) (sofar_of self.new)
            after.now) }
        ensures within { IfOk result (λ after. length after.now ≤ length rest.entry.now) }
        ensures fewer { IfOk result (λ after.
            length (tokens_of after.now) ≤ length (tokens_of rest.entry.now)) }
    {
        if let Role::Spans(mark) = role {
            let after = self.enter_milestone(alloc, mark, start, end, at, rest)?;
            return Ok(after);
        }
        self.enter(alloc, role, start, at, rest)?;
        Ok(rest)
    }

    // Ends all open nodes, at the end of the text.
    pub(crate) fn finish(mut self) -> Result<Vec<Node<'a>>, AllocError>
        requires { Adjoins (spans_of self) (sofar_of self) [] }
        ensures { IfOk result (λ kids. (styles : reading.Styles) → forest_of kids.items
            ≡ resume styles (sofar_of self.entry) (frames_of self.entry) []) }
    {
        while !self.open_nodes.is_empty() {
            self.end(None, "")?;
        }
        let Reader {
            open_nodes: _,
            kids,
        } = self;
        Ok(kids)
    }
}
