//! The nodes that a reader makes.

ghost use Rattle.std.specs.Prelude.{◌≡◌, IfOk};
ghost use Rattle.std.specs.Option.{option_map};
ghost use Rattle.usfm_token.specs.View.{mark_parts};
ghost use Rattle.usfm_tree.specs.Forest.{nothing, text, leaf, node};
ghost use Rattle.usfm_tree.specs.Loops.TakenViews.{optional_text};
ghost use Rattle.usfm_tree.specs.Views.{view, forest_of, branch_of};

use crate::node::{Branch, Leaf, Node, Text};
use std::alloc::{AllocError, Global};
use sty_sheet::StyleKind;
use usfm_token::Mark;

pub(crate) fn text_node<'a>(start: usize, slice: &'a str) -> Node<'a>
    ensures { view result ≡ text start slice.entry.now nothing }
{
    Node::Text(Text { start, slice })
}

pub(crate) fn leaf_node<'a>(start: usize, mark: Mark<'a>) -> Node<'a>
    ensures { view result ≡ leaf start (mark_parts mark.entry) nothing }
{
    Node::Leaf(Leaf { start, mark })
}

pub(crate) fn node_of<'a>(kind: StyleKind, branch: Branch<'a>) -> Node<'a>
    ensures { view result ≡ branch_of kind branch.entry }
{
    match kind {
        StyleKind::Paragraph => Node::Para(branch),
        StyleKind::Character => Node::Char(branch),
        StyleKind::Note => Node::Note(branch),
        StyleKind::Milestone => Node::Milestone(branch),
    }
}

// The text that a milestone takes, if any.
pub(crate) fn text_kids<'a>(
    alloc: Global,
    start: usize,
    slice: Option<&'a str>,
) -> Result<Vec<Node<'a>>, AllocError>
    ensures { IfOk result (λ kids. forest_of kids.items
        ≡ optional_text start (option_map (λ n. n.now) slice.entry)) }
{
    let mut kids = Vec::new(alloc);
    if let Some(slice) = slice {
        kids.push(text_node(start, slice))?;
    }
    Ok(kids)
}

pub(crate) fn milestone_node<'a>(
    start: usize,
    slice: &'a str,
    mark: Mark<'a>,
    kids: Vec<Node<'a>>,
    close: Option<Mark<'a>>,
) -> Node<'a>
    ensures { view result ≡ node StyleKind.Milestone start slice.entry.now (mark_parts mark.entry)
        (forest_of kids.entry.items) (option_map mark_parts close.entry) nothing }
{
    Node::Milestone(Branch {
        start,
        slice,
        mark,
        kids,
        close,
    })
}
