//! `tree SHEET FILE ROUNDS`: reads a style sheet, and by it the tree of a text. Before the time of
//! the tree stands that of the sheet; what follows counts the nodes.
use crate::rounds::Given;
use anyhow::Result;
use std::alloc::Global;
use sty_sheet::Sheet;
use usfm_tree::{Node, Tree};

#[derive(Clone, Copy, Debug, Default)]
struct Tally {
    texts: u64,
    paras: u64,
    chars: u64,
    notes: u64,
    milestones: u64,
    leaves: u64,
    closes: u64,
    starts: u64,
    bytes: u64,
}

pub(crate) fn told(given: &Given<'_>) -> Result<String> {
    let alloc = given.rt.alloc();
    let sheet_text = given.text(1, "a sheet")?;
    let text = given.text(2, "a file")?;
    let rounds = given.rounds(3)?;
    let (sheet_least, sheet) = rounds.least(|| Ok(Sheet::read(alloc, sheet_text.as_str())?))?;
    let (least, tree) = rounds.least(|| Ok(Tree::read(alloc, text.as_str(), &sheet)?))?;
    let counts = count_tree(alloc, &tree)?;
    let (sheet_nanos, nanos) = (sheet_least.as_nanos(), least.as_nanos());
    Ok(format!(in alloc; "{sheet_nanos} {nanos} {counts:?}")?)
}

fn count_tree(alloc: Global, tree: &Tree<'_>) -> Result<Tally> {
    let mut counts = Tally::default();
    let mut lists = Vec::new(alloc);
    lists.push(tree.kids())?;
    for _ in 0..u64::MAX {
        let Some(nodes) = lists.pop() else {
            break;
        };
        for node in nodes {
            count_node(&mut counts, node);
            lists.push(node.kids())?;
        }
    }
    Ok(counts)
}

fn count_node(counts: &mut Tally, node: &Node<'_>) {
    let kind = match node {
        Node::Text(_) => &mut counts.texts,
        Node::Para(_) => &mut counts.paras,
        Node::Char(_) => &mut counts.chars,
        Node::Note(_) => &mut counts.notes,
        Node::Milestone(_) => &mut counts.milestones,
        Node::Leaf(_) => &mut counts.leaves,
    };
    *kind = kind.wrapping_add(1);
    counts.closes = counts
        .closes
        .wrapping_add(u64::from(node.close().is_some()));
    counts.starts = counts.starts.wrapping_add(node.start() as u64);
    counts.bytes = counts.bytes.wrapping_add(node.slice().len() as u64);
}
