use super::*;
use std::alloc::{AllocError, Global};
use std::process::Abort;
use sty_sheet::{Sheet, SheetFault};

const SHEET: &str = "# sheet of the worked rows
\\Marker id
\\StyleType Paragraph
\\Marker c
\\StyleType Paragraph
\\Marker v
\\StyleType Character
\\Marker p
\\StyleType Paragraph
\\TextType VerseText
\\Marker add
\\Endmarker add*
\\OccursUnder p NEST
\\StyleType Character
\\Marker nd
\\Endmarker nd*
\\OccursUnder p NEST
\\StyleType Character
\\Marker wj
\\Endmarker wj*
\\OccursUnder p NEST
\\StyleType Character
\\Marker w
\\Endmarker w*
\\OccursUnder p NEST
\\StyleType Character
\\Marker f
\\Endmarker f*
\\OccursUnder p
\\StyleType Note
\\Marker ft
\\Endmarker ft*
\\OccursUnder f
\\StyleType Character
\\Marker qt-s
\\Endmarker qt-e
\\StyleType Milestone
";

// That there are this many leaves, and that they join to the text.
fn check_leaves(rt: &impl Abort, tree: &Tree<'_>, text: &str, want: u64) {
    let mut left = text.as_bytes();
    let mut count: u64 = 0;
    for leaf in tree.leaves() {
        match left.strip_prefix(leaf.as_bytes()) {
            None => panic!(rt; "{leaf} does not come next in {text}"),
            Some(rest) => left = rest,
        }
        count = count.saturating_add(1);
    }
    assert!(rt; left.is_empty());
    assert_eq!(rt; count, want);
}

// That a path leads to a node that begins there, with these bytes and this many kids.
fn check_part(
    rt: &impl Abort,
    tree: &Tree<'_>,
    path: &[usize],
    start: usize,
    slice: &str,
    kids: usize,
) {
    match tree.part(path) {
        None => panic!(rt; "no part {slice}"),
        Some(node) => {
            assert_eq!(rt; node.start(), start);
            assert_eq!(rt; node.slice(), slice);
            assert_eq!(rt; node.kids().len(), kids);
        }
    }
}

// The tree of a text by the sheet of the rows.
fn read_tree<'a>(alloc: Global, text: &'a str) -> Result<Tree<'a>, SheetFault> {
    let sheet = Sheet::read(alloc, SHEET)?;
    Tree::read(alloc, text, &sheet).map_err(|_| SheetFault::Memory)
}

#[test]
fn characters_end_characters(rt: HostRuntime) -> Result<(), SheetFault> {
    let text = "\\p \\nd a\\add b\\add*\\nd* c";
    let tree = read_tree(rt.alloc(), text)?;
    check_leaves(&rt, &tree, text, 9);
    assert_eq!(rt; tree.kids().len(), 1);
    check_part(&rt, &tree, &[0], 0, text, 5);
    check_part(&rt, &tree, &[0, 1], 3, "\\nd a", 1);
    check_part(&rt, &tree, &[0, 2], 8, "\\add b\\add*", 1);
    check_part(&rt, &tree, &[0, 3], 19, "\\nd*", 0);
    assert!(rt; tree.part(&[0, 5]).is_none());
    assert!(rt; tree.part(&[0, 0, 0]).is_none());
    assert!(rt; tree.part(&[]).is_none());
    Ok(())
}

#[test]
fn lends_the_marks_of_a_node(rt: HostRuntime) -> Result<(), SheetFault> {
    let tree = read_tree(rt.alloc(), "\\p \\nd a\\add b\\add*\\nd* c")?;
    let marks = |path: &[usize]| match tree.part(path) {
        None => (None, None),
        Some(node) => (
            node.mark().map(|mark| mark.slice()),
            node.close().map(|mark| mark.slice()),
        ),
    };
    assert_eq!(rt; marks(&[0, 0]), (None, None));
    assert_eq!(rt; marks(&[0, 1]), (Some("\\nd"), None));
    assert_eq!(rt; marks(&[0, 2]), (Some("\\add"), Some("\\add*")));
    assert_eq!(rt; marks(&[0, 3]), (Some("\\nd*"), None));
    Ok(())
}

#[test]
fn nests_marks_and_a_note(rt: HostRuntime) -> Result<(), SheetFault> {
    let text = "\\p\\add a \\+nd b\\+nd* c\\add*\\wj d\\f + \\ft e\\f* g\\wj*\\nd*\n";
    assert_eq!(rt; text.len(), 56);
    let tree = read_tree(rt.alloc(), text)?;
    check_leaves(&rt, &tree, text, 19);
    check_part(&rt, &tree, &[0, 0, 1], 9, "\\+nd b\\+nd*", 1);
    check_part(&rt, &tree, &[0, 1, 1], 32, "\\f + \\ft e\\f*", 2);
    check_part(&rt, &tree, &[0, 2], 51, "\\nd*", 0);
    Ok(())
}

#[test]
fn takes_milestones(rt: HostRuntime) -> Result<(), SheetFault> {
    let text = "\\p \\qt-s |who=\"Pilate\"\\*What?\\qt-e\\*";
    let tree = read_tree(rt.alloc(), text)?;
    check_part(&rt, &tree, &[0], 0, text, 4);
    check_part(&rt, &tree, &[0, 0], 2, " ", 0);
    check_part(&rt, &tree, &[0, 1], 3, "\\qt-s |who=\"Pilate\"\\*", 1);
    check_part(&rt, &tree, &[0, 2], 24, "What?", 0);
    check_part(&rt, &tree, &[0, 3], 29, "\\qt-e\\*", 0);
    assert!(rt; matches!(tree.part(&[0, 3]), Some(Node::Milestone(_))));
    Ok(())
}

// What a step ends, its kind, where its text begins and the text; of a mark without one its slice.
fn met<'a>(step: Step<'a, '_>) -> (usize, &'static str, usize, &'a str) {
    let (kind, start, slice) = match step.entry {
        Entry::Text(start, text) => ("text", start, text),
        Entry::Leaf(mark) => ("leaf", 0, mark.slice()),
        Entry::Begin(_, mark, _) => ("begin", 0, mark.slice()),
        Entry::Close(mark) => ("close", 0, mark.slice()),
        Entry::Milestone(_, Some((start, text)), _) => ("milestone", start, text),
        Entry::Milestone(mark, None, _) => ("milestone", 0, mark.slice()),
    };
    (step.ended, kind, start, slice)
}

#[test]
fn walks_over_a_tree(rt: HostRuntime) -> Result<(), SheetFault> {
    let text = "\\p \\nd a\\add b\\add*\\qt-s |x\\*\\qt-e\\*\\add*\\p";
    let sheet = Sheet::read(rt.alloc(), SHEET)?;
    let mut walk = TreeWalk::new(rt.alloc(), text, &sheet);
    for wanted in [
        Some((0, "begin", 0, "\\p")),
        Some((0, "text", 2, " ")),
        Some((0, "begin", 0, "\\nd")),
        Some((0, "text", 6, " a")),
        Some((1, "begin", 0, "\\add")),
        Some((0, "text", 12, " b")),
        Some((0, "close", 0, "\\add*")),
        Some((0, "milestone", 24, " |x")),
        Some((0, "milestone", 0, "\\qt-e")),
        Some((0, "leaf", 0, "\\add*")),
        Some((1, "begin", 0, "\\p")),
        // After the end it answers the end again.
        None,
        None,
    ] {
        let Ok(step) = walk.next_step() else {
            return Err(SheetFault::Memory);
        };
        let step = match step {
            None => None,
            Some(step) => Some(met(step)),
        };
        assert_eq!(rt; step, wanted);
    }
    Ok(())
}

// A text that nests this many marks in a paragraph.
fn nested(alloc: Global, front: &str, count: usize) -> Result<String, AllocError> {
    let mut text = String::new(alloc);
    text.push_str(front)?;
    for _ in 0..count {
        text.push_str("\\+nd")?;
    }
    Ok(text)
}

// How many character nodes are one in the other under the root's only kid, each the first inside.
fn character_depth(tree: &Tree<'_>) -> u64 {
    let mut kids = tree.kids();
    let mut count: u64 = 0;
    for _ in 0..100 {
        match kids.first() {
            None => return count,
            Some(node) => {
                if let Node::Char(_) = node {
                    count = count.saturating_add(1);
                }
                kids = node.kids();
            }
        }
    }
    count
}

#[test]
fn nests_no_deeper_than_64(rt: HostRuntime) -> Result<(), SheetFault> {
    let Ok(text) = nested(rt.alloc(), "\\p\\add", 65) else {
        return Err(SheetFault::Memory);
    };
    let tree = read_tree(rt.alloc(), text.as_str())?;
    check_leaves(&rt, &tree, text.as_str(), 67);
    assert_eq!(rt; character_depth(&tree), 63);
    let deepest = [0; 64];
    check_part(
        &rt,
        &tree,
        deepest.as_slice(),
        250,
        "\\+nd\\+nd\\+nd\\+nd",
        3,
    );
    Ok(())
}

#[test]
fn reads_100000_nested_marks(rt: HostRuntime) -> Result<(), SheetFault> {
    let Ok(text) = nested(rt.alloc(), "\\p", 100_000) else {
        return Err(SheetFault::Memory);
    };
    let tree = read_tree(rt.alloc(), text.as_str())?;
    check_leaves(&rt, &tree, text.as_str(), 100_001);
    assert_eq!(rt; character_depth(&tree), 63);
    Ok(())
}

#[test]
fn an_empty_sheet_gives_leaves(rt: HostRuntime) -> Result<(), SheetFault> {
    let text = "\u{feff}\\id MAT\r\n\\c 1\r\n\\v 1 a\r\n";
    assert_eq!(rt; text.len(), 26);
    check_leaves(&rt, &read_tree(rt.alloc(), text)?, text, 7);
    let sheet = Sheet::read(rt.alloc(), "")?;
    let Ok(tree) = Tree::read(rt.alloc(), text, &sheet) else {
        return Err(SheetFault::Memory);
    };
    check_leaves(&rt, &tree, text, 7);
    assert_eq!(rt; tree.kids().len(), 7);
    check_leaves(&rt, &read_tree(rt.alloc(), "")?, "", 0);
    Ok(())
}
