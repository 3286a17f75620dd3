//! Reading a tree, and its parts.

ghost use Rattle.std.specs.Prelude.{◌≡◌, IfOk, IfSome};
ghost use Rattle.std.specs.Option.{option_map};
ghost use Rattle.usfm_tree.specs.Forest.{leaves_of, bytes_of, part_at};
ghost use Rattle.usfm_tree.specs.LeavesViews.{leaves_left};
ghost use Rattle.usfm_tree.specs.Places.{Runs, StandsIn, PartsStand};
ghost use Rattle.usfm_tree.specs.Reading.{tree_of};
ghost use Rattle.usfm_tree.specs.SheetViews.{styles_of};
ghost use Rattle.usfm_tree.specs.TreeViews.{forest_in, source_of};
ghost use Rattle.usfm_tree.specs.Views.{view, forest_of};

use crate::leaves::Leaves;
use crate::node::Node;
use crate::read::read_nodes;
use crate::tree::Tree;
use std::alloc::{AllocError, Global};
use sty_sheet::Sheet;

// What a path leads to from nodes that are side by side.
pub(crate) fn part_in<'t, 'a>(nodes: &'t [Node<'a>], path: &[usize]) -> Option<&'t Node<'a>>
    ensures { option_map (λ n. view n.now) result ≡ part_at path.now (forest_of nodes.now) }
{
    let (place, rest) = path.split_first()?;
    let node = nodes.get(*place)?;
    if rest.is_empty() {
        return Some(node);
    }
    part_in(node.kids(), rest)
}

impl<'a> Tree<'a> {
    /// The tree of a text by a style sheet.
    ///
    /// # Errors
    ///
    /// `AllocError` where there is no memory for the tree.
    pub fn read(alloc: Global, source: &'a str, sheet: &Sheet<'_>) -> Result<Tree<'a>, AllocError>
        ensures tree { IfOk result (λ tree. forest_in tree
            ≡ tree_of (styles_of sheet.now) source.now) }
        ensures source { IfOk result (λ tree. source_of tree ≡ source.now) }
        ensures leaves { IfOk result (λ tree. bytes_of (forest_in tree) ≡ source.now) }
        ensures runs { IfOk result (λ tree. Runs 0 (forest_in tree)) }
    {
        let kids = read_nodes(alloc, source, &*sheet)?;
        Ok(Tree { source, kids })
    }

    /// What is under the root, in order. It does not allocate.
    pub fn kids(&self) -> &[Node<'a>]
        ensures kids { forest_of result.now ≡ forest_in self.now }
        ensures stand { PartsStand (source_of self.now) (forest_in self.now) }
    {
        self.kids.as_slice()
    }

    /// The node to which a path leads: the place of a kid of the root, the place of a kid of that,
    /// and so on, counted from 0. `None` where it leads nowhere, and for the empty path. The node's
    /// slice is that of the text from the node's start on. It does not allocate.
    pub fn part(&self, path: &[usize]) -> Option<&Node<'a>>
        ensures value { option_map (λ n. view n.now) result
            ≡ part_at path.now (forest_in self.now) }
        ensures stands { IfSome result (λ n. StandsIn (source_of self.now) (view n.now)) }
    {
        part_in(self.kids.as_slice(), path)
    }

    /// The marks, texts and closing marks, in order. They join to the text, whose slices they are.
    /// It does not allocate.
    pub fn leaves(&self) -> Leaves<'_, 'a>
        ensures { leaves_left result ≡ leaves_of (forest_in self.now) }
    {
        Leaves::of(self)
    }
}
