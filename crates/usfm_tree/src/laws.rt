//! What holds of the trees of all texts, by whatever style sheet. Each function does nothing: its
//! contract is the law.

ghost use Rattle.usfm_tree.specs.Laws.{LeavesJoin, LeavesAreTokens, TreesRun, TreePartsStand};

/// The leaves of a tree, in order, join to the text that it was read from.
pub fn leaves_join()
    ensures { LeavesJoin }
{}

/// The leaves of a tree are the tokens of its text.
pub fn leaves_are_tokens()
    ensures { LeavesAreTokens }
{}

/// Each entry of a tree begins where the one before it ends, the first of a node after the node's
/// mark, and a node's slice is the join of its leaves.
pub fn trees_run()
    ensures { TreesRun }
{}

/// The slice of each part of a tree is that of the text from the part's start on.
pub fn parts_stand()
    ensures { TreePartsStand }
{}
