ghost use Rattle.std.specs.Prelude.{◌≡◌, map};
ghost use Rattle.usfm_token.specs.Tokens.{slice_of, tokens_of};
ghost use Rattle.usfm_tree.specs.Forest.{leaves_of};
ghost use Rattle.usfm_tree.specs.Places.{PartsStand};
ghost use Rattle.usfm_tree.specs.Views.{forest_of};

use crate::node::Node;

/// The tree of a text by a style sheet.
#[derive(Drop)]
pub struct Tree<'a> {
    pub(crate) source: &'a str,
    pub(crate) kids: Vec<Node<'a>>,
    ghost stand: { PartsStand source.now (forest_of kids.items) },
    ghost whole: { leaves_of (forest_of kids.items) ≡ map slice_of (tokens_of source.now) },
}
