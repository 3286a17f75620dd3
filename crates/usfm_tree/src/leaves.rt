use crate::tree::Tree;
use std::marker::PhantomData;
use usfm_token::{Token, TokenIter};

/// The leaves of a tree. They are the tokens of the text that the tree was read from, so they are
/// read from it again, without allocating.
#[derive(Drop)]
pub struct Leaves<'t, 'a> {
    tokens: TokenIter<'a>,
    tree: PhantomData<&'t Tree<'a>>,
}

impl<'t, 'a> Leaves<'t, 'a> {
    ghost use Rattle.std.specs.Prelude.{◌≡◌};
    ghost use Rattle.usfm_tree.specs.Forest.{leaves_of};
    ghost use Rattle.usfm_tree.specs.LeavesViews.{leaves_left};
    ghost use Rattle.usfm_tree.specs.TreeViews.{forest_in};

    pub(crate) fn of(tree: &'t Tree<'a>) -> Leaves<'t, 'a>
        ensures { leaves_left result ≡ leaves_of (forest_in tree.now) }
    {
        Leaves {
            tokens: TokenIter::new(tree.source),
            tree: PhantomData,
        }
    }
}

impl<'t, 'a> Iterator for Leaves<'t, 'a> {
    ghost use Rattle.std.specs.Iterator.{YieldsFirstBy, item_count};
    ghost use Rattle.usfm_tree.specs.LeavesViews.{leaves_left};

    type Item = &'a str;

    ghost next_gives = { YieldsFirstBy (λ leaf. leaf.now) leaves_left };

    ghost remaining = { item_count leaves_left };

    fn next(&mut self) -> Option<&'a str> {
        match self.tokens.next() {
            None => None,
            Some(Token::Mark(mark)) => Some(mark.slice()),
            Some(Token::Text(text)) => Some(text),
        }
    }
}
