ghost use Rattle.std.specs.Prelude.{◌≡◌};
ghost use Rattle.std.specs.Option.{option_map};
ghost use Rattle.usfm_token.specs.View.{mark_parts};
ghost use Rattle.usfm_tree.specs.Forest.{kids_of, start_of, slice_here, mark_of, close_of};
ghost use Rattle.usfm_tree.specs.Views.{view, forest_of};

use usfm_token::Mark;

/// A node of a tree, which borrows the text that the tree was read from.
#[cycle(node)]
#[derive(Drop)]
pub enum Node<'a> {
    /// A text between marks.
    Text(Text<'a>),
    /// A paragraph mark, with all up to the next paragraph mark.
    Para(Branch<'a>),
    /// A character mark, with what it encloses.
    Char(Branch<'a>),
    /// A note mark, with what it encloses.
    Note(Branch<'a>),
    /// A milestone mark, with the text of its attributes, if any, and its `\*`, if any.
    Milestone(Branch<'a>),
    /// A mark that begins no node, or a closing mark that closes none.
    Leaf(Leaf<'a>),
}

/// A text between marks, and where it begins.
#[derive(Clone, Copy, Debug)]
pub struct Text<'a> {
    pub(crate) start: usize,
    pub(crate) slice: &'a str,
}

/// A mark that is alone, and where it begins.
#[derive(Clone, Copy, Debug)]
pub struct Leaf<'a> {
    pub(crate) start: usize,
    pub(crate) mark: Mark<'a>,
}

/// What a mark encloses, and where it begins.
#[cycle(node)]
#[derive(Drop)]
pub struct Branch<'a> {
    pub(crate) start: usize,
    pub(crate) slice: &'a str,
    pub(crate) mark: Mark<'a>,
    pub(crate) kids: Vec<Node<'a>>,
    pub(crate) close: Option<Mark<'a>>,
}

impl<'a> Node<'a> {
    /// What is directly inside it, in order. A text and a leaf have nothing inside, and a
    /// milestone at most the text that it takes.
    pub fn kids(&self) -> &[Node<'a>]
        ensures { forest_of result.now ≡ kids_of (view self.now) }
    {
        match self {
            Node::Text(_) | Node::Leaf(_) => &[],
            Node::Para(b) | Node::Char(b) | Node::Note(b) | Node::Milestone(b) => b.kids.as_slice(),
        }
    }

    /// Where it begins, in bytes from the start of the text that the tree was read from.
    pub fn start(&self) -> usize
        ensures { result ≡ start_of (view self.now) }
    {
        match self {
            Node::Text(text) => text.start,
            Node::Leaf(leaf) => leaf.start,
            Node::Para(b) | Node::Char(b) | Node::Note(b) | Node::Milestone(b) => b.start,
        }
    }

    /// Its bytes in the text that the tree was read from: the join of its leaves.
    pub fn slice(&self) -> &'a str
        ensures { result.now ≡ slice_here (view self.now) }
    {
        match self {
            Node::Text(text) => text.slice,
            Node::Leaf(leaf) => leaf.mark.slice(),
            Node::Para(b) | Node::Char(b) | Node::Note(b) | Node::Milestone(b) => b.slice,
        }
    }

    /// The mark that it begins with, `None` for a text.
    pub fn mark(&self) -> Option<Mark<'a>>
        ensures { option_map mark_parts result ≡ mark_of (view self.now) }
    {
        match self {
            Node::Text(_) => None,
            Node::Leaf(leaf) => Some(leaf.mark),
            Node::Para(b) | Node::Char(b) | Node::Note(b) | Node::Milestone(b) => Some(b.mark),
        }
    }

    /// The closing mark that it ends with, `None` where it was ended by something else.
    pub fn close(&self) -> Option<Mark<'a>>
        ensures { option_map mark_parts result ≡ close_of (view self.now) }
    {
        match self {
            Node::Text(_) | Node::Leaf(_) => None,
            Node::Para(b) | Node::Char(b) | Node::Note(b) | Node::Milestone(b) => b.close,
        }
    }
}
