use sty_sheet::{Style, StyleKind};
use usfm_token::Mark;

/// What a walk meets at a mark or a text.
#[derive(Clone, Copy, Debug)]
pub struct Step<'a, 's> {
    /// This many of the innermost open nodes end before it, none of them with a closing mark.
    pub ended: usize,
    /// What it meets then.
    pub entry: Entry<'a, 's>,
}

/// A text, a leaf, the beginning or the end of a node, or a whole milestone.
#[derive(Clone, Copy, Debug)]
pub enum Entry<'a, 's> {
    /// A text between marks, and where it begins, in bytes.
    Text(usize, &'a str),
    /// A mark that begins no node, or a closing mark that closes none.
    Leaf(Mark<'a>),
    /// A paragraph, a character or a note begins, with its mark and the style of its mark.
    Begin(StyleKind, Mark<'a>, &'s Style<'s>),
    /// The closing mark with which the innermost open node ends.
    Close(Mark<'a>),
    /// A milestone: its mark, the text that it takes, if any, with where this begins, and its `\*`.
    Milestone(Mark<'a>, Option<(usize, &'a str)>, Option<Mark<'a>>),
}
