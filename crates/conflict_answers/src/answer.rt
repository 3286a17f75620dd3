// Answers to conflicts.
use op_core::OpId;
use usfm_ref::Segment;

/// What a person chose for a conflict.
#[derive(Clone, Copy, Debug)]
pub enum Choice<'a> {
    /// The text of this id.
    Take(OpId),
    /// A text of one's own.
    Own(&'a str),
    /// Nothing yet.
    NotNow,
}

/// An answer to a conflict. Its texts are lent, as from the bytes of a file.
#[derive(Debug, Drop)]
pub struct Answer<'a> {
    /// The segment in conflict.
    pub segment: Segment,
    /// The ids that stood on the page: what an edit replaces, and nothing else.
    pub ids: Vec<OpId>,
    pub choice: Choice<'a>,
    /// What is said to the readers of the file. It is kept nowhere.
    pub remark: Option<&'a str>,
}
