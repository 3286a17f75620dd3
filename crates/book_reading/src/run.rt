use crate::kind::BlockKind;

/// What a reader sees a run as.
#[derive(Clone, Copy, Debug, PartialEq, Eq)]
pub enum Sort {
    /// The mark of a paragraph, with which a block of this kind begins. It is not seen.
    Paragraph(BlockKind),
    /// The mark of a note, in whose place the note's number is seen.
    Caller,
    /// A mark that the sheet knows, the blanks after one, the sign that a note's author chose for
    /// its caller, or attributes. It is not seen.
    Markup,
    /// Words, of the style that the run has.
    Words,
    /// The words under a figure.
    Caption,
    /// The number of a verse, as it is written.
    Verse,
    /// The number of a chapter, as it is written.
    Chapter,
    /// A mark that the sheet does not know, or a closing mark that closes nothing. It is seen as it
    /// stands.
    Unknown,
}

/// A stretch of the text that is seen as one thing.
#[derive(Clone, Copy, Debug)]
pub struct Run<'a> {
    /// What it is seen as.
    pub sort: Sort,
    /// The name of the innermost character mark that it stands in, empty if it stands in none.
    pub style: &'a str,
    /// The number of the note that it stands in, from 1 in each chapter, and `None` where it stands
    /// in none.
    pub note: Option<usize>,
    /// The stretch itself.
    pub text: &'a str,
}
