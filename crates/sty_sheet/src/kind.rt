/// What a marker begins.
#[derive(Clone, Copy, Debug, PartialEq, Eq)]
pub enum StyleKind {
    /// A paragraph, which has no closing marker.
    Paragraph,
    /// Characters within a paragraph or a note.
    Character,
    /// A note within a paragraph.
    Note,
    /// A place in the text, as where a speech begins or ends.
    Milestone,
}
