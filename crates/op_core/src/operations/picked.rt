use super::op::Op;

/// What is picked for the text of a segment in its book's export.
#[derive(Debug, Drop)]
pub enum Picked<'a> {
    /// The segment shows nothing.
    Nothing,
    /// The shown operation with the greatest id. Its text may be empty.
    Held(&'a Op),
    /// The line `\c N` of chapter N, for a head without a text where a verse of the chapter has
    /// one.
    ChapterLine(u16),
}
