// What a page says.
use conflict_settling::Entry;
use op_core::{Op, OpId, Picked, ReplicaName};
use project_status::{Chapter, Maker};
use usfm_ref::{Book, Key};

/// What a page says of a project.
#[derive(Debug, Drop)]
pub struct PageParts<'a> {
    /// The copy's name.
    pub name: ReplicaName,
    /// The books with an operation.
    pub books: Vec<BookProgress>,
    /// How many verses have a text besides marks.
    pub verses: usize,
    /// Who made what is shown.
    pub makers: Vec<Maker>,
    /// How many operations are replaced.
    pub replaced: usize,
    /// How many of them are kept without their texts.
    pub thinned: usize,
    /// The segments that show two or more distinct texts.
    pub conflicts: Vec<PageConflict<'a>>,
    /// The ids that operations name and none has.
    pub awaited: Vec<OpId>,
}

/// How far the chapters of a book are.
#[derive(Debug, Drop)]
pub struct BookProgress {
    pub book: Book,
    pub chapters: Vec<Chapter>,
}

/// A segment that shows two or more distinct texts.
#[derive(Debug, Drop)]
pub struct PageConflict<'a> {
    pub book: Book,
    pub key: Key,
    /// The text that the book has before it, empty where there is none.
    pub before: String,
    /// What the book has in its place.
    pub picked: Picked<'a>,
    /// Its texts. The first one is that of the greatest id.
    pub entries: Vec<Entry<'a>>,
    /// The operations that have one of these texts too.
    pub repeated: Vec<&'a Op>,
    /// The text that the book has after it, empty where there is none.
    pub after: String,
}
