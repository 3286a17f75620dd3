//! How paragraphs are set.

ghost use Rattle.std.specs.Prelude.{◌≡◌, ◌≤◌, length};
ghost use Rattle.std.specs.List.{prefix_len};
ghost use Rattle.book_reading.specs.Views.{block_view, runs_view};
ghost use Rattle.plain_reading.specs.Paragraphs as paragraphs;

use book_reading::{Block, BlockKind, Run, Sort};

// What a paragraph is among others, for the empty lines between them.
#[derive(Clone, Copy, Debug)]
pub(crate) enum Group {
    // Nothing is written yet.
    Begin,
    // What is said of the file or of the book.
    About,
    // The text: prose, poetry and lists.
    Text,
    // Titles and headings.
    Heading,
    // The number of a chapter.
    Chapter,
    // The notes of a chapter.
    Notes,
    // An empty line of the text.
    Gap,
}

// The group of a paragraph, and the columns of the indent of its first line and of its later ones.
#[derive(Clone, Copy, Debug)]
pub(crate) struct Setting {
    pub(crate) group: Group,
    pub(crate) first: usize,
    pub(crate) later: usize,
}

// What tells groups apart.
fn rank(group: Group) -> u8
    ensures { result ≡ paragraphs.rank group }
{
    match group {
        Group::Begin => 0,
        Group::About => 1,
        Group::Text => 2,
        Group::Heading => 3,
        Group::Chapter => 4,
        Group::Notes => 5,
        Group::Gap => 6,
    }
}

// Whether an empty line stands between two groups.
pub(crate) fn is_parted(last: Group, group: Group) -> bool
    ensures { result ≡ paragraphs.is_parted last group }
{
    rank(last) != 0 && rank(last) != rank(group)
}

// The group after a paragraph without words.
pub(crate) fn after_empty(last: Group, group: Group) -> Group
    ensures { result ≡ paragraphs.after_empty last group }
{
    if rank(group) == 6 && rank(last) != 0 {
        Group::Gap
    } else {
        last
    }
}

fn set_as(group: Group, first: usize, later: usize) -> Setting
    ensures { result ≡ paragraphs.set_as group first later }
{
    Setting {
        group,
        first,
        later,
    }
}

// How the number of a chapter is set.
pub(crate) fn number_setting() -> Setting
    ensures { result ≡ paragraphs.number_setting }
{
    set_as(Group::Chapter, 0, 0)
}

// How a block of a kind is set.
fn kind_setting(kind: BlockKind) -> Setting
    ensures { result ≡ paragraphs.kind_setting kind }
{
    match kind {
        BlockKind::Heading(_) => set_as(Group::Heading, 0, 0),
        BlockKind::Poetry(level) => {
            let columns = 2 * usize::from(level);
            set_as(Group::Text, 2 + columns, 6 + columns)
        }
        BlockKind::Item(level) => {
            let columns = 2 * usize::from(level);
            set_as(Group::Text, columns, 2 + columns)
        }
        BlockKind::About => set_as(Group::About, 0, 2),
        BlockKind::Chapter | BlockKind::Prose => set_as(Group::Text, 2, 0),
    }
}

fn optional_setting(kind: Option<BlockKind>) -> Setting
    ensures { result ≡ paragraphs.optional_setting kind }
{
    match kind {
        None => set_as(Group::Text, 2, 0),
        Some(kind) => kind_setting(kind),
    }
}

// Whether runs begin with the mark of an empty line.
fn begins_gap(runs: &[Run<'_>]) -> bool
    ensures { result ≡ paragraphs.begins_gap (runs_view runs.now) }
{
    match runs {
        [] => false,
        [run, ..] => run.text == "\\b",
    }
}

// How a block is set.
pub(crate) fn block_setting(block: Block<'_, '_>) -> Setting
    ensures { result ≡ paragraphs.block_setting (block_view block.entry) }
{
    if begins_gap(block.runs) {
        set_as(Group::Gap, 0, 0)
    } else {
        optional_setting(block.kind)
    }
}

// How notes are set.
pub(crate) fn note_setting() -> Setting
    ensures { result ≡ paragraphs.note_setting }
{
    set_as(Group::Notes, 0, 4)
}

// Whether a run is no number of a chapter.
fn is_no_number(sort: Sort) -> bool
    ensures { result ≡ paragraphs.is_no_number sort }
{
    !matches!(sort, Sort::Chapter)
}

// How many runs come before the number of a chapter.
fn before_number(runs: &[Run<'_>]) -> usize
    ensures value { result ≡ prefix_len (λ r. paragraphs.is_no_number r.sort) runs.now }
    ensures within { result ≤ length runs.now }
{
    runs.iter().take_while(|run| is_no_number(run.sort)).count()
}

// How many runs there are up to the number of a chapter and with it; 0 where it has none.
fn through_number(runs: &[Run<'_>]) -> usize
    ensures value { result ≡ paragraphs.through_number (runs_view runs.now) }
    ensures within { result ≤ length runs.now }
{
    let before = before_number(runs);
    if before < runs.len() { before + 1 } else { 0 }
}

// Whether a block is that of a chapter's mark.
fn is_chapter_block(kind: Option<BlockKind>) -> bool
    ensures { result ≡ paragraphs.is_chapter_block kind }
{
    match kind {
        None => false,
        Some(kind) => kind == BlockKind::Chapter,
    }
}

// How many runs of a block go with the number of its chapter.
pub(crate) fn number_length(block: Block<'_, '_>) -> usize
    ensures value { result ≡ paragraphs.number_length (block_view block.entry) }
    ensures within { result ≤ length block.entry.runs.now }
{
    if is_chapter_block(block.kind) {
        through_number(block.runs)
    } else {
        0
    }
}
