ghost use Rattle.std.specs.Prelude.{◌≡◌, ◌≤◌, ◌+◌, List, [], ◌∷◌, length, not, is_some};
ghost use Rattle.std.specs.List.{prefix_len};
ghost use Rattle.book_reading.specs.Blocks as blocks;
ghost use Rattle.book_reading.specs.declared.run.Run.{Run};

use crate::kind::BlockKind;
use crate::run::{Run, Sort};

/// A paragraph with its runs, or what comes before all paragraphs.
#[derive(Clone, Copy, Debug)]
pub struct Block<'r, 'a> {
    /// What it is, and `None` of what comes before all paragraphs.
    pub kind: Option<BlockKind>,
    /// Its runs, the first of which is the mark of its paragraph, if it has one.
    pub runs: &'r [Run<'a>],
}

/// The blocks of a reading, one after another. It does not allocate.
#[derive(Drop)]
pub struct Blocks<'r, 'a> {
    pub(crate) rest: &'r [Run<'a>],
}

// The kind of the block that a run begins, if it begins one.
fn begins(sort: Sort) -> Option<BlockKind>
    ensures { result ≡ blocks.begins sort }
{
    match sort {
        Sort::Paragraph(kind) => Some(kind),
        _ => None,
    }
}

// Whether a run begins no block.
fn stays(sort: Sort) -> bool
    ensures { result ≡ not (is_some (blocks.begins sort)) }
{
    !matches!(sort, Sort::Paragraph(_))
}

// How many runs at the front begin no block.
fn front_len(runs: &[Run<'_>]) -> usize
    ensures value { result ≡ prefix_len (λ r. not (is_some (blocks.begins r.sort))) runs.now }
    ensures within { result ≤ length runs.now }
{
    runs.iter().take_while(|run| stays(run.sort)).count()
}

// How many runs the first block has.
fn first_len(runs: &[Run<'_>]) -> usize
    ensures none { runs.now ≡ [] → result ≡ 0 }
    ensures some { (x : Run) (xs : List Run) → runs.now ≡ x ∷ xs
        → result ≡ 1 + prefix_len (λ r. not (is_some (blocks.begins r.sort))) xs }
    ensures within { result ≤ length runs.now }
{
    match runs.split_first() {
        None => 0,
        Some((_, others)) => 1 + front_len(others),
    }
}

impl<'r, 'a> Iterator for Blocks<'r, 'a> {
    ghost use Rattle.std.specs.Iterator.{YieldsFirstBy, item_count};
    ghost use Rattle.book_reading.specs.Views.{block_view, blocks_left};

    type Item = Block<'r, 'a>;

    ghost next_gives = { YieldsFirstBy block_view blocks_left };

    ghost remaining = { item_count blocks_left };

    fn next(&mut self) -> Option<Block<'r, 'a>> {
        let kind = begins(self.rest.first()?.sort);
        let count = first_len(self.rest);
        let runs = &self.rest[..count];
        self.rest = &self.rest[count..];
        Some(Block { kind, runs })
    }
}
