//! The plain text of a part of a book, with its conflicts marked.

ghost use Rattle.std.specs.Prelude.{◌≡◌, ◌≤◌, length, IfOk, string_bytes};
ghost use Rattle.std.specs.List.{prefix_len};
ghost use Rattle.verse_cut.specs.Keys.{key_below};
ghost use Rattle.usfm_tree.specs.SheetViews.{styles_of};
ghost use Rattle.plain_reading.specs.Parts as parts;

use crate::marking::marked;
use crate::page::plain;
use crate::selected::Selected;
use book_reading::read;
use std::alloc::{AllocError, Global};
use sty_sheet::Sheet;
use usfm_ref::{Key, Segment};
use verse_cut::cut;

/// What of a book is read.
#[derive(Clone, Copy, Debug, PartialEq, Eq)]
pub enum Part {
    /// All of it.
    Whole,
    /// The chapter of this number.
    OneChapter(u16),
    /// The text at this key.
    OneKey(Key),
}

// Whether a key is in the part.
fn has(part: &Part, key: Key) -> bool
    ensures { result ≡ parts.has part.now key }
{
    match *part {
        Part::Whole => true,
        Part::OneChapter(chapter) => key.chapter == chapter,
        Part::OneKey(one) => key == one,
    }
}

// Whether a segment is below a key.
fn is_below(segment: &Segment, key: Key) -> bool
    ensures { result ≡ key_below segment.now.key key }
{
    segment.key < key
}

// How many segments at the front are below a key.
fn below_len(segments: &[Segment], key: Key) -> usize
    ensures value { result ≡ prefix_len (λ g. key_below g.key key) segments.now }
    ensures within { result ≤ length segments.now }
{
    segments
        .iter()
        .take_while(|segment| is_below(segment, key))
        .count()
}

// The segments from a key on.
fn from_key(segments: &[Segment], key: Key) -> &[Segment]
    ensures { result.now ≡ parts.from_key key segments.now }
{
    &segments[below_len(segments, key)..]
}

// Whether the first of them is at the key.
fn is_first(segments: &[Segment], key: Key) -> bool
    ensures { result ≡ parts.is_first key segments.now }
{
    match segments {
        [] => false,
        [segment, ..] => segment.key == key,
    }
}

// The text of the part of a book, and where conflicts are.
fn select(
    alloc: Global,
    text: &str,
    part: &Part,
    conflicts: &[Segment],
) -> Result<Selected, AllocError>
    ensures text { IfOk result (λ selected. string_bytes selected.text
        ≡ parts.joined (parts.pieces_in part.now text.now)) }
    ensures gaps { IfOk result (λ selected. selected.gaps.items
        ≡ parts.gaps 0 conflicts.now (parts.pieces_in part.now text.now)) }
{
    let pieces = cut(alloc, text)?;
    let mut selected = Selected {
        text: String::new(alloc),
        gaps: Vec::new(alloc),
        last: 0,
    };
    let mut left = conflicts;
    let mut rest = pieces.as_slice();
    'pieces: while let [piece, later @ ..] = rest {
        if has(part, piece.key) {
            left = from_key(left, piece.key);
            selected.take(piece, is_first(left, piece.key))?;
        }
        rest = later;
    }
    Ok(selected)
}

/// The plain text of a part of a book's text by a style sheet, in lines of so many columns. Where
/// these segments, by rising key, are in conflict, it has ` [conflict] ` after the mark of each.
///
/// # Errors
///
/// `AllocError` where an allocation failed.
#[tactic(auto, unfolding(crate::specs::Parts::part_text))]
pub fn part_text(
    alloc: Global,
    sheet: &Sheet<'_>,
    text: &str,
    part: Part,
    conflicts: &[Segment],
    width: usize,
) -> Result<Vec<u8>, AllocError>
    ensures { IfOk result (λ bytes. bytes.items
        ≡ parts.part_text (styles_of sheet.now) width part conflicts.now text.now) }
{
    let selected = select(alloc, text, &part, conflicts)?;
    let reading = read(alloc, sheet, &selected.text)?;
    let runs = marked(alloc, &selected.gaps, reading.runs())?;
    Ok(plain(alloc, &runs, width)?.into_bytes())
}
