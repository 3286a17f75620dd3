// What a sync changed, as lines.
ghost use Rattle.std.specs.Prelude.{◌≡◌, ◌++◌, take, IfOk, OnOk};
ghost use Rattle.sync_changes.specs.Lines as lines;

use crate::changes::{NamesAt, SyncChanges};
use op_core::ReplicaName;
use std::alloc::{AllocError, Global};
use usfm_ref::{Segment, write_ref};

// How many lines of a kind there are at most.
const MOST_LINES: usize = 20;

/// Adds what a sync changed to a text, as lines: `came REF NAME ..`, `removed REF` and
/// `replaced REF NAME ..`, of a segment's reference and of makers. Of each kind there are at most
/// twenty, and where there would be more, the line `.. and N more` follows, of how many are not
/// told.
///
/// # Errors
/// Out of memory alone. The text may have some of the lines then.
pub fn push_changes(
    alloc: Global,
    changes: &SyncChanges,
    text: &mut Vec<u8>,
) -> Result<(), AllocError>
    ensures { OnOk result (text.new.items ≡ text.old.items ++ lines.changes_text changes.now) }
{
    push_named(alloc, "came", &changes.came, text)?;
    push_removed(alloc, &changes.removed, text)?;
    push_named(alloc, "replaced", &changes.replaced, text)
}

// Adds the lines of segments with names.
fn push_named(
    alloc: Global,
    word: &str,
    items: &[NamesAt],
    text: &mut Vec<u8>,
) -> Result<(), AllocError>
    ensures { OnOk result (text.new.items
        ≡ text.old.items ++ lines.few_lines (lines.named_line word.now) items.now) }
{
    let few = first_few(items);
    for item in few {
        push_names_at(alloc, word, item, text)?;
    }
    push_more(alloc, items.len(), text)
}

// Adds the lines of segments that have no text any more.
fn push_removed(alloc: Global, segments: &[Segment], text: &mut Vec<u8>) -> Result<(), AllocError>
    ensures { OnOk result (text.new.items
        ≡ text.old.items ++ lines.few_lines lines.removed_line segments.now) }
{
    let few = first_few(segments);
    for segment in few {
        push_line(alloc, "removed", *segment, &[], text)?;
    }
    push_more(alloc, segments.len(), text)
}

// The first of some items, as many as are told.
fn first_few<T>(items: &[T]) -> &[T]
    ensures { result.now ≡ take lines.most_lines items.now }
{
    if items.len() <= MOST_LINES {
        return items;
    }
    let (few, _) = items.split_at(MOST_LINES);
    few
}

// Adds the line of a segment with names.
fn push_names_at(
    alloc: Global,
    word: &str,
    item: &NamesAt,
    text: &mut Vec<u8>,
) -> Result<(), AllocError>
    ensures { OnOk result (text.new.items
        ≡ text.old.items ++ lines.named_line word.now item.now) }
{
    push_line(alloc, word, item.segment, &item.names, text)
}

// Adds a word, a segment's reference, and names.
fn push_line(
    alloc: Global,
    word: &str,
    segment: Segment,
    names: &[ReplicaName],
    text: &mut Vec<u8>,
) -> Result<(), AllocError>
    ensures { OnOk result (text.new.items
        ≡ text.old.items ++ lines.names_line word.now segment names.now) }
{
    let reference = write_ref(alloc, segment.book, segment.key)?;
    text.extend_from_slice(word.as_bytes())?;
    text.push(b' ')?;
    text.extend_from_slice(reference.as_bytes())?;
    push_names(names, text)?;
    text.push(b'\n')?;
    Ok(())
}

// Adds names, each after a space.
fn push_names(names: &[ReplicaName], text: &mut Vec<u8>) -> Result<(), AllocError>
    ensures { OnOk result (text.new.items ≡ text.old.items ++ lines.name_words names.now) }
{
    for name in names {
        text.push(b' ')?;
        text.extend_from_slice(name.text().as_bytes())?;
    }
    Ok(())
}

// Adds how many more items there are than are told, if there are any.
fn push_more(alloc: Global, count: usize, text: &mut Vec<u8>) -> Result<(), AllocError>
    ensures { OnOk result (text.new.items ≡ text.old.items ++ lines.more_line count) }
{
    if count <= MOST_LINES {
        return Ok(());
    }
    let line = format!(in alloc; ".. and {} more\n", count - MOST_LINES)?;
    text.extend_from_slice(line.as_bytes())?;
    Ok(())
}
