// The history of segments as lines.
ghost use Rattle.std.specs.Prelude.{◌≡◌, ◌++◌, ◌∷◌, IfOk, OnOk, string_bytes};
ghost use Rattle.std.specs.List.{flat_map};
ghost use Rattle.op_core.specs.Ids.{id_text};
ghost use Rattle.segment_history.specs.Histories as parts;
ghost use Rattle.segment_history.specs.Lines as lines;

use crate::entry::{Entry, Kept, SegmentHistory};
use crate::history::histories;
use bundle_codec::Bundle;
use op_core::OpId;
use std::alloc::{AllocError, Global};
use usfm_ref::{Segment, write_ref};

/// The history of each of these segments, in their order, as lines. A segment begins with the line
/// `history REF COUNT`, of its reference and of how many operations follow. For each operation, in
/// descending order of ids, is the line `op NUMBER NAME LENGTH shown`, or `replaced` in the place of
/// `shown` and after it the ids of the operations that replace it, each as `3:ana`; then its text
/// and a line feed. Where the text was left out, it is the line `op NUMBER NAME thinned` with these
/// ids alone. An id that is named and not held is the line `awaited NUMBER NAME replaced` with the
/// ids.
///
/// # Errors
/// Out of memory alone.
pub fn history_text(
    alloc: Global,
    bundle: &Bundle<'_>,
    segments: &[Segment],
) -> Result<Vec<u8>, AllocError>
    ensures { IfOk result (λ text.
        text.items ≡ lines.history_text bundle.now segments.now) }
{
    let told = histories(alloc, bundle, segments)?;
    let mut text = Vec::new(alloc);
    push_histories(alloc, &told, &mut text)?;
    Ok(text)
}

// Adds the histories of segments.
fn push_histories(
    alloc: Global,
    told: &[SegmentHistory<'_>],
    text: &mut Vec<u8>,
) -> Result<(), AllocError>
    ensures { OnOk result (text.new.items
        ≡ text.old.items ++ flat_map lines.history_lines told.now) }
{
    for history in told {
        push_history(alloc, history, text)?;
    }
    Ok(())
}

// Adds the history of a segment.
fn push_history(
    alloc: Global,
    history: &SegmentHistory<'_>,
    text: &mut Vec<u8>,
) -> Result<(), AllocError>
    ensures { OnOk result (text.new.items
        ≡ text.old.items ++ lines.history_lines history.now) }
{
    let line = history_line(alloc, history)?;
    text.extend_from_slice(line.as_bytes())?;
    push_entries(alloc, &history.entries, text)
}

// The line that a segment's history begins with.
fn history_line(alloc: Global, history: &SegmentHistory<'_>) -> Result<String, AllocError>
    ensures { IfOk result (λ line. string_bytes line ≡ lines.history_line history.now) }
{
    let reference = write_ref(alloc, history.segment.book, history.segment.key)?;
    let count = history.entries.len();
    format!(in alloc; "history {reference} {count}\n")
}

// Adds what is told of operations.
fn push_entries(alloc: Global, entries: &[Entry<'_>], text: &mut Vec<u8>) -> Result<(), AllocError>
    ensures { OnOk result (text.new.items
        ≡ text.old.items ++ flat_map lines.entry_lines entries.now) }
{
    for entry in entries {
        push_entry(alloc, entry, text)?;
    }
    Ok(())
}

// Adds what is told of an operation.
fn push_entry(alloc: Global, entry: &Entry<'_>, text: &mut Vec<u8>) -> Result<(), AllocError>
    ensures { OnOk result (text.new.items ≡ text.old.items ++ lines.entry_lines entry.now) }
{
    match entry.kept {
        Kept::Text(own) => push_full(alloc, entry.id, own, &entry.replaced_by, text),
        Kept::Thinned => push_thinned(alloc, entry.id, &entry.replaced_by, text),
        Kept::Awaited => push_awaited(alloc, entry.id, &entry.replaced_by, text),
    }
}

// Adds an operation with its text.
fn push_full(
    alloc: Global,
    id: OpId,
    own: &str,
    replaced_by: &[OpId],
    text: &mut Vec<u8>,
) -> Result<(), AllocError>
    ensures { OnOk result (text.new.items
        ≡ text.old.items ++ lines.kept_lines (parts.Whole own.now) id replaced_by.now) }
{
    let front = format!(in alloc; "op {} {} {}", id.number, id.name.text(), own.len())?;
    text.extend_from_slice(front.as_bytes())?;
    push_fate(alloc, replaced_by, text)?;
    text.push(b'\n')?;
    text.extend_from_slice(own.as_bytes())?;
    text.push(b'\n')?;
    Ok(())
}

// Adds what became of an operation that these replace.
fn push_fate(alloc: Global, replaced_by: &[OpId], text: &mut Vec<u8>) -> Result<(), AllocError>
    ensures { OnOk result (text.new.items ≡ text.old.items ++ lines.fate_words replaced_by.now) }
{
    if replaced_by.is_empty() {
        text.extend_from_slice(b" shown")?;
        return Ok(());
    }
    text.extend_from_slice(b" replaced")?;
    push_ids(alloc, replaced_by, text)
}

// Adds an operation whose text was left out.
fn push_thinned(
    alloc: Global,
    id: OpId,
    replaced_by: &[OpId],
    text: &mut Vec<u8>,
) -> Result<(), AllocError>
    ensures { OnOk result (text.new.items
        ≡ text.old.items ++ lines.kept_lines parts.TextLeftOut id replaced_by.now) }
{
    let front = format!(in alloc; "op {} {} thinned", id.number, id.name.text())?;
    text.extend_from_slice(front.as_bytes())?;
    push_ids(alloc, replaced_by, text)?;
    text.push(b'\n')?;
    Ok(())
}

// Adds an operation that is not held.
fn push_awaited(
    alloc: Global,
    id: OpId,
    replaced_by: &[OpId],
    text: &mut Vec<u8>,
) -> Result<(), AllocError>
    ensures { OnOk result (text.new.items
        ≡ text.old.items ++ lines.kept_lines parts.NotHeld id replaced_by.now) }
{
    let front = format!(in alloc; "awaited {} {} replaced", id.number, id.name.text())?;
    text.extend_from_slice(front.as_bytes())?;
    push_ids(alloc, replaced_by, text)?;
    text.push(b'\n')?;
    Ok(())
}

// Adds ids, each after a space.
fn push_ids(alloc: Global, ids: &[OpId], text: &mut Vec<u8>) -> Result<(), AllocError>
    ensures { OnOk result (text.new.items ≡ text.old.items ++ lines.id_texts ids.now) }
{
    for id in ids {
        push_id(alloc, id, text)?;
    }
    Ok(())
}

// Adds an id after a space.
fn push_id(alloc: Global, id: &OpId, text: &mut Vec<u8>) -> Result<(), AllocError>
    ensures { OnOk result (text.new.items ≡ text.old.items ++ 32 ∷ id_text id.now) }
{
    let word = format!(in alloc; " {id}")?;
    text.extend_from_slice(word.as_bytes())?;
    Ok(())
}
