// What changed, as lines.
ghost use Rattle.std.specs.Prelude.{◌≡◌, ◌++◌, codes, map, IfOk, OnOk, string_bytes};
ghost use Rattle.segment_history.specs.ChangeLines as lines;
ghost use Rattle.segment_history.specs.Entries.{kept_part, shown_text};
ghost use Rattle.segment_history.specs.Histories as parts;

use crate::changed::{ChangedSegment, ShownText};
use crate::entry::Kept;
use op_core::{OpId, ReplicaName};
use std::alloc::{AllocError, Global};
use usfm_ref::write_ref;

/// What changed, as lines: for each segment `changed REF NAME ..`, of its reference and of who made
/// what is new there. If texts are wanted, then for each operation that the known ones show by
/// themselves the line `was NUMBER NAME LENGTH`, its text and a line feed, and for each that is
/// shown the same with `is`; where the text was left out, the line ends with `thinned` in the place
/// of the length, and no text follows.
///
/// # Errors
/// Out of memory alone.
pub fn changes_text(
    alloc: Global,
    changes: &[ChangedSegment<'_>],
    texts: bool,
) -> Result<Vec<u8>, AllocError>
    ensures { IfOk result (λ text. text.items ≡ lines.changes_text texts changes.now) }
{
    let mut text = Vec::new(alloc);
    for changed in changes {
        push_changed(alloc, changed, texts, &mut text)?;
    }
    Ok(text)
}

// Adds what changed in a segment.
fn push_changed(
    alloc: Global,
    changed: &ChangedSegment<'_>,
    texts: bool,
    text: &mut Vec<u8>,
) -> Result<(), AllocError>
    ensures { OnOk result (text.new.items
        ≡ text.old.items ++ lines.changed_lines texts changed.now) }
{
    push_line(alloc, changed, text)?;
    if !texts {
        return Ok(());
    }
    push_texts(alloc, "was", &changed.was, text)?;
    push_texts(alloc, "is", &changed.now_shown, text)
}

// Adds the line of a segment that changed.
fn push_line(
    alloc: Global,
    changed: &ChangedSegment<'_>,
    text: &mut Vec<u8>,
) -> Result<(), AllocError>
    ensures { OnOk result (text.new.items ≡ text.old.items ++ lines.changed_line changed.now) }
{
    let reference = write_ref(alloc, changed.segment.book, changed.segment.key)?;
    text.extend_from_slice(b"changed ")?;
    text.extend_from_slice(reference.as_bytes())?;
    push_names(&changed.makers, text)?;
    text.push(b'\n')?;
    Ok(())
}

// Adds names, each after a space.
fn push_names(names: &[ReplicaName], text: &mut Vec<u8>) -> Result<(), AllocError>
    ensures { OnOk result (text.new.items ≡ text.old.items ++ lines.name_words names.now) }
{
    for name in names {
        text.push(b' ')?;
        text.extend_from_slice(name.text().as_bytes())?;
    }
    Ok(())
}

// Adds operations that are shown, each after a word.
fn push_texts(
    alloc: Global,
    word: &str,
    shown: &[ShownText<'_>],
    text: &mut Vec<u8>,
) -> Result<(), AllocError>
    ensures { OnOk result (text.new.items
        ≡ text.old.items ++ lines.texts_lines word.now (map shown_text shown.now)) }
{
    for one in shown {
        push_text(alloc, word, one, text)?;
    }
    Ok(())
}

// Adds an operation that is shown.
fn push_text(
    alloc: Global,
    word: &str,
    shown: &ShownText<'_>,
    text: &mut Vec<u8>,
) -> Result<(), AllocError>
    ensures { OnOk result (text.new.items
        ≡ text.old.items ++ lines.text_lines word.now (kept_part shown.now.kept) shown.now.id) }
{
    match shown.kept {
        Kept::Text(own) => push_full(alloc, word, shown.id, own, text),
        Kept::Thinned => push_thinned(alloc, word, shown.id, text),
        Kept::Awaited => Ok(()),
    }
}

// Adds an operation with its text.
fn push_full(
    alloc: Global,
    word: &str,
    id: OpId,
    own: &str,
    text: &mut Vec<u8>,
) -> Result<(), AllocError>
    ensures { OnOk result (text.new.items
        ≡ text.old.items ++ lines.text_lines word.now (parts.Whole own.now) id) }
{
    let line = format!(in alloc; "{word} {} {} {}\n", id.number, id.name.text(), own.len())?;
    text.extend_from_slice(line.as_bytes())?;
    text.extend_from_slice(own.as_bytes())?;
    text.push(b'\n')?;
    Ok(())
}

// Adds an operation whose text was left out.
fn push_thinned(alloc: Global, word: &str, id: OpId, text: &mut Vec<u8>) -> Result<(), AllocError>
    ensures { OnOk result (text.new.items
        ≡ text.old.items ++ lines.text_lines word.now parts.TextLeftOut id) }
{
    let line = format!(in alloc; "{word} {} {} thinned", id.number, id.name.text())?;
    text.extend_from_slice(line.as_bytes())?;
    text.push(b'\n')?;
    Ok(())
}
