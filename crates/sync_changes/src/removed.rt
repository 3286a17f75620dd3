// What the files removed.
ghost use Rattle.std.specs.Prelude.{◌≡◌, ◌||◌, ◌++◌, map, not, IfOk, OnOk};
ghost use Rattle.std.specs.List.{flat_map, list_any};
ghost use Rattle.bundle_codec.specs.Views.{lent};
ghost use Rattle.op_core.specs.Ops.{or_empty};
ghost use Rattle.op_core.specs.Shown.{is_empty};
ghost use Rattle.segment_history.specs.Loops.Gathering as gathering;
ghost use Rattle.sync_changes.specs.Changes as changing;
ghost use Rattle.sync_changes.specs.Loops.Parts as parts;

use crate::files::FileEdits;
use crate::gathered::{Gathered, gathered, segments_of};
use crate::part::Part;
use crate::shown::shown_texts;
use bundle_codec::{Bundle, OpView};
use std::alloc::{AllocError, Global};
use usfm_ref::Segment;

// The segments that have no text any more by an edit that the files made.
pub(crate) fn removed(
    alloc: Global,
    after: &Bundle<'_>,
    files: &FileEdits,
) -> Result<Vec<Segment>, AllocError>
    ensures { IfOk result (λ made. made.items ≡ changing.removed after.now files.now) }
{
    let segments = segments_of(alloc, after, Part::Files(files))?;
    removed_among(alloc, after, files, &segments)
}

// Those of these segments that have no text any more by an edit that the files made.
fn removed_among(
    alloc: Global,
    after: &Bundle<'_>,
    files: &FileEdits,
    segments: &[Segment],
) -> Result<Vec<Segment>, AllocError>
    ensures { IfOk result (λ made.
        made.items ≡ flat_map (changing.removed_at after.now files.now) segments.now) }
{
    let gathered = gathered(alloc, after, segments)?;
    let mut made = Vec::new(alloc);
    for segment in segments {
        push_removed(alloc, &gathered, files, segment, &mut made)?;
    }
    Ok(made)
}

// Adds the segment, if it shows no text that is not empty, and showed one but for the files.
fn push_removed(
    alloc: Global,
    gathered: &Gathered<'_>,
    files: &FileEdits,
    segment: &Segment,
    made: &mut Vec<Segment>,
) -> Result<(), AllocError>
    ensures { OnOk result (made.new.items ≡ made.old.items
        ++ parts.removed_by (gathering.ops_of gathered.now segment.now) files.now segment.now) }
{
    let ops: &[OpView<'_>] = match gathered.get(segment) {
        None => return Ok(()),
        Some(ops) => ops,
    };
    if is_kept(alloc, ops, files)? {
        return Ok(());
    }
    made.push(*segment)?;
    Ok(())
}

// Whether a segment with these operations shows a text that is not empty, or showed none but for
// the files.
fn is_kept(alloc: Global, ops: &[OpView<'_>], files: &FileEdits) -> Result<bool, AllocError>
    ensures { IfOk result (λ kept. kept ≡ parts.is_kept_by ops.now files.now) }
{
    let was = shown_texts(alloc, ops, Part::Brought(files))?;
    let now = shown_texts(alloc, ops, Part::All)?;
    Ok(is_or_was_not(has_text(&now), has_text(&was)))
}

// Whether there is something, or there was nothing.
fn is_or_was_not(is: bool, was: bool) -> bool
    ensures { result ≡ (is || not was) }
{
    is || !was
}

// Whether one of these texts is not empty.
fn has_text(texts: &[Option<&str>]) -> bool
    ensures { result ≡ changing.has_text (map lent texts.now) }
{
    any_text(texts)
}

// Whether one of these texts is there and is not empty.
fn any_text(texts: &[Option<&str>]) -> bool
    ensures { result ≡ list_any (λ text. not (is_empty (or_empty (lent text)))) texts.now }
{
    texts.iter().any(|text| is_text(text))
}

// Whether a text is there and is not empty.
fn is_text(text: &Option<&str>) -> bool
    ensures { result ≡ not (is_empty (or_empty (lent text.now))) }
{
    match *text {
        None => false,
        Some(text) => !text.is_empty(),
    }
}
