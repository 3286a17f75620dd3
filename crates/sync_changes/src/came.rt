// What came in.
ghost use Rattle.std.specs.Prelude.{◌≡◌, ◌++◌, map, IfOk, OnOk};
ghost use Rattle.std.specs.List.{flat_map};
ghost use Rattle.bundle_codec.specs.Summaries.{covers};
ghost use Rattle.bundle_codec.specs.Views.{lent};
ghost use Rattle.segment_history.specs.Loops.Gathering as gathering;
ghost use Rattle.sync_changes.specs.Changes as changing;
ghost use Rattle.sync_changes.specs.Loops.Parts as parts;

use crate::changes::NamesAt;
use crate::files::FileEdits;
use crate::gathered::{Gathered, gathered, makers, segments_of};
use crate::part::Part;
use crate::shown::shown_texts;
use bundle_codec::{Bundle, OpView, Summary};
use std::alloc::{AllocError, Global};
use usfm_ref::Segment;

// The segments that show something else by what came in.
pub(crate) fn came(
    alloc: Global,
    after: &Bundle<'_>,
    known: &Summary,
    files: &FileEdits,
) -> Result<Vec<NamesAt>, AllocError>
    ensures { IfOk result (λ made.
        made.items ≡ changing.came after.now (covers known.now) files.now) }
{
    let segments = segments_of(alloc, after, Part::CameIn(known, files))?;
    came_among(alloc, after, known, files, &segments)
}

// Those of these segments that show something else by what came in.
fn came_among(
    alloc: Global,
    after: &Bundle<'_>,
    known: &Summary,
    files: &FileEdits,
    segments: &[Segment],
) -> Result<Vec<NamesAt>, AllocError>
    ensures { IfOk result (λ made. made.items
        ≡ flat_map (changing.came_at after.now (covers known.now) files.now) segments.now) }
{
    let gathered = gathered(alloc, after, segments)?;
    let mut made = Vec::new(alloc);
    for segment in segments {
        push_came(alloc, &gathered, known, files, segment, &mut made)?;
    }
    Ok(made)
}

// Adds the segment with the makers of what came in there, if it shows something else by it.
fn push_came(
    alloc: Global,
    gathered: &Gathered<'_>,
    known: &Summary,
    files: &FileEdits,
    segment: &Segment,
    made: &mut Vec<NamesAt>,
) -> Result<(), AllocError>
    ensures { OnOk result (made.new.items ≡ made.old.items
        ++ parts.came_by (gathering.ops_of gathered.now segment.now) (covers known.now) files.now
        segment.now) }
{
    let ops: &[OpView<'_>] = match gathered.get(segment) {
        None => return Ok(()),
        Some(ops) => ops,
    };
    if shows_same(alloc, ops, known, files)? {
        return Ok(());
    }
    let names = makers(alloc, ops, Part::CameIn(known, files))?;
    made.push(NamesAt {
        segment: *segment,
        names,
    })?;
    Ok(())
}

// Whether a segment with these operations shows the same but for what came in.
fn shows_same(
    alloc: Global,
    ops: &[OpView<'_>],
    known: &Summary,
    files: &FileEdits,
) -> Result<bool, AllocError>
    ensures { IfOk result (λ same.
        same ≡ parts.shows_same_by ops.now (covers known.now) files.now) }
{
    let was = shown_texts(alloc, ops, Part::Known(known))?;
    let now = shown_texts(alloc, ops, Part::Brought(files))?;
    Ok(same_texts(&was, &now))
}

// Whether two lists of texts are the same.
fn same_texts(left: &[Option<&str>], right: &[Option<&str>]) -> bool
    ensures { result ≡ changing.same_texts (map lent left.now) (map lent right.now) }
{
    left == right
}
