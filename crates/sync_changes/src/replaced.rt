// Whose texts the files replaced.
ghost use Rattle.std.specs.Prelude.{◌≡◌, ◌++◌, filter, map, IfOk, OnOk};
ghost use Rattle.std.specs.List.{flat_map};
ghost use Rattle.op_core.specs.Names.{name_cmp};
ghost use Rattle.usfm_ref.specs.Rising.{rising};
ghost use Rattle.segment_history.specs.Loops.Gathering as gathering;
ghost use Rattle.sync_changes.specs.Changes as changing;
ghost use Rattle.sync_changes.specs.Loops.Parts as parts;

use crate::changes::NamesAt;
use crate::files::FileEdits;
use crate::gathered::{Gathered, gathered, segments_of};
use crate::older::{Older, older_of, shown_in_olds};
use crate::part::Part;
use crate::shown::{named_at, shown_at};
use bundle_codec::Bundle;
use op_core::{OpId, ReplicaName};
use std::alloc::{AllocError, Global};
use std::collections::BTreeSet;
use usfm_ref::Segment;

// The segments in which the files replaced what other copies made and what came in late.
pub(crate) fn replaced(
    alloc: Global,
    after: &Bundle<'_>,
    files: &FileEdits,
    base: &Bundle<'_>,
    older: &[Bundle<'_>],
) -> Result<Vec<NamesAt>, AllocError>
    ensures { IfOk result (λ made.
        made.items ≡ changing.replaced after.now files.now base.now older.now) }
{
    let segments = segments_of(alloc, after, Part::Files(files))?;
    replaced_among(alloc, after, files, base, older, &segments)
}

// Those of these segments in which the files did so.
fn replaced_among(
    alloc: Global,
    after: &Bundle<'_>,
    files: &FileEdits,
    base: &Bundle<'_>,
    older: &[Bundle<'_>],
    segments: &[Segment],
) -> Result<Vec<NamesAt>, AllocError>
    ensures { IfOk result (λ made. made.items
        ≡ flat_map (changing.replaced_at after.now files.now base.now older.now) segments.now) }
{
    let edited = gathered(alloc, after, segments)?;
    let shown = gathered(alloc, base, segments)?;
    let olds = older_of(alloc, older, segments)?;
    let mut made = Vec::new(alloc);
    for segment in segments {
        let names = overwritten(alloc, files, &edited, &shown, &olds, segment)?;
        push_if_named(segment, names, &mut made)?;
    }
    Ok(made)
}

// Adds the segment with names, if there is one.
fn push_if_named(
    segment: &Segment,
    names: Vec<ReplicaName>,
    made: &mut Vec<NamesAt>,
) -> Result<(), AllocError>
    ensures { OnOk result (made.new.items ≡ made.old.items
        ++ changing.if_named segment.now names.items) }
{
    if names.is_empty() {
        return Ok(());
    }
    made.push(NamesAt {
        segment: *segment,
        names,
    })?;
    Ok(())
}

// The makers of those of what the base shows in a segment that were overwritten.
fn overwritten(
    alloc: Global,
    files: &FileEdits,
    edited: &Gathered<'_>,
    shown: &Gathered<'_>,
    olds: &[Older<'_>],
    segment: &Segment,
) -> Result<Vec<ReplicaName>, AllocError>
    ensures { IfOk result (λ names. names.items ≡ parts.overwritten_by files.now
        (gathering.ops_of edited.now segment.now) (gathering.ops_of shown.now segment.now)
        olds.now segment.now) }
{
    let named = named_at(alloc, edited, segment, Part::Files(files))?;
    let sets = shown_in_olds(alloc, olds, segment)?;
    let ids = shown_at(alloc, shown, segment)?;
    makers_taken(alloc, files, &named, &sets, &ids)
}

// The makers of those of the ids that are taken.
fn makers_taken(
    alloc: Global,
    files: &FileEdits,
    named: &BTreeSet<OpId>,
    sets: &[BTreeSet<OpId>],
    ids: &[OpId],
) -> Result<Vec<ReplicaName>, AllocError>
    ensures { IfOk result (λ names. names.items ≡ rising name_cmp (map (λ id. id.name)
        (filter (parts.is_taken files.now named.now sets.now) ids.now))) }
{
    let mut names = Vec::new(alloc);
    for id in ids {
        if is_taken(files, named, sets, id) {
            names.push(id.name)?;
        }
    }
    names.sort_unstable();
    names.dedup();
    Ok(names)
}

// Whether an operation is another copy's, is named, and is absent from one of the sets.
fn is_taken(files: &FileEdits, named: &BTreeSet<OpId>, sets: &[BTreeSet<OpId>], id: &OpId) -> bool
    ensures { result ≡ parts.is_taken files.now named.now sets.now id.now }
{
    id.name != files.name && named.contains(id) && is_absent(sets, id)
}

// Whether one of the sets has not the id.
fn is_absent(sets: &[BTreeSet<OpId>], id: &OpId) -> bool
    ensures { result ≡ parts.is_absent sets.now id.now }
{
    sets.iter().any(|set| !set.contains(id))
}
