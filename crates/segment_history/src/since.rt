// What changed since some ids were known.
ghost use Rattle.std.specs.Prelude.{◌≡◌, [], map, filter, IfOk};
ghost use Rattle.bundle_codec.specs.Summaries.{covers};
ghost use Rattle.segment_history.specs.Changes as changing;
ghost use Rattle.segment_history.specs.Naming as naming;
ghost use Rattle.segment_history.specs.Loops.Gathering as gathering;
ghost use Rattle.segment_history.specs.Loops.Showing as showing;

use crate::changed::ChangedSegment;
use crate::gathered::{Gathered, gathered, segment_of};
use crate::named::{Named, push_if_named};
use crate::showing::shown_among;
use bundle_codec::{Bundle, OpView, Summary};
use op_core::ReplicaName;
use std::alloc::{AllocError, Global};
use usfm_ref::Segment;

/// The segments of which the bundle of a project holds an operation that is not known, in the order
/// of books and keys, each with the makers of what is new there, with what the known operations of
/// the bundle show by themselves, and with what all of them show. Texts are lent from the bundle's
/// bytes, over which it takes two walks.
///
/// # Errors
/// Out of memory alone.
pub fn changes<'a>(
    alloc: Global,
    bundle: &Bundle<'a>,
    known: &Summary,
) -> Result<Vec<ChangedSegment<'a>>, AllocError>
    ensures { IfOk result (λ made. made.items ≡ changing.changes bundle.now (covers known.now)) }
{
    let segments = changed_segments(alloc, bundle, known)?;
    changes_of(alloc, bundle, known, &segments)
}

/// The same of the segments that are named alone, of all where there is no name.
///
/// # Errors
/// Out of memory alone.
pub fn changes_in<'a>(
    alloc: Global,
    bundle: &Bundle<'a>,
    known: &Summary,
    names: &[Named],
) -> Result<Vec<ChangedSegment<'a>>, AllocError>
    ensures { IfOk result (λ made.
        made.items ≡ naming.changes_in bundle.now (covers known.now) names.now) }
{
    let segments = changed_segments(alloc, bundle, known)?;
    let named = those_named(alloc, &segments, names)?;
    changes_of(alloc, bundle, known, &named)
}

// Those of the segments that are named.
fn those_named(
    alloc: Global,
    segments: &[Segment],
    names: &[Named],
) -> Result<Vec<Segment>, AllocError>
    ensures { IfOk result (λ named.
        named.items ≡ filter (naming.is_named names.now) segments.now) }
{
    let mut named = Vec::new(alloc);
    for segment in segments {
        push_if_named(&mut named, names, segment)?;
    }
    Ok(named)
}

// What changed in each of these segments.
fn changes_of<'a>(
    alloc: Global,
    bundle: &Bundle<'a>,
    known: &Summary,
    segments: &[Segment],
) -> Result<Vec<ChangedSegment<'a>>, AllocError>
    ensures { IfOk result (λ made. made.items
        ≡ map (changing.changed_at bundle.now (covers known.now)) segments.now) }
{
    let gathered = gathered(alloc, bundle, segments)?;
    let mut made = Vec::with_capacity(alloc, segments.len())?;
    for segment in segments {
        made.push(change_in(alloc, &gathered, known, *segment)?)?;
    }
    Ok(made)
}

// The segments of which an operation is held that is not known, each once.
fn changed_segments(
    alloc: Global,
    bundle: &Bundle<'_>,
    known: &Summary,
) -> Result<Vec<Segment>, AllocError>
    ensures { IfOk result (λ segments.
        segments.items ≡ changing.changed_segments bundle.now (covers known.now)) }
{
    let mut segments = Vec::new(alloc);
    for op in bundle.ops() {
        if !known.covers(&op.id()) {
            segments.push(segment_of(&op))?;
        }
    }
    segments.sort_unstable();
    segments.dedup();
    Ok(segments)
}

// What changed in one of the segments whose operations were gathered.
fn change_in<'a>(
    alloc: Global,
    gathered: &Gathered<'a>,
    known: &Summary,
    segment: Segment,
) -> Result<ChangedSegment<'a>, AllocError>
    ensures { IfOk result (λ made. made
        ≡ showing.changed_by (gathering.ops_of gathered.now segment) known.now segment) }
{
    let ops: &[OpView<'_>] = match gathered.get(&segment) {
        None => return Ok(unchanged(alloc, segment)),
        Some(ops) => ops,
    };
    Ok(ChangedSegment {
        segment,
        makers: new_makers(alloc, ops, known)?,
        was: shown_among(alloc, ops, Some(known))?,
        now_shown: shown_among(alloc, ops, None)?,
    })
}

// A segment without an operation.
fn unchanged<'a>(alloc: Global, segment: Segment) -> ChangedSegment<'a>
    ensures { (known : showing.Known) → result ≡ showing.changed_by [] known segment }
{
    ChangedSegment {
        segment,
        makers: Vec::new(alloc),
        was: Vec::new(alloc),
        now_shown: Vec::new(alloc),
    }
}

// The names under which those operations were made that are not known, each once.
fn new_makers(
    alloc: Global,
    ops: &[OpView<'_>],
    known: &Summary,
) -> Result<Vec<ReplicaName>, AllocError>
    ensures { IfOk result (λ names. names.items ≡ showing.makers_among ops.now known.now) }
{
    let mut names = Vec::new(alloc);
    for op in ops {
        let id = op.id();
        if !known.covers(&id) {
            names.push(id.name)?;
        }
    }
    names.sort_unstable();
    names.dedup();
    Ok(names)
}
