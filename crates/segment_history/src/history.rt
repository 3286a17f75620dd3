// The history of segments.
ghost use Rattle.std.specs.Prelude.{◌≡◌, map, reverse, IfOk, IsTrue};
ghost use Rattle.std.specs.BTreeSet as tree_sets;
ghost use Rattle.op_core.specs.Ids.{id_cmp};
ghost use Rattle.op_core.specs.Sets.{rises};
ghost use Rattle.segment_history.specs.Histories as histories;
ghost use Rattle.segment_history.specs.Loops.Gathering as gathering;
ghost use Rattle.segment_history.specs.Loops.Texts as keeping;

use crate::awaited::awaited_ids;
use crate::entry::{Entry, SegmentHistory};
use crate::gathered::{Gathered, gathered};
use crate::ids::falling_ids;
use crate::replacers::{Replacers, replacers_at, replacers_of};
use crate::texts::{Texts, kept_at, texts_of};
use bundle_codec::{Bundle, OpView};
use op_core::OpId;
use std::alloc::{AllocError, Global};
use std::collections::BTreeSet;
use usfm_ref::Segment;

/// The history of each of these segments, in their order: all operations of the segment that the
/// bundle of a project holds, and those that they name as replaced and that no operation of the
/// bundle has, in descending order of ids, each with what is kept of it and with the ids of the
/// held operations of the segment that replace it. Texts are lent from the bundle's bytes, over
/// which it takes three walks.
///
/// # Errors
/// Out of memory alone.
pub fn histories<'a>(
    alloc: Global,
    bundle: &Bundle<'a>,
    segments: &[Segment],
) -> Result<Vec<SegmentHistory<'a>>, AllocError>
    ensures { IfOk result (λ made.
        made.items ≡ map (histories.history bundle.now) segments.now) }
{
    let gathered = gathered(alloc, bundle, segments)?;
    let awaited = awaited_ids(alloc, bundle, &gathered)?;
    let mut made = Vec::with_capacity(alloc, segments.len())?;
    for segment in segments {
        made.push(history_in(alloc, &gathered, &awaited, *segment)?)?;
    }
    Ok(made)
}

// The history of one of the segments whose operations were gathered.
fn history_in<'a>(
    alloc: Global,
    gathered: &Gathered<'a>,
    awaited: &BTreeSet<OpId>,
    segment: Segment,
) -> Result<SegmentHistory<'a>, AllocError>
    requires { IsTrue (rises (gathering.ops_of gathered.now segment)) }
    ensures { IfOk result (λ made. made ≡ record {
      segment = segment;
      entries = histories.entries_with (gathering.ops_of gathered.now segment)
          (tree_sets.contains id_cmp awaited.now);
    }) }
{
    let Some(ops) = gathered.get(&segment) else {
        let entries = Vec::new(alloc);
        return Ok(SegmentHistory { segment, entries });
    };
    let entries = entries_of(alloc, ops, awaited)?;
    Ok(SegmentHistory { segment, entries })
}

// What is told of operations of one segment, which rise by id, and of the awaited ids that they
// name.
fn entries_of<'a>(
    alloc: Global,
    ops: &[OpView<'a>],
    awaited: &BTreeSet<OpId>,
) -> Result<Vec<Entry<'a>>, AllocError>
    requires { IsTrue (rises ops.now) }
    ensures { IfOk result (λ entries. entries.items
        ≡ histories.entries_with ops.now (tree_sets.contains id_cmp awaited.now)) }
{
    let ids = falling_ids(alloc, ops, awaited)?;
    let replacers = replacers_of(alloc, ops)?;
    let texts = texts_of(alloc, ops)?;
    let mut entries = Vec::with_capacity(alloc, ids.len())?;
    for id in &ids {
        entries.push(entry_at(alloc, &texts, &replacers, *id)?)?;
    }
    Ok(entries)
}

// What is told of the operation of an id.
fn entry_at<'a>(
    alloc: Global,
    texts: &Texts<'a>,
    replacers: &Replacers,
    id: OpId,
) -> Result<Entry<'a>, AllocError>
    ensures { IfOk result (λ entry. entry ≡ record {
      id = id;
      kept = keeping.kept_under texts.now id;
      replaced_by = gathering.ids_under replacers.now id;
    }) }
{
    let replaced_by = replacers_at(replacers, &id).to_vec(alloc)?;
    let kept = kept_at(texts, &id);
    Ok(Entry {
        id,
        kept,
        replaced_by,
    })
}
