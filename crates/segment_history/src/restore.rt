// Texts that segments get back.
ghost use Rattle.std.specs.Prelude.{◌≡◌, ◌++◌, None, map, IfOk, IfErr, OnOk};
ghost use Rattle.bundle_codec.specs.Summaries.{covers};
ghost use Rattle.segment_history.specs.Entries.{shown_text};
ghost use Rattle.segment_history.specs.Restores as restores;
ghost use Rattle.segment_history.specs.Loops.Gathering as gathering;
ghost use Rattle.segment_history.specs.Loops.Restoring as restoring;
ghost use Rattle.segment_history.specs.Loops.Showing as showing;
ghost use Rattle.op_core.specs.Sets.{get};

use crate::changed::ShownText;
use crate::entry::Kept;
use crate::fault::RestoreFault;
use crate::gathered::{Gathered, gathered, segment_of};
use crate::showing::shown_among;
use bundle_codec::{Bundle, OpView, Summary};
use op_core::OpId;
use std::alloc::{AllocError, Global};
use std::marker::Model;
use std::slice;
use usfm_ref::Segment;

/// A text that a segment gets back: an edit over ids.
#[derive(Debug, Drop)]
pub struct RestoredText<'a> {
    /// The segment.
    pub segment: Segment,
    /// The text that it gets.
    pub text: &'a str,
    /// The ids of the operations that the text replaces, all that the segment shows, in ascending
    /// order.
    pub ids: Vec<OpId>,
}

impl<'a> Model for RestoredText<'a> {
    ghost use Rattle.segment_history.specs.Restores.{RestoredParts};

    ghost Value = { RestoredParts };

    ghost view = { λ r. record { segment = r.segment; text = r.text.now; ids = r.ids.items } };
}

/// The edits that give each of these segments the text that the known operations of a bundle pick
/// by themselves, and no text where these have none: for each segment in turn an edit over all that
/// the segment shows, and none where it has that text.
///
/// # Errors
/// - `LeftOut` with the first of the operations to go back to whose text was left out.
/// - `Memory` where an allocation failed.
pub fn restored_since<'a>(
    alloc: Global,
    bundle: &Bundle<'a>,
    known: &Summary,
    segments: &[Segment],
) -> Result<Vec<RestoredText<'a>>, RestoreFault>
    ensures edits { IfOk result (λ edits. edits.items
        ≡ restores.restored_since bundle.now (covers known.now) segments.now) }
    ensures there { OnOk result
        (restores.first_left_out bundle.now (covers known.now) segments.now ≡ None) }
    ensures refused { IfErr result (restoring.IsLost
        (restores.first_left_out bundle.now (covers known.now) segments.now)) }
{
    let gathered = gathered(alloc, bundle, segments)?;
    let mut edits = Vec::new(alloc);
    for segment in segments {
        push_since(alloc, &gathered, known, *segment, &mut edits)?;
    }
    Ok(edits)
}

/// The edit that gives its segment the text of the operation of an id: over all that the segment
/// shows, and none where it has that text.
///
/// # Errors
/// - `NotHeld` where no operation of the bundle has the id.
/// - `LeftOut` where the text of the operation was left out.
/// - `Memory` where an allocation failed, in the place of none of these.
pub fn restored_id<'a>(
    alloc: Global,
    bundle: &Bundle<'a>,
    id: OpId,
) -> Result<Vec<RestoredText<'a>>, RestoreFault>
    ensures edit { IfOk result (λ edits.
        edits.items ≡ restores.restored_id bundle.now id) }
    ensures there { OnOk result (restores.refusal_at bundle.now id ≡ None) }
    ensures refused { IfErr result (restores.RefusedFor (restores.refusal_at bundle.now id)) }
{
    let Some(op) = op_of(bundle, id) else {
        return Err(RestoreFault::NotHeld(id));
    };
    let Some(text) = op.text() else {
        return Err(RestoreFault::LeftOut(id));
    };
    Ok(restored_over(alloc, bundle, &segment_of(&op), text)?)
}

// The operation of an id, if there is one.
fn op_of<'a>(bundle: &Bundle<'a>, id: OpId) -> Option<OpView<'a>>
    ensures { result ≡ get bundle.now id }
{
    for op in bundle.ops() {
        if id == op.id() {
            return Some(op);
        }
    }
    None
}

// The edit that gives a segment a text, and none where it has that text.
fn restored_over<'a>(
    alloc: Global,
    bundle: &Bundle<'a>,
    segment: &Segment,
    text: &'a str,
) -> Result<Vec<RestoredText<'a>>, AllocError>
    ensures { IfOk result (λ edits.
        edits.items ≡ restores.restored_text bundle.now segment.now text.now) }
{
    let gathered = gathered(alloc, bundle, slice::from_ref(segment))?;
    let mut edits = Vec::new(alloc);
    push_over(alloc, &gathered, *segment, text, &mut edits)?;
    Ok(edits)
}

// Adds the edit that gives a text to one of the segments whose operations were gathered, unless it
// has that text.
fn push_over<'a>(
    alloc: Global,
    gathered: &Gathered<'a>,
    segment: Segment,
    text: &'a str,
    edits: &mut Vec<RestoredText<'a>>,
) -> Result<(), AllocError>
    ensures { OnOk result (edits.new.items ≡ edits.old.items ++ restoring.restored_over
        (showing.left_parts (gathering.ops_of gathered.now segment) None) segment text.now) }
{
    let Some(ops) = gathered.get(&segment) else {
        let none = Vec::new(alloc);
        return push_text(alloc, &none, segment, text, edits);
    };
    push_text(alloc, ops, segment, text, edits)
}

// Adds the edit of one of the segments whose operations were gathered, if there is one.
fn push_since<'a>(
    alloc: Global,
    gathered: &Gathered<'a>,
    known: &Summary,
    segment: Segment,
    edits: &mut Vec<RestoredText<'a>>,
) -> Result<(), RestoreFault>
    ensures edits { OnOk result (edits.new.items ≡ edits.old.items
        ++ restoring.restored_by (gathering.ops_of gathered.now segment) known.now segment) }
    ensures there { OnOk result (restoring.first_lost
        (restoring.known_parts (gathering.ops_of gathered.now segment) known.now) ≡ None) }
    ensures refused { IfErr result (restoring.IsLost (restoring.first_lost
        (restoring.known_parts (gathering.ops_of gathered.now segment) known.now))) }
{
    let Some(ops) = gathered.get(&segment) else {
        return Ok(());
    };
    push_known(alloc, ops, known, segment, edits)
}

// Adds the edit of a segment with these operations, if there is one.
fn push_known<'a>(
    alloc: Global,
    ops: &[OpView<'a>],
    known: &Summary,
    segment: Segment,
    edits: &mut Vec<RestoredText<'a>>,
) -> Result<(), RestoreFault>
    ensures edits { OnOk result (edits.new.items
        ≡ edits.old.items ++ restoring.restored_by ops.now known.now segment) }
    ensures there { OnOk result
        (restoring.first_lost (restoring.known_parts ops.now known.now) ≡ None) }
    ensures refused { IfErr result
        (restoring.IsLost (restoring.first_lost (restoring.known_parts ops.now known.now))) }
{
    let text = text_of_known(alloc, ops, known)?;
    push_text(alloc, ops, segment, text, edits)?;
    Ok(())
}

// The text that the known ones of a segment's operations pick.
fn text_of_known<'a>(
    alloc: Global,
    ops: &[OpView<'a>],
    known: &Summary,
) -> Result<&'a str, RestoreFault>
    ensures text { IfOk result (λ text.
        text.now ≡ restoring.first_text (restoring.known_parts ops.now known.now)) }
    ensures there { OnOk result
        (restoring.first_lost (restoring.known_parts ops.now known.now) ≡ None) }
    ensures refused { IfErr result
        (restoring.IsLost (restoring.first_lost (restoring.known_parts ops.now known.now))) }
{
    let was = shown_among(alloc, ops, Some(known))?;
    known_text(&was)
}

// The text of the first of the operations, and no text where there is none.
fn known_text<'a>(shown: &[ShownText<'a>]) -> Result<&'a str, RestoreFault>
    ensures text { IfOk result (λ text.
        text.now ≡ restoring.first_text (map shown_text shown.now)) }
    ensures there { OnOk result (restoring.first_lost (map shown_text shown.now) ≡ None) }
    ensures refused { IfErr result
        (restoring.IsLost (restoring.first_lost (map shown_text shown.now))) }
{
    match shown {
        [] => Ok(""),
        [first, ..] => match first.kept {
            Kept::Text(text) => Ok(text),
            _ => Err(RestoreFault::LeftOut(first.id)),
        },
    }
}

// Adds the edit that gives a segment with these operations a text, unless it has that text.
fn push_text<'a>(
    alloc: Global,
    ops: &[OpView<'a>],
    segment: Segment,
    text: &'a str,
    edits: &mut Vec<RestoredText<'a>>,
) -> Result<(), AllocError>
    ensures { OnOk result (edits.new.items ≡ edits.old.items
        ++ restoring.restored_over (showing.left_parts ops.now None) segment text.now) }
{
    let shown = shown_among(alloc, ops, None)?;
    if own_text(&shown).as_bytes() == text.as_bytes() {
        return Ok(());
    }
    let ids = turned_ids(alloc, &shown)?;
    edits.push(RestoredText { segment, text, ids })?;
    Ok(())
}

// The text of the first of the operations, empty where it was left out or there is none.
fn own_text<'a>(shown: &[ShownText<'a>]) -> &'a str
    ensures { result.now ≡ restoring.first_text (map shown_text shown.now) }
{
    match shown {
        [] => "",
        [first, ..] => match first.kept {
            Kept::Text(text) => text,
            _ => "",
        },
    }
}

// The ids of operations, in the other order.
fn turned_ids(alloc: Global, shown: &[ShownText<'_>]) -> Result<Vec<OpId>, AllocError>
    ensures { IfOk result (λ ids. ids.items ≡ restoring.turned_ids (map shown_text shown.now)) }
{
    let mut ids = Vec::with_capacity(alloc, shown.len())?;
    for one in shown {
        ids.push(one.id)?;
    }
    ids.reverse();
    Ok(ids)
}
