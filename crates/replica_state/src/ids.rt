// Ids among those that a segment shows, which rise: each is looked for by binary search, since
// there may be many of them.
ghost use Rattle.std.specs.Prelude.{◌≡◌, ◌≤◌, IfOk, IsTrue, filter, length, not};
ghost use Rattle.std.specs.List.{find, position_or_len};
ghost use Rattle.std.specs.Option.{option_copied};
ghost use Rattle.op_core.specs.Ids.{Id, id_below, ids_rise};
ghost use Rattle.op_core.specs.NextIds.{is_among};

use op_core::OpId;
use std::alloc::{AllocError, Global};

// The first of the ids that is not among the shown ones.
pub(crate) fn first_not_among<'a>(ids: &'a [OpId], shown: &[OpId]) -> Option<&'a OpId>
    requires rising { IsTrue (ids_rise shown.now) }
    ensures { option_copied result ≡ find (λ id. not (is_among shown.now id)) ids.now }
{
    for id in ids {
        if !is_among(shown, *id) {
            return Some(id);
        }
    }
    None
}

// The shown ids that are given.
pub(crate) fn given_among(
    alloc: Global,
    shown: &[OpId],
    given: &[OpId],
) -> Result<Vec<OpId>, AllocError>
    ensures { IfOk result (λ ids. ids.items ≡ filter (is_among given.now) shown.now) }
{
    if given == shown {
        // Nearly always, and then nothing is to be put in order.
        return shown.to_vec(alloc);
    }
    let rising = in_order(alloc, given)?;
    let mut ids = Vec::new(alloc);
    for id in shown {
        if is_among(&rising, *id) {
            ids.push(*id)?;
        }
    }
    Ok(ids)
}

// Ids in order, each once.
fn in_order(alloc: Global, ids: &[OpId]) -> Result<Vec<OpId>, AllocError>
    ensures rising { IfOk result (λ rising. IsTrue (ids_rise rising.items)) }
    ensures members { IfOk result (λ rising.
        (q : Id) → is_among rising.items q ≡ is_among ids.now q) }
{
    let mut rising = ids.to_vec(alloc)?;
    rising.sort_unstable();
    rising.dedup();
    Ok(rising)
}

// Whether the id is among some ids that rise.
pub(crate) fn is_among(ids: &[OpId], id: OpId) -> bool
    requires rising { IsTrue (ids_rise ids.now) }
    ensures { result ≡ is_among ids.now id }
{
    let at = place_id(ids, id);
    if at < ids.len() {
        let found = ids[at];
        if found == id {
            return true;
        }
    }
    false
}

// How many ids at the front are below this one.
fn place_id(ids: &[OpId], id: OpId) -> usize
    requires rising { IsTrue (ids_rise ids.now) }
    ensures place { result ≡ position_or_len (λ i. not (id_below i id)) ids.now }
    ensures within { result ≤ length ids.now }
{
    ids.partition_point(
        |one| -> bool
            ensures { result ≡ id_below one.now id }
        { is_below(*one, id) },
    )
}

// Whether an id comes before another.
fn is_below(id: OpId, other: OpId) -> bool
    ensures { result ≡ id_below id other }
{
    id < other
}
