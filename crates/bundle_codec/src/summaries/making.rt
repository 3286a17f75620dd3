// Summaries, made by one walk over ids. A name is looked up once for each run of ids that have it.
ghost use Rattle.std.specs.Prelude.{◌≡◌, IfOk, IsTrue, OnOk};
ghost use Rattle.std.specs.List.{list_all, AllByRecursion};
ghost use Rattle.usfm_ref.specs.Books.{same_bytes};
ghost use Rattle.op_core.specs.Ids.{ids_rise, is_id};
ghost use Rattle.bundle_codec.specs.Loops.Merging.{at_hand};
ghost use Rattle.bundle_codec.specs.Summaries.{AreNameRanges};
ghost use Rattle.bundle_codec.specs.Loops.SummaryMaking as making;

use super::ids::Ids;
use super::name_ranges::NameRanges;
use super::range::NumberRange;
use op_core::{OpId, ReplicaName};
use std::alloc::{AllocError, Global};
use std::collections::BTreeMap;

// The ranges of each name in the ids of a walk.
pub(crate) fn held_ranges(
    alloc: Global,
    mut ids: Ids<'_>,
) -> Result<BTreeMap<ReplicaName, Vec<NumberRange>>, AllocError>
    requires rising { IsTrue (ids_rise ids) }
    requires each { IsTrue (list_all is_id ids) }
    ensures { IfOk result (making.HoldsRanges ids.entry) }
{
    let mut held = BTreeMap::new(alloc);
    let mut next = ids.next();
    'runs: while let Some(id) = next {
        next = hold_run(alloc, &mut held, id, &mut ids)?;
    }
    // The map's count shows that its keys rise.
    let _ = held.len();
    Ok(held)
}

// Adds the numbers of a run, which begins with an id and goes on with the walk, and answers the id
// after it.
fn hold_run(
    alloc: Global,
    held: &mut BTreeMap<ReplicaName, Vec<NumberRange>>,
    first: OpId,
    ids: &mut Ids<'_>,
) -> Result<Option<OpId>, AllocError>
    ensures { IfOk result (λ next.
        making.HoldsRun first ids.old (at_hand next ids.new) held.old held.new) }
{
    if let Some(ranges) = held.get_mut(&first.name) {
        return push_run(ranges, &first, ids);
    }
    let mut ranges = Vec::new(alloc);
    let next = push_run(&mut ranges, &first, ids)?;
    held.insert(first.name, ranges)?;
    Ok(next)
}

// Adds the numbers of a run to the ranges of its name.
fn push_run(
    ranges: &mut Vec<NumberRange>,
    first: &OpId,
    ids: &mut Ids<'_>,
) -> Result<Option<OpId>, AllocError>
    ensures { IfOk result (λ next. making.AddsRun first.now ids.old (at_hand next ids.new)
        ranges.old.items ranges.new.items) }
{
    let name = first.name.text().as_bytes();
    hold_number(ranges, first.number)?;
    'run: while let Some(id) = ids.next() {
        if !is_of(&id, name) {
            return Ok(Some(id));
        }
        hold_number(ranges, id.number)?;
    }
    Ok(None)
}

fn is_of(id: &OpId, name: &[u8]) -> bool
    ensures { result ≡ same_bytes id.now.name name.now }
{
    id.name.text().as_bytes() == name
}

// Adds a number that is greater than those of the ranges.
fn hold_number(ranges: &mut Vec<NumberRange>, number: u64) -> Result<(), AllocError>
    ensures { OnOk result (ranges.new.items ≡ making.with_last ranges.old.items number) }
{
    let count = ranges.len();
    if count > 0 {
        let last = ranges[count - 1].last;
        if last < number && number - last == 1 {
            ranges[count - 1].last = number;
            return Ok(());
        }
    }
    ranges.push(NumberRange {
        first: number,
        last: number,
    })?;
    Ok(())
}

// The names with their ranges, in the order of names.
pub(crate) fn listed(
    alloc: Global,
    held: BTreeMap<ReplicaName, Vec<NumberRange>>,
) -> Result<Vec<NameRanges>, AllocError>
    requires { AllByRecursion (λ e. making.AreRanges e.1.items) held.entries }
    ensures names { IfOk result (λ names. names.items ≡ making.listed held) }
    ensures valid { IfOk result (λ names. AllByRecursion AreNameRanges names.items) }
{
    let mut names = Vec::new(alloc);
    for (name, ranges) in held {
        names.push(NameRanges::new(name, ranges))?;
    }
    Ok(names)
}
