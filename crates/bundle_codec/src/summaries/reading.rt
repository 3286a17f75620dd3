// Reading a summary in one walk. Where an allocation fails the walk goes on without keeping
// anything, since a fault that comes later is answered before out of memory.
ghost use Rattle.std.specs.Prelude.{◌≡◌, ◌++◌, ◌∷◌, [], Ok, IfOk, IfSome};
ghost use Rattle.std.specs.Option.{IsSomeAnd, option_copied};
ghost use Rattle.bundle_codec.specs.Reading.{Gives, exactly_at, ahead};
ghost use Rattle.bundle_codec.specs.Summaries.{summary_magic};
ghost use Rattle.bundle_codec.specs.SummaryReading as reading;

use super::name_ranges::NameRanges;
use super::range::{NumberRange, begins_after, is_range};
use super::writing::MAGIC;
use crate::fault::BundleFault;
use crate::judging::fields::{block_of, exactly_of, u8_at, u64_at};
use crate::judging::ids::{is_name, made_name};
use std::alloc::Global;

// The bytes after the magic.
#[tactic(auto, unfolding(crate::specs::Summaries::summary_magic))]
fn after_magic(bytes: &[u8]) -> Result<&[u8], BundleFault>
    ensures { Gives (λ r. (tt, r.now)) result (exactly_at summary_magic reading.bad bytes.now) }
{
    exactly_of(&MAGIC, BundleFault::Truncated, bytes)
}

// The range at the front, after one that ends with `before`.
#[tactic(auto, unfolding(crate::specs::SummaryReading::range_at))]
fn range_of(before: Option<u64>, bytes: &[u8]) -> Result<(NumberRange, &[u8]), BundleFault>
    ensures { Gives (λ x. (x.0, x.1.now)) result (reading.range_at before bytes.now) }
{
    let (first, rest) = u64_at(bytes)?;
    let (last, rest) = u64_at(rest)?;
    let range = NumberRange { first, last };
    if !is_range(range) || !begins_after(before, first) {
        return Err(BundleFault::Truncated);
    }
    Ok((range, rest))
}

// The ranges with one more after them, if they were kept and the allocation succeeds.
fn with_range(kept: Option<Vec<NumberRange>>, range: NumberRange) -> Option<Vec<NumberRange>>
    ensures { IfSome result (λ new. IsSomeAnd kept (λ old. new.items ≡ old.items ++ range ∷ [])) }
{
    let mut ranges = kept?;
    ranges.push(range).ok()?;
    Some(ranges)
}

// This many ranges, if memory was there for them, and the bytes after them.
fn ranges_of(
    alloc: Global,
    count: u64,
    bytes: &[u8],
) -> Result<(Option<Vec<NumberRange>>, &[u8]), BundleFault>
    ensures rest { Gives (λ x. x.1.now) result (ahead (reading.ranges_at count bytes.now)) }
    ensures kept { IfOk result (reading.Keeps (reading.ranges_at count bytes.now)) }
{
    let mut kept = Some(Vec::new(alloc));
    let mut before = None;
    let mut rest = bytes;
    for _ in 0..count {
        let (range, left) = range_of(before, rest)?;
        kept = with_range(kept, range);
        before = Some(range.last);
        rest = left;
    }
    Ok((kept, rest))
}

// The name at the front, after the one before it.
#[tactic(auto, unfolding(crate::specs::SummaryReading::name_at))]
fn name_of<'a>(before: Option<&[u8]>, bytes: &'a [u8]) -> Result<(&'a [u8], &'a [u8]), BundleFault>
    ensures { Gives (λ x. (x.0.now, x.1.now)) result
        (reading.name_at (option_copied before.entry) bytes.now) }
{
    let (len, rest) = u8_at(bytes)?;
    if !matches!(len, 1..=32) {
        return Err(BundleFault::Truncated);
    }
    let (name, rest) = block_of(len as u64, rest)?;
    if !is_name(name) || !comes_after(before, name) {
        return Err(BundleFault::Truncated);
    }
    Ok((name, rest))
}

fn comes_after(before: Option<&[u8]>, name: &[u8]) -> bool
    ensures { result ≡ reading.name_after (option_copied before.entry) name.now }
{
    match before {
        None => true,
        Some(before) => before.cmp(name).is_lt(),
    }
}

// The name at the front with its ranges, if memory was there for them, and the bytes after them.
#[tactic(auto, unfolding(crate::specs::SummaryReading::name_ranges_at))]
fn name_ranges_of<'a>(
    alloc: Global,
    before: Option<&[u8]>,
    bytes: &'a [u8],
) -> Result<(&'a [u8], Option<NameRanges>, &'a [u8]), BundleFault>
    ensures rest { let read = reading.name_ranges_at (option_copied before.entry) bytes.now in
        Gives (λ x. (x.0.now, x.2.now)) result (reading.name_read read) }
    ensures kept { let read = reading.name_ranges_at (option_copied before.entry) bytes.now in
        IfOk result (λ x. IfSome x.1 (λ k. read ≡ Ok (k, x.2.now))) }
{
    let (name, rest) = name_of(before, bytes)?;
    let (count, rest) = u64_at(rest)?;
    if count == 0 {
        return Err(BundleFault::Truncated);
    }
    let (ranges, rest) = ranges_of(alloc, count, rest)?;
    let name_ranges = match ranges {
        None => None,
        Some(ranges) => Some(NameRanges::new(made_name(name), ranges)),
    };
    Ok((name, name_ranges, rest))
}

// The names with one more after them, if both were kept and the allocation succeeds.
fn with_name_ranges(
    kept: Option<Vec<NameRanges>>,
    name_ranges: Option<NameRanges>,
) -> Option<Vec<NameRanges>>
    ensures { IfSome result (λ new.
        IsSomeAnd kept (λ old. IsSomeAnd name_ranges (λ k. new.items ≡ old.items ++ k ∷ []))) }
{
    let mut names = kept?;
    names.push(name_ranges?).ok()?;
    Some(names)
}

// The names of a summary, if memory was there for them, and the bytes after it.
#[tactic(auto, unfolding(crate::specs::SummaryReading::summary_at))]
pub(crate) fn summary_of(
    alloc: Global,
    bytes: &[u8],
) -> Result<(Option<Vec<NameRanges>>, &[u8]), BundleFault>
    ensures rest { Gives (λ x. x.1.now) result (ahead (reading.summary_at bytes.now)) }
    ensures kept { IfOk result (reading.Keeps (reading.summary_at bytes.now)) }
{
    let rest = after_magic(bytes)?;
    let (count, rest) = u64_at(rest)?;
    names_of(alloc, count, rest)
}

// This many names with their ranges, if memory was there for them, and the bytes after them.
fn names_of(
    alloc: Global,
    count: u64,
    bytes: &[u8],
) -> Result<(Option<Vec<NameRanges>>, &[u8]), BundleFault>
    ensures rest { Gives (λ x. x.1.now) result (ahead (reading.names_at count bytes.now)) }
    ensures kept { IfOk result (reading.Keeps (reading.names_at count bytes.now)) }
{
    let mut kept = Some(Vec::new(alloc));
    let mut before = None;
    let mut rest = bytes;
    for _ in 0..count {
        let (name, name_ranges, left) = name_ranges_of(alloc, before, rest)?;
        kept = with_name_ranges(kept, name_ranges);
        before = Some(name);
        rest = left;
    }
    Ok((kept, rest))
}
