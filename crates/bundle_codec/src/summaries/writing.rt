// The fields of a summary, appended to bytes.
ghost use Rattle.std.specs.Prelude.{◌≡◌, ◌++◌, IfOk};
ghost use Rattle.std.specs.Int.{w64, to_be_bytes};
ghost use Rattle.bundle_codec.specs.Summaries as sums;

use super::name_ranges::NameRanges;
use super::range::NumberRange;
use std::alloc::AllocError;

pub(crate) static MAGIC: [u8; 8] = *b"USFMSS1\n";

// Appends the magic and how many names follow.
#[tactic(auto, unfolding(crate::specs::Summaries::summary_magic))]
pub(crate) fn push_front(bytes: &mut Vec<u8>, count: u64) -> Result<(), AllocError>
    ensures { let front = sums.summary_magic ++ to_be_bytes w64 count in
        IfOk result (λ _. bytes.new.items ≡ bytes.old.items ++ front) }
{
    bytes.extend_from_slice(&MAGIC)?;
    push_number(bytes, count)
}

fn push_number(bytes: &mut Vec<u8>, number: u64) -> Result<(), AllocError>
    ensures { IfOk result (λ _. bytes.new.items ≡ bytes.old.items ++ to_be_bytes w64 number) }
{
    bytes.extend_from_slice(&number.to_be_bytes())
}

// Appends a name with its ranges.
pub(crate) fn push_name_ranges(
    bytes: &mut Vec<u8>,
    name_ranges: &NameRanges,
) -> Result<(), AllocError>
    ensures { IfOk result (λ _. bytes.new.items
        ≡ bytes.old.items ++ sums.name_ranges name_ranges.now) }
{
    let name = name_ranges.name();
    let name = name.text().as_bytes();
    bytes.extend_from_slice(&[name.len() as u8])?;
    bytes.extend_from_slice(name)?;
    push_ranges(bytes, name_ranges.ranges())
}

// Appends how many ranges there are, and each of them.
fn push_ranges(bytes: &mut Vec<u8>, ranges: &[NumberRange]) -> Result<(), AllocError>
    ensures { IfOk result (λ _.
        bytes.new.items ≡ bytes.old.items ++ sums.counted_ranges ranges.now) }
{
    push_number(bytes, ranges.len() as u64)?;
    for range in ranges {
        push_range(bytes, range)?;
    }
    Ok(())
}

fn push_range(bytes: &mut Vec<u8>, range: &NumberRange) -> Result<(), AllocError>
    ensures { IfOk result (λ _. bytes.new.items ≡ bytes.old.items ++ sums.range range.now) }
{
    push_number(bytes, range.first)?;
    push_number(bytes, range.last)
}
