// How many ids a summary covers.
ghost use Rattle.std.specs.Prelude.{◌≡◌, ◌≤◌};
ghost use Rattle.op_core.specs.Ids.{last_number};
ghost use Rattle.bundle_codec.specs.Summaries as sums;

use super::name_ranges::NameRanges;

// How many ids names with their ranges have.
pub(crate) fn ids_in(names: &[NameRanges]) -> u128
    ensures { result ≡ sums.ids_in names.now }
{
    let mut total = 0u128;
    for name_ranges in names {
        total += u128::from(numbers_in(name_ranges));
    }
    total
}

// How many numbers the ranges of a name have.
fn numbers_in(name_ranges: &NameRanges) -> u64
    ensures count { result ≡ sums.numbers_in name_ranges.now }
    ensures within { result ≤ last_number }
{
    // The name shows that the ranges lie apart, so no number is counted twice.
    let _ = name_ranges.name();
    let mut total = 0;
    for range in name_ranges.ranges() {
        total += range.last - range.first + 1;
    }
    total
}
