ghost use Rattle.std.specs.Prelude.{◌≡◌, ◌<◌, ◌≤◌, is_some, IsTrue};
ghost use Rattle.std.specs.List.{list_all};
ghost use Rattle.bundle_codec.specs.Summaries.{is_range, are_apart, has_number};
ghost use Rattle.bundle_codec.specs.SummaryReading.{begins_after};

use op_core::LAST_NUMBER;

// Numbers from the first to the last, both ends among them.
#[derive(Clone, Copy, Debug)]
pub(crate) struct NumberRange {
    pub(crate) first: u64,
    pub(crate) last: u64,
}

// Whether both ends are from 1 to 10^15, and in order.
pub(crate) fn is_range(range: NumberRange) -> bool
    ensures { result ≡ is_range range }
{
    1 <= range.first && range.first <= range.last && range.last <= LAST_NUMBER
}

// Whether a range that begins here does not touch the one before it.
pub(crate) fn begins_after(before: Option<u64>, first: u64) -> bool
    ensures { result ≡ begins_after before first }
{
    match before {
        None => true,
        Some(last) => last < first && first - last > 1,
    }
}

// The place of the range in which the number lies, if there is one. The range at `near` is looked
// at first, and the one after it; then comes a binary search.
pub(crate) fn find_range(ranges: &[NumberRange], number: u64, near: usize) -> Option<usize>
    requires each { IsTrue (list_all is_range ranges.now) }
    requires apart { IsTrue (are_apart ranges.now) }
    ensures { is_some result ≡ has_number ranges.now number }
{
    let mut low = 0;
    let mut high = ranges.len();
    'halves: while low < high {
        let middle = look(low, high, near);
        let range = ranges[middle];
        if number < range.first {
            high = middle;
        } else if range.last < number {
            low = middle + 1;
        } else {
            return Some(middle);
        }
    }
    None
}

// Where a search looks next, from `low` to below `high`: at a place, at the one after it, and then
// halfway.
pub(crate) fn look(low: usize, high: usize, near: usize) -> usize
    requires { low < high }
    ensures at_least { low ≤ result }
    ensures below { result < high }
{
    if low <= near && near < high {
        near
    } else if near < low && low - near == 1 {
        low
    } else {
        low + (high - low) / 2
    }
}
