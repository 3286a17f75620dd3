// Names of days, and which of those that are kept are left, and which answers.
ghost use Rattle.std.specs.Prelude.{◌≡◌, filter, map, string_bytes, IfOk, OnOk, ◌++◌, ◌∷◌, []};
ghost use Rattle.std.specs.Char.{is_ascii_digit};
ghost use Rattle.std.specs.List.{list_all};
ghost use Rattle.std.specs.List.Sorted.{IsPermutation};
ghost use Rattle.kept_days.specs.Days as named;
ghost use Rattle.kept_days.specs.Days.{texts};

use std::alloc::{AllocError, Global};

/// How many days are kept: so many of the newest.
pub const MOST_DAYS: usize = 400;

/// Whether a name is spelled as a day: `2026-11-24`. It does not allocate.
pub fn is_day(name: &str) -> bool
    ensures { result ≡ named.is_day name.now }
{
    let name = name.as_bytes();
    if name.len() != 10 {
        return false;
    }
    if name[4] != b'-' || name[7] != b'-' {
        return false;
    }
    are_digits(&name[..4]) && are_digits(&name[5..7]) && are_digits(&name[8..])
}

fn are_digits(bytes: &[u8]) -> bool
    ensures { result ≡ list_all is_ascii_digit bytes.now }
{
    bytes.iter().all(|byte| byte.is_ascii_digit())
}

/// The names that are spelled as days, in the order of the days.
///
/// # Errors
///
/// Out of memory alone.
pub fn days_of<'a>(alloc: Global, names: &'a [String]) -> Result<Vec<&'a str>, AllocError>
    ensures permutation { IfOk result (λ days. IsPermutation
        (filter named.is_day (map (λ n. string_bytes n) names.now)) (texts days.items)) }
    ensures rising { IfOk result (λ days. named.AreInOrder (texts days.items)) }
{
    let mut days = day_names(alloc, names)?;
    days.sort_unstable();
    Ok(days)
}

// The names that are spelled as days, in their order.
fn day_names<'a>(alloc: Global, names: &'a [String]) -> Result<Vec<&'a str>, AllocError>
    ensures { IfOk result (λ days. texts days.items
        ≡ filter named.is_day (map (λ n. string_bytes n) names.now)) }
{
    let mut days = Vec::new(alloc);
    for name in names {
        push_if_day(&mut days, name)?;
    }
    Ok(days)
}

fn push_if_day<'a>(days: &mut Vec<&'a str>, name: &'a str) -> Result<(), AllocError>
    ensures { OnOk result (texts days.new.items
        ≡ texts days.old.items ++ filter named.is_day (name.now ∷ [])) }
{
    if is_day(name) {
        days.push(name)?;
    }
    Ok(())
}

/// Of days in their order, those that are not before one that is asked for: the first of them
/// answers for it, and where that cannot be read, the next. It does not allocate.
pub fn days_from<'d, 'a>(days: &'d [&'a str], asked: &str) -> &'d [&'a str]
    ensures { texts result.now ≡ named.from_day asked.now (texts days.now) }
{
    let mut left = days;
    while let [first, later @ ..] = left {
        if !is_before(first, asked) {
            return left;
        }
        left = later;
    }
    left
}

fn is_before(day: &str, other: &str) -> bool
    ensures { result ≡ named.is_before day.now other.now }
{
    day < other
}

/// Of days in their order, those that are kept no more: all but the newest `MOST_DAYS`. It does not
/// allocate.
pub fn days_to_go<'d, 'a>(days: &'d [&'a str]) -> &'d [&'a str]
    ensures { texts result.now ≡ named.to_go (texts days.now) }
{
    &days[..days.len().saturating_sub(MOST_DAYS)]
}
