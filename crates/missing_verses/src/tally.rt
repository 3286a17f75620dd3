// How often each number of a chapter's verses is covered.
ghost use Rattle.std.specs.Prelude.{◌≡◌, ◌<◌, ℕ, length, slice_index_or, IfOk};
ghost use Rattle.missing_verses.specs.Loops.Tallies as counting;
ghost use Rattle.missing_verses.specs.Numbers as numbers;

use covered_verses::Covered;
use std::alloc::{AllocError, Global};

// Numbers of verses are 0 to 999.
const NUMBERS: usize = 1000;

// What is kept of a number.
#[derive(Clone, Copy, Debug, Default)]
pub(crate) struct Tally {
    // Whether something covers it.
    pub(crate) there: bool,
    // The part up to which a bridge covers it, counted from 1; 0 where none does.
    reach: u16,
    // Whether a bridge and another one cover it.
    pub(crate) twice: bool,
}

// The tally of each number.
pub(crate) fn tallies_of(alloc: Global, covers: &[Covered]) -> Result<Vec<Tally>, AllocError>
    ensures { IfOk result (λ tallies. counting.AreTallies covers.now tallies.items) }
{
    let mut tallies = vec![in alloc; Tally::default(); NUMBERS]?;
    for one in covers {
        count(&mut tallies, one);
    }
    Ok(tallies)
}

// Counts what is covered.
fn count(tallies: &mut Vec<Tally>, one: &Covered)
    ensures { counting.Counts one.now tallies.old.items tallies.new.items }
{
    let end = (usize::from(one.last) + 1).min(tallies.len());
    for number in usize::from(one.first)..end {
        tallies[number] = tallies[number].with(number, one);
    }
}

impl Tally {
    // The tally of a number with one more that may cover it.
    fn with(self, number: usize, one: &Covered) -> Tally
        ensures { result ≡ counting.counted number one.now self }
    {
        if number < usize::from(one.first) || usize::from(one.last) < number {
            return self;
        }
        Tally {
            there: true,
            reach: self.reach.max(reach_of(number, one)),
            twice: self.twice || from_part(number, one) < self.reach,
        }
    }
}

// The part up to which a bridge covers a number, counted from 1; 0 of what is no bridge.
fn reach_of(number: usize, one: &Covered) -> u16
    ensures { result ≡ counting.reach_of number one.now }
{
    if one.first < one.last {
        to_part(number, one) + 1
    } else {
        0
    }
}

// The letter of the part of a number with which it begins, 0 where that is at the verse's front.
fn from_part(number: usize, one: &Covered) -> u16
    ensures { result ≡ numbers.from_part number one.now }
{
    if usize::from(one.first) == number {
        u16::from(one.letter.unwrap_or(0))
    } else {
        0
    }
}

// The letter of the part of a number with which it ends, 255 where that is at the verse's end.
fn to_part(number: usize, one: &Covered) -> u16
    ensures value { result ≡ numbers.to_part number one.now }
    ensures small { result < 256 }
{
    if usize::from(one.last) == number {
        u16::from(one.last_letter.unwrap_or(255))
    } else {
        255
    }
}
