// Which verses of a chapter are missing or there twice, and what goes beyond the versification.
ghost use Rattle.std.specs.Prelude.{◌≡◌, ◌≤◌, ◌<◌, ◌==◌, ◌&&◌, not, nat_le, length, slice_index_or, IfOk};
ghost use Rattle.std.specs.List.{list_any};
ghost use Rattle.versification.specs.Versifications.{is_verse, last_verse_or_0};
ghost use Rattle.versification.specs.Views.{verses_in};
ghost use Rattle.missing_verses.specs.Loops.Tallies.{none_counted};
ghost use Rattle.missing_verses.specs.Numbers as numbers;

use crate::tally::{Tally, tallies_of};
use covered_verses::Covered;
use std::alloc::{AllocError, Global};
use usfm_ref::Book;
use versification::Versification;

// Numbers of verses are 0 to 999.
const NUMBERS: u16 = 1000;

// A chapter of a book by a versification.
#[derive(Clone, Copy, Debug)]
pub(crate) struct Chapter<'v> {
    pub(crate) versification: &'v Versification,
    pub(crate) book: Book,
    pub(crate) number: u16,
}

impl Chapter<'_> {
    // Whether the versification has the chapter's verse of a number 0 to 999.
    fn has_verse(&self, number: u16) -> bool
        requires chapter { self.now.number ≤ 999 }
        requires verse { number ≤ 999 }
        ensures { result ≡ is_verse (verses_in self.now.versification.now) self.now.book
            self.now.number number }
    {
        self.versification.has_verse(self.book, self.number, number)
    }

    // Whether a verse of this tally, which the versification has, is not there.
    fn misses(&self, number: u16, tally: Tally) -> bool
        requires chapter { self.now.number ≤ 999 }
        requires verse { number ≤ 999 }
        ensures { result ≡ (is_verse (verses_in self.now.versification.now)
            self.now.book self.now.number number && not tally.there) }
    {
        self.has_verse(number) && !tally.there
    }

    // Whether a verse is covered that the versification, which has the book, does not have.
    pub(crate) fn is_exceeded(&self, one: &Covered) -> bool
        requires { self.now.number ≤ 999 }
        ensures { result ≡ numbers.exceeds (verses_in self.now.versification.now) self.now.book
            self.now.number one.now }
    {
        self.is_known() && self.lacks_any(one)
    }

    // Whether a verse from 1 on is covered that the versification does not have.
    fn lacks_any(&self, one: &Covered) -> bool
        requires { self.now.number ≤ 999 }
        ensures { result ≡ list_any (numbers.is_extra (verses_in self.now.versification.now)
            self.now.book self.now.number one.now) (numbers.below 1000) }
    {
        let mut found = false;
        for number in 0..NUMBERS {
            found |= self.lacks(number, one);
        }
        found
    }

    // Whether a verse is covered, is one from 1 on, and the versification does not have it.
    fn lacks(&self, number: u16, one: &Covered) -> bool
        requires chapter { self.now.number ≤ 999 }
        requires verse { number ≤ 999 }
        ensures { result ≡ numbers.is_extra (verses_in self.now.versification.now) self.now.book
            self.now.number one.now number }
    {
        1 <= number && one.first <= number && number <= one.last && !self.has_verse(number)
    }

    // Whether the versification has a verse of the chapter at all.
    pub(crate) fn has_verses(&self) -> bool
        ensures { result ≡ not (last_verse_or_0 (verses_in self.now.versification.now)
            self.now.book self.now.number == 0) }
    {
        self.versification.last_verse_or_0(self.book, self.number) != 0
    }

    // Whether the versification has the book.
    fn is_known(&self) -> bool
        ensures { result ≡ numbers.knows (verses_in self.now.versification.now) self.now.book }
    {
        self.versification.chapters(self.book) != 0
    }
}

// For each number of a verse whether that verse is missing, and whether it is there twice.
#[derive(Debug, Drop)]
pub(crate) struct Found {
    pub(crate) missing: Vec<bool>,
    pub(crate) twice: Vec<bool>,
}

// What is found of a chapter in which this is covered.
pub(crate) fn found_in(
    alloc: Global,
    chapter: &Chapter<'_>,
    covers: &[Covered],
) -> Result<Found, AllocError>
    requires { chapter.now.number ≤ 999 }
    ensures missing { IfOk result (λ found. found.missing.items ≡ numbers.flags
        (numbers.is_missing (verses_in chapter.now.versification.now) chapter.now.book
        chapter.now.number covers.now)) }
    ensures twice { IfOk result (λ found. found.twice.items
        ≡ numbers.flags (numbers.is_doubled covers.now)) }
{
    let tallies = tallies_of(alloc, covers)?;
    let mut missing = Vec::new(alloc);
    let mut twice = Vec::new(alloc);
    for number in 0..NUMBERS {
        let tally = tally_at(&tallies, number);
        missing.push(chapter.misses(number, tally))?;
        twice.push(is_doubled(number, tally))?;
    }
    Ok(Found { missing, twice })
}

// Whether a number from 1 on is covered twice by its tally.
fn is_doubled(number: u16, tally: Tally) -> bool
    ensures { result ≡ (nat_le 1 number && tally.twice) }
{
    1 <= number && tally.twice
}

// The tally of a number.
fn tally_at(tallies: &[Tally], number: u16) -> Tally
    requires { number < length tallies.now }
    ensures { result ≡ slice_index_or tallies.now number none_counted }
{
    tallies[usize::from(number)]
}
