// How far the chapters of a book are written, by a versification.
ghost use Rattle.std.specs.Prelude.{◌≡◌, ◌≤◌, ◌==◌, ◌&&◌, ◌++◌, IfOk, OnOk, if◌then◌else◌};
ghost use Rattle.std.specs.List.{list_any};
ghost use Rattle.versification.specs.Versifications.{is_verse};
ghost use Rattle.versification.specs.Views.{verses_in};
ghost use Rattle.project_status.specs.Loops.Tallies as counting;
ghost use Rattle.project_status.specs.Progress as progress;
ghost use Rattle.project_status.specs.Progress.{count_to, in_chapter};

use crate::verses::{Verse, verses_of};
use op_core::OpSet;
use std::alloc::{AllocError, Global};
use usfm_ref::Book;
use versification::Versification;

/// How far a chapter is written.
#[derive(Clone, Copy, Debug, PartialEq, Eq)]
pub struct Chapter {
    /// The chapter's number, 0 of what stands before the first chapter's mark.
    pub chapter: u16,
    /// How many of its verses are written.
    pub written: u16,
    /// How many verses there are: those of the versification, or where that does not have the
    /// chapter, as many as the greatest number of a verse that has a text.
    pub verses: u16,
}

// How many chapters a book may have: 0 to 999.
const CHAPTERS: u16 = 1000;

// The greatest number of a verse.
const NUMBERS: u16 = 999;

// What is kept of the verses of a chapter.
#[derive(Clone, Copy, Debug, Default)]
pub(crate) struct Tally {
    // The greatest number.
    greatest: u16,
    // The greatest number that is written.
    reached: u16,
    // How many numbers are written.
    written: u16,
}

/// The chapters of a book, in ascending order: those of the versification, whether they are begun or
/// not, and others in which a verse from 1 on has a text. A verse is written where its text has more
/// than its mark, its number, other marks and blanks. A bridge counts for each of its numbers; a
/// number whose parts stand apart, as 3a and 3b, counts once.
///
/// # Errors
/// Out of memory alone.
pub fn chapters_of(
    alloc: Global,
    versification: &Versification,
    set: &OpSet,
    book: Book,
) -> Result<Vec<Chapter>, AllocError>
    ensures { IfOk result (λ found.
        found.items ≡ progress.chapters_of (verses_in versification.now) set.now book) }
{
    let verses = verses_of(alloc, set, book)?;
    let tallies = tallies_of(alloc, &verses)?;
    let mut found = Vec::new(alloc);
    for chapter in 0..CHAPTERS {
        let tally = tallies[chapter as usize];
        push_chapter(versification, book, chapter, &verses, tally, &mut found)?;
    }
    Ok(found)
}

// Adds the chapter of some verses, of which this is the tally.
fn push_chapter(
    versification: &Versification,
    book: Book,
    chapter: u16,
    verses: &[Verse],
    tally: Tally,
    found: &mut Vec<Chapter>,
) -> Result<(), AllocError>
    requires { chapter ≤ 999 }
    ensures { OnOk result (found.new.items ≡ found.old.items ++ counting.chapter_with
        (verses_in versification.now) book chapter (in_chapter chapter verses.now) tally) }
{
    if versification.last_verse_or_0(book, chapter) == 0 {
        return push_tally(chapter, tally, found);
    }
    found.push(Chapter {
        chapter,
        written: written_count(versification, book, chapter, verses),
        verses: verse_count(versification, book, chapter),
    })?;
    Ok(())
}

// How many verses of the versification are written.
fn written_count(versification: &Versification, book: Book, chapter: u16, verses: &[Verse]) -> u16
    requires { chapter ≤ 999 }
    ensures { result ≡ count_to 999 (progress.is_done (verses_in versification.now) book chapter
        (in_chapter chapter verses.now)) }
{
    let mut count = 0;
    for before in 0..NUMBERS {
        count += one_if(is_done(versification, book, chapter, verses, before + 1));
    }
    count
}

// Whether a verse 0 to 999 is one of the versification, and written.
fn is_done(
    versification: &Versification,
    book: Book,
    chapter: u16,
    verses: &[Verse],
    number: u16,
) -> bool
    requires chapter { chapter ≤ 999 }
    requires verse { number ≤ 999 }
    ensures { result ≡ progress.is_done (verses_in versification.now) book chapter
        (in_chapter chapter verses.now) number }
{
    versification.has_verse(book, chapter, number) && writes(verses, chapter, number)
}

// How many verses the versification has.
fn verse_count(versification: &Versification, book: Book, chapter: u16) -> u16
    requires { chapter ≤ 999 }
    ensures { result ≡ count_to 999 (is_verse (verses_in versification.now) book chapter) }
{
    let mut count = 0;
    for before in 0..NUMBERS {
        count += one_if(versification.has_verse(book, chapter, before + 1));
    }
    count
}

// One, or none.
fn one_if(passes: bool) -> u16
    ensures value { result ≡ (if passes then 1 else 0) }
    ensures small { result ≤ 1 }
{
    if passes { 1 } else { 0 }
}

// Whether a number is written in one of the chapter's verses.
fn writes(verses: &[Verse], chapter: u16, number: u16) -> bool
    ensures { result ≡ list_any (progress.writes number) (in_chapter chapter verses.now) }
{
    is_any_written(verses, chapter, number)
}

// Whether one of the verses is of the chapter and the number is written in it.
fn is_any_written(verses: &[Verse], chapter: u16, number: u16) -> bool
    ensures { result
        ≡ list_any (λ v. v.chapter == chapter && progress.writes number v) verses.now }
{
    verses.iter().any(
        |verse| -> bool
            ensures { result
                ≡ (verse.now.chapter == chapter && progress.writes number verse.now) }
        { verse.chapter == chapter && verse.writes(number) },
    )
}

// Adds the chapter of a tally, if it has a verse.
fn push_tally(chapter: u16, tally: Tally, found: &mut Vec<Chapter>) -> Result<(), AllocError>
    ensures { OnOk result (found.new.items ≡ found.old.items ++ counting.chapter_by chapter tally) }
{
    if tally.greatest == 0 {
        return Ok(());
    }
    found.push(Chapter {
        chapter,
        written: tally.written,
        verses: tally.greatest,
    })?;
    Ok(())
}

// The tally of each chapter. The verses come by rising key.
fn tallies_of(alloc: Global, verses: &[Verse]) -> Result<Vec<Tally>, AllocError>
    requires { counting.AreInTurn verses.now }
    ensures { IfOk result (counting.AreTallies verses.now) }
{
    let mut tallies = vec![in alloc; Tally::default(); CHAPTERS as usize]?;
    for verse in verses {
        let place = verse.chapter as usize;
        if place < tallies.len() {
            tallies[place] = tallies[place].with(verse);
        }
    }
    Ok(tallies)
}

impl Tally {
    // The tally with a verse more, which does not begin before those that were counted.
    fn with(self, verse: &Verse) -> Tally
        requires { self.written ≤ self.reached }
        ensures { result ≡ counting.with_verse self verse.now }
    {
        let greatest = self.greatest.max(verse.last);
        if !verse.written {
            return Tally { greatest, ..self };
        }
        let before = self.reached.max(verse.first.saturating_sub(1));
        Tally {
            greatest,
            reached: self.reached.max(verse.last),
            written: self.written + verse.last.saturating_sub(before),
        }
    }
}
