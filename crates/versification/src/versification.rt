ghost use Rattle.std.specs.Prelude.{◌≡◌, ◌≤◌, ◌∷◌, ◌==◌, not, length, option_map};
ghost use Rattle.std.specs.List.{prefix_len};
ghost use Rattle.versification.specs.Lines.{line_of};
ghost use Rattle.versification.specs.Loops.Tables.{said_left};
ghost use Rattle.versification.specs.Versifications as versifications;
ghost use Rattle.versification.specs.Versifications.{versification_of};
ghost use Rattle.versification.specs.Views.{Gives, verses_in};

use crate::fault::VersificationFault;
use crate::line::line_of;
use crate::reading::{after_feff, keep};
use std::alloc::Global;
use std::collections::{BTreeMap, BTreeSet};
use usfm_ref::{Book, Key, Place, Segment};

/// A versification: how many verses each chapter of its books has, and which verses it leaves out.
#[derive(Debug, Drop)]
pub struct Versification {
    // Its books in the order of their lines.
    named: Vec<Book>,
    books: BTreeMap<Book, Vec<u16>>,
    left_out: BTreeSet<Segment>,
}

impl Versification {
    /// The versification that a file in the form of Paratext's `.vrs` has.
    ///
    /// Line feeds divide lines, and blanks (space, tab, CR, LF) divide a line's words. A U+FEFF at
    /// the front of the file is passed over, and so is a line without words, one whose first word
    /// begins with `#` or `*`, and one with the word `=`. Each other line is a book's code, and
    /// after it `1:V 2:V ..`, the last verse of each chapter from 1 on, one at least; or it is `-`
    /// and directly after that a book's code, and then `C:V`, a verse that is left out. Numbers
    /// have one to three digits. A book's last line counts.
    ///
    /// # Errors
    /// `BadLine` exactly where a line has none of these forms, with the first such line, or
    /// `Memory` where an allocation failed.
    pub fn read(alloc: Global, file: &[u8]) -> Result<Versification, VersificationFault>
        ensures { Gives result (versification_of file.now) }
    {
        let mut named = Vec::new(alloc);
        let mut books = BTreeMap::new(alloc);
        let mut left_out = BTreeSet::new(alloc);
        let mut number: usize = 0;
        let mut left = Some(after_feff(file));
        'lines: while let Some(bytes) = left {
            let (line, later) = split_line(bytes);
            number += 1;
            match line_of(alloc, line)? {
                Some(said) => keep(&mut named, &mut books, &mut left_out, said)?,
                None => return Err(VersificationFault::BadLine { line: number }),
            }
            left = later;
        }
        Ok(Versification {
            named,
            books,
            left_out,
        })
    }

    /// Its books in the order of their lines, one as often as it has a line. It does not allocate.
    pub fn books(&self) -> &[Book]
        ensures { result.now ≡ (verses_in self.now).books }
    {
        &self.named
    }

    /// The last verse of each chapter of a book, from chapter 1 on; empty where the versification
    /// does not have the book. It does not allocate.
    pub fn last_verses(&self, book: Book) -> &[u16]
        ensures { result.now ≡ (verses_in self.now).last_verses book }
    {
        match self.books.get(&book) {
            Some(verses) => verses.as_slice(),
            None => &[],
        }
    }

    /// The last verse of a chapter of a book; none where the versification does not have that
    /// chapter. It does not allocate.
    pub fn last_verse(&self, book: Book, chapter: u16) -> Option<u16>
        ensures { result ≡ versifications.last_verse (verses_in self.now) book chapter }
    {
        if chapter == 0 {
            return None;
        }
        self.last_verses(book)
            .get(usize::from(chapter) - 1)
            .copied()
    }

    /// How many chapters a book has, 0 where the versification does not have the book. It does not
    /// allocate.
    pub fn chapters(&self, book: Book) -> usize
        ensures { result ≡ length ((verses_in self.now).last_verses book) }
    {
        self.last_verses(book).len()
    }

    /// The last verse of a chapter of a book, 0 where the versification does not have that chapter.
    /// It does not allocate.
    pub fn last_verse_or_0(&self, book: Book, chapter: u16) -> u16
        ensures { result ≡ versifications.last_verse_or_0 (verses_in self.now) book chapter }
    {
        self.last_verse(book, chapter).unwrap_or(0)
    }

    /// Whether it has a verse 0 to 999 of a chapter 0 to 999: one from 1 to the chapter's last that
    /// is not left out. It does not allocate.
    pub fn has_verse(&self, book: Book, chapter: u16, verse: u16) -> bool
        requires chapter { chapter ≤ 999 }
        requires verse { verse ≤ 999 }
        ensures { result ≡ versifications.is_verse (verses_in self.now) book chapter verse }
    {
        1 <= verse
            && verse <= self.last_verse_or_0(book, chapter)
            && !self.is_left_out(book, chapter, verse)
    }

    /// Whether the versification leaves out a verse 0 to 999 of a chapter 0 to 999. It does not
    /// allocate.
    pub fn is_left_out(&self, book: Book, chapter: u16, verse: u16) -> bool
        requires chapter { chapter ≤ 999 }
        requires verse { verse ≤ 999 }
        ensures { result ≡ versifications.is_left_out (verses_in self.now) book chapter verse }
    {
        let place = Place::Verse {
            number: verse,
            letter: None,
        };
        let key = Key { chapter, place };
        self.left_out.contains(&Segment { book, key })
    }
}

// The line at the front, and what comes after the line feed that ends it, if one does.
fn split_line(bytes: &[u8]) -> (&[u8], Option<&[u8]>)
    ensures { versifications.said_in bytes.now
        ≡ line_of result.0.now ∷ said_left (option_map (λ b. b.now) result.1) }
{
    let (line, rest) = bytes.split_at(line_len(bytes));
    match rest {
        [_, later @ ..] => (line, Some(later)),
        [] => (line, None),
    }
}

// How many bytes come before the first line feed, or the end.
fn line_len(bytes: &[u8]) -> usize
    ensures value { result ≡ prefix_len (λ b. not (b == 10)) bytes.now }
    ensures within { result ≤ length bytes.now }
{
    bytes.iter().take_while(|byte| **byte != b'\n').count()
}
