//! That `cmp` of books, of keys and of segments is the order that this project defines, that a text
//! has one number of a chapter or verse at most, and that references are read as they are written.
//! Each function does nothing: its contract is the law.
ghost use Rattle.std.specs.Prelude.{◌≡◌, List, ℕ};
ghost use Rattle.usfm_ref.specs.Books.{book_cmp};
ghost use Rattle.usfm_ref.specs.Keys.{KeyParts, key_cmp};
ghost use Rattle.usfm_ref.specs.Numbers.{ChaptersAreRead, OneChapter, OneVerse, VersesAreRead};
ghost use Rattle.usfm_ref.specs.References.{KeysAreRead, ReadsWhatIsWritten, WritesWhatIsRead};
ghost use Rattle.usfm_ref.specs.Segments.{segment_cmp};

use crate::book::Book;
use crate::key::Key;
use crate::segment::Segment;

/// Books go by the canon, and then by their bytes.
pub fn books_are_ordered()
    ensures { (a b : List ℕ) → ⟦<Book as Ord>⟧.cmp a b ≡ book_cmp a b }
{}

/// Keys go by chapter, then the head before the verses, then by number, then by letter.
pub fn keys_are_ordered()
    ensures { (a b : KeyParts) → ⟦<Key as Ord>⟧.cmp a b ≡ key_cmp a b }
{}

/// Segments go by book, and then by key.
pub fn segments_are_ordered()
    ensures { (a b : Segment) → ⟦<Segment as Ord>⟧.cmp a b ≡ segment_cmp a b }
{}

/// A text has at most one number of a chapter.
pub fn one_chapter()
    ensures { OneChapter }
{}

/// A text has at most one verse, with one bridge or none, and one length of what is read.
pub fn one_verse()
    ensures { OneVerse }
{}

/// `chapter_in`, which reads from the left, gives exactly the number that the grammar has.
pub fn chapters_are_read()
    ensures { ChaptersAreRead }
{}

/// `verse_in`, which reads from the left, gives exactly the verse that the grammar has.
pub fn verses_are_read()
    ensures { VersesAreRead }
{}

/// The text of each key is read as that key, and no other text is.
pub fn keys_are_read()
    ensures { KeysAreRead }
{}

/// The text of each book and key is read as that book and key.
pub fn what_is_written_is_read()
    ensures { ReadsWhatIsWritten }
{}

/// Each text that is read as a book and a key is the text of them.
pub fn what_is_read_is_written()
    ensures { WritesWhatIsRead }
{}
