// The segments for which a file is asked about, as a person is told them.
ghost use Rattle.std.specs.Prelude.{◌≡◌, ◌++◌, IfOk, IfSome, IsTrue, OnOk, map, nat_eq, option_map};
ghost use Rattle.std.specs.List.{find};
ghost use Rattle.usfm_ref.specs.Keys.{key_cmp};
ghost use Rattle.usfm_ref.specs.Rising.{rises_by};
ghost use Rattle.usfm_ref.specs.Segments.{segment};
ghost use Rattle.op_core.specs.Shown.{pick};
ghost use Rattle.verse_cut.specs.Views.{pieces_view};
ghost use Rattle.book_folder.specs.Files.{file_view, files_view};
ghost use Rattle.book_folder.specs.Questions as questions;
ghost use Rattle.book_folder.specs.Refusals.{AnswersBy};
ghost use Rattle.book_folder.specs.Taking as taking;
ghost use Rattle.book_folder.specs.Wanted.{seen_view, wishes_view};

use crate::asks::{AskedKeys, asked};
use crate::begun::{Begun, begin};
use crate::coming::{earlier_bases, older_bases};
use crate::files::{BookFile, book_files, text_if};
use crate::refusal::Refusal;
use crate::restored::{in_manner_of, restored_pieces};
use crate::seen::{Seen, Wishes};
use crate::stale::rebase_if_stale;
use crate::taking::{Beside, export_of};
use op_core::{Cursor, Picked, ReplicaName};
use replica_state::Replica;
use std::alloc::{AllocError, Global};
use usfm_ref::{Book, Key};

/// A segment for which a file is asked about.
#[derive(Clone, Copy, Debug)]
pub struct AskedSegment {
    /// The file's book.
    pub book: Book,
    /// The segment's key.
    pub key: Key,
    /// Whose text the file's base has there; none where that is a chapter's line.
    pub name: Option<ReplicaName>,
}

/// The segments for which a file is asked about, where `make_plan` refuses it with `Undone` or
/// `Emptied`: those that it undoes, by rising keys, or else those whose text is gone. There are as
/// many as the fault says; none where there is no file of this place, or nothing is asked about it.
///
/// # Errors
/// What `make_plan` refuses of the project and of the bases; `Memory` where an allocation failed.
pub fn asked_segments(
    alloc: Global,
    seen: &Seen<'_>,
    wishes: &Wishes,
    at: usize,
) -> Result<Vec<AskedSegment>, Refusal>
    ensures { AnswersBy (λ made. map questions.segment_view made.items)
        (questions.asked_segments (seen_view seen.now) (wishes_view wishes.now) at) result }
{
    let files = book_files(alloc, seen)?;
    asked_among(alloc, seen, wishes, &files, at)
}

// The same by the files of books.
fn asked_among(
    alloc: Global,
    seen: &Seen<'_>,
    wishes: &Wishes,
    files: &[BookFile<'_>],
    at: usize,
) -> Result<Vec<AskedSegment>, Refusal>
    ensures { AnswersBy (λ made. map questions.segment_view made.items) (questions.asked_among
        (seen_view seen.now) (wishes_view wishes.now) (files_view files.now) at) result }
{
    let begun = begin(alloc, seen, wishes)?;
    let older = older_bases(alloc, begun.base.name(), &earlier_bases(alloc, seen)?)?;
    let begun = rebase_if_stale(alloc, wishes, begun, &older, files)?;
    Ok(asked_at(alloc, &begun, &older, wishes, files, at)?)
}

// The segments for which the file of this place is asked about.
fn asked_at(
    alloc: Global,
    begun: &Begun,
    older: &[Replica],
    wishes: &Wishes,
    files: &[BookFile<'_>],
    at: usize,
) -> Result<Vec<AskedSegment>, AllocError>
    ensures { let file = find (λ f. nat_eq f.at at) (files_view files.now) in
        IfOk result (λ made. map questions.segment_view made.items
        ≡ questions.asked_if begun.now.base begun.now.replica.name older.now
        (wishes_view wishes.now) file) }
{
    match file_at(files, at) {
        Some(file) => asked_of(alloc, begun, older, wishes, file),
        None => Ok(Vec::new(alloc)),
    }
}

// The file of this place.
fn file_at<'f, 'a>(files: &'f [BookFile<'a>], at: usize) -> Option<&'f BookFile<'a>>
    ensures { option_map (λ f. file_view f.now) result
        ≡ find (λ f. nat_eq f.at at) (files_view files.now) }
{
    let mut left = files;
    'files: while let [file, later @ ..] = left {
        if file.at == at {
            return Some(file);
        }
        left = later;
    }
    None
}

// The segments for which a file is asked about.
fn asked_of(
    alloc: Global,
    begun: &Begun,
    older: &[Replica],
    wishes: &Wishes,
    file: &BookFile<'_>,
) -> Result<Vec<AskedSegment>, AllocError>
    ensures { IfOk result (λ made. map questions.segment_view made.items
        ≡ questions.asked_of begun.now.base begun.now.replica.name older.now
        (wishes_view wishes.now) (file_view file.now)) }
{
    let base = &begun.base;
    let Some(text) = text_if(file.bytes) else {
        return Ok(Vec::new(alloc));
    };
    let Some(was) = export_of(alloc, base, file.book)? else {
        return Ok(Vec::new(alloc));
    };
    let text = in_manner_of(alloc, &was, text)?;
    let pieces = restored_pieces(alloc, base, file.book, &text)?;
    let beside = Beside {
        base,
        older,
        wishes,
    };
    match asked(alloc, &beside, begun.replica.name(), file.book, &pieces)? {
        Some(AskedKeys { keys, .. }) => segments(alloc, base, file.book, &keys),
        None => Ok(Vec::new(alloc)),
    }
}

// Segments of a book, each with the name of whose text a base has there.
fn segments(
    alloc: Global,
    base: &Replica,
    book: Book,
    keys: &[Key],
) -> Result<Vec<AskedSegment>, AllocError>
    ensures { IfOk result (λ made. map questions.segment_view made.items
        ≡ map (questions.segment_asked base.now.held book) keys.now) }
{
    AskedSegments {
        base: base.set().cursor(),
        book,
        left: keys,
    }
    .collect(alloc)
}

// The segments that are not given yet.
#[derive(Drop)]
struct AskedSegments<'k, 'a> {
    base: Cursor<'a>,
    book: Book,
    left: &'k [Key],
}

impl<'k, 'a> Iterator for AskedSegments<'k, 'a> {
    ghost use Rattle.std.specs.Iterator.{YieldsFirstBy, item_count};
    ghost use Rattle.book_folder.specs.Questions.{segment_view};
    ghost use Rattle.book_folder.specs.QuestionLoops.{segments_left};

    type Item = AskedSegment;

    ghost next_gives = { YieldsFirstBy segment_view segments_left };

    ghost remaining = { item_count segments_left };

    fn next(&mut self) -> Option<AskedSegment> {
        let key = *self.left.first()?;
        self.left = &self.left[1..];
        let book = self.book;
        let name = name_at(&mut self.base, book, key);
        Some(AskedSegment { book, key, name })
    }
}

// Whose text is picked for a key.
fn name_at(cursor: &mut Cursor<'_>, book: Book, key: Key) -> Option<ReplicaName>
    ensures name { result ≡ questions.name_of (pick cursor.old (segment book key)) }
    ensures same { cursor.new ≡ cursor.old }
{
    match cursor.pick(book, key) {
        Picked::Held(op) => Some(op.id().name),
        _ => None,
    }
}
