// A folder's files, taken into a project.
ghost use Rattle.std.specs.Prelude.{◌≡◌, ◌++◌, IfOk, IfSome, IsTrue, IsUtf8, OnOk, filter};
ghost use Rattle.std.specs.Prelude.{is_some, map};
ghost use Rattle.usfm_ref.specs.Keys.{key_cmp};
ghost use Rattle.usfm_ref.specs.Rising.{rises_by};
ghost use Rattle.verse_cut.specs.Views.{pieces_view};
ghost use Rattle.op_core.specs.CutsBack.{picked_at};
ghost use Rattle.op_core.specs.Export as exports;
ghost use Rattle.usfm_ref.specs.Books.{same_bytes};
ghost use Rattle.book_folder.specs.Files.{file_view};
ghost use Rattle.book_folder.specs.Refusals.{AnswersBy};
ghost use Rattle.book_folder.specs.Taking as taking;
ghost use Rattle.book_folder.specs.Wanted.{wanted_view, wishes_view};
ghost use Rattle.book_folder.specs.declared.refusal.FolderFault.TheVariants.{
  Emptied,
  NotText,
  Undone,
};
ghost use Rattle.book_folder.specs.declared.refusal.Refusal.TheVariants.{Of};
ghost use Rattle.usfm_token.specs.View.{valid_of};
ghost use Rattle.book_folder.specs.AsWritten as written;
ghost use Rattle.replica_state.specs.States.{IsState};

use crate::asks::asked;
use crate::books::is_book;
use crate::changed::changes;
use crate::files::{BookFile, book_begun};
use crate::likes::{LineEnds, is_like};
use crate::refusal::{FolderFault, Place, Refusal};
use crate::restored::{in_manner_of, restored_pieces};
use crate::seen::{Wanted, Wishes};
use op_core::{Cursor, Picked, chapter_line};
use replica_state::{Replica, piece_at};
use std::alloc::{AllocError, Global};
use usfm_export::{TextFault, book_text};
use usfm_ref::{Book, Key};
use usfm_token::{TokenFault, read_text};
use verse_cut::{Piece, cut};

// A segment for which a file has another text than the base that it was written from shows, and
// that text.
#[derive(Debug, Drop)]
pub(crate) struct Stood {
    pub(crate) book: Book,
    pub(crate) key: Key,
    pub(crate) text: String,
}

// What files are taken in beside.
#[derive(Clone, Copy, Debug)]
pub(crate) struct Beside<'a> {
    // What the files were written from.
    pub(crate) base: &'a Replica,
    // The bases before it, the newest first.
    pub(crate) older: &'a [Replica],
    pub(crate) wishes: &'a Wishes,
}

// Takes in what was changed in a file, and says how many edits that is.
#[tactic(auto, unfolding(crate::specs::Taking::taken_in))]
pub(crate) fn take_in(
    alloc: Global,
    replica: &mut Replica,
    beside: &Beside<'_>,
    file: &BookFile<'_>,
    stood: &mut Vec<Stood>,
) -> Result<u64, Refusal>
    ensures { let wanted = taking.taken_in replica.old beside.now.base.now beside.now.older.now
        (wishes_view beside.now.wishes.now) (map taking.stood_view stood.old.items)
        (file_view file.now) in
        taking.AnswersTaken wanted replica.new (map taking.stood_view stood.new.items) result }
{
    let place = Place::File(file.at);
    let text = text_of(place, file.bytes)?;
    match export_of(alloc, beside.base, file.book)? {
        Some(was) => {
            if is_untouched(replica, beside, &was, file) {
                // Nothing comes in, as is proved, and no piece has to be looked at.
                return Ok(0);
            }
            let text = in_manner_of(alloc, &was, text)?;
            let pieces = restored_pieces(alloc, beside.base, file.book, &text)?;
            take_changed(alloc, replica, beside, file, &pieces, stood)
        }
        None => take_strange(alloc, replica, file, text, stood),
    }
}

// Whether nothing comes in of a file that got a text: it is to settle nothing, and is as it was
// written.
fn is_untouched(replica: &Replica, beside: &Beside<'_>, was: &[u8], file: &BookFile<'_>) -> bool
    ensures untouched { let wanted = (wishes_view beside.now.wishes.now).settled in
        result ≡ written.is_untouched wanted was.now file.now.book file.now.bytes.now }
    ensures replica { IsState replica.now }
    ensures base { IsState beside.now.base.now }
{
    // The names show that the replica and the base are within their rules.
    let _ = replica.name();
    let _ = beside.base.name();
    beside.wishes.settles_none() && is_as_written(was, file)
}

// Whether a file is as it was written: like the text that it got, which begins with its book's
// `\id`, and all lines of which end in one manner.
fn is_as_written(was: &[u8], file: &BookFile<'_>) -> bool
    ensures { result ≡ written.is_as_written was.now file.now.book file.now.bytes.now }
{
    is_book(book_begun(was), file.book)
        && LineEnds::of(was) != LineEnds::Mixed
        && is_like(was, file.bytes)
}

// A file's text.
fn text_of(place: Place, bytes: &[u8]) -> Result<&str, Refusal>
    ensures { AnswersBy (λ text. text.now) (taking.text_or place bytes.now) result }
{
    match read_text(bytes) {
        Ok(text) => Ok(text),
        Err(fault) => Err(not_text(place, fault)),
    }
}

// The refusal of bytes that are no text.
fn not_text(place: Place, fault: TokenFault) -> Refusal
    ensures { result ≡ Of place (NotText (valid_of fault)) }
{
    let TokenFault::NotUtf8 { valid } = fault;
    Refusal::Of(place, FolderFault::NotText(valid))
}

// The export of a book of which a replica has an operation.
pub(crate) fn export_of(
    alloc: Global,
    replica: &Replica,
    book: Book,
) -> Result<Option<Vec<u8>>, AllocError>
    ensures has { IfOk result (λ text. is_some text ≡ exports.has_book replica.now.held book) }
    ensures bytes { IfOk result
        (λ text. IfSome text (λ t. t.items ≡ exports.export replica.now.held book)) }
    ensures text { IfOk result (λ text. IfSome text (λ t. IsUtf8 t.items)) }
{
    match book_text(alloc, replica, book) {
        Ok(text) => Ok(Some(text)),
        Err(TextFault::NoBook) => Ok(None),
        Err(TextFault::Memory) => Err(AllocError),
    }
}

// Takes in a file that was written from the base, as this text.
#[tactic(auto, unfolding(crate::specs::Taking::taken_changed))]
fn take_changed(
    alloc: Global,
    replica: &mut Replica,
    beside: &Beside<'_>,
    file: &BookFile<'_>,
    pieces: &[Piece<'_>],
    stood: &mut Vec<Stood>,
) -> Result<u64, Refusal>
    requires rising { IsTrue (rises_by key_cmp (λ p. p.key) pieces.now) }
    ensures { let wanted = taking.taken_changed replica.old beside.now.base.now
        beside.now.older.now (wishes_view beside.now.wishes.now)
        (map taking.stood_view stood.old.items) (file_view file.now) (pieces_view pieces.now) in
        taking.AnswersTaken wanted replica.new (map taking.stood_view stood.new.items) result }
{
    let place = Place::File(file.at);
    let base = beside.base;
    if let Some(asked) = asked(alloc, beside, replica.name(), file.book, pieces)? {
        return Err(Refusal::Of(place, asked.fault));
    }
    let keys = replica.walked_keys(file.book, pieces)?;
    let settled = &beside.wishes.settled;
    let made = changes(alloc, replica, base, settled, file.book, pieces, &keys)?;
    push_stood_at(alloc, base, file.book, pieces, &keys, stood)?;
    match replica.change(file.book, &made) {
        Ok(count) => Ok(count),
        Err(fault) => Err(Refusal::of_edit(place, fault)),
    }
}

// Whether a replica has an operation of a book.
pub(crate) fn has_book(replica: &Replica, book: Book) -> bool
    ensures { result ≡ exports.has_book replica.now.held book }
{
    replica.keys(book).next().is_some()
}

// Takes in a file of which it is not known what it was written from: nothing where it is like the
// book's export; all where the project has no operation of the book.
#[tactic(auto, unfolding(crate::specs::Taking::taken_strange))]
fn take_strange(
    alloc: Global,
    replica: &mut Replica,
    file: &BookFile<'_>,
    text: &str,
    stood: &mut Vec<Stood>,
) -> Result<u64, Refusal>
    requires bytes { text.now ≡ file.now.bytes.now }
    ensures { let wanted = taking.taken_strange replica.old (map taking.stood_view stood.old.items)
        (file_view file.now) in
        taking.AnswersTaken wanted replica.new (map taking.stood_view stood.new.items) result }
{
    let place = Place::File(file.at);
    let none = Replica::new(alloc, replica.name());
    match export_of(alloc, replica, file.book)? {
        Some(export) if is_like(&export, file.bytes) => {
            let text = in_manner_of(alloc, &export, text)?;
            let pieces = restored_pieces(alloc, replica, file.book, &text)?;
            push_stood(alloc, replica, &none, file.book, &pieces, stood)?;
            Ok(0)
        }
        Some(_) => Err(Refusal::Of(place, FolderFault::FileChanged)),
        None => {
            let pieces = cut(alloc, text)?;
            push_stood(alloc, replica, &none, file.book, &pieces, stood)?;
            match replica.import(text) {
                Ok(count) => Ok(count),
                Err(fault) => Err(Refusal::of_import(place, fault)),
            }
        }
    }
}

// Adds the segments for which a file has another text than its base picks.
fn push_stood(
    alloc: Global,
    replica: &Replica,
    base: &Replica,
    book: Book,
    pieces: &[Piece<'_>],
    stood: &mut Vec<Stood>,
) -> Result<(), AllocError>
    requires rising { IsTrue (rises_by key_cmp (λ p. p.key) pieces.now) }
    ensures { let more = taking.stood_of replica.now.held base.now.held book
        (pieces_view pieces.now) in
        OnOk result (map taking.stood_view stood.new.items
        ≡ map taking.stood_view stood.old.items ++ more) }
{
    let keys = replica.walked_keys(book, pieces)?;
    push_stood_at(alloc, base, book, pieces, &keys, stood)
}

// Adds those of some keys for which a file has another text than its base picks.
fn push_stood_at(
    alloc: Global,
    base: &Replica,
    book: Book,
    pieces: &[Piece<'_>],
    keys: &[Key],
    stood: &mut Vec<Stood>,
) -> Result<(), AllocError>
    requires rising { IsTrue (rises_by key_cmp (λ p. p.key) pieces.now) }
    ensures { let view = pieces_view pieces.now in
        let others = filter (taking.has_other base.now.held book view) keys.now in
        OnOk result (map taking.stood_view stood.new.items
        ≡ map taking.stood_view stood.old.items ++ map (taking.stood_at book view) others) }
{
    let mut cursor = base.set().cursor();
    let mut left = keys;
    'keys: while let [key, later @ ..] = left {
        let piece = piece_at(pieces, *key);
        if !picks(&mut cursor, book, *key, piece) {
            stood.push(Stood {
                book,
                key: *key,
                text: String::from_str(alloc, piece)?,
            })?;
        }
        left = later;
    }
    Ok(())
}

// Whether this text is picked for a key.
fn picks(cursor: &mut Cursor<'_>, book: Book, key: Key, text: &str) -> bool
    ensures picked { result ≡ same_bytes (picked_at cursor.old book key) text.now }
    ensures same { cursor.new ≡ cursor.old }
{
    match cursor.pick(book, key) {
        Picked::Nothing => text.is_empty(),
        Picked::Held(op) => op.text_or_empty() == text,
        Picked::ChapterLine(chapter) => chapter_line(chapter).bytes() == text.as_bytes(),
    }
}
