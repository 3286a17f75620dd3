// Files that an editor saved as it had read them before something came in: each is taken as written
// from an older base, where it is unlike its own.
ghost use Rattle.std.specs.Prelude.{◌≡◌, ◌<◌, ◌≤◌, IfOk, IfSome, IsTrue, length, map, option_map};
ghost use Rattle.usfm_ref.specs.Keys.{key_cmp};
ghost use Rattle.usfm_ref.specs.Rising.{rises_by};
ghost use Rattle.verse_cut.specs.Views.{pieces_view};
ghost use Rattle.book_folder.specs.Begun.{begun_view};
ghost use Rattle.book_folder.specs.Coming.{rebased_if_stale};
ghost use Rattle.book_folder.specs.Files.{file_view, files_view};
ghost use Rattle.book_folder.specs.Refusals.{AnswersAfter, AnswersBy};
ghost use Rattle.book_folder.specs.Stale as stale;
ghost use Rattle.book_folder.specs.Wanted.{wishes_view};

use crate::asks::{has_text_of, lacks_any, unlikeness};
use crate::begun::{Begun, join, judge, receive, replica_of};
use crate::files::{BookFile, is_same_book, text_if};
use crate::refusal::{FolderFault, Place, Refusal};
use crate::restored::{in_manner_of, restored_pieces};
use crate::seen::Wishes;
use crate::taking::{export_of, has_book};
use op_core::{Cursor, Op};
use replica_state::Replica;
use std::alloc::{AllocError, Global};
use usfm_ref::Book;
use verse_cut::Piece;

// Looks for files that may be older ones, where that is asked for.
pub(crate) fn rebase_if_stale(
    alloc: Global,
    wishes: &Wishes,
    mut begun: Begun,
    older: &[Replica],
    files: &[BookFile<'_>],
) -> Result<Begun, Refusal>
    ensures { AnswersBy begun_view (rebased_if_stale (wishes_view wishes.now) (begun_view begun)
        older.now (files_view files.now)) result }
{
    if wishes.stale {
        rebase(alloc, wishes, &mut begun, older, files)?;
    }
    Ok(begun)
}

// Has the base show of each file that may be an older one what the older base shows that it is
// least unlike; of several, the oldest.
fn rebase(
    alloc: Global,
    wishes: &Wishes,
    begun: &mut Begun,
    older: &[Replica],
    files: &[BookFile<'_>],
) -> Result<(), Refusal>
    ensures { let settled = (wishes_view wishes.now).settled in
        let wanted = stale.rebased settled (begun_view begun.old) older.now
        (files_view files.now) in
        AnswersAfter wanted (begun_view begun.new) result }
{
    let mut left = files;
    'files: while let [file, later @ ..] = left {
        match rebase_file(alloc, wishes, begun, older, file) {
            Ok(()) => left = later,
            Err(refusal) => return Err(refusal),
        }
    }
    Ok(())
}

fn rebase_file(
    alloc: Global,
    wishes: &Wishes,
    begun: &mut Begun,
    older: &[Replica],
    file: &BookFile<'_>,
) -> Result<(), Refusal>
    ensures { let settled = (wishes_view wishes.now).settled in
        let wanted = stale.rebased_by settled (begun_view begun.old) older.now
        (file_view file.now) in
        AnswersAfter wanted (begun_view begun.new) result }
{
    match older_base(alloc, &begun.base, older, file)? {
        None => Ok(()),
        Some(_) if !wishes.settles_none() => {
            Err(Refusal::Of(Place::File(file.at), FolderFault::SettledEarly))
        }
        Some(OlderBase { at, bytes }) => {
            rebase_to(alloc, begun, Place::Older(at), &older[at], &bytes)
        }
    }
}

// Has the base be what a bundle has, where an older base is received.
fn rebase_to(
    alloc: Global,
    begun: &mut Begun,
    place: Place,
    was: &Replica,
    base: &[u8],
) -> Result<(), Refusal>
    ensures { let wanted = stale.rebased_to (begun_view begun.old) place was.now base.now in
        AnswersAfter wanted (begun_view begun.new) result }
{
    let bytes = was.bundle(alloc)?;
    let bundle = judge(alloc, place, &bytes)?;
    receive(&mut begun.replica, place, &bundle)?;
    begun.base = replica_of(alloc, begun.base.name(), place, base)?;
    Ok(())
}

// An older base from which a file was written, by its place among them, and the bundle of what the
// base is then.
#[derive(Debug, Drop)]
struct OlderBase {
    at: usize,
    bytes: Vec<u8>,
}

// The older base from which a file is taken as written, if it is an older one, and what the base is
// then.
fn older_base(
    alloc: Global,
    base: &Replica,
    older: &[Replica],
    file: &BookFile<'_>,
) -> Result<Option<OlderBase>, Refusal>
    ensures made { AnswersBy (option_map stale.older_view)
        (stale.older_base base.now older.now (file_view file.now)) result }
    ensures within { IfOk result (λ made. IfSome made (λ o. o.at < length older.now)) }
{
    let Some(text) = text_if(file.bytes) else {
        return Ok(None);
    };
    let Some(was) = export_of(alloc, base, file.book)? else {
        return Ok(None);
    };
    let text = in_manner_of(alloc, &was, text)?;
    let pieces = restored_pieces(alloc, base, file.book, &text)?;
    older_base_in(alloc, base, older, file.book, &pieces)
}

// The same by the pieces of a file.
fn older_base_in(
    alloc: Global,
    base: &Replica,
    older: &[Replica],
    book: Book,
    pieces: &[Piece<'_>],
) -> Result<Option<OlderBase>, Refusal>
    requires rising { IsTrue (rises_by key_cmp (λ p. p.key) pieces.now) }
    ensures made { AnswersBy (option_map stale.older_view)
        (stale.older_base_in base.now older.now book (pieces_view pieces.now)) result }
    ensures within { IfOk result (λ made. IfSome made (λ o. o.at < length older.now)) }
{
    let Some(at) = oldest_alike(alloc, base, older, book, pieces)? else {
        return Ok(None);
    };
    match with_older(alloc, Place::Older(at), base, &older[at], book, pieces) {
        Ok(bytes) => Ok(Some(OlderBase { at, bytes })),
        Err(refusal) => Err(refusal),
    }
}

// The bundle of what a base has, but of the segments of a book in which a file has another text
// what an older base has.
fn with_older(
    alloc: Global,
    place: Place,
    base: &Replica,
    was: &Replica,
    book: Book,
    pieces: &[Piece<'_>],
) -> Result<Vec<u8>, Refusal>
    requires rising { IsTrue (rises_by key_cmp (λ p. p.key) pieces.now) }
    ensures { AnswersBy (λ made. made.items) (stale.with_older place base.now.held was.now.held book
        (pieces_view pieces.now)) result }
{
    let left = ops_by_unlike(alloc, base, base, book, pieces, false)?;
    let put = ops_by_unlike(alloc, was, base, book, pieces, true)?;
    join(alloc, place, &left, &put)
}

// The operations of a replica of the segments of a book in which a file has another text than a
// base picks, or all others.
fn ops_by_unlike<'a>(
    alloc: Global,
    replica: &'a Replica,
    base: &Replica,
    book: Book,
    pieces: &[Piece<'_>],
    is_unlike: bool,
) -> Result<Vec<&'a Op>, AllocError>
    requires rising { IsTrue (rises_by key_cmp (λ p. p.key) pieces.now) }
    ensures { IfOk result (λ ops. map (λ op. op.now) ops.items
        ≡ stale.ops_by_unlike is_unlike base.now.held book (pieces_view pieces.now)
        replica.now.held) }
{
    let mut cursor = base.set().cursor();
    let mut ops = Vec::new(alloc);
    for op in replica.set().iter() {
        if is_by_unlike(&mut cursor, book, pieces, op, is_unlike) {
            ops.push(op)?;
        }
    }
    Ok(ops)
}

// Whether an operation is of a segment of a book in which a file has another text than a base
// picks, or whether it is not.
fn is_by_unlike(
    cursor: &mut Cursor<'_>,
    book: Book,
    pieces: &[Piece<'_>],
    op: &Op,
    is_unlike: bool,
) -> bool
    requires rising { IsTrue (rises_by key_cmp (λ p. p.key) pieces.now) }
    ensures by { result ≡ stale.is_by_unlike is_unlike cursor.old book (pieces_view pieces.now)
        op.now }
    ensures same { cursor.new ≡ cursor.old }
{
    let is = is_of_unlike(cursor, book, pieces, op);
    if is_unlike { is } else { !is }
}

// Whether an operation is of a segment of a book in which a file has another text than a base
// picks.
fn is_of_unlike(cursor: &mut Cursor<'_>, book: Book, pieces: &[Piece<'_>], op: &Op) -> bool
    requires rising { IsTrue (rises_by key_cmp (λ p. p.key) pieces.now) }
    ensures unlike { result ≡ stale.is_of_unlike cursor.old book (pieces_view pieces.now) op.now }
    ensures same { cursor.new ≡ cursor.old }
{
    is_same_book(op.book(), book) && !has_text_of(cursor, book, pieces, op.key())
}

// An older base, by its place among them, and of how many keys a file has another text than it
// picks.
#[derive(Clone, Copy, Debug)]
struct Choice {
    at: usize,
    unlike: usize,
}

// Of the older bases from which a file may have been written, the one that it is least unlike; of
// several, the oldest.
fn oldest_alike(
    alloc: Global,
    base: &Replica,
    older: &[Replica],
    book: Book,
    pieces: &[Piece<'_>],
) -> Result<Option<usize>, AllocError>
    requires rising { IsTrue (rises_by key_cmp (λ p. p.key) pieces.now) }
    ensures at { IfOk result (λ at. at ≡ option_map stale.place_of
        (stale.oldest_alike 0 older.now base.now.held base.now.name book
        (pieces_view pieces.now))) }
    ensures within { IfOk result (λ at. IfSome at (λ n. n < length older.now)) }
{
    let mut found = None;
    let mut at = 0;
    let mut left = older;
    'older: while let [one, later @ ..] = left {
        found = found_with(alloc, found, at, one, base, book, pieces)?;
        at += 1;
        left = later;
    }
    Ok(match found {
        Some(choice) => Some(choice.at),
        None => None,
    })
}

// What is found after one more older base, which has this place.
#[tactic(auto, unfolding(crate::specs::Stale::found_with))]
fn found_with(
    alloc: Global,
    found: Option<Choice>,
    at: usize,
    older: &Replica,
    base: &Replica,
    book: Book,
    pieces: &[Piece<'_>],
) -> Result<Option<Choice>, AllocError>
    requires before { IfSome found (λ c. c.at ≤ at) }
    requires rising { IsTrue (rises_by key_cmp (λ p. p.key) pieces.now) }
    ensures found { let before = option_map stale.choice_view found in
        IfOk result (λ made. option_map stale.choice_view made
        ≡ stale.found_with before at older.now.held base.now.held base.now.name book
        (pieces_view pieces.now)) }
    ensures within { IfOk result (λ made. IfSome made (λ c. c.at ≤ at)) }
{
    if !is_candidate(older, base, book, pieces) {
        return Ok(found);
    }
    let unlike = unlikeness(older, book, pieces)?;
    Ok(Some(less_unlike(found, Choice { at, unlike })))
}

// Whether a file may have been written from an older base: it lacks a text of another's that came
// in since that.
#[tactic(auto, unfolding(crate::specs::Stale::is_candidate))]
fn is_candidate(older: &Replica, base: &Replica, book: Book, pieces: &[Piece<'_>]) -> bool
    requires rising { IsTrue (rises_by key_cmp (λ p. p.key) pieces.now) }
    ensures { result ≡ stale.is_candidate older.now.held base.now.held base.now.name book
        (pieces_view pieces.now) }
{
    has_book(older, book) && lacks_any(older, base, base.name(), book, pieces)
}

// The one of two that a file is less unlike; of two alike the later one, which is older.
fn less_unlike(found: Option<Choice>, later: Choice) -> Choice
    requires before { IfSome found (λ c. c.at ≤ later.at) }
    ensures choice { let before = option_map stale.choice_view found in
        stale.choice_view result ≡ stale.less_unlike before (stale.choice_view later) }
    ensures within { result.at ≤ later.at }
{
    match found {
        Some(before) if later.unlike > before.unlike => before,
        _ => later,
    }
}
