// What is written into the program's folder beside the new files: what the files were written from,
// and their names.
ghost use Rattle.std.specs.Prelude.{◌≡◌, IfOk, map, option_map};
ghost use Rattle.book_folder.specs.Bases as bases;
ghost use Rattle.book_folder.specs.Coming.{came_view};
ghost use Rattle.book_folder.specs.Plans as plans;
ghost use Rattle.book_folder.specs.Refusals.{AnswersBy};
ghost use Rattle.book_folder.specs.Taking.{stood_view};
ghost use Rattle.book_folder.specs.Wanted.{seen_view};

use crate::begun::join;
use crate::by_book::SomeBooks;
use crate::coming::CameIn;
use crate::plan::NewFile;
use crate::refusal::{Place, Refusal};
use crate::seen::Seen;
use crate::stood_texts::{stood_text, stood_texts};
use crate::taking::Stood;
use bundle_codec::encode_ops;
use op_core::Op;
use replica_state::Replica;
use std::alloc::{AllocError, Global};
use usfm_ref::Book;

// Bytes, if they are other than some.
pub(crate) fn other_than(read: &[u8], bytes: Vec<u8>) -> Option<Vec<u8>>
    ensures { option_map (λ b. b.items) result ≡ bases.other_than read.now bytes.items }
{
    if bytes.as_slice() == read {
        None
    } else {
        Some(bytes)
    }
}

// What is written into the program's folder beside the new files.
#[derive(Debug, Drop)]
pub(crate) struct OwnFiles {
    pub(crate) base: Option<Vec<u8>>,
    pub(crate) names: Option<Vec<u8>>,
    pub(crate) next: Option<Vec<u8>>,
}

// Where there are new files, the base that makes the files as they were read, and the next one;
// else the next one as the base.
pub(crate) fn own_files(
    alloc: Global,
    seen: &Seen<'_>,
    came: &CameIn,
    headless: &[Book],
    made: &[NewFile],
    names: Option<Vec<u8>>,
) -> Result<OwnFiles, Refusal>
    requires { headless.now ≡ plans.headless came.now.replica.held }
    ensures { AnswersBy plans.own_view (plans.own_parts (seen_view seen.now)
        (came_view came.now) (map plans.new_file_view made.now)
        (option_map (λ b. b.items) names)) result }
{
    let next = encode_ops(alloc, &next_ops(alloc, &came.replica, headless)?)?;
    if made.is_empty() {
        return Ok(OwnFiles {
            base: other_base(seen, next),
            names,
            next: None,
        });
    }
    let base = as_read(alloc, came)?;
    Ok(OwnFiles {
        base: other_base(seen, base),
        names,
        next: Some(next),
    })
}

// A base, if it is other than the one that was read.
pub(crate) fn other_base(seen: &Seen<'_>, base: Vec<u8>) -> Option<Vec<u8>>
    ensures { let view = seen_view seen.now in
        option_map (λ b. b.items) result ≡ plans.base_put view.bases view.next base.items }
{
    match (seen.bases, seen.next) {
        ([one], None) => other_than(one, base),
        _ => Some(base),
    }
}

// What the books with a file show.
fn next_ops<'a>(
    alloc: Global,
    replica: &'a Replica,
    headless: &[Book],
) -> Result<Vec<&'a Op>, AllocError>
    ensures { IfOk result (λ ops. map (λ op. op.now) ops.items
        ≡ bases.shown_in_files headless.now replica.now.held) }
{
    let without_file = SomeBooks::new(alloc, headless)?;
    let mut cursor = replica.set().cursor();
    let mut ops = Vec::new(alloc);
    for op in replica.set().iter() {
        if !without_file.has(op.book()) && cursor.shows(op) {
            ops.push(op)?;
        }
    }
    Ok(ops)
}

// The base that makes the files as they were read: where a file has a text that the base shows,
// what the base shows; else what the project shows with the file's text.
fn as_read(alloc: Global, came: &CameIn) -> Result<Vec<u8>, Refusal>
    ensures { AnswersBy (λ made. made.items) (bases.base_as_read
        (map stood_view came.now.stood.items) came.now.base.held came.now.replica.held) result }
{
    let kept = kept_ops(alloc, &came.base, &came.stood)?;
    let found = found_ops(alloc, &came.replica, &came.stood)?;
    join(alloc, Place::Project, &kept, &found)
}

// What a base shows, but where a file has another text.
fn kept_ops<'a>(
    alloc: Global,
    base: &'a Replica,
    stood: &[Stood],
) -> Result<Vec<&'a Op>, AllocError>
    ensures { IfOk result (λ ops. map (λ op. op.now) ops.items
        ≡ bases.kept_shown (map stood_view stood.now) base.now.held) }
{
    let texts = stood_texts(alloc, stood)?;
    let mut cursor = base.set().cursor();
    let mut ops = Vec::new(alloc);
    for op in base.set().iter() {
        if cursor.shows(op) && stood_text(&texts, op).is_none() {
            ops.push(op)?;
        }
    }
    Ok(ops)
}

// What a project shows with the text that a file has in the place of the base's.
fn found_ops<'a>(
    alloc: Global,
    replica: &'a Replica,
    stood: &[Stood],
) -> Result<Vec<&'a Op>, AllocError>
    ensures { IfOk result (λ ops. map (λ op. op.now) ops.items
        ≡ bases.found_shown (map stood_view stood.now) replica.now.held) }
{
    let texts = stood_texts(alloc, stood)?;
    let mut cursor = replica.set().cursor();
    let mut ops = Vec::new(alloc);
    for op in replica.set().iter() {
        if cursor.shows(op) && has_text(stood_text(&texts, op), op) {
            ops.push(op)?;
        }
    }
    Ok(ops)
}

// Whether a text is an operation's.
fn has_text(text: Option<&str>, op: &Op) -> bool
    ensures { result ≡ bases.is_text (option_map (λ t. t.now) text.entry) op.now }
{
    match text {
        Some(text) => text == op.text_or_empty(),
        None => false,
    }
}
