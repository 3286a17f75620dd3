// What a page says of a replica.
ghost use Rattle.std.specs.Prelude.{◌≡◌, IfOk, [], None, map, string_bytes};
ghost use Rattle.usfm_ref.specs.Segments.{segment};
ghost use Rattle.op_core.specs.Lists.{books_of};
ghost use Rattle.op_core.specs.Shown as picks;
ghost use Rattle.conflict_settling.specs.Pending.{open_conflicts};
ghost use Rattle.versification.specs.Views.{verses_in};
ghost use Rattle.project_page.specs.Parts as says;

use crate::parts::{BookProgress, PageConflict, PageParts};
use conflict_report::shown_texts;
use conflict_settling::{BookTexts, compare, open_conflicts};
use op_core::{OpSet, Picked};
use project_status::{chapters_of, makers_of, shown_names, thinned_count, verses_written};
use replica_state::Replica;
use std::alloc::{AllocError, Global};
use usfm_ref::{Key, Segment};
use versification::Versification;

/// What a page says of a replica, its texts lent from that: the numbers of its status, how far each
/// chapter is by a versification, the conflicts of its report, and the awaited ids.
///
/// # Errors
/// Out of memory alone.
pub fn parts_of<'a>(
    alloc: Global,
    versification: &Versification,
    replica: &'a Replica,
) -> Result<PageParts<'a>, AllocError>
    ensures { IfOk result (λ parts.
        says.ArePartsOf (verses_in versification.now) replica.now (says.view parts)) }
{
    let set = replica.set();
    let names = shown_names(alloc, set)?;
    let makers = makers_of(alloc, &names)?;
    let books = progress_of(alloc, versification, set)?;
    let verses = verses_written(alloc, set)?;
    let conflicts = conflicts_of(alloc, replica)?;
    let awaited = replica.awaited(alloc)?;
    Ok(PageParts {
        name: replica.name(),
        books,
        verses,
        makers,
        replaced: set.len().saturating_sub(names.len()),
        thinned: thinned_count(set),
        conflicts,
        awaited,
    })
}

// How far the chapters of each book are.
fn progress_of(
    alloc: Global,
    versification: &Versification,
    set: &OpSet,
) -> Result<Vec<BookProgress>, AllocError>
    ensures { IfOk result (λ books. map says.book_view books.items
        ≡ map (says.progress_of (verses_in versification.now) set.now) (books_of set.now)) }
{
    let mut books = Vec::new(alloc);
    for book in set.books() {
        let chapters = chapters_of(alloc, versification, set, book)?;
        books.push(BookProgress { book, chapters })?;
    }
    Ok(books)
}

// The conflicts, in the order of the report.
fn conflicts_of(alloc: Global, replica: &Replica) -> Result<Vec<PageConflict<'_>>, AllocError>
    ensures { IfOk result (λ conflicts.
        says.AreConflictsOf replica.now.held (open_conflicts replica.now.held [] None)
        (map says.conflict_view conflicts.items)) }
{
    let segments = open_conflicts(alloc, replica, &[], None)?;
    match segments.first() {
        None => Ok(Vec::new(alloc)),
        Some(first) => {
            let texts = BookTexts::of(alloc, replica, first.book)?;
            conflicts_between(alloc, texts, &segments)
        }
    }
}

// The conflicts of some segments. Where those of a book are next to each other, its texts are
// gathered once.
fn conflicts_between<'a>(
    alloc: Global,
    mut texts: BookTexts<'a>,
    segments: &[Segment],
) -> Result<Vec<PageConflict<'a>>, AllocError>
    ensures { IfOk result (λ conflicts.
        says.AreConflictsOf texts.entry.held segments.now
        (map says.conflict_view conflicts.items)) }
{
    let mut conflicts = Vec::new(alloc);
    for segment in segments {
        texts.turn_to(alloc, segment.book)?;
        conflicts.push(conflict_of(alloc, &texts, segment.key)?)?;
    }
    Ok(conflicts)
}

// The conflict of a book at a key.
fn conflict_of<'a>(
    alloc: Global,
    texts: &BookTexts<'a>,
    key: Key,
) -> Result<PageConflict<'a>, AllocError>
    ensures { IfOk result (λ conflict.
        says.IsConflictOf texts.now.held (segment texts.now.book key)
        (says.conflict_view conflict)) }
{
    let (replica, book) = (texts.replica(), texts.book());
    let shown = shown_texts(alloc, &mut replica.set().cursor(), book, key)?;
    let entries = compare(alloc, &shown.distinct)?;
    let before = text_of(alloc, &texts.before(key))?;
    let after = text_of(alloc, &texts.after(key))?;
    Ok(PageConflict {
        book,
        key,
        before,
        picked: replica.pick(book, key),
        entries,
        repeated: shown.repeated,
        after,
    })
}

// The text of what is picked.
fn text_of(alloc: Global, picked: &Picked<'_>) -> Result<String, AllocError>
    ensures { IfOk result (λ text.
        string_bytes text ≡ picks.picked_text (picks.picked picked.now)) }
{
    match picked {
        Picked::Nothing => Ok(String::new(alloc)),
        Picked::Held(op) => String::from_str(alloc, op.text_or_empty()),
        Picked::ChapterLine(chapter) => format!(in alloc; "\\c {chapter}\n"),
    }
}
