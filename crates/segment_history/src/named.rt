// What is named of a project.
ghost use Rattle.std.specs.Prelude.{◌≡◌, ◌++◌, ◌∷◌, [], filter, IfOk, OnOk};
ghost use Rattle.std.specs.List.{list_any};
ghost use Rattle.op_core.specs.Export.{has_book};
ghost use Rattle.segment_history.specs.Naming as naming;

use crate::gathered::segment_of;
use bundle_codec::Bundle;
use std::alloc::{AllocError, Global};
use usfm_ref::{Book, Segment};

/// What somebody names of a project.
#[derive(Clone, Copy, Debug, PartialEq, Eq)]
pub enum Named {
    /// All segments of a book.
    Whole(Book),
    /// All segments of a chapter of a book, with its head.
    Chapter(Book, u16),
    /// One segment.
    One(Segment),
}

impl Named {
    // The book that it is of.
    fn book(&self) -> Book
        ensures { result ≡ naming.book_of self.now }
    {
        match *self {
            Named::Whole(book) | Named::Chapter(book, _) => book,
            Named::One(segment) => segment.book,
        }
    }

    // Whether it has the segment.
    fn has(&self, segment: Segment) -> bool
        ensures { result ≡ naming.has_segment segment self.now }
    {
        match *self {
            Named::Whole(book) => book == segment.book,
            Named::Chapter(book, chapter) => {
                book == segment.book && chapter == segment.key.chapter
            }
            Named::One(one) => one == segment,
        }
    }
}

/// Whether a segment is named: each one is where there is no name.
pub fn is_named(names: &[Named], segment: Segment) -> bool
    ensures { result ≡ naming.is_named names.now segment }
{
    names.is_empty() || has_name(names, segment)
}

// Whether one of the names has the segment.
fn has_name(names: &[Named], segment: Segment) -> bool
    ensures { result ≡ list_any (naming.has_segment segment) names.now }
{
    names.iter().any(|one| one.has(segment))
}

/// Whether each book that is named, or of which something is, has an operation in the bundle of a
/// project. It does not allocate.
pub fn has_books(bundle: &Bundle<'_>, names: &[Named]) -> bool
    ensures { result ≡ naming.has_books bundle.now names.now }
{
    names.iter().all(|one| has_book(bundle, one.book()))
}

// Whether a book has an operation.
fn has_book(bundle: &Bundle<'_>, book: Book) -> bool
    ensures { result ≡ has_book bundle.now book }
{
    for op in bundle.ops() {
        if op.is_of_book(book) {
            return true;
        }
    }
    false
}

/// The segments that are named, in the order of books and keys, each once: those that are named by
/// themselves, and of a book or a chapter those that have an operation in the bundle of a project;
/// all that have one, where there is no name.
///
/// # Errors
/// Out of memory alone.
pub fn named_segments(
    alloc: Global,
    bundle: &Bundle<'_>,
    names: &[Named],
) -> Result<Vec<Segment>, AllocError>
    ensures { IfOk result (λ segments.
        segments.items ≡ naming.named_segments bundle.now names.now) }
{
    let mut segments = Vec::new(alloc);
    for name in names {
        push_by_itself(&mut segments, name)?;
    }
    for op in bundle.ops() {
        push_if_named(&mut segments, names, &segment_of(&op))?;
    }
    segments.sort_unstable();
    segments.dedup();
    Ok(segments)
}

// Adds the segment that is named by itself, if one is.
fn push_by_itself(segments: &mut Vec<Segment>, name: &Named) -> Result<(), AllocError>
    ensures { OnOk result (segments.new.items
        ≡ segments.old.items ++ naming.by_itself name.now) }
{
    if let Named::One(segment) = *name {
        segments.push(segment)?;
    }
    Ok(())
}

// Adds a segment, if it is named.
pub(crate) fn push_if_named(
    segments: &mut Vec<Segment>,
    names: &[Named],
    segment: &Segment,
) -> Result<(), AllocError>
    ensures { OnOk result (segments.new.items
        ≡ segments.old.items ++ filter (naming.is_named names.now) (segment.now ∷ [])) }
{
    if is_named(names, *segment) {
        segments.push(*segment)?;
    }
    Ok(())
}
