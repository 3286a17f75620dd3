// Who made what is shown.
ghost use Rattle.std.specs.Prelude.{◌≡◌, ◌++◌, IfOk, OnOk, IsTrue, map};
ghost use Rattle.std.specs.List.{count_by};
ghost use Rattle.usfm_ref.specs.Books.{same_bytes};
ghost use Rattle.usfm_ref.specs.Rising.{rises_by, rising};
ghost use Rattle.op_core.specs.Names.{name_cmp};
ghost use Rattle.project_status.specs.Numbers as numbers;

use op_core::{OpId, OpSet, ReplicaName};
use std::alloc::{AllocError, Global};
use usfm_ref::Book;

/// A name, and how many of the shown operations were made under it.
#[derive(Clone, Copy, Debug)]
pub struct Maker {
    /// The copy's name.
    pub name: ReplicaName,
    /// How many operations.
    pub count: usize,
}

/// The name under which each shown operation was made, segment by segment.
///
/// # Errors
/// Out of memory alone.
pub fn shown_names(alloc: Global, set: &OpSet) -> Result<Vec<ReplicaName>, AllocError>
    ensures { IfOk result (λ names. names.items ≡ numbers.shown_names set.now) }
{
    let mut names = Vec::new(alloc);
    for book in set.books() {
        push_book(set, book, &mut names)?;
    }
    Ok(names)
}

// Adds the names of what a book shows.
fn push_book(set: &OpSet, book: Book, names: &mut Vec<ReplicaName>) -> Result<(), AllocError>
    ensures { OnOk result (names.new.items
        ≡ names.old.items ++ numbers.names_in set.now book) }
{
    let mut cursor = set.cursor();
    for key in set.keys(book) {
        push_names(cursor.shown_ids(book, key), names)?;
    }
    Ok(())
}

// Adds the names of ids.
fn push_names(ids: &[OpId], names: &mut Vec<ReplicaName>) -> Result<(), AllocError>
    ensures { OnOk result (names.new.items ≡ names.old.items ++ map (λ id. id.name) ids.now) }
{
    for id in ids {
        names.push(id.name)?;
    }
    Ok(())
}

/// How many of some operations each of their makers made, given the maker's name of each, in the
/// order of names.
///
/// # Errors
/// Out of memory alone.
pub fn makers_of(alloc: Global, names: &[ReplicaName]) -> Result<Vec<Maker>, AllocError>
    ensures { IfOk result (λ found. found.items ≡ numbers.makers_of names.now) }
{
    let once = once(alloc, names)?;
    let counts = counts(alloc, names, &once)?;
    let mut found = Vec::with_capacity(alloc, once.len())?;
    for place in 0..once.len() {
        found.push(Maker {
            name: once[place],
            count: counts[place],
        })?;
    }
    Ok(found)
}

// The names, rising, each once.
fn once(alloc: Global, names: &[ReplicaName]) -> Result<Vec<ReplicaName>, AllocError>
    ensures { IfOk result (λ once. once.items ≡ rising name_cmp names.now) }
{
    let mut once = copies(alloc, names)?;
    once.sort_unstable();
    once.dedup();
    Ok(once)
}

fn copies(alloc: Global, names: &[ReplicaName]) -> Result<Vec<ReplicaName>, AllocError>
    ensures { IfOk result (λ copies. copies.items ≡ names.now) }
{
    let mut copies = Vec::with_capacity(alloc, names.len())?;
    for name in names {
        copies.push(*name)?;
    }
    Ok(copies)
}

// How often each of some names, which rise, is among others.
fn counts(
    alloc: Global,
    names: &[ReplicaName],
    once: &[ReplicaName],
) -> Result<Vec<usize>, AllocError>
    requires { IsTrue (rises_by name_cmp (λ name. name) once.now) }
    ensures { IfOk result (λ counts. counts.items
        ≡ map (λ name. count_by (same_bytes name) names.now) once.now) }
{
    let mut counts = vec![in alloc; 0usize; once.len()]?;
    for name in names {
        if let Ok(place) = once.binary_search(name) {
            counts[place] += 1;
        }
    }
    Ok(counts)
}
