// How the base is settled once new files were put in their places, or were left.
ghost use Rattle.std.specs.Prelude.{◌≡◌, ◌++◌, OnOk, map, option_map};
ghost use Rattle.book_folder.specs.Refusals.{AnswersBy};
ghost use Rattle.book_folder.specs.Settling as settling;

use crate::begun::settled;
use crate::older_bases::{MovedBase, moved_older};
use crate::refusal::Refusal;
use std::alloc::{AllocError, Global};
use usfm_ref::Book;

/// What stands in the program's folder when the base is to be settled.
#[derive(Clone, Copy, Debug)]
pub struct Unsettled<'a> {
    /// The base; none where there is none, or bundles of an older version of the program stand for
    /// it.
    pub base: Option<&'a [u8]>,
    /// The bundles that make up the base: it alone, or those of an older version.
    pub bases: &'a [Vec<u8>],
    /// The older bases that are there, the newest first.
    pub older: &'a [Vec<u8>],
    /// The base of the files as they are written.
    pub next: Option<&'a [u8]>,
    /// The books of which a new file still stands there, since it was not put in its place.
    pub unplaced: &'a [Book],
}

/// A step by which the base is settled. One that fails ends the steps.
#[derive(Debug, Drop)]
pub enum SettlingStep {
    /// An older base is written under a name of its own, synced, and renamed.
    PutOlder(MovedBase),
    /// The `base` is written under a name of its own, synced, and renamed.
    PutBase(Vec<u8>),
    /// The program's folder is synced.
    SyncOwn,
    /// The `next` is removed.
    RemoveNext,
    /// The `CODE.new` of a book, which was left, is removed.
    RemoveNew(Book),
}

/// The steps by which the base is settled: where there is a next one, what `settled` makes of the
/// two is put as the base, unless it is that, after the older bases have moved on, of each book by
/// themselves; and the next one is removed; then the new files that were left are.
///
/// # Errors
/// - `Bundle` of a base, or of the next one, that is no bundle; `Clash` of two of them.
/// - `Memory` where an allocation failed.
pub fn settling_steps(
    alloc: Global,
    unsettled: &Unsettled<'_>,
) -> Result<Vec<SettlingStep>, Refusal>
    ensures { let view = settling.unsettled_view unsettled.now in
        AnswersBy (λ steps. map settling.settling_view steps.items)
        (settling.settling_steps view view.next) result }
{
    let mut steps = Vec::new(alloc);
    if let Some(next) = unsettled.next {
        let base = settled(alloc, unsettled.bases, next, unsettled.unplaced)?;
        if !are_bytes(unsettled.base, &base) {
            push_older(alloc, &mut steps, unsettled, &base)?;
            steps.push(SettlingStep::PutBase(base))?;
            steps.push(SettlingStep::SyncOwn)?;
        }
        steps.push(SettlingStep::RemoveNext)?;
        steps.push(SettlingStep::SyncOwn)?;
    }
    push_left(&mut steps, unsettled.unplaced)?;
    Ok(steps)
}

// Whether there are bytes, and they are these.
fn are_bytes(there: Option<&[u8]>, bytes: &[u8]) -> bool
    ensures { result ≡ settling.are_bytes (option_map (λ b. b.now) there.entry) bytes.now }
{
    match there {
        Some(there) => there == bytes,
        None => false,
    }
}

// The steps by which older bases move on before a base is put.
fn push_older(
    alloc: Global,
    steps: &mut Vec<SettlingStep>,
    unsettled: &Unsettled<'_>,
    made: &[u8],
) -> Result<(), AllocError>
    ensures { let view = settling.unsettled_view unsettled.now in
        OnOk result (map settling.settling_view steps.new.items
        ≡ map settling.settling_view steps.old.items
        ++ settling.older_puts view.base view.older made.now) }
{
    match unsettled.base {
        Some(base) => push_moved(steps, moved_older(alloc, base, made, unsettled.older)?),
        None => Ok(()),
    }
}

// The steps by which older bases are put in their places.
fn push_moved(steps: &mut Vec<SettlingStep>, moved: Vec<MovedBase>) -> Result<(), AllocError>
    ensures { OnOk result (map settling.settling_view steps.new.items
        ≡ map settling.settling_view steps.old.items
        ++ map settling.older_put (map settling.moved_view moved.items)) }
{
    for older in moved {
        steps.push(SettlingStep::PutOlder(older))?;
    }
    Ok(())
}

// The steps by which the new files that were left of some books are removed.
fn push_left(steps: &mut Vec<SettlingStep>, books: &[Book]) -> Result<(), AllocError>
    ensures { OnOk result (map settling.settling_view steps.new.items
        ≡ map settling.settling_view steps.old.items ++ map settling.RemoveNew books.now) }
{
    let mut left = books;
    'books: while let [book, later @ ..] = left {
        steps.push(SettlingStep::RemoveNew(*book))?;
        left = later;
    }
    Ok(())
}
