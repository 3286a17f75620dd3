// What the files of a sync were taken in beside.
ghost use Rattle.std.specs.Prelude.{◌≡◌};
ghost use Rattle.book_folder.specs.Begun.{begun_view};
ghost use Rattle.book_folder.specs.Files.{files_view};
ghost use Rattle.book_folder.specs.Origins as origins;
ghost use Rattle.book_folder.specs.Refusals.{AnswersBy};
ghost use Rattle.book_folder.specs.Wanted.{seen_view, wishes_view};

use crate::begun::{Begun, begin};
use crate::coming::{earlier_bases, older_bases, receive_bundles};
use crate::files::{BookFile, book_files};
use crate::folder::clear_folder;
use crate::refusal::Refusal;
use crate::seen::{Seen, Wishes};
use crate::stale::rebase_if_stale;
use op_core::ReplicaName;
use std::alloc::Global;

/// What the files of a sync were taken in beside.
#[derive(Debug, Drop)]
pub struct Origin<'a> {
    /// The copy's own name, under which the edits of the files are made.
    pub name: ReplicaName,
    /// The greatest number that there was before the files were taken in: each of their edits has
    /// a greater one.
    pub above: u64,
    /// The bundle of what the files were written from.
    pub base: Vec<u8>,
    /// The bundles of what files were written from before that, the newest first.
    pub older: Vec<&'a [u8]>,
}

/// What the files of a sync are taken in beside: all that came in before them. An operation of the
/// project after the sync is an edit of the files where it has the copy's own name and a number
/// above the greatest one of that.
///
/// It takes in again what the bases and the bundles have, so it is for a plan that changes the
/// project.
///
/// # Errors
/// As `make_plan` answers what comes in before the files.
pub fn files_origin<'a>(
    alloc: Global,
    seen: &Seen<'a>,
    wishes: &Wishes,
) -> Result<Origin<'a>, Refusal>
    ensures { AnswersBy origins.origin_view (origins.files_origin (seen_view seen.now)
        (wishes_view wishes.now)) result }
{
    let files = book_files(alloc, seen)?;
    let folder = clear_folder(alloc, seen, &files)?;
    origin_with(alloc, &folder.seen, wishes, folder.files)
}

// The same of a folder in which it is known which file is which book's.
fn origin_with<'a>(
    alloc: Global,
    seen: &Seen<'a>,
    wishes: &Wishes,
    files: &[BookFile<'_>],
) -> Result<Origin<'a>, Refusal>
    ensures { AnswersBy origins.origin_view (origins.origin_with (seen_view seen.now)
        (wishes_view wishes.now) (files_view files.now)) result }
{
    let begun = begin(alloc, seen, wishes)?;
    let older = older_bases(alloc, begun.base.name(), &earlier_bases(alloc, seen)?)?;
    let begun = rebase_if_stale(alloc, wishes, begun, &older, files)?;
    origin_after(alloc, seen, wishes, begun)
}

// The same where what the folder begins with is known: the bundles come in.
fn origin_after<'a>(
    alloc: Global,
    seen: &Seen<'a>,
    wishes: &Wishes,
    begun: Begun,
) -> Result<Origin<'a>, Refusal>
    ensures { AnswersBy origins.origin_view (origins.origin_after (seen_view seen.now)
        (wishes_view wishes.now) (begun_view begun)) result }
{
    let Begun {
        mut replica,
        base,
        ..
    } = begun;
    receive_bundles(alloc, &mut replica, seen.bundles, wishes)?;
    Ok(Origin {
        name: replica.name(),
        above: replica.set().greatest_number(),
        base: base.bundle(alloc)?,
        older: earlier_bases(alloc, seen)?,
    })
}
