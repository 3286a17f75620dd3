// How a folder stands: what a sync would take in of its files, and which of them it would refuse.
ghost use Rattle.std.specs.Prelude.{◌≡◌, ◌++◌, [], ◌∷◌, IfOk, Ok, map, option_map, slice_set};
ghost use Rattle.std.specs.List.{filter_map};
ghost use Rattle.book_folder.specs.Coming.{added_view};
ghost use Rattle.book_folder.specs.Files.{files_view};
ghost use Rattle.book_folder.specs.Plans.{plan_view, planned};
ghost use Rattle.book_folder.specs.Refusals.{AnswersAfter, AnswersBy};
ghost use Rattle.book_folder.specs.Standing as stand;
ghost use Rattle.book_folder.specs.Wanted.{found_view, no_wishes, seen_view};

use crate::files::book_files;
use crate::folder::FolderIndex;
use crate::plan::{Added, Plan, make_plan};
use crate::refusal::{FolderFault, Place, Refusal};
use crate::seen::{FoundFile, Seen, Wishes};
use std::alloc::{AllocError, Global};

// How many things are left out at most that a sync would refuse.
const MOST_LEFT_OUT: usize = 20;

/// A file that was changed.
#[derive(Clone, Copy, Debug)]
pub struct ChangedFile {
    /// Which of the files that were read it is.
    pub at: usize,
    /// How many edits a sync would take in of it.
    pub count: u64,
}

/// What a sync would refuse.
#[derive(Clone, Copy, Debug)]
pub struct LeftOut {
    /// Which of the files that were read it is, or of what else stands under the name of one.
    pub place: Place,
    /// Why a sync would refuse it.
    pub fault: FolderFault,
}

/// How a folder stands.
#[derive(Debug, Drop)]
pub struct Standing {
    /// The files that were changed.
    pub changed: Vec<ChangedFile>,
    /// What a sync would refuse, each once what comes before it is not there.
    pub left_out: Vec<LeftOut>,
}

// What was read, but for what is left out.
#[derive(Debug, Drop)]
struct Remaining<'a> {
    seen: Seen<'a>,
    files: Vec<FoundFile<'a>>,
    others: Vec<&'a str>,
    left_out: Vec<LeftOut>,
}

/// How a folder stands: what a sync for which nothing is wished would take in of its files, and
/// which of them it would refuse. What is refused is left out, and all is planned anew, at most
/// twenty times. Nothing is done by that.
///
/// # Errors
/// - What `make_plan` refuses, where that is no file and stands under no file's name, or after
///   twenty of these.
/// - `Memory` where an allocation failed.
pub fn folder_standing(alloc: Global, seen: &Seen<'_>) -> Result<Standing, Refusal>
    ensures { AnswersBy stand.standing_view (stand.stands (seen_view seen.now)) result }
{
    let mut remaining = all_remaining(alloc, seen)?;
    let mut more = MOST_LEFT_OUT;
    'refused: while more > 0 {
        match plan_remaining(alloc, &remaining) {
            Ok(plan) => return Ok(standing_by(alloc, remaining, &plan)?),
            Err(refusal) => match leave_out(&mut remaining, refusal) {
                Ok(()) => more -= 1,
                Err(refusal) => return Err(refusal),
            },
        }
    }
    let plan = plan_remaining(alloc, &remaining)?;
    Ok(standing_by(alloc, remaining, &plan)?)
}

// All that was read.
fn all_remaining<'a>(alloc: Global, seen: &Seen<'a>) -> Result<Remaining<'a>, AllocError>
    ensures { IfOk result (λ made. stand.remaining_view made
        ≡ stand.remaining (seen_view seen.now) []) }
{
    Ok(Remaining {
        seen: *seen,
        files: seen.files.to_vec(alloc)?,
        others: seen.others.to_vec(alloc)?,
        left_out: Vec::new(alloc),
    })
}

// What was read but for what is left out, for a plan.
fn seen_of<'a>(remaining: &'a Remaining<'_>) -> Seen<'a>
    ensures { seen_view result ≡ (stand.remaining_view remaining.now).seen }
{
    let seen = &remaining.seen;
    Seen {
        project: seen.project,
        bases: seen.bases,
        next: seen.next,
        older: seen.older,
        unplaced: seen.unplaced,
        names: seen.names,
        files: &remaining.files,
        others: &remaining.others,
        bundles: seen.bundles,
    }
}

// What a sync would do for which nothing is wished.
fn plan_remaining(alloc: Global, remaining: &Remaining<'_>) -> Result<Plan, Refusal>
    ensures { let view = stand.remaining_view remaining.now in
        AnswersBy plan_view (planned view.seen no_wishes) result }
{
    make_plan(alloc, &seen_of(remaining), &Wishes::none(alloc))
}

// How a folder stands by a plan of what is not left out.
fn standing_by(alloc: Global, remaining: Remaining<'_>, plan: &Plan) -> Result<Standing, AllocError>
    ensures { let view = stand.remaining_view remaining.entry in
        IfOk result (λ made. stand.standing_view made
        ≡ stand.standing_by view (plan_view plan.now)) }
{
    let changed = changed_files(alloc, &seen_of(&remaining), plan)?;
    let left_out = remaining.left_out;
    Ok(Standing { changed, left_out })
}

// The files of which a plan takes something in.
fn changed_files(
    alloc: Global,
    seen: &Seen<'_>,
    plan: &Plan,
) -> Result<Vec<ChangedFile>, AllocError>
    ensures { IfOk result (λ made. map stand.changed_view made.items
        ≡ stand.changed_files (seen_view seen.now) (plan_view plan.now)) }
{
    let files = book_files(alloc, seen)?;
    let folder = FolderIndex::new(alloc, seen, &files)?;
    let mut changed = Vec::new(alloc);
    let mut left = plan.told.files.as_slice();
    'files: while let [added, later @ ..] = left {
        if let Some(file) = changed_file(&folder, added) {
            changed.push(file)?;
        }
        left = later;
    }
    Ok(changed)
}

// The file of a book that makes edits, with their number.
fn changed_file(folder: &FolderIndex<'_, '_>, added: &Added) -> Option<ChangedFile>
    ensures { option_map stand.changed_view result
        ≡ stand.changed_file (files_view folder.now.files.now) (added_view added.now) }
{
    let file = folder.file_of(added.book)?;
    Some(ChangedFile {
        at: file.at,
        count: added.count,
    })
}

// Leaves out what is refused, if it is a file, or stands under the name of one.
fn leave_out(remaining: &mut Remaining<'_>, refusal: Refusal) -> Result<(), Refusal>
    ensures { let wanted = stand.remaining_after (stand.remaining_view remaining.old) refusal in
        AnswersAfter wanted (stand.remaining_view remaining.new) result }
{
    match refusal {
        Refusal::Of(Place::File(at), fault) => {
            clear_file(&mut remaining.files, at);
            push_left_out(&mut remaining.left_out, Place::File(at), fault)
        }
        Refusal::Of(Place::Other(at), fault) => {
            clear_name(&mut remaining.others, at);
            push_left_out(&mut remaining.left_out, Place::Other(at), fault)
        }
        refusal => Err(refusal),
    }
}

// Has no file stand in a place.
fn clear_file(files: &mut Vec<FoundFile<'_>>, at: usize)
    ensures { map found_view files.new.items
        ≡ slice_set (map found_view files.old.items) at stand.no_file }
{
    if at < files.len() {
        files[at] = FoundFile {
            name: "",
            bytes: b"",
        };
    }
}

// Has nothing stand in a place.
fn clear_name(names: &mut Vec<&str>, at: usize)
    ensures { map (λ name. name.now) names.new.items
        ≡ slice_set (map (λ name. name.now) names.old.items) at [] }
{
    if at < names.len() {
        names[at] = "";
    }
}

// Adds what is left out, and why. The type of the answer names the types of what is pushed.
fn push_left_out(
    left_out: &mut Vec<LeftOut>,
    place: Place,
    fault: FolderFault,
) -> Result<(), Refusal>
    ensures { let wanted =
        map stand.left_out_view left_out.old.items ++ stand.left_out place fault ∷ [] in
        AnswersAfter (Ok wanted) (map stand.left_out_view left_out.new.items) result }
{
    match left_out.push(LeftOut { place, fault }) {
        Ok(()) => Ok(()),
        Err(_) => Err(Refusal::Memory),
    }
}
