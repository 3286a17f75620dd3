// What is done with a project and a folder, as a plan of what was read.
ghost use Rattle.std.specs.Prelude.{◌≡◌, ◌++◌, IfOk, OnOk, map, option_map};
ghost use Rattle.book_folder.specs.Coming.{came_view};
ghost use Rattle.book_folder.specs.Files.{files_view};
ghost use Rattle.book_folder.specs.Plans.{RemoveNew, SyncOwn, WriteNew, with_sync};
ghost use Rattle.book_folder.specs.Plans as plans;
ghost use Rattle.book_folder.specs.Refusals.{AnswersBy};
ghost use Rattle.book_folder.specs.Wanted.{seen_view, wishes_view};

use crate::bases::{OwnFiles, other_than, own_files};
use crate::books::{FiledBooks, file_books};
use crate::coming::{CameIn, come_in};
use crate::conflicts::conflicts;
use crate::files::book_files;
use crate::folder::{FolderIndex, clear_folder};
use crate::names::other_names;
use crate::naming::form_of;
use crate::refusal::{FolderFault, Place, Refusal};
use crate::seen::{Seen, Wishes};
use project_file::save;
use std::alloc::{AllocError, Global};
use usfm_ref::{Book, Key};

/// A book's new file.
#[derive(Debug, Drop)]
pub struct NewFile {
    /// The book.
    pub book: Book,
    /// The name of its file in the folder.
    pub name: String,
    /// The text that the file gets.
    pub text: Vec<u8>,
    /// Which of the files that were read it replaces; none where the book has no file.
    pub replaces: Option<usize>,
}

/// How many edits a file made.
#[derive(Clone, Copy, Debug)]
pub struct Added {
    /// The file's book.
    pub book: Book,
    /// How many edits its file made.
    pub count: u64,
}

/// Where a new file is to be put.
#[derive(Debug, Drop)]
pub struct Placing {
    /// The book.
    pub book: Book,
    /// The name of its file in the folder.
    pub name: String,
    /// Which of the files that were read it replaces; none where the book has no file.
    pub replaces: Option<usize>,
}

/// A step on the disk. One that fails ends the steps, but for `Place`.
#[derive(Debug, Drop)]
pub enum Step {
    /// The project gets these bytes, as the project's file is replaced ever.
    ReplaceProject(Vec<u8>),
    /// The base is settled: `settled` makes it of the `base`, the `next` and the books of which a
    /// `CODE.new` stands in the program's folder by then. Where it is other than the `base`, that
    /// one is linked to `base.1`, after those that are older have moved on. The new one is written
    /// under a name of its own, synced and renamed to `base`; the program's folder is synced;
    /// `next` is removed; the program's folder is synced; then each `CODE.new` is removed.
    Settle,
    /// The `CODE.new` of a book, which a command that was cut short has left, is removed.
    RemoveNew(Book),
    /// A book's new file is written as its `CODE.new`, and synced.
    WriteNew(NewFile),
    /// The program's folder is synced.
    SyncOwn,
    /// The `base` is written under a name of its own, synced, and renamed.
    PutBase(Vec<u8>),
    /// The `names`, in the same way.
    PutNames(Vec<u8>),
    /// The `next`, in the same way.
    PutNext(Vec<u8>),
    /// A `CODE.new` is renamed to its place, where the file there has the bytes that were read, or
    /// none is there and none was. Else it is left, and so it is where it cannot be renamed.
    Place(Placing),
    /// The folder is synced.
    SyncFolder,
}

/// What is to be done, and what is said of it.
#[derive(Debug, Drop)]
pub struct Plan {
    /// The steps, in their order. Broken off after any of them, they are finished by the next plan.
    pub steps: Vec<Step>,
    /// What is said of them.
    pub told: Told,
}

/// What is said of a plan.
#[derive(Debug, Drop)]
pub struct Told {
    /// How many operations the bases brought.
    pub base: u64,
    /// How many operations each bundle brought.
    pub bundles: Vec<u64>,
    /// How many edits each file made that was changed.
    pub files: Vec<Added>,
    /// The books that get no file, since the project does not have the book's head.
    pub headless: Vec<Book>,
    /// The segments that are in conflict.
    pub conflicts: Vec<(Book, Key)>,
    /// Whether operations are awaited that others replace.
    pub awaits: bool,
}

/// Plans what a sync does: what the bundles have and what was changed in the files comes into the
/// project, and the project's books go into the files. Nothing is done by that.
///
/// First what the files were written from is received; then each bundle; then what was changed in
/// the files that were written from it, in their order; then the files of which that is not known.
/// Then each book gets a new file where it has none that is like its text.
///
/// # Errors
/// The first of these, and of what; nothing is to be done then.
/// - `FileChanged` of a second file of a book, and of what stands under the name of a book's file
///   and is no longer that book's.
/// - `SettledEarly` where conflicts are to be settled and a next base stands, or a file is taken as
///   an older one: of that base, or that file.
/// - What is refused of what comes in, in its order: `Project`, `Bundle`, `Clash`, `NotText`,
///   `Edit` as the layers below refuse the project, a bundle or a file; `Unlike`, `Undone`,
///   `Emptied` where it is to be asked first, unless it is wished; `FileChanged` of a file that is
///   not known to be written from the base, of a book that the project has, where it is not like
///   the book's text.
/// - `BadForm` where the name that is to say how files are named does not.
/// - `NameTaken` of what stands where a new file is to be put.
/// - `Bundle` and `Clash`, of the project, where no base can be made of what the files have.
/// - `Memory` where an allocation failed.
pub fn make_plan<'a>(alloc: Global, seen: &Seen<'a>, wishes: &'a Wishes) -> Result<Plan, Refusal>
    ensures { AnswersBy plans.plan_view (plans.planned (seen_view seen.now)
        (wishes_view wishes.now)) result }
{
    let files = book_files(alloc, seen)?;
    let folder = clear_folder(alloc, seen, &files)?;
    plan_folder(alloc, &folder, wishes)
}

// The plan of a folder in which it is known which file is which book's.
fn plan_folder<'a>(
    alloc: Global,
    folder: &FolderIndex<'_, 'a>,
    wishes: &'a Wishes,
) -> Result<Plan, Refusal>
    ensures { let files = files_view folder.now.files.now in
        AnswersBy plans.plan_view (plans.planned_with (seen_view folder.now.seen)
        (wishes_view wishes.now) files) result }
{
    if settles_early(&folder.seen, wishes) {
        return Err(Refusal::Of(Place::Next, FolderFault::SettledEarly));
    }
    plan_coming(alloc, folder, wishes)
}

// Whether conflicts are to be settled after a sync that was cut short: a next base stands.
fn settles_early(seen: &Seen<'_>, wishes: &Wishes) -> bool
    ensures { result ≡ plans.settles_early (seen_view seen.now) (wishes_view wishes.now) }
{
    seen.next.is_some() && !wishes.settles_none()
}

// The plan of what comes in.
fn plan_coming<'a>(
    alloc: Global,
    folder: &FolderIndex<'_, 'a>,
    wishes: &'a Wishes,
) -> Result<Plan, Refusal>
    ensures { let files = files_view folder.now.files.now in
        AnswersBy plans.plan_view (plans.planned_coming (seen_view folder.now.seen)
        (wishes_view wishes.now) files) result }
{
    let seen = &folder.seen;
    let came = come_in(alloc, seen, wishes, folder.files)?;
    let form = form_of(alloc, folder, wishes)?;
    let filed = file_books(alloc, folder, &came.replica, &form)?;
    let names = other_names(alloc, seen, folder.files, &filed.made)?;
    plan_of(alloc, seen, came, filed, names)
}

// The plan of what came in.
fn plan_of(
    alloc: Global,
    seen: &Seen<'_>,
    came: CameIn,
    filed: FiledBooks,
    names: Option<Vec<u8>>,
) -> Result<Plan, Refusal>
    requires { filed.headless.items ≡ plans.headless came.replica.held }
    ensures { AnswersBy plans.plan_view (plans.plan_of (seen_view seen.now) (came_view came)
        (map plans.new_file_view filed.made.items) (option_map (λ b. b.items) names)) result }
{
    let FiledBooks { headless, made } = filed;
    let project = save(alloc, &came.replica)?;
    let project = other_than(bytes_or(seen.project, &came.recovered), project);
    let own = own_files(alloc, seen, &came, &headless, &made, names)?;
    let told = Told {
        base: came.new as u64,
        bundles: came.bundles,
        files: came.added,
        headless,
        conflicts: conflicts(alloc, &came.replica)?,
        awaits: !came.replica.awaited(alloc)?.is_empty(),
    };
    let mut steps = Vec::new(alloc);
    push_recovery(&mut steps, seen, came.recovered)?;
    push_steps(alloc, &mut steps, made, own, project)?;
    Ok(Plan { steps, told })
}

// The steps that finish what a command that was cut short has begun.
pub(crate) fn push_recovery(
    steps: &mut Vec<Step>,
    seen: &Seen<'_>,
    recovered: Option<Vec<u8>>,
) -> Result<(), AllocError>
    ensures { let view = seen_view seen.now in
        let more = plans.recovery (option_map (λ b. b.items) recovered) view.next view.unplaced in
        OnOk result (map plans.step_view steps.new.items
        ≡ map plans.step_view steps.old.items ++ more) }
{
    if let Some(project) = recovered {
        steps.push(Step::ReplaceProject(project))?;
    }
    if seen.next.is_some() {
        steps.push(Step::Settle)?;
    } else {
        push_removals(steps, seen.unplaced)?;
    }
    Ok(())
}

// The steps by which what a command that was cut short has left of some books is removed.
fn push_removals(steps: &mut Vec<Step>, books: &[Book]) -> Result<(), AllocError>
    ensures { OnOk result (map plans.step_view steps.new.items
        ≡ map plans.step_view steps.old.items ++ map RemoveNew books.now) }
{
    let mut left = books;
    'books: while let [book, later @ ..] = left {
        steps.push(Step::RemoveNew(*book))?;
        left = later;
    }
    Ok(())
}

// The steps of what is planned.
pub(crate) fn push_steps(
    alloc: Global,
    steps: &mut Vec<Step>,
    made: Vec<NewFile>,
    own: OwnFiles,
    project: Option<Vec<u8>>,
) -> Result<(), AllocError>
    ensures { let more = plans.plan_steps (map plans.new_file_view made.items) (plans.own_view own)
        (option_map (λ b. b.items) project) in
        OnOk result (map plans.step_view steps.new.items
        ≡ map plans.step_view steps.old.items ++ more) }
{
    let placings = push_writes(alloc, steps, made)?;
    push_own(steps, own)?;
    if let Some(project) = project {
        steps.push(Step::ReplaceProject(project))?;
    }
    push_places(steps, placings)
}

// The steps by which new files are written, and their names synced. It returns the steps by which
// they are put in their places.
fn push_writes(
    alloc: Global,
    steps: &mut Vec<Step>,
    made: Vec<NewFile>,
) -> Result<Vec<Step>, AllocError>
    ensures writes { let files = map plans.new_file_view made.items in
        IfOk result (λ placings. map plans.step_view steps.new.items
        ≡ map plans.step_view steps.old.items ++ with_sync SyncOwn (map WriteNew files)) }
    ensures placings { let files = map plans.new_file_view made.items in
        IfOk result (λ placings. map plans.step_view placings.items ≡ map plans.placing files) }
{
    let is_any = !made.is_empty();
    let mut placings = Vec::new(alloc);
    for file in made {
        placings.push(Step::Place(Placing {
            book: file.book,
            name: file.name.clone()?,
            replaces: file.replaces,
        }))?;
        steps.push(Step::WriteNew(file))?;
    }
    if is_any {
        steps.push(Step::SyncOwn)?;
    }
    Ok(placings)
}

// The steps by which the base, the names and the next base are put, and their names synced.
fn push_own(steps: &mut Vec<Step>, own: OwnFiles) -> Result<(), AllocError>
    ensures { let more = with_sync SyncOwn (plans.own_puts (plans.own_view own)) in
        OnOk result (map plans.step_view steps.new.items
        ≡ map plans.step_view steps.old.items ++ more) }
{
    let OwnFiles { base, names, next } = own;
    let is_put = base.is_some() || names.is_some() || next.is_some();
    if let Some(base) = base {
        steps.push(Step::PutBase(base))?;
    }
    if let Some(names) = names {
        steps.push(Step::PutNames(names))?;
    }
    if let Some(next) = next {
        steps.push(Step::PutNext(next))?;
    }
    if is_put {
        steps.push(Step::SyncOwn)?;
    }
    Ok(())
}

// The steps by which new files are put in their places, and the base is settled.
fn push_places(steps: &mut Vec<Step>, placings: Vec<Step>) -> Result<(), AllocError>
    ensures { let more = plans.placed (map plans.step_view placings.items) in
        OnOk result (map plans.step_view steps.new.items
        ≡ map plans.step_view steps.old.items ++ more) }
{
    if placings.is_empty() {
        return Ok(());
    }
    for placing in placings {
        steps.push(placing)?;
    }
    steps.push(Step::SyncFolder)?;
    steps.push(Step::Settle)?;
    Ok(())
}

// The bytes that there are, or else others.
fn bytes_or<'a>(other: &'a [u8], bytes: &'a Option<Vec<u8>>) -> &'a [u8]
    ensures { result.now ≡ plans.bytes_or other.now (option_map (λ b. b.items) bytes.now) }
{
    match bytes {
        Some(bytes) => bytes,
        None => other,
    }
}
