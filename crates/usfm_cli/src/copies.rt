// How a project stands, as lines: beside the files of other copies, or chapter by chapter.
ghost use Rattle.std.specs.Prelude.{◌≡◌, false, Ok, IfOk, IfErr};
ghost use Rattle.op_core.specs.Export.{has_book};
ghost use Rattle.project_file.specs.Projects.{project_at};
ghost use Rattle.replica_state.specs.States.{State};
ghost use Rattle.versification.specs.Views.{verses_in};
ghost use Rattle.usfm_cli.specs.Commands.{Gives, any_fault, no_fault};
ghost use Rattle.usfm_cli.specs.Copies as copies;
ghost use Rattle.command_faults.specs.Faults.{of_loading};
ghost use Rattle.usfm_cli.specs.OverBooks as over;
ghost use Rattle.usfm_cli.specs.Projects.{RefusesFile};
ghost use Rattle.usfm_cli.specs.Turns as turns;

use crate::over_books::load_seen;
use crate::turns::TurnFault;
use bundle_codec::{Summary, decode_whole};
use command_faults::Fault;
use op_core::OpSet;
use project_file::judge;
use project_status::{Other, push_progress, status_text};
use std::alloc::{AllocError, Global};
use std::marker::Model;
use usfm_ref::Book;
use versification::Versification;

/// A file that tells which ids another copy has: its summary, or a bundle of its operations. It is
/// named as it was given.
#[derive(Debug, Drop)]
pub struct CopyFile<'a> {
    name: &'a str,
    bytes: &'a [u8],
}

impl<'a> Model for CopyFile<'a> {
    ghost use Rattle.usfm_cli.specs.Copies.{FileParts};

    ghost Value = { FileParts };

    ghost view = { λ f. record { name = f.name.now; bytes = f.bytes.now } };
}

impl<'a> CopyFile<'a> {
    /// A file of this name with these bytes.
    pub fn new(name: &'a str, bytes: &'a [u8]) -> CopyFile<'a>
        ensures { result ≡ record { name = name.now; bytes = bytes.now } }
    {
        CopyFile { name, bytes }
    }

    fn name(&self) -> &'a str
        ensures { result.now ≡ self.now.name }
    {
        self.name
    }

    fn bytes(&self) -> &'a [u8]
        ensures { result.now ≡ self.now.bytes }
    {
        self.bytes
    }
}

/// How a project stands, given as the bytes of its file, with the lines of its folder, and what
/// other copies have and lack, as `project_status::status_text` writes it. A file that begins as a
/// summary does is read as one, any other as a bundle.
///
/// # Errors
/// - `Project` with the fault of the project, as `exec` answers it: 110, 60 to 69, 70.
/// - `Turn` with the number of the files before the first one that is refused, and its fault:
///   `BadSummary` (71), or `Bundle` (60 to 69) or `Trailing` (70).
///
/// `Memory` (1) where an allocation failed: of a `Turn` where its file is a summary or a bundle, or
/// one with a thinned operation that is refused; else of the `Project`, and then the first file is
/// not one that is refused, unless the project has a thinned operation.
pub fn project_status(
    alloc: Global,
    project: &[u8],
    folder: &[u8],
    files: &[CopyFile<'_>],
) -> Result<Vec<u8>, TurnFault>
    ensures answer { turns.is_out_of_memory result ≡ false →
        copies.status_of (project_at project.now) folder.now files.now ≡ copies.as_list result }
    // Which file is refused, and where memory may have run out.
    ensures beside { (s : State) → project_at project.now ≡ Ok s
        → copies.AnswersStatus s folder.now files.now (copies.as_list result) }
    // A file that is no project is refused for that, whatever memory there is; but for its bundle,
    // where an operation of it is thinned.
    ensures no_project { IfErr (project_at project.now) (λ fault.
        turns.RefusesProject project.now (of_loading fault) result) }
{
    let project = judge(alloc, project)?;
    let others = others_of(alloc, files)?;
    let set = project.to_set(alloc)?;
    Ok(status_text(alloc, &project.name(), &set, folder, &others)?)
}

// What files tell of other copies.
fn others_of<'a>(alloc: Global, files: &[CopyFile<'a>]) -> Result<Vec<Other<'a>>, TurnFault>
    ensures { copies.TellsAll files.now (copies.as_list result) }
{
    let mut others = Vec::new(alloc);
    for file in files {
        match known_of(alloc, file.bytes()) {
            Ok(known) => others.push(Other::new(file.name(), known))?,
            Err(fault) => return Err(TurnFault::Turn(others.len(), fault)),
        }
    }
    Ok(others)
}

// The ids that the file of another copy tells.
pub(crate) fn known_of(alloc: Global, bytes: &[u8]) -> Result<Summary, Fault>
    ensures { copies.Tells bytes.now result }
{
    if is_like_summary(bytes) {
        return Ok(Summary::read(alloc, bytes)?);
    }
    let bundle = decode_whole(alloc, bytes)?;
    let set = bundle.to_set(alloc)?;
    Ok(Summary::of(alloc, &set)?)
}

// Whether bytes begin as a summary does.
#[tactic(auto, unfolding(bundle_codec::specs::Summaries::summary_magic))]
fn is_like_summary(bytes: &[u8]) -> bool
    ensures { result ≡ copies.is_like_summary bytes.now }
{
    bytes.starts_with(b"USFMSS1\n")
}

/// How far the chapters of a project's books are written by a versification, given the bytes of
/// both files, of one book or of all, as `project_status::push_progress` writes it. All of the
/// project's file is judged; of one book, what is of it is copied.
///
/// # Errors
/// Those of the project, as `exec` answers them: 110, 60 to 69, 70; `BadVersification` (43) with the
/// first line of the versification that has none of the forms; `NoBook` (82) where the project does
/// not have the book. `Memory` (1) where an allocation failed; it may come in the place of 43 and
/// of `NoBook`, since what the project holds is copied before the versification is read, and that
/// before the book is looked for.
pub fn project_progress(
    alloc: Global,
    project: &[u8],
    book: Option<Book>,
    versification: &[u8],
) -> Result<Vec<u8>, Fault>
    ensures answer { over.AnswersProject project.now
        (λ held. copies.progress_by held book versification.now) result }
    ensures no_project { IfErr (project_at project.now) (λ fault.
        RefusesFile project.now (of_loading fault) result) }
{
    let replica = load_seen(alloc, project, &book)?;
    progress_by(alloc, replica.set(), book, versification)
}

// How far the books of a set are, or one of them, by the versification of a file.
fn progress_by(
    alloc: Global,
    set: &OpSet,
    book: Option<Book>,
    file: &[u8],
) -> Result<Vec<u8>, Fault>
    ensures { Gives any_fault (copies.progress_by set.now book file.now) result }
{
    let versification = Versification::read(alloc, file)?;
    progress_of(alloc, &versification, set, book)
}

// The same by a versification.
fn progress_of(
    alloc: Global,
    versification: &Versification,
    set: &OpSet,
    book: Option<Book>,
) -> Result<Vec<u8>, Fault>
    ensures { Gives no_fault
        (copies.progress_of book set.now (verses_in versification.now)) result }
{
    match book {
        None => Ok(progress_of_all(alloc, versification, set)?),
        Some(book) => progress_in(alloc, versification, set, book),
    }
}

fn progress_of_all(
    alloc: Global,
    versification: &Versification,
    set: &OpSet,
) -> Result<Vec<u8>, AllocError>
    ensures { IfOk result (λ text.
        text.items ≡ copies.all_progress (verses_in versification.now) set.now) }
{
    let mut text = Vec::new(alloc);
    for book in set.books() {
        push_progress(alloc, versification, set, book, &mut text)?;
    }
    Ok(text)
}

fn progress_in(
    alloc: Global,
    versification: &Versification,
    set: &OpSet,
    book: Book,
) -> Result<Vec<u8>, Fault>
    ensures { Gives no_fault
        (copies.progress_in (verses_in versification.now) set.now book) result }
{
    if !has_book(set, book) {
        return Err(Fault::NoBook);
    }
    let mut text = Vec::new(alloc);
    push_progress(alloc, versification, set, book, &mut text)?;
    Ok(text)
}

// Whether the set has an operation of the book.
pub(crate) fn has_book(set: &OpSet, book: Book) -> bool
    ensures { result ≡ has_book set.now book }
{
    set.keys(book).next().is_some()
}
