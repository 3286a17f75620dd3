// What is known of a refusal beside its fault: which file it is of, and what that file is.
ghost use Rattle.std.specs.Prelude.{◌≡◌, OnOk, OnErr};
ghost use Rattle.project_file.specs.Projects.{project_at};
ghost use Rattle.command_faults.specs.Circumstances as told;

use crate::book_fronts::Slip;
use crate::fault::Fault;
use project_file::{LoadFault, judge};
use std::alloc::Global;

/// What the file of a refusal was to be.
#[derive(Clone, Copy, Debug, PartialEq, Eq, Drop)]
pub enum Expected {
    /// Nothing that is known, or the refusal is of no file.
    Unknown,
    /// A project.
    Project,
    /// A project that is to be begun: nothing may stand under its name.
    NewProject,
    /// Such a project, under the name that it has until it is whole.
    HalfProject,
    /// A bundle.
    Bundle,
    /// The file of a book.
    BookFile,
    /// The one file of a book in a folder, which has another one of it.
    OneOfTwo,
    /// The file of another book in a folder than the one whose it was.
    Renamed,
    /// A side of a merge, of the book that its base has.
    Side,
    /// The file of a book in a folder of which nothing says what its files were written from.
    Unbased,
    /// Nothing: under this name another book gets its file.
    NewFile,
    /// The file of a book in a folder, of which it has the name, but not the front.
    NoBook,
    /// The file of a book in a folder, of which it has the name, but which is not read: it is no
    /// plain file, or too long.
    NotRead,
    /// What the program keeps of a folder: what the files in it were written from.
    Kept,
    /// A name that says how the files of books are to be named.
    NewName,
    /// A summary.
    Summary,
    /// A style sheet.
    Sheet,
    /// A versification.
    Versification,
    /// A folder of books' files.
    Folder,
    /// A folder in which the copies of a team leave their bundles.
    Box,
    /// The folder in a folder of books in which the program keeps what it has to know of them.
    OwnFolder,
    /// The bundle that a copy leaves in such a folder, when all else is done.
    OwnBundle,
    /// A text that somebody types at a terminal.
    Typed,
    /// A bundle of a box that has the name which a new copy is to have.
    NameInUse,
    /// What a folder remembers that it is synced with.
    Setup,
    /// The same, of a folder that is to be set up: nothing may stand there.
    NewSetup,
    /// A day of which a folder keeps what its project was before.
    Day,
    /// A project whose days are asked for, and of which no folder is known.
    DayFolder,
    /// What a folder's files were written from before the last time.
    Older,
    /// A path that a folder is to remember.
    Remembered,
    /// A box that is the folder of books' files, or stands in it.
    BoxInFolder,
    /// A box that has books' files.
    BoxWithBooks,
    /// A folder of books' files that has bundles, and no book's file.
    FolderOfBundles,
}

/// What stands under the name of a file.
#[derive(Clone, Copy, Debug, PartialEq, Eq, Drop)]
pub enum Found {
    /// Nobody has looked.
    Unseen,
    /// Nothing.
    Nothing,
    /// Nothing, and the folder that it would be in is not there.
    NoFolder,
    /// A folder.
    Folder,
    /// A file that begins as a project does.
    Project,
    /// A file that begins as a bundle does, sealed or not.
    Bundle,
    /// A file that begins as a summary does.
    Summary,
    /// A file that begins as a book does, with `\id`.
    BookFile,
    /// A project, a bundle or a summary in a format that a newer version of the program has.
    Newer,
    /// Another file.
    Other,
}

/// What is known of a refusal beside its fault.
#[derive(Clone, Copy, Debug, PartialEq, Eq, Drop)]
pub struct Circumstances {
    /// What the file was to be.
    pub expected: Expected,
    /// What stands there.
    pub found: Found,
    /// What is wrong with a word of the command line that is to be a book's code, or with how a
    /// book's file begins.
    pub slip: Option<Slip>,
}

impl Circumstances {
    /// Nothing is known.
    pub const UNKNOWN: Circumstances = Circumstances {
        expected: Expected::Unknown,
        found: Found::Unseen,
        slip: None,
    };
}

/// Which of two inputs a command was refused for.
#[derive(Clone, Copy, Debug, PartialEq, Eq, Drop)]
pub enum Input {
    /// The project.
    Project,
    /// The other file that it reads.
    Given,
    /// Neither: what it was to do.
    Neither,
}

/// Which input a command on a project, given as the bytes of its file, was refused for: the
/// project, where it is none or damaged. Where it is whole, faults of bytes are of the other input.
/// So it is where there is no memory to judge the project, which takes some only where one of its
/// operations is thinned.
pub fn refused_input(alloc: Global, project: &[u8], fault: &Fault) -> Input
    ensures whole { OnOk (project_at project.now) (result ≡ told.input_of fault.now) }
    ensures damaged { OnErr (project_at project.now)
        (told.NamesProject project.now fault.now result) }
{
    match judge(alloc, project) {
        Err(LoadFault::BadProject) | Err(LoadFault::Bundle(_)) => Input::Project,
        Err(LoadFault::Memory) | Ok(_) => input_of(fault),
    }
}

// The input that a whole project is not refused for.
fn input_of(fault: &Fault) -> Input
    ensures { result ≡ told.input_of fault.now }
{
    match fault {
        Fault::NotText { valid: _ }
        | Fault::Reference(_)
        | Fault::NoId
        | Fault::FieldBeforeMarker { line: _ }
        | Fault::EmptyMarker { line: _ }
        | Fault::BadStyleType { line: _ }
        | Fault::BadVersification { line: _ }
        | Fault::BadAnswers { line: _ }
        | Fault::Clash(_)
        | Fault::Bundle(_)
        | Fault::Trailing
        | Fault::BadSummary
        | Fault::BadSeal => Input::Given,
        _ => Input::Neither,
    }
}
