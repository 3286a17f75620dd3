// Why a folder is refused, and what is to be named.
ghost use Rattle.std.specs.Prelude.{◌≡◌};
ghost use Rattle.book_folder.specs.Refusals as refusals;
ghost use Rattle.book_folder.specs.declared.refusal.Refusal.TheVariants.{Memory};

use bundle_codec::{BundleFault, JoinFault, WholeFault};
use op_core::OpId;
use project_file::LoadFault;
use replica_state::{EditFault, ImportFault, ReceiveFault};
use std::alloc::{AllocError, AllocFailed};
use thiserror::Error;

/// What a refusal is of: the project, or one of the things that were read, by its place among its
/// like.
#[derive(Clone, Copy, Debug, PartialEq, Eq)]
pub enum Place {
    /// The project's file.
    Project,
    /// A bundle of the base.
    Base(usize),
    /// The base that was being written.
    Next,
    /// A base before the base: where a next one stands, the bases come first.
    Older(usize),
    /// A bundle that is given.
    Bundle(usize),
    /// A file of the folder.
    File(usize),
    /// What else stands under a name.
    Other(usize),
    /// The name that is asked for.
    Form,
}

/// Why a folder is refused.
#[derive(Clone, Copy, Debug, PartialEq, Eq, Error)]
pub enum FolderFault {
    /// The project's file is none.
    #[error("{0}")]
    Project(LoadFault),
    /// The bytes are no bundle.
    #[error("{0}")]
    Bundle(WholeFault),
    /// Two operations that differ have one id.
    #[error("two operations that differ have one id: {} {}", .0.number, .0.name.text())]
    Clash(OpId),
    /// A file is not UTF-8 after this many bytes.
    #[error("not UTF-8 after {0} bytes")]
    NotText(usize),
    /// A file was changed since the program wrote it, or is no longer its book's.
    #[error("the file was changed since it was written")]
    FileChanged,
    /// Something stands under the name that a book's new file is to get.
    #[error("something stands under the name of a new file")]
    NameTaken,
    /// A file is a second one of its book, of which the file of this place is another one.
    #[error("the folder has another file of the same book")]
    SecondOf(usize),
    /// Of this many segments that have a text in what the file was written from, the file has none.
    #[error("{0} texts are gone from the file")]
    Emptied(usize),
    /// Of this many segments the file has the text that stood there before another's came in.
    #[error("the file undoes {0} texts that came in")]
    Undone(usize),
    /// A bundle has nothing in common with a project that has something, and would put this many
    /// segments in conflict.
    #[error("the bundle shares nothing with the project, and brings {0} conflicts")]
    Unlike(usize),
    /// Conflicts are not settled by files where the sync before was cut short, or where a file is
    /// taken as an older one: what the file shows then, nobody has seen.
    #[error("no file settles a conflict yet")]
    SettledEarly,
    /// A change may not be made.
    #[error("{0}")]
    Edit(EditFault),
    /// The project has no operation of a book that is asked for.
    #[error("no operation is of the book")]
    NoBook,
    /// The name does not begin with the code of a book that has a number, or with that number and
    /// the code; or it is no name of a book's file.
    #[error("the name does not say how files are named")]
    BadForm,
}

/// Why a folder is refused, and what of it. Nothing was written.
#[derive(Clone, Copy, Debug, PartialEq, Eq, Error)]
pub enum Refusal {
    /// An allocation failed.
    #[error("out of memory")]
    Memory,
    /// This is refused, for this.
    #[error("{1}")]
    Of(Place, FolderFault),
}

impl From<AllocError> for Refusal {
    ghost from_gives = { λ _ refusal. refusal ≡ Memory };

    fn from(_: AllocError) -> Refusal {
        Refusal::Memory
    }
}

impl<T: Drop> From<AllocFailed<T>> for Refusal {
    ghost from_gives = { λ _ refusal. refusal ≡ Memory };

    fn from(_: AllocFailed<T>) -> Refusal {
        Refusal::Memory
    }
}

impl Refusal {
    pub(crate) fn of_bundle(place: Place, fault: WholeFault) -> Refusal
        ensures { result ≡ refusals.of_bundle place fault }
    {
        match fault {
            WholeFault::Bundle(BundleFault::Memory) => Refusal::Memory,
            fault => Refusal::Of(place, FolderFault::Bundle(fault)),
        }
    }

    pub(crate) fn of_receiving(place: Place, fault: ReceiveFault) -> Refusal
        ensures { result ≡ refusals.of_receiving place fault }
    {
        match fault {
            ReceiveFault::Memory => Refusal::Memory,
            ReceiveFault::Clash(id) => Refusal::Of(place, FolderFault::Clash(id)),
        }
    }

    pub(crate) fn of_joining(place: Place, fault: JoinFault) -> Refusal
        ensures { result ≡ refusals.of_joining place fault }
    {
        match fault {
            JoinFault::Memory => Refusal::Memory,
            JoinFault::Bundle(fault) => Refusal::of_bundle(place, fault),
            JoinFault::Clash(id) => Refusal::Of(place, FolderFault::Clash(id)),
        }
    }

    pub(crate) fn of_edit(place: Place, fault: EditFault) -> Refusal
        ensures { result ≡ refusals.of_edit place fault }
    {
        match fault {
            EditFault::Memory => Refusal::Memory,
            fault => Refusal::Of(place, FolderFault::Edit(fault)),
        }
    }

    pub(crate) fn of_import(place: Place, fault: ImportFault) -> Refusal
        ensures { result ≡ refusals.of_import place fault }
    {
        match fault {
            ImportFault::Memory => Refusal::Memory,
            ImportFault::BadFile(_) => Refusal::Of(place, FolderFault::FileChanged),
            ImportFault::NumbersUsedUp => {
                Refusal::Of(place, FolderFault::Edit(EditFault::NumbersUsedUp))
            }
        }
    }

    pub(crate) fn of_loading(fault: LoadFault) -> Refusal
        ensures { result ≡ refusals.of_loading fault }
    {
        match fault {
            LoadFault::Memory => Refusal::Memory,
            fault => Refusal::Of(Place::Project, FolderFault::Project(fault)),
        }
    }
}
