// Why a plan of a folder is refused, as a person is told it, and what of the folder is named.
use crate::kept::{NEXT, OWN};
use crate::reading::Read;
use crate::refusal::Refusal;
use crate::sync::What;
use book_folder::{FolderFault, Place};
use command_faults::{Expected, Fault};
use usfm_ref::RefFault;

// Why a plan is refused, and what is named.
pub(crate) fn refusal_of(what: What<'_>, read: &Read, refusal: book_folder::Refusal) -> Refusal {
    let other = other_file(&refusal);
    let (place, is_taken) = match &refusal {
        book_folder::Refusal::Memory => (None, false),
        book_folder::Refusal::Of(place, fault) => {
            (Some(*place), matches!(fault, FolderFault::NameTaken))
        }
    };
    let fault = fault_of(refusal);
    match place {
        None => Refusal::from(fault),
        Some(Place::Project) => Refusal::of_project(what.rt, fault, what.path),
        Some(place) => match name_of(what, read, place) {
            Ok(Some(name)) => match other {
                None if is_taken => Refusal::named(fault, name, Expected::NewFile),
                None => Refusal::named(fault, name, expected_at(read, place)),
                Some(at) => Refusal::of_two(fault, name, name_at(what, read, at)),
            },
            _ => Refusal::from(fault),
        },
    }
}

// What stands at a place is to be.
fn expected_at(read: &Read, place: Place) -> Expected {
    match place {
        Place::Project => Expected::Project,
        Place::Base(_) | Place::Next | Place::Older(_) => Expected::Kept,
        Place::Bundle(_) => Expected::Bundle,
        Place::File(at) => match read.files.get(at) {
            Some(file) => read.kept.expected(&file.name, &file.bytes),
            None => Expected::BookFile,
        },
        Place::Other(_) => Expected::NotRead,
        Place::Form => Expected::NewName,
    }
}

// The place of the other one, where a second file of a book is refused.
fn other_file(refusal: &book_folder::Refusal) -> Option<usize> {
    match refusal {
        book_folder::Refusal::Of(_, FolderFault::SecondOf(other)) => Some(*other),
        _ => None,
    }
}

// The name of a file of the folder, unless an allocation failed.
fn name_at(what: What<'_>, read: &Read, at: usize) -> Option<String> {
    match name_of(what, read, Place::File(at)) {
        Ok(name) => name,
        Err(_) => None,
    }
}

// How a person calls what a plan is refused for, if not the project.
fn name_of(what: What<'_>, read: &Read, place: Place) -> Result<Option<String>, Fault> {
    let own = |name: &str| {
        let name = format!(in what.rt.alloc(); "{OWN}/{name}")?;
        what.folder.name_of(what.rt, &name)
    };
    let name = match place {
        Place::Project => return Ok(None),
        Place::Base(at) => read.kept.base_names.get(at).map(|name| own(name)),
        Place::Next => Some(own(NEXT)),
        Place::Older(at) => read.kept.earlier_name(at).map(|name| own(name)),
        Place::Bundle(at) => what.given.names.get(at).map(|name| Ok(name.clone()?)),
        Place::File(at) => {
            let file = read.files.get(at);
            file.map(|file| what.folder.name_of(what.rt, &file.name))
        }
        Place::Other(at) => {
            let other = read.others.get(at);
            other.map(|name| what.folder.name_of(what.rt, name))
        }
        Place::Form => what.wishes.form.as_ref().map(|form| Ok(form.clone()?)),
    };
    name.transpose()
}

// The fault of the program that a refusal is.
pub(crate) fn fault_of(refusal: book_folder::Refusal) -> Fault {
    let book_folder::Refusal::Of(_, fault) = refusal else {
        return Fault::Memory;
    };
    match fault {
        FolderFault::Project(fault) => Fault::from(fault),
        FolderFault::Bundle(fault) => Fault::from(fault),
        FolderFault::Clash(id) => Fault::Clash(id),
        FolderFault::NotText(valid) => Fault::NotText { valid },
        FolderFault::FileChanged | FolderFault::NameTaken | FolderFault::SecondOf(_) => {
            Fault::FileChanged
        }
        FolderFault::Emptied(count) => Fault::Emptied {
            count: count as u64,
        },
        FolderFault::Undone(count) => Fault::Undone {
            count: count as u64,
        },
        FolderFault::Unlike(count) => Fault::Unlike {
            count: count as u64,
        },
        FolderFault::SettledEarly => Fault::SettledEarly,
        FolderFault::Edit(fault) => Fault::from(fault),
        FolderFault::NoBook => Fault::NoBook,
        FolderFault::BadForm => Fault::Reference(RefFault::BadBook),
    }
}
