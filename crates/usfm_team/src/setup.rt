// What a folder remembers that it is synced with: the project, the box, and the form of new names.
use crate::files::{Folder, is_same_file, remove_if_there};
use crate::kept::OWN;
use crate::reading::{book_looks, own_refusal, read_plain};
use crate::refusal::Refusal;
use crate::steps::make_own;
use crate::sync::tell;
use crate::system_disk::{Making, replace_in};
use crate::telling::say_of;
use book_folder::MADE_END;
use command_faults::{Expected, Fault};
use folder_setup::{Setup, SetupFault, SpellFault, path_from, path_in, read, spelled};
use std::alloc::AllocError;
use std::fs::Metadata;
use std::io::{ErrorKind, Write};
use std::{fs, io};
use team_disk::Folder as DiskFolder;
use usfm_token::read_text;

// The file of the program's own folder that has it.
const SETUP: &str = "setup";

// What a folder remembers, with its paths from the folder.
#[derive(Debug, Drop)]
pub(crate) struct Remembered {
    project: String,
    box_folder: Option<String>,
    names: Option<String>,
}

// What a line says of it, with its paths from where one is.
#[derive(Clone, Copy)]
pub(crate) struct Said<'a> {
    pub(crate) project: Option<&'a str>,
    pub(crate) box_folder: Option<&'a str>,
    pub(crate) names: Option<&'a str>,
}

impl Remembered {
    fn of(rt: &HostRuntime, setup: &Setup<'_>) -> Result<Remembered, AllocError> {
        Ok(Remembered {
            project: String::from_str(rt.alloc(), setup.project)?,
            box_folder: copied(rt, setup.box_folder)?,
            names: copied(rt, setup.names)?,
        })
    }

    // Whether it is what these lines say.
    pub(crate) fn is(&self, rt: &HostRuntime, text: &str) -> Result<bool, Fault> {
        match spelled(rt.alloc(), &self.setup()) {
            Ok(known) => Ok(known.as_str() == text),
            Err(SpellFault::Memory) => Err(Fault::Memory),
            Err(SpellFault::BadValue) => Ok(false),
        }
    }

    // Whether a path leads to the project, as one names both who names the folder so.
    pub(crate) fn is_of(
        &self,
        rt: &HostRuntime,
        folder: &str,
        project: &str,
    ) -> Result<bool, Fault> {
        Ok(are_one_place(rt, project, &self.project(rt, folder)?))
    }

    fn setup(&self) -> Setup<'_> {
        Setup {
            project: &self.project,
            box_folder: self.box_folder.as_deref(),
            names: self.names.as_deref(),
        }
    }

    // The project, as one names it who names the folder so.
    pub(crate) fn project(&self, rt: &HostRuntime, folder: &str) -> Result<String, Fault> {
        named_from(rt, folder, &self.project)
    }

    // The box, in the same way.
    pub(crate) fn box_folder(
        &self,
        rt: &HostRuntime,
        folder: &str,
    ) -> Result<Option<String>, Fault> {
        match &self.box_folder {
            Some(path) => Ok(Some(named_from(rt, folder, path)?)),
            None => Ok(None),
        }
    }

    // The name that says how new files are named.
    pub(crate) fn names(&self, rt: &HostRuntime) -> Result<Option<String>, Fault> {
        Ok(copied(rt, self.names.as_deref())?)
    }

    // Says where a line says something else, which goes before it.
    pub(crate) fn say_other(
        &self,
        rt: &HostRuntime,
        folder: &Folder,
        said: Said<'_>,
    ) -> Result<(), Fault> {
        let own = path_in(rt.alloc(), folder.name(), OWN)?;
        let place = path_in(rt.alloc(), &own, SETUP)?;
        if let Some(path) = said.project {
            let known = self.project(rt, folder.name())?;
            if !are_one_place(rt, path, &known) {
                say_of(rt, "", &place, " has another project, which is not synced");
            }
        }
        if let (Some(path), Some(known)) = (said.box_folder, self.box_folder(rt, folder.name())?) {
            if !are_one_place(rt, path, &known) {
                say_of(rt, "", &place, " has another box, which is not used");
            }
        }
        if let (Some(name), Some(known)) = (said.names, &self.names) {
            if name != known.as_str() {
                say_of(rt, "", &place, " has another form of new names");
            }
        }
        Ok(())
    }
}

// A path from a folder, as one names it who names the folder so. What stands beside the folder is
// named without it, unless its name is a link's, which may lead elsewhere.
fn named_from(rt: &HostRuntime, folder: &str, path: &str) -> Result<String, Fault> {
    let plain = folder.trim_end_matches('/');
    match path.strip_prefix("../") {
        Some(rest) if is_plain_name(rt, plain) => match plain.rsplit_once('/') {
            Some((above, _)) => Ok(format!(in rt.alloc(); "{above}/{rest}")?),
            None => Ok(String::from_str(rt.alloc(), rest)?),
        },
        _ => Ok(path_in(rt.alloc(), folder, path)?),
    }
}

// Whether a path ends in the name of what it leads to, which is no link's.
pub(crate) fn is_plain_name(rt: &HostRuntime, path: &str) -> bool {
    let is_link = fs::symlink_metadata(rt, path).is_ok_and(|found| found.is_symlink());
    !is_link && !matches!(last_name(path), "" | "." | "..")
}

// The last name of a path.
pub(crate) fn last_name(path: &str) -> &str {
    match path.rsplit_once('/') {
        Some((_, name)) => name,
        None => path,
    }
}

fn copied(rt: &HostRuntime, text: Option<&str>) -> Result<Option<String>, AllocError> {
    match text {
        Some(text) => Ok(Some(String::from_str(rt.alloc(), text)?)),
        None => Ok(None),
    }
}

// Whether two paths lead to one place.
fn are_one_place(rt: &HostRuntime, one: &str, other: &str) -> bool {
    if one == other {
        return true;
    }
    match (fs::metadata(rt, one), fs::metadata(rt, other)) {
        (Ok(one), Ok(other)) => is_same_file(&one, &other),
        _ => false,
    }
}

// What a folder remembers, if it was set up.
pub(crate) fn read_setup(rt: &HostRuntime, folder: &Folder) -> Result<Option<Remembered>, Refusal> {
    let own = match folder.inside(rt, OWN) {
        Ok(Some(own)) => own,
        Ok(None) => return Ok(None),
        Err(fault) => return Err(own_refusal(rt, folder, fault)),
    };
    let Some(bytes) = read_plain(rt, &own, SETUP, 1, true)? else {
        return Ok(None);
    };
    let text = match read_text(&bytes) {
        Ok(text) => text,
        Err(fault) => return Err(refused(rt, &own, Fault::from(fault), Expected::Setup)),
    };
    match read(text) {
        Ok(setup) => Ok(Some(Remembered::of(rt, &setup).map_err(Fault::from)?)),
        Err(SetupFault::BadLine { line }) => {
            let mut said = Vec::new(rt.alloc());
            tell(writeln!(said, "line {line}"))?;
            let refusal = refused(rt, &own, Fault::FileChanged, Expected::Setup);
            Err(refusal.with_lines(Some(said)))
        }
    }
}

fn refused(rt: &HostRuntime, own: &Folder, fault: Fault, expected: Expected) -> Refusal {
    Refusal::unwritten(fault, own.name_of(rt, SETUP), expected)
}

// The refusal of a folder that does not remember anything.
pub(crate) fn not_set_up(rt: &HostRuntime, folder: &Folder) -> Refusal {
    setup_refusal(rt, folder, Fault::ReadFailed, Expected::Setup)
}

// The refusal of a folder that is set up already.
pub(crate) fn is_set_up(rt: &HostRuntime, folder: &Folder) -> Refusal {
    setup_refusal(rt, folder, Fault::FileFailed, Expected::NewSetup)
}

fn setup_refusal(rt: &HostRuntime, folder: &Folder, fault: Fault, expected: Expected) -> Refusal {
    let name = match path_in(rt.alloc(), OWN, SETUP) {
        Ok(name) => folder.name_of(rt, &name),
        Err(error) => Err(Fault::from(error)),
    };
    Refusal::unwritten(fault, name, expected)
}

// The lines that a folder is to remember: what a line says, and else what it remembered before. The
// project and the box of the line are named from the folder then.
pub(crate) fn to_remember(
    rt: &HostRuntime,
    folder: &Folder,
    before: Option<&Remembered>,
    said: Said<'_>,
) -> Result<String, Refusal> {
    let (known, known_box, known_names) = match before {
        Some(before) => (
            before.project.as_str(),
            before.box_folder.as_deref(),
            before.names.as_deref(),
        ),
        None => ("", None, None),
    };
    let project = from_folder(rt, folder, said.project)?;
    let box_folder = from_folder(rt, folder, said.box_folder)?;
    let setup = Setup {
        project: match &project {
            Some(path) => path.as_str(),
            None => known,
        },
        box_folder: match &box_folder {
            Some(path) => Some(path.as_str()),
            None => known_box,
        },
        names: match said.names {
            Some(name) => Some(name),
            None => known_names,
        },
    };
    lines_of(rt, folder, &setup)
}

// The lines that a folder is to remember whose project stands beside it, under this name.
pub(crate) fn to_remember_beside(
    rt: &HostRuntime,
    folder: &Folder,
    project: &str,
    said: Said<'_>,
) -> Result<String, Refusal> {
    let project = format!(in rt.alloc(); "../{project}").map_err(Fault::from)?;
    let place = from_folder(rt, folder, said.box_folder)?;
    let (box_folder, names) = (place.as_deref(), said.names);
    let setup = Setup {
        project: project.as_str(),
        box_folder,
        names,
    };
    lines_of(rt, folder, &setup)
}

fn lines_of(rt: &HostRuntime, folder: &Folder, setup: &Setup<'_>) -> Result<String, Refusal> {
    match spelled(rt.alloc(), setup) {
        Ok(text) => Ok(text),
        Err(SpellFault::Memory) => Err(Refusal::from(Fault::Memory)),
        Err(SpellFault::BadValue) => {
            Err(setup_refusal(rt, folder, Fault::FileFailed, Expected::Remembered))
        }
    }
}

// A path that a line names, as it is named from the folder.
fn from_folder(
    rt: &HostRuntime,
    folder: &Folder,
    path: Option<&str>,
) -> Result<Option<String>, Refusal> {
    let Some(path) = path else {
        return Ok(None);
    };
    let place = whole_path(rt, folder.name())?;
    let here = whole_path(rt, ".")?;
    let named = path_from(rt.alloc(), &place, &here, path).map_err(Fault::from)?;
    Ok(Some(named))
}

// The whole path of a folder, without links.
pub(crate) fn whole_path(rt: &HostRuntime, path: &str) -> Result<String, Refusal> {
    let found = fs::canonicalize(rt, path);
    let whole = found.map_err(|error| whole_fault(rt, &error, path))?;
    Ok(String::from_str(rt.alloc(), whole.as_str()).map_err(Fault::from)?)
}

fn whole_fault(rt: &HostRuntime, error: &io::Error, path: &str) -> Refusal {
    match error.kind() {
        ErrorKind::OutOfMemory => Refusal::from(Fault::Memory),
        _ => Refusal::expecting(rt, Fault::ReadFailed, path, Expected::Folder),
    }
}

// Has a folder remember these lines. Nobody may read them who may not read each book's file.
pub(crate) fn put_setup(rt: &HostRuntime, folder: &Folder, text: &str) -> Result<(), Refusal> {
    let looks = book_looks(rt, folder)?;
    let own = make_own(rt, folder).map_err(|fault| own_refusal(rt, folder, fault))?;
    let put = put_in(rt, &own, &looks, text);
    put.map_err(|fault| own.refusal(rt, fault, SETUP))
}

fn put_in(rt: &HostRuntime, own: &Folder, looks: &[Metadata], text: &str) -> Result<(), Fault> {
    let name = format!(in rt.alloc(); "{SETUP}{MADE_END}")?;
    let (path, made) = (own.way_to(rt, SETUP)?, own.way_to(rt, &name)?);
    let making = Making::Like(looks);
    let bytes = text.as_bytes();
    let put = replace_in(
        rt,
        own.handle(),
        DiskFolder::Own,
        making,
        &path,
        &made,
        bytes,
    );
    if put.is_err() {
        let _ = remove_if_there(rt, &made);
    }
    put
}
