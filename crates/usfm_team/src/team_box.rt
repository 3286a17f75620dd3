// A folder in which the copies of a team leave their bundles.
use crate::files::{Folder, Opened, is_folder, is_still, open_plain, remove_if_there};
use crate::kept::Kept;
use crate::plan_refusal::fault_of;
use crate::reading::{Given, read_plain};
use crate::refusal::Refusal;
use crate::rights::look_at;
use crate::setup::whole_path;
use crate::system_disk::{Making, replace_in};
use crate::telling::{begins_as_book, begins_as_bundle, say, say_of, tell_skipped};
use book_folder::{BoxFile, Place, Sifted, box_file, may_be_book};
use box_names::{BoxName, box_name};
use command_faults::{Expected, Fault, Found, found_file};
use folder_setup::{has_unknown_of, is_within};
use op_core::ReplicaName;
use project_file::judge;
use sealed_bundle::{seal, unseal};
use std::mem;
use team_disk::Folder as DiskFolder;
use usfm_cli::TEXT_BUNDLE;

// What follows the name of the copy's own bundle, where it has edits that nobody here knows of.
const SET_BACK: &str =
    " had edits under this copy's name that the project did not have: they came in";

// Which of two may be the case then, and how to go on.
const ONE_OF_TWO: &str = "if the project was set back to an older file, go on; if somebody else \
    uses this name, one of you goes on under another name: usfm_team join FOLDER NAME";

// So many names are tried under which a bundle is written.
const MOST_NAMES: usize = 8;

// What follows the name of the copy's own bundle that is replaced.
const NO_BUNDLE: &str = ": it is not a bundle, or only a part of one";

// A box, which each copy reads, and in which it writes its own bundle.
#[derive(Drop)]
pub(crate) struct TeamBox {
    folder: Folder,
    // The name of the copy's own bundle in it.
    own: String,
    // Whether what faults mean is said.
    explains: bool,
    // What stands there for other copies' bundles, and how people call it.
    bundles: Vec<Vec<u8>>,
    names: Vec<String>,
    // Whether something of it was skipped.
    has_skipped: bool,
}

// Opens a box, and reads the bundles in it: the copy's own comes in with those that the line names.
// One that is the folder of books, or in it, is refused, and one that has books' files.
pub(crate) fn open_box(
    rt: &HostRuntime,
    name: &str,
    books: &Folder,
    path: &str,
    project: &[u8],
    given: &mut Given,
    explains: bool,
) -> Result<TeamBox, Refusal> {
    let judged = judge(rt.alloc(), project);
    let judged = judged.map_err(|fault| Refusal::of_project(rt, Fault::from(fault), path))?;
    let own = own_name(rt, &judged.name())?;
    let folder = open_box_folder(rt, name)?;
    refuse_inside(rt, name, books)?;
    let mut shared = TeamBox {
        folder,
        own,
        explains,
        bundles: Vec::new(rt.alloc()),
        names: Vec::new(rt.alloc()),
        has_skipped: false,
    };
    shared.read(rt, judged.bundle(), given)?;
    Ok(shared)
}

// The name of a copy's own bundle.
pub(crate) fn own_name(rt: &HostRuntime, copy: &ReplicaName) -> Result<String, Fault> {
    Ok(format!(in rt.alloc(); "{}.bundle", copy.text())?)
}

// Opens the folder of a box.
pub(crate) fn open_box_folder(rt: &HostRuntime, name: &str) -> Result<Folder, Refusal> {
    Folder::open(rt, name).map_err(|fault| Refusal::expecting(rt, fault, name, Expected::Box))
}

// Refuses a box that is the folder of books, or in it.
pub(crate) fn refuse_inside(rt: &HostRuntime, name: &str, books: &Folder) -> Result<(), Refusal> {
    let (place, inner) = (whole_path(rt, books.name())?, whole_path(rt, name)?);
    if is_within(rt.alloc(), &place, &inner).map_err(Fault::from)? {
        return Err(Refusal::expecting(rt, Fault::FileFailed, name, Expected::BoxInFolder));
    }
    Ok(())
}

// Refuses a box that has a book's file.
pub(crate) fn refuse_book(rt: &HostRuntime, folder: &Folder, name: &str) -> Result<(), Refusal> {
    if may_be_book(name) && begins_as_book(rt, &folder.way_to(rt, name)?) {
        let fault = Fault::FileFailed;
        return Err(Refusal::expecting(rt, fault, folder.name(), Expected::BoxWithBooks));
    }
    Ok(())
}

// Has the copy's own bundle come in where it is other than the project's. What is somebody's file in
// its place is refused, and anything else is skipped and said: it is replaced. Answers whether it is
// a bundle.
fn take_own(
    rt: &HostRuntime,
    path: String,
    bytes: Vec<u8>,
    bundle: &[u8],
    given: &mut Given,
) -> Result<bool, Refusal> {
    match box_file(rt.alloc(), Some(bundle), &bytes).map_err(Fault::from)? {
        BoxFile::Bundle => {
            given.own = Some(given.bundles.len());
            given.bundles.push(bytes).map_err(Fault::from)?;
            given.names.push(path).map_err(Fault::from)?;
        }
        BoxFile::Unchanged => {}
        BoxFile::NoBundle if is_kept(&bytes) => {
            return Err(Refusal::named(Fault::FileFailed, path, Expected::OwnBundle));
        }
        BoxFile::NoBundle => {
            say_of(rt, "skipped ", &path, NO_BUNDLE);
            return Ok(false);
        }
    }
    Ok(true)
}

// Whether bytes are those of another file, whose place the copy's bundle does not take.
fn is_kept(bytes: &[u8]) -> bool {
    matches!(
        found_file(bytes),
        Found::Project | Found::Summary | Found::BookFile | Found::Newer
    )
}

impl TeamBox {
    // Reads the bundles, in the order of their names. What cannot be one is skipped and said.
    fn read(&mut self, rt: &HostRuntime, bundle: &[u8], given: &mut Given) -> Result<(), Refusal> {
        for name in self.folder.names(rt, true)? {
            if !self.takes(rt, &name)? {
                refuse_book(rt, &self.folder, &name)?;
                continue;
            }
            // Some file systems find a file under its name in any case.
            let is_own = name.eq_ignore_ascii_case(&self.own);
            if let Some(bytes) = self.read_bundle(rt, &name, is_own)? {
                let path = self.folder.name_of(rt, &name)?;
                if is_own {
                    self.has_skipped |= !take_own(rt, path, bytes, bundle, given)?;
                } else {
                    self.bundles.push(bytes).map_err(Fault::from)?;
                    self.names.push(path).map_err(Fault::from)?;
                }
            }
        }
        Ok(())
    }

    // Whether a file may be a bundle by its name. One that was meant as a bundle, and has another
    // name, is said.
    fn takes(&mut self, rt: &HostRuntime, name: &str) -> Result<bool, Refusal> {
        let is_meant = match box_name(name) {
            BoxName::Bundle => return Ok(true),
            BoxName::Other => return Ok(false),
            BoxName::Broken => {
                self.has_skipped = true;
                say(rt, "skipped a bundle whose name contains a line break");
                return Ok(false);
            }
            BoxName::Renamed => !is_folder(rt, &self.folder.way_to(rt, name)?),
            BoxName::NoEnding => begins_as_bundle(rt, &self.folder.way_to(rt, name)?),
        };
        if is_meant {
            self.has_skipped = true;
            say_of(rt, "skipped ", &self.folder.name_of(rt, name)?, TEXT_BUNDLE);
        }
        Ok(false)
    }

    // The bytes of a bundle, without their seal. What was damaged on its way, or is not whole, is
    // skipped and said. Another copy's that cannot be read is, too: it keeps nobody from the others.
    // The copy's own is to be replaced, and so is refused.
    fn read_bundle(
        &mut self,
        rt: &HostRuntime,
        name: &str,
        is_own: bool,
    ) -> Result<Option<Vec<u8>>, Refusal> {
        match read_plain(rt, &self.folder, name, 1, true) {
            Err(refusal) if !is_own && !matches!(refusal.fault, Fault::Memory) => {
                let path = self.folder.name_of(rt, name)?;
                tell_skipped(rt, &path, &refusal.fault, Found::Unseen, self.explains);
                self.has_skipped = true;
                Ok(None)
            }
            Ok(None) => {
                self.has_skipped |= !is_folder(rt, &self.folder.way_to(rt, name)?);
                Ok(None)
            }
            Ok(Some(bytes)) => match unseal(bytes) {
                Ok(bundle) => Ok(Some(bundle)),
                Err(fault) => {
                    let path = self.folder.name_of(rt, name)?;
                    if is_own {
                        say_of(rt, "skipped ", &path, NO_BUNDLE);
                    } else {
                        tell_skipped(rt, &path, &Fault::from(fault), Found::Bundle, self.explains);
                    }
                    self.has_skipped = true;
                    Ok(None)
                }
            },
            read => read,
        }
    }

    // Whether something that may be a bundle was skipped, and said.
    pub(crate) fn has_skipped(&self) -> bool {
        self.has_skipped
    }

    // What stands in the box for other copies' bundles.
    pub(crate) fn bundles(&self) -> &[Vec<u8>] {
        &self.bundles
    }

    // Whether the copy's own bundle has operations under its name that neither the project nor its
    // folder knows: no sync of this copy made them, as far as it can tell.
    pub(crate) fn is_ahead(
        &self,
        rt: &HostRuntime,
        project: &[u8],
        kept: &Kept,
        given: &Given,
    ) -> Result<bool, Fault> {
        let own = match given.own {
            Some(at) => given.bundles.get(at),
            None => None,
        };
        let Some(own) = own else {
            return Ok(false);
        };
        let judged = judge(rt.alloc(), project)?;
        let mut known = Vec::new(rt.alloc());
        known.push(judged.bundle())?;
        for bytes in &kept.bases {
            known.push(bytes.as_slice())?;
        }
        for bytes in &kept.older {
            known.push(bytes.as_slice())?;
        }
        Ok(has_unknown_of(rt.alloc(), own, &judged.name(), &known)?)
    }

    // Says so, and which of two may be the case.
    pub(crate) fn say_ahead(&self, rt: &HostRuntime) {
        if let Ok(path) = self.folder.name_of(rt, &self.own) {
            say_of(rt, "", &path, SET_BACK);
            say(rt, ONE_OF_TWO);
        }
    }

    // Gives those bundles that come in, and says of each other one why it does not.
    pub(crate) fn give(
        &mut self,
        rt: &HostRuntime,
        sifted: &[Sifted],
        given: &mut Given,
    ) -> Result<(), Fault> {
        let bundles = mem::replace(&mut self.bundles, Vec::new(rt.alloc()));
        let names = mem::replace(&mut self.names, Vec::new(rt.alloc()));
        let mut has_others = false;
        for ((bytes, name), became) in bundles.into_iter().zip(names).zip(sifted) {
            match became {
                Sifted::Comes => {
                    has_others = true;
                    given.bundles.push(bytes)?;
                    given.names.push(name)?;
                }
                Sifted::Refused(fault) => {
                    let fault = fault_of(book_folder::Refusal::Of(Place::Project, *fault));
                    tell_skipped(rt, &name, &fault, found_file(&bytes), self.explains);
                    self.has_skipped = true;
                }
            }
        }
        if self.explains && !has_others {
            say_of(rt, "", self.folder.name(), " has no other copy's bundle");
        }
        Ok(())
    }

    // Puts all that a project has into the box, as its copy's own bundle, which is sealed.
    pub(crate) fn put(&self, rt: &HostRuntime, project: &[u8]) -> Result<(), Refusal> {
        let put = self.put_bundle(rt, project);
        put.map_err(|fault| {
            Refusal::unwritten(
                fault,
                self.folder.name_of(rt, &self.own),
                Expected::OwnBundle,
            )
        })
    }

    fn put_bundle(&self, rt: &HostRuntime, project: &[u8]) -> Result<(), Fault> {
        let bundle = &seal(rt.alloc(), judge(rt.alloc(), project)?.bundle())?;
        let path = self.folder.way_to(rt, &self.own)?;
        if is_still(rt, &path, bundle)? {
            return Ok(());
        }
        let new = self.new_path(rt)?;
        let mut olds = Vec::new(rt.alloc());
        if let Ok(Opened::Plain(old)) = open_plain(rt, &path) {
            olds.push(look_at(&old)?)?;
        }
        let making = if olds.is_empty() {
            Making::New
        } else {
            Making::Like(&olds)
        };
        let handle = self.folder.handle();
        let put = replace_in(rt, handle, DiskFolder::Box, making, &path, &new, bundle);
        if put.is_err() {
            // What a full disk could not hold whole would keep the others from writing theirs.
            let _ = remove_if_there(rt, &new);
        }
        put
    }

    // The path under which the bundle is written: where somebody's folder has that name, it gets
    // another.
    fn new_path(&self, rt: &HostRuntime) -> Result<String, Fault> {
        let own = &self.own;
        for turn in 0..MOST_NAMES {
            let name = match turn {
                0 => format!(in rt.alloc(); ".{own}.new")?,
                _ => format!(in rt.alloc(); ".{own}.{turn}.new")?,
            };
            let path = self.folder.way_to(rt, &name)?;
            if !is_folder(rt, &path) {
                return Ok(path);
            }
        }
        Err(Fault::FileFailed)
    }
}
