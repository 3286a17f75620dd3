// The steps of a plan, done on the disk.
use crate::base_settling::settle_base;
use crate::before::{forget_before, go_back, keep_base, keep_before};
use crate::days::keep_day;
use crate::files::{
    Folder, is_there, link_fault, make_file, make_private, remove_if_there, sync_file, write_made,
};
use crate::kept::{BASE, BEFORE, NAMES, NEXT, OWN};
use crate::project::Project;
use crate::reading::{Read, own_refusal};
use crate::refusal::Refusal;
use crate::rights::keep_least_rights;
use crate::system_disk::{Making, SystemCalls, SystemDisk, fault_of_disk};
use crate::telling::say_of;
use book_folder::{MADE_END, NewFile, Placing, Step};
use command_faults::{Expected, Fault};
use std::fs;
use std::io::ErrorKind;
use team_disk::{Folder as DiskFolder, Recorded, StagedFiles, Unknown};
use usfm_ref::Book;

// What became of the steps: the books whose files were left as they are, and the refusal of the
// first that was left since it could not be replaced.
#[derive(Drop)]
pub(crate) struct Done {
    pub(crate) left: Vec<Book>,
    pub(crate) failed: Option<Refusal>,
}

impl Done {
    pub(crate) fn nothing(rt: &HostRuntime) -> Done {
        Done {
            left: Vec::new(rt.alloc()),
            failed: None,
        }
    }
}

// What steps are done on.
#[derive(Clone, Copy)]
pub(crate) struct Disk<'a> {
    pub(crate) rt: &'a HostRuntime,
    pub(crate) folder: &'a Folder,
    // How the line names the project.
    pub(crate) project: &'a str,
    // The project's bytes before any step.
    pub(crate) before: &'a [u8],
    // What was read of the folder.
    pub(crate) read: &'a Read,
}

// Does steps, one after another.
pub(crate) fn do_steps(
    disk: Disk<'_>,
    project: &mut Project,
    steps: &[Step],
) -> Result<Done, Refusal> {
    if steps.is_empty() && !disk.read.kept.goes_back {
        return Ok(Done::nothing(disk.rt));
    }
    if steps.iter().any(is_replacement) {
        let kept = project.refuse_kept(disk.rt);
        kept.map_err(|fault| Refusal::of_project(disk.rt, fault, disk.project))?;
    }
    let own = own_folder(disk)?;
    if disk.read.kept.goes_back {
        go_back(disk, &own).map_err(|fault| own.refusal(disk.rt, fault, BEFORE))?;
    } else if disk.read.kept.before.is_some() {
        // The project has what the bases say, and only this is left of that sync.
        forget_before(disk, &own)?;
    }
    do_each(disk, &own, project, steps)
}

// Does steps, and takes back what one that fails leaves.
fn do_each<'a>(
    disk: Disk<'a>,
    own: &'a Folder,
    project: &mut Project,
    steps: &[Step],
) -> Result<Done, Refusal> {
    let mut replacements = steps.iter().filter(|step| is_replacement(step)).count();
    let mut doing = Doing {
        disk,
        own,
        staged: None,
        done: Done::nothing(disk.rt),
    };
    for step in steps {
        let is_before = replacements > 0;
        if is_replacement(step) {
            replacements = replacements.saturating_sub(1);
        }
        if let Err(refusal) = doing.do_step(project, step, is_before) {
            let is_done = is_replacement(step) && project.is_replaced;
            take_back(disk, own, steps, is_before && !is_done);
            return Err(refusal);
        }
    }
    Ok(doing.done)
}

fn is_replacement(step: &Step) -> bool {
    matches!(step, Step::ReplaceProject(_))
}

// Steps that are being done.
#[derive(Drop)]
struct Doing<'a> {
    disk: Disk<'a>,
    own: &'a Folder,
    // The new files, once they are put in their places: they are on the disk by then, and the project
    // is.
    staged: Option<StagedFiles<SystemDisk<'a>>>,
    done: Done,
}

impl<'a> Doing<'a> {
    fn do_step(
        &mut self,
        project: &mut Project,
        step: &Step,
        is_before: bool,
    ) -> Result<(), Refusal> {
        let (disk, own, rt) = (self.disk, self.own, self.disk.rt);
        match step {
            Step::ReplaceProject(bytes) => {
                keep_day(disk, own);
                let replaced = project.replace(rt, bytes);
                replaced.map_err(|fault| Refusal::of_project(rt, fault, disk.project))?;
                forget_before(disk, own)
            }
            Step::Settle => settle_base(disk, own),
            Step::RemoveNew(book) => remove_new(rt, own, *book),
            Step::WriteNew(file) => {
                let written = write_new(disk, own, file);
                written.map_err(|fault| disk.folder.refusal(rt, fault, &file.name))
            }
            Step::SyncOwn => Ok(own.sync()?),
            Step::PutBase(bytes) if is_before => {
                let put = put_first(disk, own, bytes);
                put.map_err(|fault| own.refusal(rt, fault, BASE))
            }
            Step::PutBase(bytes) => put(disk, own, BASE, bytes),
            Step::PutNames(bytes) => put(disk, own, NAMES, bytes),
            Step::PutNext(bytes) => {
                if is_before {
                    keep_base(disk, own).map_err(|fault| own.refusal(rt, fault, BEFORE))?;
                }
                put(disk, own, NEXT, bytes)
            }
            Step::Place(placing) => self.place(placing),
            Step::SyncFolder => {
                let mut staged = self.take_staged();
                let synced = staged.sync();
                self.staged = Some(staged);
                Ok(synced.map_err(fault_of_disk)?)
            }
        }
    }

    // The new files in the program's folder, and the folder in which they have their places.
    fn take_staged(&mut self) -> StagedFiles<SystemDisk<'a>> {
        match self.staged.take() {
            Some(staged) => staged,
            None => {
                let (rt, handle) = (self.disk.rt, self.disk.folder.handle());
                let calls = SystemCalls::new(rt, DiskFolder::Books, handle, Making::New, None);
                StagedFiles::new(Recorded::new(calls, Unknown))
            }
        }
    }

    // Puts a book's new file in its place, unless something else stands there than was read.
    fn place(&mut self, placing: &Placing) -> Result<(), Refusal> {
        let mut staged = self.take_staged();
        let placed = place(self.disk, self.own, &mut staged, placing);
        self.staged = Some(staged);
        if !matches!(placed, Ok(true)) {
            self.done.left.push(placing.book).map_err(Fault::from)?;
        }
        if let (Err(fault), None) = (placed, &self.done.failed) {
            let name = self.disk.folder.name_of(self.disk.rt, &placing.name);
            self.done.failed = Some(Refusal::unwritten(fault, name, Expected::BookFile));
        }
        Ok(())
    }
}

// The program's own folder, which is made where it is not there, and on the disk then.
fn own_folder(disk: Disk<'_>) -> Result<Folder, Refusal> {
    let made = make_own(disk.rt, disk.folder);
    made.map_err(|fault| own_refusal(disk.rt, disk.folder, fault))
}

pub(crate) fn make_own(rt: &HostRuntime, folder: &Folder) -> Result<Folder, Fault> {
    if let Some(own) = folder.inside(rt, OWN)? {
        return Ok(own);
    }
    let path = folder.way_to(rt, OWN)?;
    fs::create_dir(rt, path.as_str()).map_err(link_fault)?;
    folder.sync()?;
    match folder.inside(rt, OWN)? {
        Some(own) => Ok(own),
        None => Err(Fault::FileFailed),
    }
}

// Takes away the new files of steps that were broken off, and the base that was put, where the
// project was still to be replaced. Where a next base stands then, which tells of them, they stay.
fn take_back(disk: Disk<'_>, own: &Folder, steps: &[Step], is_before: bool) {
    let rt = disk.rt;
    if is_before {
        let _ = go_back(disk, own);
    }
    let is_told = own
        .way_to(rt, NEXT)
        .is_ok_and(|next| is_there(rt, &next).unwrap_or(true));
    if is_told {
        return;
    }
    for step in steps {
        if let Step::WriteNew(file) = step {
            let _ = remove_new(rt, own, file.book);
        }
    }
    if let Ok(own) = disk.folder.way_to(rt, OWN) {
        // It stays where something is in it.
        let _ = fs::remove_dir(rt, own.as_str());
    }
}

// The name under which a book's new file is written.
fn new_name(rt: &HostRuntime, book: Book) -> Result<String, Fault> {
    Ok(format!(in rt.alloc(); "{book}.new")?)
}

fn new_path(rt: &HostRuntime, own: &Folder, book: Book) -> Result<String, Fault> {
    own.way_to(rt, &new_name(rt, book)?)
}

pub(crate) fn remove_new(rt: &HostRuntime, own: &Folder, book: Book) -> Result<(), Refusal> {
    let name = new_name(rt, book)?;
    let removed = remove_if_there(rt, &own.way_to(rt, &name)?);
    removed.map_err(|fault| own.refusal(rt, fault, &name))
}

// Writes a book's new file, and waits until it is on the disk. It gets the rights of the one that
// it replaces, and nobody may read it before who may not read that one.
fn write_new(disk: Disk<'_>, own: &Folder, file: &NewFile) -> Result<(), Fault> {
    let rt = disk.rt;
    let path = new_path(rt, own, file.book)?;
    let old = match file.replaces {
        Some(at) => disk.read.looks.get(at..=at),
        None => None,
    };
    let made = match old {
        Some(_) => make_private(rt, &path)?,
        None => make_file(rt, &path)?,
    };
    write_made(&made, &file.text)?;
    if let Some(old) = old {
        keep_least_rights(rt, old, &made)?;
    }
    sync_file(&made)
}

// Writes a file of the program's own folder under another name, and puts it in the place of the one
// that is there. Nobody may read it who may not read each book's file.
pub(crate) fn put(disk: Disk<'_>, own: &Folder, name: &str, bytes: &[u8]) -> Result<(), Refusal> {
    put_at(disk, own, name, bytes).map_err(|fault| own.refusal(disk.rt, fault, name))
}

fn put_at(disk: Disk<'_>, own: &Folder, name: &str, bytes: &[u8]) -> Result<(), Fault> {
    put_made(disk, own, name, bytes, false)
}

// Puts the base that makes the files as they were read, before the project has what came in. What
// stood there keeps another name until it has; else another command that gives an id again would
// leave a base for ever that the project cannot receive.
fn put_first(disk: Disk<'_>, own: &Folder, bytes: &[u8]) -> Result<(), Fault> {
    put_made(disk, own, BASE, bytes, true)
}

// Writes a file under another name, and gives it its own once what stood as the base has another
// one, where that is to be kept.
pub(crate) fn put_made(
    disk: Disk<'_>,
    own: &Folder,
    name: &str,
    bytes: &[u8],
    is_kept: bool,
) -> Result<(), Fault> {
    let rt = disk.rt;
    let made_name = format!(in rt.alloc(); "{name}{MADE_END}")?;
    let made = own.way_to(rt, &made_name)?;
    let kept = match write_own(disk, &made, bytes) {
        Ok(()) if is_kept => keep_before(rt, own),
        written => written,
    };
    let is_put = match kept {
        Ok(()) => rename(rt, &made, &own.way_to(rt, name)?),
        Err(fault) => Err(fault),
    };
    if is_put.is_err() {
        let _ = remove_if_there(rt, &made);
    }
    is_put
}

fn write_own(disk: Disk<'_>, path: &str, bytes: &[u8]) -> Result<(), Fault> {
    let made = make_private(disk.rt, path)?;
    write_made(&made, bytes)?;
    keep_least_rights(disk.rt, &disk.read.book_looks, &made)?;
    sync_file(&made)
}

// What cannot be read any more is another file.
fn place(
    disk: Disk<'_>,
    own: &Folder,
    staged: &mut StagedFiles<SystemDisk<'_>>,
    placing: &Placing,
) -> Result<bool, Fault> {
    let rt = disk.rt;
    let path = disk.folder.way_to(rt, &placing.name)?;
    let new = new_path(rt, own, placing.book)?;
    let was = match placing.replaces {
        Some(at) => match disk.read.files.get(at) {
            Some(file) => Some(file.bytes.as_slice()),
            None => return Ok(false),
        },
        None => None,
    };
    match staged.place(rt.alloc(), &new, &path, was) {
        Ok(is_placed) => Ok(is_placed),
        Err(_) if staged.disk.calls().files.is_unread => Ok(false),
        Err(fault) => Err(fault_of_disk(fault)),
    }
}

// Removes what an older version of the program kept, and what was half written, where the base is
// there. What cannot be removed is said, and keeps nobody from the answer.
pub(crate) fn sweep(disk: Disk<'_>) {
    let rt = disk.rt;
    let outdated = &disk.read.kept.outdated;
    if outdated.is_empty() {
        return;
    }
    let Ok(Some(own)) = disk.folder.inside(rt, OWN) else {
        return;
    };
    let is_based = own
        .way_to(rt, BASE)
        .is_ok_and(|base| is_there(rt, &base).unwrap_or(false));
    if !is_based {
        return;
    }
    for name in outdated {
        if let (Ok(path), Ok(called)) = (own.way_to(rt, name), own.name_of(rt, name)) {
            if remove_if_there(rt, &path).is_err() {
                say_of(
                    rt,
                    "",
                    &called,
                    " is in the way, and could not be removed: move it away",
                );
            }
        }
    }
}

pub(crate) fn rename(rt: &HostRuntime, from: &str, to: &str) -> Result<(), Fault> {
    fs::rename(rt, from, to).map_err(|_| Fault::FileFailed)
}
