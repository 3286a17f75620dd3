// A project's file. One command at a time changes it, and what a command changed is on the disk
// before it answers.
use crate::files::{
    Opened, is_same_file, is_there, link_fault, lock_file, open_folder, open_named, open_to_lock,
    read_open, remove_if_there, sync_file, sync_folder, write_made,
};
use crate::rights::look_at;
use crate::system_disk::{Making, SystemCalls, fault_of_disk};
use command_faults::Fault;
use std::fs::{File, Metadata};
use std::io::ErrorKind;
use std::os::unix::fs::MetadataExt;
use std::path::PathBuf;
use std::{fs, mem};
use team_disk::{Folder, Recorded, Unknown, are_apart, begin_file, replace_file};

// The bits of a mode by which somebody may write.
const MAY_WRITE: u32 = 0o222;

// How the name ends under which a project is made that is begun.
const BEGUN_END: &str = ".begun";

// A project that holds nothing has no more bytes than its magic, a name and an empty bundle.
const MOST_BEGUN: u64 = 280;

// A project's file that no other command changes until this value is dropped.
#[derive(Drop)]
pub(crate) struct Project {
    file: File,
    // The file's own name, where the name in the line is a link.
    place: PathBuf,
    // Whether the last replacement gave it its bytes, even if the disk may not keep them.
    pub(crate) is_replaced: bool,
}

// Waits for the file of a project until no other command changes it.
//
// The command that was waited for may have put a new file in the place of the one that was opened.
// So the name has to lead to this file still, else the new one is waited for.
pub(crate) fn lock_project(rt: &HostRuntime, path: &str) -> Result<Project, Fault> {
    let mut is_said = false;
    for _ in 0..u64::MAX {
        let file = open_to_lock(rt, path).map_err(|_| Fault::ReadFailed)?;
        lock_file(rt, &file, path, &mut is_said)?;
        let place = real_path(rt, path)?;
        if stands_at(rt, &file, &place)? {
            return Ok(Project {
                file,
                place,
                is_replaced: false,
            });
        }
    }
    Err(Fault::FileFailed)
}

// What became of a project's file that was to be replaced.
#[derive(Drop)]
struct Replaced {
    result: Result<(), Fault>,
    // Whether the new file has the name.
    is_named: bool,
    // The file that has it, if it is open still.
    file: Option<File>,
}

// Replaces the file of the first path, which is held, by way of the second.
fn replace_held<'a>(
    rt: &'a HostRuntime,
    folder: &'a File,
    olds: &'a [Metadata],
    held: File,
    [path, new]: [&str; 2],
    bytes: &[u8],
) -> Replaced {
    if !are_apart(path, new) {
        return Replaced {
            result: Err(Fault::FileFailed),
            is_named: false,
            file: Some(held),
        };
    }
    let calls = SystemCalls::new(rt, Folder::Project, folder, Making::Held(olds), Some(held));
    let mut disk = Recorded::new(calls, Unknown);
    let replaced = replace_file(&mut disk, Folder::Project, path, new, bytes);
    let files = disk.into_calls().files;
    Replaced {
        result: replaced.map_err(fault_of_disk),
        is_named: files.is_named,
        file: if files.is_named {
            files.made
        } else {
            files.held
        },
    }
}

// Begins a project where nothing is under its name. The file is made whole under another name, and
// gets its own by a link, which fails where something has it: of two commands at once one makes the
// project, and a command that is killed leaves none, or all of it.
pub(crate) fn begin_project(rt: &HostRuntime, path: &str, bytes: &[u8]) -> Result<(), Fault> {
    let folder = open_folder(rt, path)?;
    if is_there(rt, path).map_err(|_| Fault::FileFailed)? {
        return Err(Fault::FileFailed);
    }
    let begun = begun_path(rt, path)?;
    begin_in(rt, &folder, path, &begun, bytes)
}

// Begins a project in a folder, by way of the path that it has before its own.
fn begin_in<'a>(
    rt: &'a HostRuntime,
    folder: &'a File,
    path: &str,
    begun: &str,
    bytes: &[u8],
) -> Result<(), Fault> {
    if !are_apart(path, begun) {
        return Err(Fault::FileFailed);
    }
    let calls = SystemCalls::new(rt, Folder::Project, folder, Making::Begun, None);
    let mut disk = Recorded::new(calls, Unknown);
    let made = begin_file(&mut disk, Folder::Project, path, begun, bytes);
    let files = disk.into_calls().files;
    match made {
        Ok(()) => Ok(()),
        Err(fault) if !files.is_made => Err(fault_of_disk(fault)),
        Err(_) if files.has_no_links => begin_without_link(rt, path, begun, folder, bytes),
        Err(fault) => {
            if files.is_named {
                let _ = fs::remove_file(rt, path);
            }
            let _ = remove_if_there(rt, begun);
            Err(fault_of_disk(fault))
        }
    }
}

// Begins a project where the disk has no links: the file is made under its own name. Whoever looks at
// it before its bytes are there, or after a power cut then, finds it truncated.
fn begin_without_link(
    rt: &HostRuntime,
    path: &str,
    begun: &str,
    folder: &File,
    bytes: &[u8],
) -> Result<(), Fault> {
    let made = match File::create_new(rt, path) {
        Ok(file) => write_named(rt, path, &file, bytes),
        Err(_) => {
            let _ = remove_if_there(rt, begun);
            return Err(Fault::FileFailed);
        }
    };
    let kept = match made {
        Ok(()) => keep_begun(rt, begun, folder),
        Err(fault) => Err(fault),
    };
    if kept.is_err() {
        let _ = fs::remove_file(rt, path);
        let _ = remove_if_there(rt, begun);
    }
    kept
}

fn write_named(rt: &HostRuntime, path: &str, file: &File, bytes: &[u8]) -> Result<(), Fault> {
    lock_file(rt, file, path, &mut true)?;
    write_made(file, bytes)?;
    sync_file(file)
}

// Leaves a project that is begun its own name alone, and waits until that is on the disk.
fn keep_begun(rt: &HostRuntime, begun: &str, folder: &File) -> Result<(), Fault> {
    remove_if_there(rt, begun)?;
    sync_folder(folder)
}

// Where a project is made that is begun.
pub(crate) fn begun_path(rt: &HostRuntime, path: &str) -> Result<String, Fault> {
    Ok(format!(in rt.alloc(); "{path}{BEGUN_END}")?)
}

// Makes a file, and locks it. One that a command has left which was killed is removed; a command
// that is at work is waited for.
pub(crate) fn make_begun(rt: &HostRuntime, begun: &str) -> Result<File, Fault> {
    // It is a matter of milliseconds, which nobody is told of.
    let mut is_said = true;
    for _ in 0..u64::MAX {
        match File::create_new(rt, begun) {
            Ok(file) => {
                lock_file(rt, &file, begun, &mut is_said)?;
                if is_at(rt, &file, begun)? {
                    return Ok(file);
                }
            }
            Err(error) if error.kind() == ErrorKind::AlreadyExists => {
                match open_named(rt, begun, 2)? {
                    Opened::Plain(_) => remove_left(rt, begun)?,
                    Opened::Nothing => {}
                    Opened::Folder | Opened::Other(_) => return Err(Fault::FileFailed),
                }
            }
            Err(_) => return Err(Fault::FileFailed),
        }
    }
    Err(Fault::FileFailed)
}

// Removes a file that a command has left which was killed; one that holds more than a project that
// was begun is somebody's. It stays locked until its name is gone: else who has just made it would
// have it for its own then, and lose the name.
fn remove_left(rt: &HostRuntime, begun: &str) -> Result<(), Fault> {
    let Ok(old) = open_to_lock(rt, begun) else {
        return Err(Fault::FileFailed);
    };
    lock_file(rt, &old, begun, &mut true)?;
    if look_at(&old)?.len() > MOST_BEGUN {
        return Err(Fault::FileFailed);
    }
    if is_at(rt, &old, begun)? {
        remove_if_there(rt, begun)?;
    }
    Ok(())
}

// Whether a name, which is no link, leads to a file.
fn is_at(rt: &HostRuntime, file: &File, path: &str) -> Result<bool, Fault> {
    let opened = look_at(file)?;
    match fs::symlink_metadata(rt, path) {
        Ok(found) => Ok(is_same_file(&opened, &found)),
        Err(error) if error.kind() == ErrorKind::NotFound => Ok(false),
        Err(_) => Err(Fault::FileFailed),
    }
}

impl Project {
    // The bytes of the file.
    pub(crate) fn read(&self, rt: &HostRuntime) -> Result<Vec<u8>, Fault> {
        read_open(rt, &self.file)
    }

    // Gives the project these bytes: writes them to `PLACE.new` and renames that to `PLACE`, so
    // that the file has either its old bytes or the new ones. The folder is opened first: where
    // that cannot be, the project stays. The new file is locked before it has the name, so that the
    // project still is nobody else's.
    pub(crate) fn replace(&mut self, rt: &HostRuntime, bytes: &[u8]) -> Result<(), Fault> {
        self.is_replaced = false;
        self.refuse_kept(rt)?;
        let place = self.place.as_str();
        let new = format!(in rt.alloc(); "{place}.new")?;
        let folder = open_folder(rt, place)?;
        let olds = [look_at(&self.file)?];
        let held = mem::replace(&mut self.file, open_folder(rt, place)?);
        let replaced = replace_held(rt, &folder, &olds, held, [place, &new], bytes);
        self.is_replaced = replaced.is_named;
        if let Some(file) = replaced.file {
            self.file = file;
        } else if self.is_replaced {
            self.hold_again(rt, bytes)?;
        }
        replaced.result
    }

    // Opens and locks the project anew, which had to be closed to be replaced. Another command may
    // have had it meanwhile: what that one changed is not replaced from now on.
    fn hold_again(&mut self, rt: &HostRuntime, bytes: &[u8]) -> Result<(), Fault> {
        let place = self.place.as_str();
        let file = open_to_lock(rt, place).map_err(|_| Fault::FileFailed)?;
        lock_file(rt, &file, place, &mut true)?;
        if read_open(rt, &file)?.as_slice() != bytes {
            return Err(Fault::FileFailed);
        }
        self.file = file;
        Ok(())
    }

    // Refuses a change of a file that is kept as it is, since nobody may write it, and of one that
    // has another name too: that one would stay as it was, and be a second project of one copy from
    // then on.
    pub(crate) fn refuse_kept(&self, rt: &HostRuntime) -> Result<(), Fault> {
        let found = look_at(&self.file)?;
        if found.mode() & MAY_WRITE == 0 || found.nlink() > 1 && !self.is_begun(rt)? {
            return Err(Fault::FileFailed);
        }
        Ok(())
    }

    // Whether the other name is the one under which the file was made, by a command that was killed
    // then. It is taken away.
    fn is_begun(&self, rt: &HostRuntime) -> Result<bool, Fault> {
        let begun = begun_path(rt, self.place.as_str())?;
        if !is_at(rt, &self.file, &begun)? {
            return Ok(false);
        }
        remove_if_there(rt, &begun)?;
        Ok(look_at(&self.file)?.nlink() == 1)
    }
}

// Where a file is: under its name, or where that leads, if it is a link. Were a project's link
// replaced, the two would be two projects of one name from then on.
pub(crate) fn real_path(rt: &HostRuntime, path: &str) -> Result<PathBuf, Fault> {
    let found = fs::symlink_metadata(rt, path).map_err(|_| Fault::FileFailed)?;
    if found.is_symlink() {
        fs::canonicalize(rt, path).map_err(link_fault)
    } else {
        Ok(PathBuf::from_str(rt.alloc(), path)?)
    }
}

// Whether it is this file that is at a place. What is no file, as a pipe, is not read again.
fn stands_at(rt: &HostRuntime, file: &File, place: &PathBuf) -> Result<bool, Fault> {
    let opened = look_at(file)?;
    if !opened.is_file() {
        return Err(Fault::ReadFailed);
    }
    let found = fs::metadata(rt, place).map_err(|_| Fault::FileFailed)?;
    Ok(is_same_file(&opened, &found))
}
