// Files of the program, and the folders that they are in.
use crate::refusal::Refusal;
use crate::telling::{say, say_of};
use byte_source::{StdSource, read_to_end};
use command_faults::{Expected, Fault};
use std::fs::{File, Metadata, OpenOptions, TryLockError};
use std::io::ErrorKind;
use std::os::fd::AsRawFd;
use std::os::unix::fs::{FileTypeExt, MetadataExt, OpenOptionsExt};
use std::path::Path;
use std::{fs, io};
use usfm_cli::{StdSink, write_all};

// What only its owner may read and write.
const OWNER_ALONE: u32 = 0o600;

// How often a file is opened anew that is replaced by another one while it is opened.
const MOST_TRIES: usize = 8;

// What stands under a name where a plain file may stand: one that has no other name.
#[derive(Drop)]
pub(crate) enum Opened {
    Nothing,
    Plain(File),
    Folder,
    Other(Other),
}

// What is no plain file with one name.
#[derive(Clone, Copy, Drop)]
pub(crate) enum Other {
    Link,
    Pipe,
    Socket,
    Device,
    SecondName,
}

impl Other {
    // What follows the name in a line that says so.
    pub(crate) fn words(self) -> &'static str {
        match self {
            Other::Link => ": it is a link",
            Other::Pipe => ": it is a pipe",
            Other::Socket => ": it is a socket",
            Other::Device => ": it is a device",
            Other::SecondName => ": it is a file that has another name too (a hard link)",
        }
    }
}

// Opens the plain file of this name, and no other: what a link leads to is not opened, and a pipe
// is not waited for.
pub(crate) fn open_plain(rt: &HostRuntime, path: &str) -> Result<Opened, Fault> {
    open_named(rt, path, 1)
}

// The same of a file that has no more than so many names.
//
// The file that was opened is the one that was looked at before; where another one took its place,
// it is looked at anew.
pub(crate) fn open_named(rt: &HostRuntime, path: &str, most_names: u64) -> Result<Opened, Fault> {
    for _ in 0..MOST_TRIES {
        let seen = match fs::symlink_metadata(rt, path) {
            Ok(seen) => seen,
            Err(error) if error.kind() == ErrorKind::NotFound => return Ok(Opened::Nothing),
            Err(_) => return Err(Fault::ReadFailed),
        };
        if seen.is_dir() {
            return Ok(Opened::Folder);
        }
        if let Some(other) = not_plain(&seen, most_names) {
            return Ok(Opened::Other(other));
        }
        if let Some(file) = open_same(rt, path, &seen)? {
            return Ok(Opened::Plain(file));
        }
    }
    Err(Fault::ReadFailed)
}

// What it is, where it is no plain file with no more than so many names.
fn not_plain(found: &Metadata, most_names: u64) -> Option<Other> {
    let kind = found.file_type();
    if kind.is_symlink() {
        Some(Other::Link)
    } else if kind.is_fifo() {
        Some(Other::Pipe)
    } else if kind.is_socket() {
        Some(Other::Socket)
    } else if !kind.is_file() {
        Some(Other::Device)
    } else if found.nlink() > most_names {
        Some(Other::SecondName)
    } else {
        None
    }
}

// Whether two names lead to one file.
pub(crate) fn are_one(rt: &HostRuntime, one: &str, other: &str) -> bool {
    match (
        fs::symlink_metadata(rt, one),
        fs::symlink_metadata(rt, other),
    ) {
        (Ok(one), Ok(other)) => is_same_file(&one, &other),
        _ => false,
    }
}

// Whether a file still has these bytes. One that cannot be read any more was changed.
pub(crate) fn is_still(rt: &HostRuntime, path: &str, bytes: &[u8]) -> Result<bool, Fault> {
    let read = match open_plain(rt, path) {
        Ok(Opened::Plain(file)) => read_open(rt, &file),
        _ => return Ok(false),
    };
    match read {
        Ok(found) => Ok(found.as_slice() == bytes),
        Err(Fault::Memory) => Err(Fault::Memory),
        Err(_) => Ok(false),
    }
}

// Opens a file, if it is still the one that was seen.
fn open_same(rt: &HostRuntime, path: &str, seen: &Metadata) -> Result<Option<File>, Fault> {
    let file = match File::open(rt, path) {
        Ok(file) => file,
        Err(error) if error.kind() == ErrorKind::NotFound => return Ok(None),
        Err(_) => return Err(Fault::ReadFailed),
    };
    let opened = file.metadata().map_err(|_| Fault::ReadFailed)?;
    Ok(is_same_file(&opened, seen).then_some(file))
}

// Whether it is one file that was looked at twice.
pub(crate) fn is_same_file(one: &Metadata, other: &Metadata) -> bool {
    one.dev() == other.dev() && one.ino() == other.ino()
}

// Opens a file that is to be locked, where the rights allow it in a way that waits for nobody at the
// other end of a pipe, and by which a network's folder gives a lock: for writing too.
pub(crate) fn open_to_lock(rt: &HostRuntime, path: &str) -> io::Result<File> {
    match OpenOptions::new().read(true).write(true).open(rt, path) {
        Ok(file) => Ok(file),
        Err(_) => File::open(rt, path),
    }
}

// Whether a folder has this name.
pub(crate) fn is_folder(rt: &HostRuntime, path: &str) -> bool {
    fs::metadata(rt, path).is_ok_and(|found| found.is_dir())
}

// The bytes of a file.
pub(crate) fn read_file(rt: &HostRuntime, path: &str) -> Result<Vec<u8>, Fault> {
    let file = File::open(rt, path).map_err(|_| Fault::ReadFailed)?;
    read_open(rt, &file)
}

// The bytes of an open file that was not read yet.
pub(crate) fn read_open(rt: &HostRuntime, file: &File) -> Result<Vec<u8>, Fault> {
    let mut source = StdSource::new(file);
    Ok(read_to_end(rt.alloc(), &mut source)?)
}

// Whether something stands under a name: a file, a folder, or a link, wherever it leads.
pub(crate) fn is_there(rt: &HostRuntime, path: &str) -> io::Result<bool> {
    match fs::symlink_metadata(rt, path) {
        Ok(_) => Ok(true),
        Err(error) if error.kind() == ErrorKind::NotFound => Ok(false),
        Err(error) => Err(error),
    }
}

// Removes a file or a link, if one stands there.
pub(crate) fn remove_if_there(rt: &HostRuntime, path: &str) -> Result<(), Fault> {
    match fs::remove_file(rt, path) {
        Err(error) if error.kind() != ErrorKind::NotFound => Err(Fault::FileFailed),
        _ => Ok(()),
    }
}

// Makes a file with the rights that the system gives a new one, in the place of a file or a link
// that stands there.
pub(crate) fn make_file(rt: &HostRuntime, path: &str) -> Result<File, Fault> {
    remove_if_there(rt, path)?;
    File::create_new(rt, path).map_err(|_| Fault::FileFailed)
}

// Makes a file that its owner alone may read, in the place of a file or a link that stands there.
pub(crate) fn make_private(rt: &HostRuntime, path: &str) -> Result<File, Fault> {
    remove_if_there(rt, path)?;
    let made = OpenOptions::new()
        .write(true)
        .create_new(true)
        .mode(OWNER_ALONE)
        .open(rt, path);
    made.map_err(|_| Fault::FileFailed)
}

// Writes the bytes to a file that was just made.
pub(crate) fn write_made(file: &File, bytes: &[u8]) -> Result<(), Fault> {
    let mut sink = StdSink::new(file);
    write_all(&mut sink, bytes).map_err(|_| Fault::FileFailed)
}

// Waits until what was written to a file is on the disk.
pub(crate) fn sync_file(file: &File) -> Result<(), Fault> {
    file.sync_all().map_err(|_| Fault::FileFailed)
}

// The folder that a file is in.
pub(crate) fn open_folder(rt: &HostRuntime, path: &str) -> Result<File, Fault> {
    let folder = match Path::new(path).parent() {
        Some(folder) if !folder.as_str().is_empty() => folder.as_str(),
        _ => ".",
    };
    File::open(rt, folder).map_err(|_| Fault::FileFailed)
}

// Waits until a folder's names are on the disk. A file system that syncs no folders answers by one
// of these two kinds.
pub(crate) fn sync_folder(folder: &File) -> Result<(), Fault> {
    match folder.sync_all() {
        Err(error) => match error.kind() {
            ErrorKind::InvalidInput | ErrorKind::Unsupported => Ok(()),
            _ => Err(Fault::FileFailed),
        },
        Ok(()) => Ok(()),
    }
}

// Waits until no other command has this file. A file system without locks lets each command go on.
pub(crate) fn lock_file(
    rt: &HostRuntime,
    file: &File,
    path: &str,
    is_said: &mut bool,
) -> Result<(), Fault> {
    match lock_after_others(rt, file, path, is_said) {
        Err(error) if error.kind() != ErrorKind::Unsupported => Err(Fault::FileFailed),
        _ => Ok(()),
    }
}

// Locks a file or a folder. Where another command has the lock, a line says what is waited for, if
// it was not said by then.
pub(crate) fn lock_after_others(
    rt: &HostRuntime,
    file: &File,
    path: &str,
    is_said: &mut bool,
) -> io::Result<()> {
    match file.try_lock() {
        Ok(()) => Ok(()),
        Err(TryLockError::Error(error)) => Err(error),
        Err(TryLockError::WouldBlock) => {
            if !*is_said {
                say_of(rt, "waiting for ", path, ", which another command is using");
            }
            *is_said = true;
            file.lock()
        }
    }
}

// The fault of an error of following a link, or of making a folder: a name takes memory.
pub(crate) fn link_fault(error: io::Error) -> Fault {
    if error.kind() == ErrorKind::OutOfMemory {
        Fault::Memory
    } else {
        Fault::FileFailed
    }
}

// An open folder. What is in it is reached by its handle, where the system has paths for handles:
// no folder, and no link to one, that takes its place meanwhile is gone into.
#[derive(Drop)]
pub(crate) struct Folder {
    handle: File,
    // How it is called.
    name: String,
    // By which path it is reached.
    way: String,
}

impl Folder {
    pub(crate) fn open(rt: &HostRuntime, name: &str) -> Result<Folder, Fault> {
        match fs::metadata(rt, name) {
            Ok(found) if found.is_dir() => {
                let handle = File::open(rt, name).map_err(|_| Fault::ReadFailed)?;
                Folder::of(rt, handle, String::from_str(rt.alloc(), name)?)
            }
            _ => Err(Fault::ReadFailed),
        }
    }

    fn of(rt: &HostRuntime, handle: File, name: String) -> Result<Folder, Fault> {
        let number = handle.as_raw_fd();
        let way = format!(in rt.alloc(); "/proc/self/fd/{number}")?;
        let is_way = match (fs::metadata(rt, way.as_str()), handle.metadata()) {
            (Ok(one), Ok(other)) => is_same_file(&one, &other),
            _ => false,
        };
        let way = if is_way { way } else { name.clone()? };
        Ok(Folder { handle, name, way })
    }

    // A folder in it. What is no folder is refused, and a link to one.
    pub(crate) fn inside(&self, rt: &HostRuntime, name: &str) -> Result<Option<Folder>, Fault> {
        let path = self.way_to(rt, name)?;
        let seen = match fs::symlink_metadata(rt, path.as_str()) {
            Ok(seen) if seen.is_dir() => seen,
            Ok(_) => return Err(Fault::FileChanged),
            Err(error) if error.kind() == ErrorKind::NotFound => return Ok(None),
            Err(_) => return Err(Fault::ReadFailed),
        };
        let handle = File::open(rt, path.as_str()).map_err(|_| Fault::ReadFailed)?;
        let opened = handle.metadata().map_err(|_| Fault::ReadFailed)?;
        if !is_same_file(&opened, &seen) {
            return Err(Fault::FileChanged);
        }
        Ok(Some(Folder::of(rt, handle, self.name_of(rt, name)?)?))
    }

    // How people call it.
    pub(crate) fn name(&self) -> &str {
        &self.name
    }

    // The path of a name in it, for the system.
    pub(crate) fn way_to(&self, rt: &HostRuntime, name: &str) -> Result<String, Fault> {
        path_in(rt, &self.way, name)
    }

    // The path of a name in it, for people.
    pub(crate) fn name_of(&self, rt: &HostRuntime, name: &str) -> Result<String, Fault> {
        path_in(rt, &self.name, name)
    }

    // The refusal of what stands under a name in it.
    pub(crate) fn refusal(&self, rt: &HostRuntime, fault: Fault, name: &str) -> Refusal {
        match self.name_of(rt, name) {
            Ok(name) => Refusal::of(fault, name),
            Err(_) => Refusal::from(fault),
        }
    }

    // Waits until no other command has the folder. Where the lock is refused, for whatever reason,
    // the command goes on.
    pub(crate) fn lock(&self, rt: &HostRuntime) {
        let _ = lock_after_others(rt, &self.handle, &self.name, &mut false);
    }

    // Waits until its names are on the disk.
    pub(crate) fn sync(&self) -> Result<(), Fault> {
        sync_folder(&self.handle)
    }

    // The open folder.
    pub(crate) fn handle(&self) -> &File {
        &self.handle
    }

    // The names in it, in their order. That some are not UTF-8 is said, where it is to be.
    pub(crate) fn names(&self, rt: &HostRuntime, is_said: bool) -> Result<Vec<String>, Refusal> {
        let mut names = Vec::new(rt.alloc());
        let entries = fs::read_dir(rt, self.way.as_str()).map_err(|error| self.unread(rt, &error))?;
        for entry in entries {
            match entry {
                Ok(entry) => {
                    let name = String::from_str(rt.alloc(), entry.file_name());
                    names.push(name.map_err(Fault::from)?).map_err(Fault::from)?;
                }
                Err(error) if error.kind() == ErrorKind::InvalidFilename => {
                    if is_said {
                        say(rt, "skipped a file whose name is not UTF-8");
                    }
                }
                Err(error) => return Err(self.unread(rt, &error)),
            }
        }
        names.sort().map_err(Fault::from)?;
        Ok(names)
    }

    // The refusal of a folder whose names were not read. To read them takes memory.
    fn unread(&self, rt: &HostRuntime, error: &io::Error) -> Refusal {
        match error.kind() {
            ErrorKind::OutOfMemory => Refusal::from(Fault::Memory),
            _ => Refusal::expecting(rt, Fault::ReadFailed, &self.name, Expected::Folder),
        }
    }
}

// The path of a name in a folder.
fn path_in(rt: &HostRuntime, folder: &str, name: &str) -> Result<String, Fault> {
    let slash = if folder.ends_with('/') { "" } else { "/" };
    Ok(format!(in rt.alloc(); "{folder}{slash}{name}")?)
}
