// The files of a folder, as `team_disk` changes them. Each method does one thing, and notes it with
// what came of it: so it is known of what was done what a crash may leave.
ghost use Rattle.std.specs.Prelude.{◌≡◌, [], IsErrOf};
ghost use Rattle.team_disk.specs.declared.disk.DiskFault.TheVariants.{NameTaken};

use crate::files::{
    Opened, lock_file, make_file, make_private, open_plain, read_open, remove_if_there, sync_file,
    sync_folder, write_made,
};
use crate::project::make_begun;
use crate::rights::keep_least_rights;
use command_faults::Fault;
use std::alloc::Global;
use std::fs;
use std::fs::{File, Metadata};
use std::io::ErrorKind;
use team_disk::{Calls, DiskFault, Folder, Record, Recorded, Unknown, are_apart, replace_file};

// How new files are made.
#[derive(Clone, Copy)]
pub(crate) enum Making<'a> {
    // With the rights that the system gives a new file.
    New,
    // So too, and locked from the first: who begins the same project waits for it.
    Begun,
    // With no more rights than each of these files has.
    Like(&'a [Metadata]),
    // So too, and locked before it takes the place of a file that is held.
    Held(&'a [Metadata]),
}

// The files of a folder, and what was done there. They are called by the paths under which the system
// finds them.
#[derive(Drop)]
pub(crate) struct SystemFiles<'a> {
    rt: &'a HostRuntime,
    which: Folder,
    handle: &'a File,
    making: Making<'a>,
    // Whether a file was made, and the file, where it is still open.
    pub(crate) is_made: bool,
    pub(crate) made: Option<File>,
    // The file that is held, until another one has its name.
    pub(crate) held: Option<File>,
    // Whether the file that was made has its name.
    pub(crate) is_named: bool,
    // Whether the system gives no file two names.
    pub(crate) has_no_links: bool,
    // Whether what was to be read last is no plain file, or cannot be read.
    pub(crate) is_unread: bool,
}

// Calls of the system, each of which is noted.
#[derive(Drop)]
pub(crate) struct SystemCalls<'a> {
    pub(crate) files: SystemFiles<'a>,
    notes: Record,
}

// A disk of the system.
pub(crate) type SystemDisk<'a> = Recorded<SystemCalls<'a>, Unknown>;

// Puts a file into the place of the one that has a path in a folder, and waits until it is on the disk.
// It is written under another path first.
pub(crate) fn replace_in(
    rt: &HostRuntime,
    handle: &File,
    which: Folder,
    making: Making<'_>,
    path: &str,
    new: &str,
    bytes: &[u8],
) -> Result<(), Fault> {
    if !are_apart(path, new) {
        return Err(Fault::FileFailed);
    }
    let mut disk = Recorded::new(SystemCalls::new(rt, which, handle, making, None), Unknown);
    replace_file(&mut disk, which, path, new, bytes).map_err(fault_of_disk)
}

// The fault of a command where a disk has this one.
pub(crate) fn fault_of_disk(fault: DiskFault) -> Fault {
    match fault {
        DiskFault::Memory => Fault::Memory,
        DiskFault::Failed | DiskFault::NameTaken => Fault::FileFailed,
    }
}

// What a disk answers that made calls of the system.
fn answer<T: Drop>(done: Result<T, Fault>) -> Result<T, DiskFault>
    ensures { IsErrOf result NameTaken → ⊥ }
{
    match done {
        Ok(value) => Ok(value),
        Err(Fault::Memory) => Err(DiskFault::Memory),
        Err(_) => Err(DiskFault::Failed),
    }
}

impl<'a> SystemCalls<'a> {
    // The calls of a folder of which nothing is done yet.
    pub(crate) fn new(
        rt: &'a HostRuntime,
        which: Folder,
        handle: &'a File,
        making: Making<'a>,
        held: Option<File>,
    ) -> SystemCalls<'a>
        ensures { result.notes.events ≡ [] }
    {
        SystemCalls {
            files: SystemFiles {
                rt,
                which,
                handle,
                making,
                is_made: false,
                made: None,
                held,
                is_named: false,
                has_no_links: false,
                is_unread: false,
            },
            notes: Record::new(),
        }
    }
}

impl SystemFiles<'_> {
    // The bytes of a plain file. What else has the name is refused, and what cannot be read.
    fn read_file(&mut self, path: &str) -> Result<Option<Vec<u8>>, Fault> {
        let read = match open_plain(self.rt, path) {
            Ok(Opened::Plain(file)) => match read_open(self.rt, &file) {
                Ok(bytes) => Ok(Some(bytes)),
                Err(fault) => Err(fault),
            },
            Ok(Opened::Nothing) => Ok(None),
            Ok(Opened::Folder | Opened::Other(_)) => Err(Fault::ReadFailed),
            Err(fault) => Err(fault),
        };
        self.is_unread = matches!(&read, Err(fault) if !matches!(fault, Fault::Memory));
        read
    }

    fn write_file(&mut self, path: &str, bytes: &[u8]) -> Result<(), Fault> {
        let rt = self.rt;
        let file = match self.making {
            Making::New => make_file(rt, path)?,
            Making::Begun => make_begun(rt, path)?,
            Making::Like(_) | Making::Held(_) => make_private(rt, path)?,
        };
        self.is_made = true;
        write_made(&file, bytes)?;
        if let Making::Like(olds) | Making::Held(olds) = self.making {
            keep_least_rights(rt, olds, &file)?;
        }
        sync_file(&file)?;
        match self.making {
            Making::Held(_) => {
                lock_file(rt, &file, path, &mut true)?;
                self.made = Some(file);
            }
            Making::Begun => self.made = Some(file),
            // Some network drives rename no file that is open.
            Making::New | Making::Like(_) => {}
        }
        Ok(())
    }

    // Gives a file another name. Where a network's folder renames none that is open, both are closed
    // first: another command may get the file that was held before it is locked again.
    fn rename_file(&mut self, from: &str, to: &str) -> Result<(), Fault> {
        if fs::rename(self.rt, from, to).is_err() {
            if self.made.take().is_none() {
                return Err(Fault::FileFailed);
            }
            self.held = None;
            fs::rename(self.rt, from, to).map_err(|_| Fault::FileFailed)?;
        }
        self.is_named = true;
        Ok(())
    }

    fn sync(&self, folder: Folder) -> Result<(), Fault> {
        if folder != self.which {
            return Err(Fault::FileFailed);
        }
        sync_folder(self.handle)
    }

    fn link_file(&mut self, from: &str, to: &str) -> Result<(), DiskFault> {
        match fs::hard_link(self.rt, from, to) {
            Ok(()) => {
                self.is_named = true;
                Ok(())
            }
            Err(error) if error.kind() == ErrorKind::AlreadyExists => Err(DiskFault::NameTaken),
            Err(_) => {
                self.has_no_links = true;
                Err(DiskFault::Failed)
            }
        }
    }
}

impl<'a> Calls for SystemCalls<'a> {
    ghost history = { λ calls. calls.notes.events };

    fn read(
        &mut self,
        _: Global,
        folder: Folder,
        name: &str,
    ) -> Result<Option<Vec<u8>>, DiskFault> {
        let result = answer(self.files.read_file(name));
        self.notes.note_read(folder, name, &result);
        result
    }

    fn write(&mut self, folder: Folder, name: &str, bytes: &[u8]) -> Result<(), DiskFault> {
        let result = answer(self.files.write_file(name, bytes));
        self.notes.note_write(folder, name, bytes, &result);
        result
    }

    fn rename(
        &mut self,
        from_folder: Folder,
        from: &str,
        to_folder: Folder,
        to: &str,
    ) -> Result<(), DiskFault> {
        let result = answer(self.files.rename_file(from, to));
        self.notes
            .note_rename(from_folder, from, to_folder, to, &result);
        result
    }

    fn link(
        &mut self,
        from_folder: Folder,
        from: &str,
        to_folder: Folder,
        to: &str,
    ) -> Result<(), DiskFault> {
        let result = self.files.link_file(from, to);
        self.notes
            .note_link(from_folder, from, to_folder, to, &result);
        result
    }

    fn remove(&mut self, folder: Folder, name: &str) -> Result<(), DiskFault> {
        let result = answer(remove_if_there(self.files.rt, name));
        self.notes.note_remove(folder, name, &result);
        result
    }

    fn sync_folder(&mut self, folder: Folder) -> Result<(), DiskFault> {
        let result = answer(self.files.sync(folder));
        self.notes.note_sync(folder, &result);
        result
    }
}
