// A disk whose calls are made of the system, and noted.
ghost use Rattle.std.specs.Prelude.{IsErrOf};
ghost use Rattle.team_disk.specs.declared.disk.DiskFault.TheVariants.{NameTaken};

use crate::{
    Calls, DiskFault, Folder, Record, Recorded, Unknown, are_apart, begin_file, replace_file,
};
use std::alloc::Global;
use std::fs;
use std::io::{self, ErrorKind};
use std::test::Fail;

const FOLDER: &str = "team_disk_test";

const PROJECT: &str = "team_disk_test/ana.project";

const BEGUN: &str = "team_disk_test/ana.project.begun";

const NEW: &str = "team_disk_test/ana.project.new";

// Calls of the system, which has the files under these very names.
#[derive(Drop)]
struct PlainCalls<'a> {
    rt: &'a HostRuntime,
    notes: Record,
}

// What a disk answers where the system answers so.
fn answer<T: Drop>(done: io::Result<T>) -> Result<T, DiskFault>
    ensures { IsErrOf result NameTaken → ⊥ }
{
    match done {
        Ok(value) => Ok(value),
        Err(_) => Err(DiskFault::Failed),
    }
}

impl PlainCalls<'_> {
    fn read_file(&self, name: &str) -> io::Result<Option<Vec<u8>>> {
        match fs::read(self.rt, name) {
            Ok(bytes) => Ok(Some(bytes)),
            Err(error) if error.kind() == ErrorKind::NotFound => Ok(None),
            Err(error) => Err(error),
        }
    }

    fn link_file(&self, from: &str, to: &str) -> Result<(), DiskFault> {
        match fs::hard_link(self.rt, from, to) {
            Err(error) if error.kind() == ErrorKind::AlreadyExists => Err(DiskFault::NameTaken),
            Err(_) => Err(DiskFault::Failed),
            Ok(()) => Ok(()),
        }
    }
}

impl<'a> Calls for PlainCalls<'a> {
    ghost history = { λ calls. calls.notes.events };

    fn read(
        &mut self,
        _: Global,
        folder: Folder,
        name: &str,
    ) -> Result<Option<Vec<u8>>, DiskFault> {
        let result = answer(self.read_file(name));
        self.notes.note_read(folder, name, &result);
        result
    }

    fn write(&mut self, folder: Folder, name: &str, bytes: &[u8]) -> Result<(), DiskFault> {
        let result = answer(fs::write(self.rt, name, bytes));
        self.notes.note_write(folder, name, bytes, &result);
        result
    }

    fn rename(
        &mut self,
        from_folder: Folder,
        from: &str,
        to_folder: Folder,
        to: &str,
    ) -> Result<(), DiskFault> {
        let result = answer(fs::rename(self.rt, from, to));
        self.notes
            .note_rename(from_folder, from, to_folder, to, &result);
        result
    }

    fn link(
        &mut self,
        from_folder: Folder,
        from: &str,
        to_folder: Folder,
        to: &str,
    ) -> Result<(), DiskFault> {
        let result = self.link_file(from, to);
        self.notes
            .note_link(from_folder, from, to_folder, to, &result);
        result
    }

    fn remove(&mut self, folder: Folder, name: &str) -> Result<(), DiskFault> {
        let result = answer(fs::remove_file(self.rt, name));
        self.notes.note_remove(folder, name, &result);
        result
    }

    fn sync_folder(&mut self, folder: Folder) -> Result<(), DiskFault> {
        let result = Ok(());
        self.notes.note_sync(folder, &result);
        result
    }
}

// Begins a file of the system, as a program does.
fn begin(rt: &HostRuntime, name: &str, scratch: &str, bytes: &[u8]) -> Result<(), DiskFault> {
    if !are_apart(name, scratch) {
        return Err(DiskFault::NameTaken);
    }
    let calls = PlainCalls {
        rt,
        notes: Record::new(),
    };
    let mut disk = Recorded::new(calls, Unknown);
    begin_file(&mut disk, Folder::Project, name, scratch, bytes)
}

// Replaces one.
fn replace(rt: &HostRuntime, name: &str, scratch: &str, bytes: &[u8]) -> Result<(), DiskFault> {
    if !are_apart(name, scratch) {
        return Err(DiskFault::NameTaken);
    }
    let calls = PlainCalls {
        rt,
        notes: Record::new(),
    };
    let mut disk = Recorded::new(calls, Unknown);
    replace_file(&mut disk, Folder::Project, name, scratch, bytes)
}

#[test]
fn files_of_the_system_are_begun_and_replaced(rt: HostRuntime) -> Result<(), Fail> {
    let _ = fs::remove_dir_all(&rt, FOLDER);
    fs::create_dir(&rt, FOLDER)?;
    begin(&rt, PROJECT, BEGUN, b"old")?;
    assert!(rt; begin(&rt, PROJECT, BEGUN, b"other") == Err(DiskFault::NameTaken));
    assert_eq!(rt; fs::read(&rt, PROJECT)?.as_slice(), b"old".as_slice());
    replace(&rt, PROJECT, NEW, b"new text")?;
    assert_eq!(rt; fs::read(&rt, PROJECT)?.as_slice(), b"new text".as_slice());
    assert!(rt; fs::read(&rt, NEW).is_err());
    assert!(rt; replace(&rt, PROJECT, PROJECT, b"none") == Err(DiskFault::NameTaken));
    fs::remove_dir_all(&rt, FOLDER)?;
    Ok(())
}
