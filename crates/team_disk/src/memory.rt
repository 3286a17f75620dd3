// A disk in memory, for tests. Each change is done at once, so a crash leaves what is there.
ghost use Rattle.std.specs.Prelude.{
  ◌≡◌,
  ◌≤◌,
  [],
  ◌∷◌,
  ◌++◌,
  length,
  take,
  List,
  ℕ,
  Option,
  Some,
  None,
  IfOk,
  IfErr,
  OnOk,
  OnErr,
  IsErr,
  true,
  ⊤,
};
ghost use Rattle.team_disk.specs.Disk.{
  Place,
  at,
  Written,
  SameBut,
  MayPut,
  Follows,
  Elapses,
  as_read,
};
ghost use Rattle.team_disk.specs.Memory as memory;
ghost use Rattle.team_disk.specs.Memory.{files_of, HadBeen, Left, Same, counts, only, lent};

use crate::{Disk, DiskFault, Folder};
use std::alloc::{AllocError, Global};

// Where a file is.
#[derive(Drop)]
struct StoredPlace {
    folder: Folder,
    name: Vec<u8>,
}

// What is at a place from a moment on: a file of these bytes, or none. A renaming takes the file of
// another place away at the same moment.
#[derive(Drop)]
struct Change {
    place: StoredPlace,
    bytes: Option<Vec<u8>>,
    left: Option<StoredPlace>,
}

/// Files in memory, and how they were after each change.
#[derive(Drop)]
pub struct MemoryDisk {
    alloc: Global,
    changes: Vec<Change>,
}

impl MemoryDisk {
    /// A disk without files.
    pub fn new(alloc: Global) -> Self
        ensures { result.changes.items ≡ [] }
    {
        MemoryDisk {
            alloc,
            changes: Vec::new(alloc),
        }
    }

    /// How many changes there were.
    pub fn changes(&self) -> usize
        ensures { result ≡ length self.now.changes.items }
    {
        self.changes.len()
    }

    /// The bytes that a file had after so many changes, or nothing where there was none.
    pub fn read_after(
        &self,
        changes: usize,
        folder: Folder,
        name: &str,
    ) -> Result<Option<Vec<u8>>, AllocError>
        ensures bytes { IfOk result (λ bytes. as_read bytes ≡ files_of
            (take changes self.now.changes.items)
            (at folder name.now)) }
    {
        let made = self.changes.get(..changes).unwrap_or(&self.changes);
        bytes_at(self.alloc, made, folder, name.as_bytes())
    }

    // Makes one change.
    fn change(&mut self, change: Change) -> Result<(), AllocError>
        ensures made { OnOk result (self.new.changes.items
            ≡ self.old.changes.items ++ change ∷ []) }
        ensures err { OnErr result (self.new.changes.items ≡ self.old.changes.items) }
    {
        self.changes.push(change)?;
        Ok(())
    }

    // A file at a place, or none.
    fn put(&mut self, folder: Folder, name: &str, bytes: Option<Vec<u8>>) -> Result<(), DiskFault>
        ensures written { OnOk result (Written (at folder name.now) (as_read bytes)
            (files_of self.old.changes.items) (files_of self.new.changes.items)) }
        ensures crash { Follows (MayPut (at folder name.now) (as_read bytes))
            (Left self.old.changes.items)
            (Left self.new.changes.items) }
        ensures time { Elapses (length self.old.changes.items) (length self.new.changes.items)
            (HadBeen self.old.changes.items) (HadBeen self.new.changes.items)
            (Left self.new.changes.items) }
        ensures err { IsErr result → self.new.changes.items ≡ self.old.changes.items }
        ensures memory { IfErr result (λ fault. fault ≡ DiskFault.Memory) }
    {
        let place = stored(self.alloc, folder, name)?;
        Ok(self.change(Change {
            place,
            bytes,
            left: None,
        })?)
    }
}

// A place, to be kept.
fn stored(alloc: Global, folder: Folder, name: &str) -> Result<StoredPlace, AllocError>
    ensures place { IfOk result (λ place. at place.folder place.name.items ≡ at folder name.now) }
{
    let name = name.as_bytes().to_vec(alloc)?;
    Ok(StoredPlace { folder, name })
}

// Whether it is this place.
fn is_at(place: &StoredPlace, folder: Folder, name: &[u8]) -> bool
    ensures { result ≡ memory.is_at place.now (at folder name.now) }
{
    place.folder == folder && place.name.as_slice() == name
}

// What is at a place after a change, where this was there before it.
fn after<'a>(
    change: &'a Change,
    folder: Folder,
    name: &[u8],
    file: Option<&'a Vec<u8>>,
) -> Option<&'a Vec<u8>>
    ensures { lent result ≡ memory.after change.now (at folder name.now) (lent file.entry) }
{
    if is_at(&change.place, folder, name) {
        return change.bytes.as_ref();
    }
    match &change.left {
        Some(left) if is_at(left, folder, name) => None,
        _ => file,
    }
}

// The bytes of the file that is at a place after these changes.
fn bytes_at(
    alloc: Global,
    changes: &[Change],
    folder: Folder,
    name: &[u8],
) -> Result<Option<Vec<u8>>, AllocError>
    ensures bytes { IfOk result (λ bytes. as_read bytes ≡ files_of changes.now
        (at folder name.now)) }
{
    let mut file = None;
    for change in changes {
        file = after(change, folder, name, file);
    }
    match file {
        Some(bytes) => Ok(Some(bytes.to_vec(alloc)?)),
        None => Ok(None),
    }
}

impl Disk for MemoryDisk {
    ghost seen = { λ disk place. files_of disk.changes.items place };

    ghost may_leave = { λ disk c. Same c (files_of disk.changes.items) };

    ghost is_synced = { λ disk place. true };

    ghost moment = { λ disk. length disk.changes.items };

    ghost left_since = { λ disk t c. HadBeen disk.changes.items t c };

    ghost faults = { λ disk. 0 };

    ghost is_faithful = { λ disk. ⊤ };

    ghost counts_now = { λ disk t c le now. counts disk.changes.items t c le now };

    ghost only_now = { λ disk c left. only disk.changes.items c left };

    fn read(
        &mut self,
        alloc: Global,
        folder: Folder,
        name: &str,
    ) -> Result<Option<Vec<u8>>, DiskFault> {
        Ok(bytes_at(alloc, &self.changes, folder, name.as_bytes())?)
    }

    fn write(&mut self, folder: Folder, name: &str, bytes: &[u8]) -> Result<(), DiskFault> {
        let bytes = bytes.to_vec(self.alloc)?;
        self.put(folder, name, Some(bytes))
    }

    fn rename(
        &mut self,
        from_folder: Folder,
        from: &str,
        to_folder: Folder,
        to: &str,
    ) -> Result<(), DiskFault> {
        let bytes = bytes_at(self.alloc, &self.changes, from_folder, from.as_bytes())?;
        let place = stored(self.alloc, to_folder, to)?;
        let left = Some(stored(self.alloc, from_folder, from)?);
        Ok(self.change(Change { place, bytes, left })?)
    }

    fn link(
        &mut self,
        from_folder: Folder,
        from: &str,
        to_folder: Folder,
        to: &str,
    ) -> Result<(), DiskFault> {
        if bytes_at(self.alloc, &self.changes, to_folder, to.as_bytes())?.is_some() {
            return Err(DiskFault::NameTaken);
        }
        let bytes = bytes_at(self.alloc, &self.changes, from_folder, from.as_bytes())?;
        self.put(to_folder, to, bytes)
    }

    fn remove(&mut self, folder: Folder, name: &str) -> Result<(), DiskFault> {
        self.put(folder, name, None)
    }

    fn sync_folder(&mut self, _: Folder) -> Result<(), DiskFault> {
        Ok(())
    }
}
