// A disk whose calls are recorded: what a read returns of it, and what a crash may leave, is what the
// record says.
ghost use Rattle.std.specs.Prelude.{◌≡◌, [], ◌∷◌, length, ℕ, List, Option, None, IsErrOf};
ghost use Rattle.team_disk.specs.declared.disk.DiskFault.TheVariants.{NameTaken};
ghost use Rattle.team_disk.specs.declared.disk.Folder.{Folder};
ghost use Rattle.team_disk.specs.Disk.{Place, at, AllSynced, Leaves};
ghost use Rattle.team_disk.specs.Replay.{
  Event,
  Read,
  Write,
  Rename,
  Link,
  Remove,
  Sync,
  fault_of,
  found,
  seen_of,
  synced_of,
  left_of,
  since_of,
  failures,
  Faithful,
  now_counts,
  now_only,
};

use crate::{Disk, DiskFault, Folder};
use std::alloc::Global;
use std::marker::PhantomData;

/// What is asked of a system: that each call is noted with its answer, whatever that is. The other
/// clauses of a [`Disk`] follow from the record.
pub trait Calls {
    /// Each call so far with its answer, the newest first.
    ghost history: { Self → List Event };

    /// The bytes of a file, or nothing where there is none of that name.
    fn read(
        &mut self,
        alloc: Global,
        folder: Folder,
        name: &str,
    ) -> Result<Option<Vec<u8>>, DiskFault>
        ensures noted { history self.new ≡ (
          Read (at folder name.now) (found result),
          fault_of
              result,
        ) ∷ history self.old }
        ensures not_taken { IsErrOf result NameTaken → ⊥ };

    /// Makes a file of these bytes, in the place of what has the name, and syncs the file.
    fn write(&mut self, folder: Folder, name: &str, bytes: &[u8]) -> Result<(), DiskFault>
        ensures noted { history self.new ≡ (Write (at folder name.now) bytes.now, fault_of result)
            ∷ history self.old }
        ensures not_taken { IsErrOf result NameTaken → ⊥ };

    /// Gives a file another name, in the place of what has it.
    fn rename(
        &mut self,
        from_folder: Folder,
        from: &str,
        to_folder: Folder,
        to: &str,
    ) -> Result<(), DiskFault>
        ensures noted { history self.new ≡ (
          Rename (at from_folder from.now) (at to_folder to.now),
          fault_of result,
        ) ∷ history self.old }
        ensures not_taken { IsErrOf result NameTaken → ⊥ };

    /// Gives a file one more name, which no file has.
    fn link(
        &mut self,
        from_folder: Folder,
        from: &str,
        to_folder: Folder,
        to: &str,
    ) -> Result<(), DiskFault>
        ensures noted { history self.new ≡ (
          Link (at from_folder from.now) (at to_folder to.now),
          fault_of result,
        ) ∷ history self.old };

    /// Takes a name away from a file, if it has it.
    fn remove(&mut self, folder: Folder, name: &str) -> Result<(), DiskFault>
        ensures noted { history self.new ≡ (Remove (at folder name.now), fault_of result)
            ∷ history self.old }
        ensures not_taken { IsErrOf result NameTaken → ⊥ };

    /// Waits until the names in a folder are on the disk.
    fn sync_folder(&mut self, folder: Folder) -> Result<(), DiskFault>
        ensures noted { history self.new ≡ (Sync folder, fault_of result) ∷ history self.old }
        ensures not_taken { IsErrOf result NameTaken → ⊥ };
}

/// What is supposed of the files as a record begins. What is proved for every `S` holds whatever
/// files there were, since no code can read them here.
pub trait Start: Drop {
    /// The files that there were, all of them on the disk.
    ghost files: { Place → Option (List ℕ) };
}

/// For a program to name: a proof at this type alone would speak of folders without files.
#[derive(Drop)]
pub struct Unknown;

impl Start for Unknown {
    ghost files = { λ place. None };
}

/// A disk whose calls are recorded.
#[derive(Drop)]
pub struct Recorded<C: Calls, S: Start> {
    calls: C,
    start: PhantomData<S>,
}

impl<C: Calls, S: Start> Recorded<C, S> {
    ghost use Rattle.team_disk.specs.Recorded.{calls_of};

    /// A disk of which no call was made yet. The value of `S` is used up.
    pub fn new(calls: C, _start: S) -> Self
        requires fresh { C.history calls ≡ [] }
        ensures fresh { C.history (calls_of result) ≡ [] }
        ensures calls { calls_of result ≡ calls }
        // What stands there is on the disk.
        ensures settled { (each : Place) → Leaves each
            (seen_of S.files (C.history (calls_of result)) each)
            (left_of S.files (C.history (calls_of result))) }
        ensures synced { (folder : Folder) → AllSynced folder
            (synced_of (C.history (calls_of result))) }
    {
        Recorded {
            calls,
            start: PhantomData,
        }
    }

    /// What its calls are made by.
    pub fn calls(&self) -> &C
        ensures { result.now ≡ calls_of self.now }
    {
        &self.calls
    }

    /// What its calls were made by, once no more are made.
    pub fn into_calls(self) -> C
        ensures { result ≡ calls_of self }
    {
        self.calls
    }
}

impl<C: Calls, S: Start> Disk for Recorded<C, S> {
    ghost seen = { λ disk place. seen_of S.files (C.history disk.calls) place };

    ghost may_leave = { λ disk c. left_of S.files (C.history disk.calls) c };

    ghost is_synced = { λ disk place. synced_of (C.history disk.calls) place };

    ghost moment = { λ disk. length (C.history disk.calls) };

    ghost left_since = { λ disk t c. since_of S.files (C.history disk.calls) t c };

    ghost faults = { λ disk. failures (C.history disk.calls) };

    ghost is_faithful = { λ disk. Faithful S.files (C.history disk.calls) };

    ghost counts_now = { λ disk t c le now. now_counts S.files (C.history disk.calls) t c le now };

    ghost only_now = { λ disk c left. now_only S.files (C.history disk.calls) c left };

    fn read(
        &mut self,
        alloc: Global,
        folder: Folder,
        name: &str,
    ) -> Result<Option<Vec<u8>>, DiskFault> {
        self.calls.read(alloc, folder, name)
    }

    fn write(&mut self, folder: Folder, name: &str, bytes: &[u8]) -> Result<(), DiskFault> {
        self.calls.write(folder, name, bytes)
    }

    fn rename(
        &mut self,
        from_folder: Folder,
        from: &str,
        to_folder: Folder,
        to: &str,
    ) -> Result<(), DiskFault> {
        self.calls.rename(from_folder, from, to_folder, to)
    }

    fn link(
        &mut self,
        from_folder: Folder,
        from: &str,
        to_folder: Folder,
        to: &str,
    ) -> Result<(), DiskFault> {
        self.calls.link(from_folder, from, to_folder, to)
    }

    fn remove(&mut self, folder: Folder, name: &str) -> Result<(), DiskFault> {
        self.calls.remove(folder, name)
    }

    fn sync_folder(&mut self, folder: Folder) -> Result<(), DiskFault> {
        self.calls.sync_folder(folder)
    }
}
