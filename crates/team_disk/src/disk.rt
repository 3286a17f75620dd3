// The calls of a disk.
ghost use Rattle.std.specs.Prelude.{
  ◌≡◌,
  ◌≤◌,
  ◌⊎◌,
  ℕ,
  List,
  Option,
  Some,
  None,
  Bool,
  IsTrue,
  IsSome,
  IsErr,
  IfOk,
  OnOk,
  OnErr,
  IsErrOf,
};
ghost use Rattle.team_disk.specs.declared.disk.DiskFault.TheVariants.{Memory, NameTaken};
ghost use Rattle.team_disk.specs.Disk.{
  Place,
  at,
  Apart,
  SameBut,
  Written,
  MayPut,
  MayMove,
  Follows,
  Elapses,
  HasCause,
  KeepsSynced,
  as_read,
};

use std::alloc::{AllocError, AllocFailed, Global};

/// Why a call of a disk did nothing, or not all that it was to do.
#[derive(Clone, Copy, Debug, PartialEq, Eq)]
pub enum DiskFault {
    /// An allocation failed.
    Memory,
    /// The disk answered with an error.
    Failed,
    /// A file has the name that one was to be given.
    NameTaken,
}

impl From<AllocError> for DiskFault {
    ghost from_gives = { λ _ e. e ≡ Memory };

    fn from(_: AllocError) -> Self {
        DiskFault::Memory
    }
}

impl<T: Drop> From<AllocFailed<T>> for DiskFault {
    ghost from_gives = { λ _ e. e ≡ Memory };

    fn from(_: AllocFailed<T>) -> Self {
        DiskFault::Memory
    }
}

/// The folders that the program changes.
#[derive(Clone, Copy, Debug, PartialEq, Eq)]
pub enum Folder {
    /// That of the books' files.
    Books,
    /// What the program keeps beside them.
    Own,
    /// That of the project's file.
    Project,
    /// The box, from which the copies take each other's bundles.
    Box,
}

/// The files of these folders. Each call says what a read returns after it, and what a crash may
/// leave.
///
/// A crash leaves of the names that were given or taken since their folder was last synced any that
/// it likes, each for itself, and of a file that is being written any bytes: so much POSIX leaves
/// open. What other programs do meanwhile is not part of it: where they change what a call finds,
/// the disk is not faithful any more, and then nothing is said of what was found.
pub trait Disk {
    /// The bytes that a read of a name returns, where there is a file of that name.
    ghost seen: { Self → Place → Option (List ℕ) };

    /// The files that a crash at this moment may leave.
    ghost may_leave: { Self → (Place → Option (List ℕ)) → Type 0 };

    /// The bytes of the file that has this name are on the disk, whether or not the name is.
    ghost is_synced: { Self → Place → Bool };

    /// The moment, as a number that does not fall.
    ghost moment: { Self → ℕ };

    /// The files that a crash at some moment from that one on might have left, during a call or
    /// between two.
    ghost left_since: { Self → ℕ → (Place → Option (List ℕ)) → Type 0 };

    /// How often the disk has failed.
    ghost faults: { Self → ℕ };

    /// Each answer so far is as the files have it that these calls make: nobody else changed what
    /// they found.
    ghost is_faithful: { Self → Type 0 };

    /// The bytes of a file, or nothing where there is none of that name.
    fn read(
        &mut self,
        alloc: Global,
        folder: Folder,
        name: &str,
    ) -> Result<Option<Vec<u8>>, DiskFault>
        ensures bytes { IfOk result (λ bytes. is_faithful self.new → as_read bytes ≡ seen self.old
            (at folder name.now)) }
        ensures seen { (each : Place) → seen self.new each ≡ seen self.old each }
        ensures synced { (each : Place) → IsTrue (is_synced self.old each)
            → IsTrue (is_synced self.new each) }
        ensures crash { (c : Place → Option (List ℕ)) → may_leave self.new c
            → may_leave self.old c }
        ensures time { Elapses (moment self.old) (moment self.new) (left_since self.old)
            (left_since self.new)
            (may_leave self.new) }
        ensures cause { HasCause (faults self.old) (faults self.new) result }
        ensures faithful { is_faithful self.new → is_faithful self.old }
        ensures not_taken { IsErrOf result NameTaken → ⊥ };

    /// Makes a file of these bytes, in the place of what has the name, and syncs the file. Until
    /// that is done, a crash may leave anything under the name.
    fn write(&mut self, folder: Folder, name: &str, bytes: &[u8]) -> Result<(), DiskFault>
        ensures written { OnOk result (Written (at folder name.now) (Some bytes.now) (seen self.old)
            (seen self.new)) }
        ensures seen { SameBut (at folder name.now) (seen self.old) (seen self.new) }
        ensures now_synced { OnOk result (IsTrue (is_synced self.new (at folder name.now))) }
        ensures synced { KeepsSynced (at folder name.now) (at folder name.now) (is_synced self.old)
            (is_synced self.new) }
        ensures crash { Follows (SameBut (at folder name.now)) (may_leave self.old)
            (may_leave self.new) }
        ensures time { Elapses (moment self.old) (moment self.new) (left_since self.old)
            (left_since self.new)
            (may_leave self.new) }
        ensures cause { HasCause (faults self.old) (faults self.new) result }
        ensures faithful { is_faithful self.new → is_faithful self.old }
        ensures not_taken { IsErrOf result NameTaken → ⊥ };

    /// Gives a file another name, in the place of what has it.
    fn rename(
        &mut self,
        from_folder: Folder,
        from: &str,
        to_folder: Folder,
        to: &str,
    ) -> Result<(), DiskFault>
        // Only a file that is whole on the disk gets another's name.
        requires synced { IsTrue (is_synced self.old (at from_folder from.now)) }
        requires apart { Apart (at from_folder from.now) (at to_folder to.now) }
        ensures renamed { OnOk result (seen self.new (at to_folder to.now) ≡ seen self.old
            (at from_folder from.now)) }
        ensures gone { OnOk result (seen self.new (at from_folder from.now) ≡ None) }
        ensures seen { MayMove (at from_folder from.now) (at to_folder to.now)
            (seen self.old (at from_folder from.now)) (seen self.old) (seen self.new) }
        ensures now_synced { OnOk result (IsTrue (is_synced self.new (at to_folder to.now))) }
        ensures synced { KeepsSynced (at to_folder to.now) (at to_folder to.now)
            (is_synced self.old)
            (is_synced self.new) }
        ensures crash { Follows (MayMove (at from_folder from.now) (at to_folder to.now)
            (seen self.old (at from_folder from.now))) (may_leave self.old) (may_leave self.new) }
        ensures time { Elapses (moment self.old) (moment self.new) (left_since self.old)
            (left_since self.new)
            (may_leave self.new) }
        ensures cause { HasCause (faults self.old) (faults self.new) result }
        ensures faithful { is_faithful self.new → is_faithful self.old }
        ensures not_taken { IsErrOf result NameTaken → ⊥ };

    /// Gives a file one more name, which no file has.
    fn link(
        &mut self,
        from_folder: Folder,
        from: &str,
        to_folder: Folder,
        to: &str,
    ) -> Result<(), DiskFault>
        requires there { IsSome (seen self.old (at from_folder from.now)) }
        requires synced { IsTrue (is_synced self.old (at from_folder from.now)) }
        ensures linked { OnOk result (Written (at to_folder to.now)
            (seen self.old (at from_folder from.now))
            (seen self.old) (seen self.new)) }
        ensures taken { is_faithful self.new → IsSome (seen self.old (at to_folder to.now))
            → IsErr result }
        ensures taken_stays { is_faithful self.new → IsSome (seen self.old (at to_folder to.now))
            → (each : Place) → seen self.new each ≡ seen self.old each }
        ensures taken_crash { is_faithful self.new → IsSome (seen self.old (at to_folder to.now))
            → (c : Place → Option (List ℕ)) → may_leave self.new c → may_leave self.old c }
        ensures seen { MayPut (at to_folder to.now) (seen self.old (at from_folder from.now))
            (seen self.old)
            (seen self.new) }
        ensures now_synced { OnOk result (IsTrue (is_synced self.new (at to_folder to.now))) }
        ensures synced { KeepsSynced (at to_folder to.now) (at to_folder to.now)
            (is_synced self.old)
            (is_synced self.new) }
        ensures crash { Follows (MayPut (at to_folder to.now)
            (seen self.old (at from_folder from.now)))
            (may_leave self.old) (may_leave self.new) }
        ensures time { Elapses (moment self.old) (moment self.new) (left_since self.old)
            (left_since self.new)
            (may_leave self.new) }
        ensures cause { HasCause (faults self.old) (faults self.new) result }
        ensures faithful { is_faithful self.new → is_faithful self.old }
        ensures is_taken { IsErrOf result NameTaken → is_faithful self.new
            → IsSome (seen self.old (at to_folder to.now)) };

    /// Takes a name away from a file.
    fn remove(&mut self, folder: Folder, name: &str) -> Result<(), DiskFault>
        ensures gone { OnOk result (seen self.new (at folder name.now) ≡ None) }
        ensures seen { SameBut (at folder name.now) (seen self.old) (seen self.new) }
        ensures now_synced { OnOk result (IsTrue (is_synced self.new (at folder name.now))) }
        ensures synced { KeepsSynced (at folder name.now) (at folder name.now) (is_synced self.old)
            (is_synced self.new) }
        ensures crash { Follows (SameBut (at folder name.now)) (may_leave self.old)
            (may_leave self.new) }
        ensures time { Elapses (moment self.old) (moment self.new) (left_since self.old)
            (left_since self.new)
            (may_leave self.new) }
        ensures cause { HasCause (faults self.old) (faults self.new) result }
        ensures faithful { is_faithful self.new → is_faithful self.old }
        ensures not_taken { IsErrOf result NameTaken → ⊥ };

    /// After it, a crash leaves of each file of the folder whose bytes are on the disk what a read
    /// returns.
    fn sync_folder(&mut self, folder: Folder) -> Result<(), DiskFault>
        ensures durable { OnOk result ((c : Place → Option (List ℕ)) (each : Place)
            → may_leave self.new c
            → each.folder ≡ folder → IsTrue (is_synced self.new each)
            → c each ≡ seen self.new each) }
        ensures seen { (each : Place) → seen self.new each ≡ seen self.old each }
        ensures synced { (each : Place) → IsTrue (is_synced self.old each)
            → IsTrue (is_synced self.new each) }
        ensures crash { (c : Place → Option (List ℕ)) → may_leave self.new c
            → may_leave self.old c }
        ensures time { Elapses (moment self.old) (moment self.new) (left_since self.old)
            (left_since self.new)
            (may_leave self.new) }
        ensures cause { HasCause (faults self.old) (faults self.new) result }
        ensures faithful { is_faithful self.new → is_faithful self.old }
        ensures not_taken { IsErrOf result NameTaken → ⊥ };

    /// This moment is one of those since an earlier one.
    ghost counts_now: { (disk : Self) (t : ℕ) (c : Place → Option (List ℕ)) → t ≤ moment disk
        → may_leave disk c → left_since disk t c };

    /// Since this moment there is no other.
    ghost only_now: { (disk : Self) (c : Place → Option (List ℕ)) → left_since disk (moment disk) c
        → may_leave disk c };
}
