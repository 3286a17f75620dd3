// New files that wait to be put in their places.
ghost use Rattle.std.specs.Prelude.{
  ◌≡◌,
  ◌≢◌,
  ◌<◌,
  ℕ,
  List,
  Option,
  IsTrue,
  IsFalse,
  IfOk,
  OnOk,
  IsErrOf,
};
ghost use Rattle.team_disk.specs.declared.disk.Folder.TheVariants.{Books, Own};
ghost use Rattle.team_disk.specs.Disk.{
  Place,
  at,
  AllSynced,
  IsMovedOrNot,
  LeavesOnly,
  as_read,
  lent_bytes,
};

use crate::{Disk, DiskFault, Folder};
use std::alloc::Global;

/// The folder of the books and the program's own, in which new files wait that are whole on the disk.
#[derive(Drop)]
pub struct StagedFiles<D: Disk> {
    /// The disk that has both folders.
    pub disk: D,
    ghost staged: { AllSynced Own (D.is_synced disk) },
}

impl<D: Disk> StagedFiles<D> {
    /// The files of a disk, where those of the program's own folder are whole on it.
    pub fn new(disk: D) -> Self
        requires staged { AllSynced Own (D.is_synced disk) }
        ensures { result.disk ≡ disk }
    {
        StagedFiles { disk }
    }

    /// Puts a new file into the place of the one that was read of a book, or where no file was.
    /// Answers whether it did: what is another file by then is left as it is.
    ///
    /// At any moment a crash leaves in that place what was there or the new file, whole.
    pub fn place(
        &mut self,
        alloc: Global,
        new: &str,
        name: &str,
        was: Option<&[u8]>,
    ) -> Result<bool, DiskFault>
        ensures placed { IfOk result (λ is_placed. IsTrue is_placed → D.seen self.new.disk
            (at Books name.now) ≡ D.seen self.old.disk (at Own new.now)) }
        ensures left { IfOk result (λ is_placed. IsFalse is_placed → (each : Place)
            → D.seen self.new.disk each ≡ D.seen self.old.disk each) }

        // What is another file by then stays.
        ensures other_stays { D.is_faithful self.new.disk
            → (D.seen self.old.disk (at Books name.now) ≢ lent_bytes was.entry)
            → (each : Place) → D.seen self.new.disk each ≡ D.seen self.old.disk each }
        ensures other_stays_at_any_moment { D.is_faithful self.new.disk
            → (D.seen self.old.disk (at Books name.now) ≢ lent_bytes was.entry)
            → LeavesOnly D.moment D.left_since self.old.disk self.new.disk
            (D.may_leave self.old.disk) }

        // A crash at any moment of the call leaves the file that was there, or the new one.
        ensures any_moment { LeavesOnly D.moment D.left_since self.old.disk self.new.disk
            (IsMovedOrNot (at Own new.now) (at Books name.now)
            (D.seen self.old.disk (at Own new.now)) (D.may_leave self.old.disk)) }

        // It does not give up by itself.
        ensures failed { IsErrOf result DiskFault.Failed
            → D.faults self.old.disk < D.faults self.new.disk }
        ensures not_taken { IsErrOf result DiskFault.NameTaken → ⊥ }
    {
        let found = self.disk.read(alloc, Folder::Books, name)?;
        if !is_same(&found, was) {
            return Ok(false);
        }
        self.disk.rename(Folder::Own, new, Folder::Books, name)?;
        Ok(true)
    }

    /// Has the books' files on the disk under their names.
    pub fn sync(&mut self) -> Result<(), DiskFault>
        ensures durable { OnOk result ((c : Place → Option (List ℕ)) (each : Place)
            → D.may_leave self.new.disk c → each.folder ≡ Books
            → IsTrue (D.is_synced self.new.disk each) → c each ≡ D.seen self.new.disk each) }
        ensures seen { (each : Place) → D.seen self.new.disk each ≡ D.seen self.old.disk each }
        ensures failed { IsErrOf result DiskFault.Failed
            → D.faults self.old.disk < D.faults self.new.disk }
    {
        self.disk.sync_folder(Folder::Books)
    }
}

// Whether a file that was found has these bytes, or none was found where none is to be.
fn is_same(found: &Option<Vec<u8>>, was: Option<&[u8]>) -> bool
    ensures same { IsTrue result → as_read found.now ≡ lent_bytes was.entry }
    ensures other { IsFalse result → as_read found.now ≢ lent_bytes was.entry }
{
    match (found, was) {
        (Some(found), Some(was)) => found.as_slice() == was,
        (None, None) => true,
        _ => false,
    }
}
