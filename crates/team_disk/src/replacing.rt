// One file in the place of another.
ghost use Rattle.std.specs.Prelude.{
  ◌≡◌,
  ◌⊎◌,
  ◌<◌,
  ℕ,
  List,
  Option,
  Some,
  None,
  OnOk,
  OnErr,
  IsErrOf,
};
ghost use Rattle.team_disk.specs.Disk.{at, Apart, Leaves, LeavesOnly, IsOneOrOther, SameButTwo};

use crate::{Disk, DiskFault, Folder};

/// Puts a file of these bytes into the place of the one of a name. It is written under another name
/// first, one that nobody else uses, and is whole on the disk before it gets its own.
///
/// At any moment a crash leaves the old file or the new one, whole, and at `Ok` the new one. At
/// `Err` a read returns one of the two; of the other name nothing is said then.
pub fn replace_file<D: Disk>(
    disk: &mut D,
    folder: Folder,
    name: &str,
    scratch: &str,
    bytes: &[u8],
) -> Result<(), DiskFault>
    requires apart { Apart (at folder name.now) (at folder scratch.now) }
    // What has the name is on the disk.
    requires settled { Leaves (at folder name.now) (D.seen disk.old (at folder name.now))
        (D.may_leave disk.old) }

    ensures replaced { OnOk result (D.seen disk.new (at folder name.now) ≡ Some bytes.now) }
    ensures durable { OnOk result (Leaves (at folder name.now) (Some bytes.now)
        (D.may_leave disk.new)) }
    ensures gone { OnOk result (D.seen disk.new (at folder scratch.now) ≡ None) }
    ensures either { OnErr result ((D.seen disk.new (at folder name.now) ≡ D.seen disk.old
        (at folder name.now))
        ⊎ (D.seen disk.new (at folder name.now) ≡ Some bytes.now)) }
    ensures others { SameButTwo (at folder name.now) (at folder scratch.now) (D.seen disk.old)
        (D.seen disk.new) }

    // A crash at any moment of the call leaves the old file or the new one.
    ensures any_moment { LeavesOnly D.moment D.left_since disk.old disk.new
        (IsOneOrOther (at folder name.now) (at folder scratch.now)
        (D.seen disk.old (at folder name.now)) (Some bytes.now) (D.may_leave disk.old)) }

    // It does not give up by itself.
    ensures failed { IsErrOf result DiskFault.Failed → D.faults disk.old < D.faults disk.new }
    ensures not_taken { IsErrOf result DiskFault.NameTaken → ⊥ }
{
    disk.write(folder, scratch, bytes)?;
    disk.rename(folder, scratch, folder, name)?;
    disk.sync_folder(folder)
}
