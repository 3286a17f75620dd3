// A file under a name that no file has.
ghost use Rattle.std.specs.Prelude.{
  ◌≡◌,
  ◌⊎◌,
  ◌<◌,
  ℕ,
  List,
  Option,
  Some,
  None,
  IsSome,
  OnOk,
  IsErr,
  IsErrOf,
};
ghost use Rattle.team_disk.specs.Disk.{at, Apart, Leaves, LeavesOnly, IsOneOrOther, SameButTwo};

use crate::{Disk, DiskFault, Folder};

/// Makes a file of these bytes under a name that no file has. It is written under another name
/// first, one that nobody else uses, and is whole on the disk before it gets its own.
///
/// At any moment a crash leaves no file of this name or the whole one, and at `Ok` the whole one.
/// Where a file has the name already, that one stays, and the answer is an `Err`.
pub fn begin_file<D: Disk>(
    disk: &mut D,
    folder: Folder,
    name: &str,
    scratch: &str,
    bytes: &[u8],
) -> Result<(), DiskFault>
    requires apart { Apart (at folder name.now) (at folder scratch.now) }
    requires settled { Leaves (at folder name.now) (D.seen disk.old (at folder name.now))
        (D.may_leave disk.old) }

    ensures begun { OnOk result (D.seen disk.new (at folder name.now) ≡ Some bytes.now) }
    ensures durable { OnOk result (Leaves (at folder name.now) (Some bytes.now)
        (D.may_leave disk.new)) }
    ensures gone { OnOk result (D.seen disk.new (at folder scratch.now) ≡ None) }
    ensures others { SameButTwo (at folder name.now) (at folder scratch.now) (D.seen disk.old)
        (D.seen disk.new) }

    // What has the name stays.
    ensures taken { D.is_faithful disk.new → IsSome (D.seen disk.old (at folder name.now))
        → IsErr result }
    ensures stays { D.is_faithful disk.new → IsSome (D.seen disk.old (at folder name.now))
        → D.seen disk.new (at folder name.now) ≡ D.seen disk.old (at folder name.now) }
    ensures stays_at_any_moment { D.is_faithful disk.new
        → IsSome (D.seen disk.old (at folder name.now))
        → LeavesOnly D.moment D.left_since disk.old disk.new
        (λ c. c (at folder name.now) ≡ D.seen disk.old (at folder name.now)) }

    // A crash at any moment of the call leaves no file of the name, or the whole one.
    ensures any_moment { LeavesOnly D.moment D.left_since disk.old disk.new
        (IsOneOrOther (at folder name.now) (at folder scratch.now)
        (D.seen disk.old (at folder name.now)) (Some bytes.now) (D.may_leave disk.old)) }

    // It does not give up by itself.
    ensures failed { IsErrOf result DiskFault.Failed → D.faults disk.old < D.faults disk.new }
    ensures is_taken { IsErrOf result DiskFault.NameTaken → D.is_faithful disk.new
        → IsSome (D.seen disk.old (at folder name.now)) }
{
    disk.write(folder, scratch, bytes)?;
    disk.link(folder, scratch, folder, name)?;
    disk.remove(folder, scratch)?;
    disk.sync_folder(folder)
}
