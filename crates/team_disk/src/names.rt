// Names of files.
ghost use Rattle.std.specs.Prelude.{IsTrue};
ghost use Rattle.team_disk.specs.Disk.{at, Apart};
ghost use Rattle.team_disk.specs.declared.disk.Folder.{Folder};

/// Whether two names are not one, so that in each folder they are of two files.
pub fn are_apart(one: &str, other: &str) -> bool
    ensures { IsTrue result → (folder : Folder) → Apart (at folder one.now) (at folder other.now) }
{
    one != other
}
