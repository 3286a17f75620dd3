// What stood as the base before a sync put one that has operations which the project does not have
// yet: it is kept until the project has them.
use crate::files::{Folder, is_there, make_private, remove_if_there};
use crate::kept::{BASE, BEFORE, NEXT};
use crate::refusal::Refusal;
use crate::steps::{Disk, put_made, rename};
use command_faults::Fault;
use std::fs;
use std::io::ErrorKind;

// Gives the base the name of what stood before.
pub(crate) fn keep_before(rt: &HostRuntime, own: &Folder) -> Result<(), Fault> {
    let before = own.way_to(rt, BEFORE)?;
    match fs::rename(rt, own.way_to(rt, BASE)?.as_str(), before.as_str()) {
        Ok(()) => Ok(()),
        Err(error) if error.kind() == ErrorKind::NotFound => {
            make_private(rt, &before)?;
            Ok(())
        }
        Err(_) => Err(Fault::FileFailed),
    }
}

// Keeps what stands as the base, unless it is kept already: where no file was changed, the next base
// alone has what came in before the project does.
pub(crate) fn keep_base(disk: Disk<'_>, own: &Folder) -> Result<(), Fault> {
    let before = own.way_to(disk.rt, BEFORE)?;
    if is_there(disk.rt, &before).map_err(|_| Fault::FileFailed)? {
        return Ok(());
    }
    match disk.read.kept.stood() {
        Some(bytes) => put_made(disk, own, BEFORE, bytes, false),
        None => {
            make_private(disk.rt, &before)?;
            Ok(())
        }
    }
}

// Goes back to the base that stood before a sync put its first one, if that was before the project
// had what came in. The next base goes first, so that it never stands beside an older one.
pub(crate) fn go_back(disk: Disk<'_>, own: &Folder) -> Result<(), Fault> {
    let rt = disk.rt;
    let (base, before) = (own.way_to(rt, BASE)?, own.way_to(rt, BEFORE)?);
    let Ok(found) = fs::symlink_metadata(rt, before.as_str()) else {
        return Ok(());
    };
    remove_if_there(rt, &own.way_to(rt, NEXT)?)?;
    if found.len() == 0 {
        remove_if_there(rt, &base)?;
        remove_if_there(rt, &before)?;
    } else {
        rename(rt, &before, &base)?;
    }
    own.sync()
}

// Forgets what stood before, once the project has what the base says.
pub(crate) fn forget_before(disk: Disk<'_>, own: &Folder) -> Result<(), Refusal> {
    let removed = remove_if_there(disk.rt, &own.way_to(disk.rt, BEFORE)?);
    removed.map_err(|fault| own.refusal(disk.rt, fault, BEFORE))
}
