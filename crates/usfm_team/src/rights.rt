// Who may read and write a file that takes the place of another one.
use crate::files::read_file;
use command_faults::Fault;
use std::fs::{File, Metadata, Permissions};
use std::os::unix::fs::{MetadataExt, PermissionsExt, fchown};
use std::str;

// The bits of a mode that are given to a file. Those beyond them have programs run as somebody
// else.
const RIGHTS: u32 = 0o777;

// The bits of a mode that a file may have besides, which a file that was made has not.
const ALL_BITS: u32 = 0o7777;

// The rights that a new file has at most, and those that its owner has in any case.
const NEW: u32 = 0o666;

const OWNERS: u32 = 0o600;

// What the system takes from the mode of a new file where it does not say what that is.
const STRICTEST_MASK: u32 = 0o077;

// Where the system says what it takes from the mode of a new file, in a line that begins so.
const STATUS: &str = "/proc/self/status";

const MASK_LINE: &str = "Umask:";

pub(crate) fn look_at(file: &File) -> Result<Metadata, Fault> {
    file.metadata().map_err(|_| Fault::FileFailed)
}

// Gives a file that is kept beside some files, or will replace one, the owner and the group of the
// first, where the system allows it, and no more rights than each of them has; where there is none,
// those of a new file. Of a file of another owner no more of its mode is taken than a new file would
// have. A new file's mode is no more than that of its owner's by then.
pub(crate) fn keep_least_rights(
    rt: &HostRuntime,
    olds: &[Metadata],
    new: &File,
) -> Result<(), Fault> {
    let made = look_at(new)?;
    let Some(first) = olds.first() else {
        return set_rights(new, &made, NEW & !mask(rt)?);
    };
    let (mut owner, mut group) = (made.uid(), made.gid());
    if owner != first.uid() && fchown(new, Some(first.uid()), None).is_ok() {
        owner = first.uid();
    }
    if group != first.gid() && fchown(new, None, Some(first.gid())).is_ok() {
        group = first.gid();
    }
    let mut rights = RIGHTS;
    for old in olds {
        let own = rights_of(old, group);
        rights &= if owner == old.uid() {
            own
        } else {
            own & NEW & !mask(rt)? | OWNERS
        };
    }
    set_rights(new, &made, rights)
}

// What a file's mode gives a file of a group.
fn rights_of(old: &Metadata, group: u32) -> u32 {
    let rights = old.mode() & RIGHTS;
    if group == old.gid() {
        rights
    } else {
        without_group(rights)
    }
}

fn set_rights(new: &File, made: &Metadata, rights: u32) -> Result<(), Fault> {
    if made.mode() & ALL_BITS == rights {
        return Ok(());
    }
    let rights = Permissions::from_mode(rights);
    new.set_permissions(rights).map_err(|_| Fault::FileFailed)
}

// Rights by which the file's group may do what all others may: those of a file whose group is
// another one now.
fn without_group(rights: u32) -> u32 {
    rights & !0o070 | (rights & 0o007) << 3
}

// The bits that the system takes from the mode of a file that this process makes.
fn mask(rt: &HostRuntime) -> Result<u32, Fault> {
    match read_file(rt, STATUS) {
        Ok(status) => Ok(mask_of(&status).unwrap_or(STRICTEST_MASK)),
        Err(Fault::Memory) => Err(Fault::Memory),
        Err(_) => Ok(STRICTEST_MASK),
    }
}

fn mask_of(status: &[u8]) -> Option<u32> {
    let text = str::from_utf8(status).ok()?;
    for line in text.lines() {
        if let Some(digits) = line.strip_prefix(MASK_LINE) {
            return u32::from_str_radix(digits.trim(), 8).ok();
        }
    }
    None
}
