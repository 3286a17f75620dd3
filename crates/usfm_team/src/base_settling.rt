// What a sync that was cut short left to do: its base is put in place before anything else.
use crate::files::{Folder, remove_if_there};
use crate::kept::{BASE, NEXT, OLDER, read_kept};
use crate::plan_refusal::fault_of;
use crate::refusal::Refusal;
use crate::steps::{Disk, put, remove_new};
use book_folder::{SettlingStep, settling_steps};

// Settles the base: what the books' files were written from, now that they are in their places, or
// were left.
pub(crate) fn settle_base(disk: Disk<'_>, own: &Folder) -> Result<(), Refusal> {
    let rt = disk.rt;
    let kept = read_kept(rt, own, false)?;
    let steps = match settling_steps(rt.alloc(), &kept.unsettled()) {
        Ok(steps) => steps,
        Err(refusal) => return Err(own.refusal(rt, fault_of(refusal), NEXT)),
    };
    for step in &steps {
        do_settling(disk, own, step)?;
    }
    Ok(())
}

fn do_settling(disk: Disk<'_>, own: &Folder, step: &SettlingStep) -> Result<(), Refusal> {
    let rt = disk.rt;
    match step {
        SettlingStep::PutOlder(moved) => match OLDER.get(moved.at) {
            Some(name) => put(disk, own, name, &moved.bytes),
            None => Ok(()),
        },
        SettlingStep::PutBase(bytes) => put(disk, own, BASE, bytes),
        SettlingStep::SyncOwn => Ok(own.sync()?),
        SettlingStep::RemoveNext => {
            let removed = remove_if_there(rt, &own.way_to(rt, NEXT)?);
            removed.map_err(|fault| own.refusal(rt, fault, NEXT))
        }
        SettlingStep::RemoveNew(book) => remove_new(rt, own, *book),
    }
}
