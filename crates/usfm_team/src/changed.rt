// What a sync would take in of a folder's files, and what it would refuse.
use crate::plan_refusal::refusal_of;
use crate::reading::{Read, read_folder, read_given};
use crate::refusal::{Given, Refusal};
use crate::sync::{What, open_folder, tell};
use crate::telling::{plain_line, say_of};
use book_folder::{Standing, Wishes, folder_standing, lacks_base};
use command_faults::{Fault, fault_line};
use std::io::Write;

// What follows the name of a folder whose files were written from more than the project has.
const BEHIND: &str = " has: sync before you edit anything";

// The lines of a folder: of each file that was changed, how many edits a sync would take in, and of
// each that it would refuse, why. Nothing is locked, and nothing is changed. What is skipped is said
// where a person reads what faults mean.
pub(crate) fn folder_lines(
    rt: &HostRuntime,
    project: Given<'_>,
    folder: &str,
    explains: bool,
) -> Result<Vec<u8>, Refusal> {
    let folder = open_folder(rt, folder)?;
    let what = What {
        rt,
        folder: &folder,
        path: project.path,
        project: project.bytes,
        given: &read_given(rt, Vec::new(rt.alloc()))?,
        wishes: &Wishes::none(rt.alloc()),
        is_try: true,
        explains,
    };
    let mut read = read_folder(rt, &folder, explains)?;
    if explains {
        read.say_slips(rt, &folder)?;
    }
    let kept = &read.kept;
    if kept.next.is_some() || kept.before.is_some() || kept.goes_back {
        let why = " was cut short: run it again first";
        say_of(rt, "a `sync` of ", folder.name(), why);
    }
    read.look_back(rt, what.project, what.given)?;
    if explains && is_behind(what, &read)? {
        say_of(rt, "the project lacks edits that ", folder.name(), BEHIND);
    }
    match standing_of(what, &read) {
        Ok(standing) => lines(what, &read, &standing),
        Err(refusal) => Err(refusal_of(what, &read, refusal)),
    }
}

// Whether the project lacks what its files were written from. What cannot be read is refused where
// it is planned.
fn is_behind(what: What<'_>, read: &Read) -> Result<bool, Fault> {
    let lent = read.lend(what.rt)?;
    match lacks_base(what.rt.alloc(), &lent.seen(what.project, what.given)) {
        Err(book_folder::Refusal::Memory) => Err(Fault::Memory),
        lacks => Ok(lacks.unwrap_or(false)),
    }
}

fn standing_of(what: What<'_>, read: &Read) -> Result<Standing, book_folder::Refusal> {
    let lent = read.lend(what.rt)?;
    folder_standing(what.rt.alloc(), &lent.seen(what.project, what.given))
}

fn lines(what: What<'_>, read: &Read, standing: &Standing) -> Result<Vec<u8>, Refusal> {
    let mut text = Vec::new(what.rt.alloc());
    for changed in &standing.changed {
        if let Some(file) = read.files.get(changed.at) {
            let path = what.folder.name_of(what.rt, &file.name)?;
            let name = plain_line(what.rt, &path).map_err(Fault::from)?;
            tell(writeln!(text, "changed {name} {}", changed.count))?;
        }
    }
    for left in &standing.left_out {
        let refusal = book_folder::Refusal::Of(left.place, left.fault);
        let said = refusal_of(what, read, refusal);
        // A file of the folder has a name, unless an allocation failed.
        let Some(file) = &said.file else {
            return Err(Refusal::from(Fault::Memory));
        };
        let name = plain_line(what.rt, &file.name).map_err(Fault::from)?;
        tell(write!(text, "unread {name} "))?;
        tell(text.write_all(fault_line(&said.fault).bytes()))?;
    }
    Ok(text)
}
