// A folder of books' files: what was changed in it comes into the project, and the project's books
// go into it. What is to be done is a plan, which is made of all that was read.
use crate::by_verse::{changes_by, no_changes, say_back};
use crate::files::Folder;
use crate::kept::Kept;
use crate::output::write_output;
use crate::plan_refusal::refusal_of;
use crate::project::{Project, lock_project};
use crate::questions::asked_lines;
use crate::reading::{Given, Read, read_folder, read_given};
use crate::refusal::Refusal;
use crate::setup::put_setup;
use crate::steps::{Disk, Done, do_steps, sweep};
use crate::sync_lines::{left_lines, made_lines};
use crate::team_box::{TeamBox, open_box};
use crate::telling::{SETTLE, say, say_heads, unconflicted_heads};
use crate::told::{Told, refuse_bundles, say_left_form};
use book_folder::{Plan, Sifted, Wishes, export_plan, make_plan, project_after, sift_box};
use command_faults::{Expected, Fault};
use command_line::Ending;
use std::io::Write;
use sync_changes::SyncChanges;
use usfm_ref::Book;

// What is said where operations are awaited that others replace.
const AWAITS: &str =
    "some edits have not come yet that others replace: `report` says whom to ask for a bundle";

// How often a folder is read anew that is changed while it is planned.
const MOST_READINGS: usize = 3;

// Takes in bundles and what was changed in a folder, and writes the books into the folder. The
// project and the folder are locked until all is done. Then the folder remembers what it was told to.
pub(crate) fn sync(rt: &HostRuntime, told: Told, explains: bool) -> Result<Ending, Refusal> {
    let is_remembered = told.is_remembered;
    synced(rt, told, explains).map_err(|refusal| {
        if is_remembered {
            refusal.beside_others()
        } else {
            refusal
        }
    })
}

fn synced(rt: &HostRuntime, told: Told, explains: bool) -> Result<Ending, Refusal> {
    let path = told.project;
    let (mut project, before) = open_project(rt, &path)?;
    let folder = open_folder(rt, &told.folder)?;
    folder.lock(rt);
    let mut given = read_given(rt, told.bundles)?;
    let mut shared = match &told.box_folder {
        Some(name) => {
            let given = &mut given;
            Some(open_box(rt, name, &folder, &path, &before, given, explains)?)
        }
        None => None,
    };
    let nothing = read_given(rt, Vec::new(rt.alloc()))?;
    let line = What {
        rt,
        folder: &folder,
        path: &path,
        project: &before,
        given: &nothing,
        wishes: &told.wishes,
        is_try: told.is_try,
        explains,
    };
    let (read, sifted) = read_and_sift(line.with(&given), &shared)?;
    refuse_bundles(rt, &told.folder, told.is_set_up, &read)?;
    let is_ahead = given_by(rt, &mut shared, &sifted, &before, &read.kept, &mut given)?;
    if told.asks_form {
        say_left_form(rt, &read.kept, &told.wishes);
    }
    let what = line.with(&given);
    let SyncMade {
        plan,
        changes,
        done,
    } = planned_and_done(what, None, read, &mut project)?;
    let sent = put_in_box(what, &shared, is_ahead, project_after(&plan, &before));
    let kept = remember(what, &told.to_remember);
    drop(project);
    answer(what, &plan, &changes, done, told.is_quiet && !told.is_try)?;
    if explains {
        say_heads(rt, &unconflicted_heads(rt, &before, &told.settled));
    }
    sent?;
    kept?;
    Ok(ending_of(&plan, &shared))
}

// Has the bundles of a box come in that do. Answers whether the copy's own has more of its edits
// than is known here.
fn given_by(
    rt: &HostRuntime,
    shared: &mut Option<TeamBox>,
    sifted: &[Sifted],
    project: &[u8],
    kept: &Kept,
    given: &mut Given,
) -> Result<bool, Fault> {
    let Some(shared) = shared else {
        return Ok(false);
    };
    let is_ahead = shared.is_ahead(rt, project, kept, given)?;
    shared.give(rt, sifted, given)?;
    Ok(is_ahead)
}

// Puts the copy's own bundle into a box, if there is one.
fn put_in_box(
    what: What<'_>,
    shared: &Option<TeamBox>,
    is_ahead: bool,
    project: &[u8],
) -> Result<(), Refusal> {
    let Some(shared) = shared else {
        return Ok(());
    };
    if is_ahead {
        shared.say_ahead(what.rt);
    }
    if what.is_try {
        return Ok(());
    }
    shared.put(what.rt, project)
}

// Has the folder remember what it is to.
fn remember(what: What<'_>, lines: &Option<String>) -> Result<(), Refusal> {
    match lines {
        Some(text) if !what.is_try => put_setup(what.rt, what.folder, text),
        _ => Ok(()),
    }
}

// What a sync came to: whether a bundle of the box was skipped, or segments are in conflict.
fn ending_of(plan: &Plan, shared: &Option<TeamBox>) -> Ending {
    match shared {
        Some(shared) if shared.has_skipped() => Ending::Skipped,
        _ => Ending::of(!plan.told.conflicts.is_empty()),
    }
}

// Writes books into a folder, all where none is named. A file of theirs that was changed is
// refused.
pub(crate) fn export_into(
    rt: &HostRuntime,
    project: &str,
    folder: &str,
    books: &[Book],
    explains: bool,
) -> Result<(), Refusal> {
    let path = project;
    let (mut project, before) = open_project(rt, path)?;
    let folder = open_folder(rt, folder)?;
    folder.lock(rt);
    let what = What {
        rt,
        folder: &folder,
        path,
        project: &before,
        given: &read_given(rt, Vec::new(rt.alloc()))?,
        wishes: &Wishes::none(rt.alloc()),
        is_try: false,
        explains,
    };
    let read = read_all(what, true)?;
    let SyncMade {
        plan,
        changes,
        done,
    } = planned_and_done(what, Some(books), read, &mut project)?;
    drop(project);
    answer(what, &plan, &changes, done, false)
}

// A plan, what it changes by segments and names, and what became of its steps.
#[derive(Drop)]
struct SyncMade {
    plan: Plan,
    changes: SyncChanges,
    done: Done,
}

// What is synced, or exported.
#[derive(Clone, Copy)]
pub(crate) struct What<'a> {
    pub(crate) rt: &'a HostRuntime,
    pub(crate) folder: &'a Folder,
    // How the line names the project, and its bytes.
    pub(crate) path: &'a str,
    pub(crate) project: &'a [u8],
    pub(crate) given: &'a Given,
    pub(crate) wishes: &'a Wishes,
    pub(crate) is_try: bool,
    // Whether what faults mean is said.
    pub(crate) explains: bool,
}

impl<'a> What<'a> {
    // The same with these bundles.
    fn with(self, given: &'a Given) -> What<'a> {
        What { given, ..self }
    }
}

// Waits for a project until no other command changes it, and reads it.
fn open_project(rt: &HostRuntime, path: &str) -> Result<(Project, Vec<u8>), Refusal> {
    let of_project = |fault| Refusal::of_project(rt, fault, path);
    let project = lock_project(rt, path).map_err(of_project)?;
    let bytes = project.read(rt).map_err(of_project)?;
    Ok((project, bytes))
}

// Plans what is to be done, and does it, unless it is only tried. Where books are exported, nothing
// is taken in. What is said by segments is made before anything is done.
fn planned_and_done(
    what: What<'_>,
    exported: Option<&[Book]>,
    read: Read,
    project: &mut Project,
) -> Result<SyncMade, Refusal> {
    let (read, plan) = planned(what, exported, read)?;
    let changes = match exported {
        None => changes_by(what, &read, &plan)?,
        Some(_) => no_changes(what.rt),
    };
    if what.is_try {
        let done = Done::nothing(what.rt);
        return Ok(SyncMade {
            plan,
            changes,
            done,
        });
    }
    let disk = Disk {
        rt: what.rt,
        folder: what.folder,
        project: what.path,
        before: what.project,
        read: &read,
    };
    let done = do_steps(disk, project, &plan.steps)?;
    sweep(disk);
    Ok(SyncMade {
        plan,
        changes,
        done,
    })
}

// Says what was done, and which file could not be replaced; where it is to be quiet, only what was
// not done.
fn answer(
    what: What<'_>,
    plan: &Plan,
    changes: &SyncChanges,
    done: Done,
    is_quiet: bool,
) -> Result<(), Refusal> {
    let Done { left, failed } = done;
    for book in &plan.told.headless {
        say_headless(what.rt, *book);
    }
    if is_quiet {
        write_output(what.rt, &left_lines(what, plan, &left)?)?;
    } else {
        write_output(what.rt, &made_lines(what, plan, changes, &left)?)?;
    }
    let explains = what.explains && !is_quiet;
    if explains {
        say_back(what, changes);
    }
    if explains && !plan.told.conflicts.is_empty() {
        say(what.rt, SETTLE);
    }
    if explains && plan.told.awaits {
        say(what.rt, AWAITS);
    }
    match failed {
        Some(refusal) => Err(refusal),
        None => Ok(()),
    }
}

// Opens the folder that a line names.
pub(crate) fn open_folder(rt: &HostRuntime, name: &str) -> Result<Folder, Refusal> {
    Folder::open(rt, name).map_err(|fault| Refusal::expecting(rt, fault, name, Expected::Folder))
}

// Plans what is done with what was read of the folder. Where a file is another one by then, all is
// read and planned anew; at the last time it is left as it is.
fn planned(what: What<'_>, exported: Option<&[Book]>, read: Read) -> Result<(Read, Plan), Refusal> {
    let mut made = read_and_plan(what, exported, read)?;
    for _ in 1..MOST_READINGS {
        let (read, plan) = &made;
        if what.is_try || plan.steps.is_empty() || read.is_still(what.rt, what.folder)? {
            break;
        }
        made = read_and_plan(what, exported, read_all(what, false)?)?;
    }
    Ok(made)
}

// Reads the folder. What is skipped is said, where it is to be.
fn read_all(what: What<'_>, is_said: bool) -> Result<Read, Refusal> {
    let mut read = read_folder(what.rt, what.folder, is_said)?;
    if is_said && what.explains {
        read.say_slips(what.rt, what.folder)?;
    }
    read.look_back(what.rt, what.project, what.given)?;
    Ok(read)
}

// Reads the folder, and looks which of the bundles of a box come in.
fn read_and_sift(what: What<'_>, shared: &Option<TeamBox>) -> Result<(Read, Vec<Sifted>), Refusal> {
    let read = read_all(what, true)?;
    let sifted = match shared {
        Some(shared) => sifted(what, &read, shared.bundles())?,
        None => Vec::new(what.rt.alloc()),
    };
    Ok((read, sifted))
}

// Which bundles of a box come in.
fn sifted(what: What<'_>, read: &Read, bundles: &[Vec<u8>]) -> Result<Vec<Sifted>, Refusal> {
    match sift(what, read, bundles) {
        Ok(sifted) => Ok(sifted),
        Err(refusal) => Err(refusal_of(what, read, refusal)),
    }
}

fn sift(
    what: What<'_>,
    read: &Read,
    bundles: &[Vec<u8>],
) -> Result<Vec<Sifted>, book_folder::Refusal> {
    let lent = read.lend(what.rt)?;
    let seen = lent.seen(what.project, what.given);
    sift_box(what.rt.alloc(), &seen, what.wishes, bundles)
}

fn read_and_plan(
    what: What<'_>,
    exported: Option<&[Book]>,
    read: Read,
) -> Result<(Read, Plan), Refusal> {
    match plan_of(what, &read, exported) {
        Ok(plan) => Ok((read, plan)),
        Err(refusal) => Err(refused(what, &read, refusal)),
    }
}

// Why no plan is made; where it is to be said, with the lines of what is asked.
fn refused(what: What<'_>, read: &Read, refusal: book_folder::Refusal) -> Refusal {
    match lines_if_said(what, read, &refusal) {
        Ok(lines) => refusal_of(what, read, refusal).with_lines(lines),
        Err(fault) => Refusal::from(fault),
    }
}

fn lines_if_said(
    what: What<'_>,
    read: &Read,
    refusal: &book_folder::Refusal,
) -> Result<Option<Vec<u8>>, Fault> {
    if what.explains || what.is_try {
        return asked_lines(what, read, refusal);
    }
    Ok(None)
}

// What is to be done with what was read.
fn plan_of(
    what: What<'_>,
    read: &Read,
    exported: Option<&[Book]>,
) -> Result<Plan, book_folder::Refusal> {
    let lent = read.lend(what.rt)?;
    let seen = lent.seen(what.project, what.given);
    match exported {
        None => make_plan(what.rt.alloc(), &seen, what.wishes),
        Some(books) => export_plan(what.rt.alloc(), &seen, what.wishes, books),
    }
}

// A text that is written into memory fails for want of it alone.
pub(crate) fn tell(written: std::io::Result<()>) -> Result<(), Fault> {
    written.map_err(|_| Fault::Memory)
}

fn say_headless(rt: &HostRuntime, book: Book) {
    let _ = writeln!(
        rt.stderr(),
        "no file is written for {book}: the project does not have the book's head, \
        which begins with \\id"
    );
}
