// What a sync says by segments and names: what came in, what the files removed, and whose texts they
// replaced.
use crate::plan_refusal::refusal_of;
use crate::reading::Read;
use crate::refusal::Refusal;
use crate::sync::What;
use crate::telling::{plain_line, say};
use book_folder::{Origin, Plan, files_origin, project_after};
use bundle_codec::decode_whole;
use command_faults::Fault;
use project_file::judge;
use sync_changes::{FileEdits, SyncChanges, sync_changes};
use usfm_ref::{Segment, write_ref};

// What the sync of a plan changes, by the project before and after it. Where the project stays as it
// is, that is nothing; and where the files made no edit, it is not asked what they were taken in
// beside.
pub(crate) fn changes_by(what: What<'_>, read: &Read, plan: &Plan) -> Result<SyncChanges, Refusal> {
    let after = project_after(plan, what.project);
    if after == what.project {
        return Ok(no_changes(what.rt));
    }
    if plan.told.files.is_empty() {
        return Ok(changes_without_files(what, after)?);
    }
    let lent = read.lend(what.rt).map_err(Fault::from)?;
    let seen = lent.seen(what.project, what.given);
    match files_origin(what.rt.alloc(), &seen, what.wishes) {
        Ok(origin) => Ok(changes_beside(what, &origin, after)?),
        Err(refusal) => Err(refusal_of(what, read, refusal)),
    }
}

pub(crate) fn no_changes(rt: &HostRuntime) -> SyncChanges {
    SyncChanges {
        came: Vec::new(rt.alloc()),
        removed: Vec::new(rt.alloc()),
        replaced: Vec::new(rt.alloc()),
    }
}

// What a sync changes whose files made no edit: no number is above the greatest that there is.
fn changes_without_files(what: What<'_>, after: &[u8]) -> Result<SyncChanges, Fault> {
    let alloc = what.rt.alloc();
    let known = judge(alloc, what.project)?.summary(alloc)?;
    let after = judge(alloc, after)?;
    let files = FileEdits {
        name: after.name(),
        above: u64::MAX,
    };
    Ok(sync_changes(alloc, after.held(), &known, &files, after.held(), &[])?)
}

// What a sync changes by what its files were taken in beside, and by the project's bytes after it.
fn changes_beside(what: What<'_>, origin: &Origin<'_>, after: &[u8]) -> Result<SyncChanges, Fault> {
    let alloc = what.rt.alloc();
    let known = judge(alloc, what.project)?.summary(alloc)?;
    let after = judge(alloc, after)?;
    let files = FileEdits {
        name: origin.name,
        above: origin.above,
    };
    let base = decode_whole(alloc, &origin.base)?;
    let mut older = Vec::new(alloc);
    for bytes in &origin.older {
        older.push(decode_whole(alloc, bytes)?)?;
    }
    Ok(sync_changes(alloc, after.held(), &known, &files, &base, &older)?)
}

// Says how a person sees what the files removed or replaced, and has it back. What cannot be told is
// left out.
pub(crate) fn say_back(what: What<'_>, changes: &SyncChanges) {
    if let Some(segment) = changes.removed.first() {
        let _ = say_back_of(what, *segment, "was removed");
    }
    if let Some(replaced) = changes.replaced.first() {
        let _ = say_back_of(what, replaced.segment, "was replaced");
    }
}

fn say_back_of(what: What<'_>, segment: Segment, was: &str) -> Result<(), Fault> {
    let (rt, alloc) = (what.rt, what.rt.alloc());
    let reference = write_ref(alloc, segment.book, segment.key)?;
    let project = as_word(rt, what.path)?;
    let seen = format!(in alloc; "`usfm_team history {project} '{reference}'` shows what {was}")?;
    let back = format!(in alloc; "`usfm_team restore {project} ID` has it back")?;
    say(rt, &format!(in alloc; "{seen}, and {back}")?);
    Ok(())
}

// A name as one word of a line: in quotes where it has a space.
fn as_word(rt: &HostRuntime, name: &str) -> Result<String, Fault> {
    let plain = plain_line(rt, name)?;
    if plain.contains(' ') {
        return Ok(format!(in rt.alloc(); "'{plain}'")?);
    }
    Ok(plain)
}
