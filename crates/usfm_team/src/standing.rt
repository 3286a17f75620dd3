// How a project stands.
use crate::changed::folder_lines;
use crate::files::is_folder;
use crate::missing::read_versification;
use crate::output::write_output;
use crate::refusal::{Given, Refusal, read_named};
use crate::sealing::read_bundles;
use crate::telling::plain_line;
use crate::turns::refusal_in;
use command_faults::Expected;
use command_line::Ending;
use usfm_cli::{
    CopyFile, TurnFault, conflict_count, project_page, project_progress, project_status,
};
use usfm_ref::Book;

// Says how a project stands, what was changed in its folder, where the first file is one, and what
// the copies that files are of have and lack. Where the exit status is to say so, conflicts are
// counted, too.
pub(crate) fn status(
    rt: &HostRuntime,
    path: &str,
    names: &[String],
    explains: bool,
    is_counted: bool,
) -> Result<Ending, Refusal> {
    let bytes = read_named(rt, path, Expected::Project)?;
    let (folder, names) = match names {
        [first, others @ ..] if is_folder(rt, first) => {
            (
                folder_lines(rt, Given::of(path, &bytes), first, explains)?,
                others,
            )
        }
        _ => (Vec::new(rt.alloc()), names),
    };
    match status_text(rt, &bytes, &folder, names) {
        Ok(text) => {
            let has_conflicts = is_counted && conflict_count(rt.alloc(), &bytes, &[])? > 0;
            write_output(rt, &text)?;
            Ok(Ending::of(has_conflicts || !folder.is_empty()))
        }
        Err(TurnFault::Project(fault)) => Err(Refusal::of_project(rt, fault, path)),
        Err(fault) => Err(refusal_in(rt, fault, names)),
    }
}

fn status_text(
    rt: &HostRuntime,
    project: &[u8],
    folder: &[u8],
    names: &[String],
) -> Result<Vec<u8>, TurnFault> {
    let files = read_bundles(rt, names)?;
    let mut plain_names = Vec::new(rt.alloc());
    for name in names {
        plain_names.push(plain_line(rt, name)?)?;
    }
    let copies: Vec<CopyFile<'_>> = plain_names
        .iter()
        .zip(&files)
        .map(|(name, bytes)| CopyFile::new(name, bytes))
        .collect(rt.alloc())?;
    project_status(rt.alloc(), project, folder, &copies)
}

// Says how far the chapters of a project's books are by a versification.
pub(crate) fn progress(
    rt: &HostRuntime,
    project: &str,
    book: Option<Book>,
    versification: Option<String>,
) -> Result<(), Refusal> {
    let bytes = read_named(rt, project, Expected::Project)?;
    let project = Given::of(project, &bytes);
    let given = read_versification(rt, versification)?;
    match project_progress(rt.alloc(), &bytes, book, &given.bytes) {
        Ok(text) => write_output(rt, &text),
        Err(fault) => Err(Refusal::of_inputs(rt, fault, &project, given.named())),
    }
}

// Writes the page about a project by a versification.
pub(crate) fn page(
    rt: &HostRuntime,
    project: &str,
    versification: Option<String>,
) -> Result<(), Refusal> {
    let bytes = read_named(rt, project, Expected::Project)?;
    let project = Given::of(project, &bytes);
    let given = read_versification(rt, versification)?;
    match project_page(rt.alloc(), &bytes, &given.bytes) {
        Ok(page) => write_output(rt, &page),
        Err(fault) => Err(Refusal::of_inputs(rt, fault, &project, given.named())),
    }
}
