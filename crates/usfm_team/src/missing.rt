// What is missing of a project's books by a versification: the one that the line names, or the
// program's own.
use crate::output::write_output;
use crate::refusal::{Given, Refusal, read_named};
use crate::telling::say;
use carried_versification::carried_versification;
use command_faults::{Expected, Fault};
use command_line::Ending;
use missing_verses::Part;
use usfm_cli::{NOTHING_MISSING, project_missing};

// Says what is missing of the books and chapters that are named, or of all books.
pub(crate) fn missing(
    rt: &HostRuntime,
    project: &str,
    parts: &[Part],
    versification: Option<String>,
    all: bool,
    explains: bool,
) -> Result<Ending, Refusal> {
    let bytes = read_named(rt, project, Expected::Project)?;
    let project = Given::of(project, &bytes);
    let given = read_versification(rt, versification)?;
    let lines = match project_missing(rt.alloc(), &bytes, parts, all, &given.bytes) {
        Ok(lines) => lines,
        Err(fault) => return Err(Refusal::of_inputs(rt, fault, &project, given.named())),
    };
    write_output(rt, &lines)?;
    if explains && lines.is_empty() {
        say(rt, NOTHING_MISSING);
    }
    Ok(Ending::of(!lines.is_empty()))
}

// A versification, and the name that the line gives it, unless it is the program's own.
#[derive(Drop)]
pub(crate) struct GivenVersification {
    path: Option<String>,
    pub(crate) bytes: Vec<u8>,
}

impl GivenVersification {
    // What a refusal of it names.
    pub(crate) fn named(&self) -> Option<(&str, Expected)> {
        match &self.path {
            Some(path) => Some((path.as_str(), Expected::Versification)),
            None => None,
        }
    }
}

// The versification that the line names, or else the program's own.
pub(crate) fn read_versification(
    rt: &HostRuntime,
    path: Option<String>,
) -> Result<GivenVersification, Refusal> {
    let bytes = match &path {
        Some(path) => read_named(rt, path, Expected::Versification)?,
        None => carried_versification()
            .as_bytes()
            .to_vec(rt.alloc())
            .map_err(Fault::from)?,
    };
    Ok(GivenVersification { path, bytes })
}
