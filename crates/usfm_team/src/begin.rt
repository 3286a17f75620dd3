// A project that is begun.
use crate::files::is_there;
use crate::project::{begin_project, begun_path};
use crate::refusal::Refusal;
use crate::telling::say_of;
use command_faults::{Expected, Fault};
use op_core::ReplicaName;
use usfm_cli::create;

// What stands before the name of a project that was begun.
const BEGUN: &str =
    "the project is begun. Put the books' files into a folder, and then: usfm_team sync ";

// Begins a project.
pub(crate) fn init(
    rt: &HostRuntime,
    project: &str,
    name: &ReplicaName,
    explains: bool,
) -> Result<(), Refusal> {
    let bytes = create(rt.alloc(), name.text()).map_err(Fault::from)?;
    begin_project(rt, project, &bytes).map_err(|fault| not_begun(rt, fault, project))?;
    if explains {
        say_of(rt, BEGUN, project, " FOLDER");
    }
    Ok(())
}

// Why a project was not begun: something stands under its name, or under the one that it has until
// it is whole.
pub(crate) fn not_begun(rt: &HostRuntime, fault: Fault, project: &str) -> Refusal {
    match begun_path(rt, project) {
        Ok(half) if !stands(rt, project) && stands(rt, &half) => {
            Refusal::alone(rt, fault, &half, Expected::HalfProject)
        }
        _ => Refusal::alone(rt, fault, project, Expected::NewProject),
    }
}

// Whether something stands under a name.
pub(crate) fn stands(rt: &HostRuntime, path: &str) -> bool {
    is_there(rt, path).unwrap_or(false)
}
