// The page about a project.
ghost use Rattle.std.specs.Prelude.{◌≡◌, Ok, IfErr};
ghost use Rattle.replica_state.specs.States.{State};
ghost use Rattle.project_file.specs.Projects.{project_at};
ghost use Rattle.versification.specs.Versifications.{versification_of};
ghost use Rattle.usfm_cli.specs.Copies.{as_list};
ghost use Rattle.command_faults.specs.Faults.{of_loading};
ghost use Rattle.usfm_cli.specs.Pages.{AnswersPage};
ghost use Rattle.usfm_cli.specs.Projects.{RefusesFile};

use command_faults::Fault;
use project_file::load;
use project_page::page;
use replica_state::Replica;
use std::alloc::Global;
use versification::Versification;

/// The page about a project by a versification, given the bytes of both files, as
/// `project_page::page` writes it.
///
/// # Errors
/// Those of the project, as `exec` answers them: 110, 60 to 69, 70; then `BadVersification` (43)
/// with the first line of the versification that has none of the forms; `Memory` (1) where an
/// allocation failed, and for a project and a versification nothing else. It may come in the place
/// of 43, since what the project holds is copied before the versification is read.
pub fn project_page(alloc: Global, project: &[u8], versification: &[u8]) -> Result<Vec<u8>, Fault>
    ensures answer { (s : State) → project_at project.now ≡ Ok s
        → AnswersPage (versification_of versification.now) s (as_list result) }
    ensures no_project { IfErr (project_at project.now) (λ fault.
        RefusesFile project.now (of_loading fault) result) }
{
    let replica = load(alloc, project)?;
    page_of(alloc, &replica, versification)
}

// The page about a replica by the versification of a file.
fn page_of(alloc: Global, replica: &Replica, file: &[u8]) -> Result<Vec<u8>, Fault>
    ensures { AnswersPage (versification_of file.now) replica.now (as_list result) }
{
    let versification = Versification::read(alloc, file)?;
    Ok(page(alloc, &versification, replica)?)
}
