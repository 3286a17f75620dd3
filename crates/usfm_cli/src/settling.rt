// Conflicts of a project's file that are asked, and the edits that answers make.
ghost use Rattle.std.specs.Prelude.{◌≡◌, Ok, IfErr};
ghost use Rattle.replica_state.specs.States.{State};
ghost use Rattle.project_file.specs.Projects.{project_at};
ghost use Rattle.usfm_cli.specs.Commands.{outcome, edit_over_done};
ghost use Rattle.command_faults.specs.Faults.{of_loading};
ghost use Rattle.usfm_cli.specs.Projects.{RefusesFile};
ghost use Rattle.usfm_cli.specs.Settling.{AsksOf, CountsOpen};

use crate::command::Command;
use command_faults::Fault;
use conflict_settling::{Asked, Manner, Wanted, open_conflicts};
use project_file::load;
use std::alloc::Global;
use usfm_ref::Segment;

/// The next conflict of a project, given as the bytes of its file, as it is asked
/// (`conflict_settling::next_question`). None where no more is open.
///
/// # Errors
/// First those of the project (`exec`), and then `NoBook` (82) where a book that is wanted, or that
/// of a wanted segment, has no operation. `Memory` (1) where an allocation failed; in the place of
/// `NoBook` only where the project holds something, since that is copied first.
pub fn next_question(
    alloc: Global,
    project: &[u8],
    wanted: &[Wanted],
    passed: Option<Segment>,
    manner: Manner,
) -> Result<Option<Asked>, Fault>
    ensures asks { (s : State) → project_at project.now ≡ Ok s
        → AsksOf s.held wanted.now passed manner result }
    ensures no_project { IfErr (project_at project.now) (λ fault.
        RefusesFile project.now (of_loading fault) result) }
{
    let replica = load(alloc, project)?;
    Ok(conflict_settling::next_question(alloc, &replica, wanted, passed, manner)?)
}

/// How many of the conflicts that are wanted a project has.
///
/// # Errors
/// Those of the project (`exec`), and `Memory` (1) where an allocation failed.
pub fn conflict_count(alloc: Global, project: &[u8], wanted: &[Wanted]) -> Result<usize, Fault>
    ensures count { (s : State) → project_at project.now ≡ Ok s
        → CountsOpen s.held wanted.now result }
    ensures no_project { IfErr (project_at project.now) (λ fault.
        RefusesFile project.now (of_loading fault) result) }
{
    let replica = load(alloc, project)?;
    Ok(open_conflicts(alloc, &replica, wanted, None)?.len())
}

/// The edit that gives an asked segment a text: over exactly the ids that its question has,
/// whatever the project shows by then.
pub fn settling_edit<'a>(asked: &'a Asked, text: &'a [u8]) -> Command<'a>
    ensures { (s : State) → outcome s result
        ≡ edit_over_done s asked.now.segment text.now asked.now.ids }
{
    let segment = asked.segment();
    Command::EditOver {
        book: segment.book,
        key: segment.key,
        text,
        ids: asked.ids(),
    }
}
