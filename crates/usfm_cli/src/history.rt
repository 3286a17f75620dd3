// What was in a project, and what changed in it since some ids were known.
ghost use Rattle.std.specs.Prelude.{◌≡◌, false, Ok, Err, IsTrue, IfErr};
ghost use Rattle.op_core.specs.Thinned.{all_full};
ghost use Rattle.replica_state.specs.States.{State};
ghost use Rattle.project_file.specs.Projects.{project_at};
ghost use Rattle.usfm_cli.specs.Commands.{Gives, MayWantMemory, no_fault};
ghost use Rattle.segment_history.specs.Naming as naming;
ghost use Rattle.usfm_cli.specs.Copies.{as_list};
ghost use Rattle.command_faults.specs.Faults.{of_loading};
ghost use Rattle.usfm_cli.specs.Histories as histories;
ghost use Rattle.usfm_cli.specs.OverBooks.{AnswersProject};
ghost use Rattle.usfm_cli.specs.Projects.{RefusesFile};

use crate::copies::known_of;
use bundle_codec::{Bundle, Summary};
use command_faults::Fault;
use project_file::judge;
use segment_history::{Named, changes_in, changes_text, has_books, history_text, named_segments};
use std::alloc::Global;

/// All that a project, given as the bytes of its file, holds of the segments that are named, as
/// `segment_history::history_text` writes it: of a book or a chapter of each segment that has an
/// operation.
///
/// # Errors
/// Those of the project, as `exec` answers them: 110, 60 to 69, 70; `NoBook` (82) where a book that
/// is named, or of which something is, has no operation; `Memory` (1) where an allocation failed,
/// in the place of `NoBook` only where the project has an operation without its text, since memory
/// is taken to judge such a one.
pub fn project_history(alloc: Global, project: &[u8], names: &[Named]) -> Result<Vec<u8>, Fault>
    ensures answer { AnswersProject project.now
        (λ held. histories.history_of held names.now) result }
    ensures memory { result ≡ Err Fault.Memory → (s : State) → project_at project.now ≡ Ok s
        → IsTrue (all_full s.held)
        → MayWantMemory no_fault (histories.history_of s.held names.now) }
    ensures no_project { IfErr (project_at project.now) (λ fault.
        RefusesFile project.now (of_loading fault) result) }
{
    let judged = judge(alloc, project)?;
    history_in(alloc, judged.held(), names)
}

// The histories of the segments that are named.
fn history_in(alloc: Global, held: &Bundle<'_>, names: &[Named]) -> Result<Vec<u8>, Fault>
    ensures { Gives no_fault (histories.history_of held.now names.now) result }
{
    if !has_books(held, names) {
        return Err(Fault::NoBook);
    }
    let segments = named_segments(alloc, held, names)?;
    Ok(history_text(alloc, held, &segments)?)
}

/// What changed in the segments that are named, in all where there is no name, of a project, given
/// as the bytes of its file, since the ids were known that a file covers: a project, a summary or a
/// bundle. It is as `segment_history::changes_text` writes it.
///
/// # Errors
/// Those of the project, as `exec` answers them: 110, 60 to 69, 70; `NoBook` (82) where a book that
/// is named, or of which something is, has no operation; then those of the file: of one that begins
/// as a project does 110, 60 to 69, 70, as a summary does `BadSummary` (71), of any other 60 to 69
/// and 70. `Memory` (1) where an allocation failed, in the place of `NoBook` only where the project
/// has an operation without its text. It may come in the place of those of the file, since memory
/// is taken to judge a bundle that has such an operation.
pub fn project_changes(
    alloc: Global,
    project: &[u8],
    since: &[u8],
    names: &[Named],
    texts: bool,
) -> Result<Vec<u8>, Fault>
    ensures answer { histories.AnswersOf project.now
        (histories.changes_of since.now names.now texts) (as_list result) }
    ensures books { result ≡ Err Fault.Memory → (s : State) → project_at project.now ≡ Ok s
        → IsTrue (all_full s.held) → IsTrue (naming.has_books s.held names.now) }
    ensures no_project { IfErr (project_at project.now) (λ fault.
        RefusesFile project.now (of_loading fault) result) }
{
    let judged = judge(alloc, project)?;
    changes_since(alloc, judged.held(), since, names, texts)
}

// What changed in the segments that are named since the ids were known that a file covers.
fn changes_since(
    alloc: Global,
    held: &Bundle<'_>,
    since: &[u8],
    names: &[Named],
    texts: bool,
) -> Result<Vec<u8>, Fault>
    ensures answer { histories.is_out_of_memory (as_list result) ≡ false →
        histories.changes_of since.now names.now texts held.now ≡ as_list result }
    ensures books { result ≡ Err Fault.Memory → IsTrue (naming.has_books held.now names.now) }
{
    if !has_books(held, names) {
        return Err(Fault::NoBook);
    }
    let known = covered_by(alloc, since)?;
    let changes = changes_in(alloc, held, &known, names)?;
    Ok(changes_text(alloc, &changes, texts)?)
}

// The ids that a file covers.
pub(crate) fn covered_by(alloc: Global, bytes: &[u8]) -> Result<Summary, Fault>
    ensures { histories.Covers bytes.now result }
{
    if is_like_project(bytes) {
        let project = judge(alloc, bytes)?;
        return Ok(project.summary(alloc)?);
    }
    known_of(alloc, bytes)
}

// Whether bytes begin as a project does.
#[tactic(auto, unfolding(project_file::specs::Projects::magic))]
fn is_like_project(bytes: &[u8]) -> bool
    ensures { result ≡ histories.is_like_project bytes.now }
{
    bytes.starts_with(b"USFMPJ1\n")
}
