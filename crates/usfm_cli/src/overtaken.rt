// What an edit may replace whose text is typed while the project changes.
ghost use Rattle.std.specs.Prelude.{◌≡◌, ◌≢◌, Err, IfErr};
ghost use Rattle.std.specs.List.{list_all};
ghost use Rattle.op_core.specs.Lists.{shown_ids};
ghost use Rattle.op_core.specs.NextIds.{is_among};
ghost use Rattle.project_file.specs.Projects.{project_at};
ghost use Rattle.command_faults.specs.Faults.{of_loading};
ghost use Rattle.usfm_cli.specs.Overtaken as overtaken;
ghost use Rattle.usfm_cli.specs.Projects.{RefusesFile};
ghost use Rattle.usfm_ref.specs.Segments.{segment};

use command_faults::Fault;
use op_core::OpId;
use project_file::load;
use replica_state::Replica;
use std::alloc::Global;
use usfm_ref::{Book, Key};

/// What a segment showed in a project and still shows in what the project is now.
#[derive(Debug, Drop)]
pub struct StillShown {
    /// The ids, rising.
    pub ids: Vec<OpId>,
    /// Whether it shows nothing else now.
    pub is_all: bool,
}

/// What a segment showed in a project, given as the bytes of its file, and still shows in what the
/// project is now. An edit in the place of these alone replaces no text that came in meanwhile.
///
/// # Errors
/// Those of the project as it was, and then as it is now, as `exec` answers them: `BadProject`
/// (110), `Bundle` (60 to 69), `Trailing` (70). `Memory` (1) where an allocation failed; it may come
/// in the place of those of the project as it is now, since the one as it was is copied first.
pub fn still_shown(
    alloc: Global,
    before: &[u8],
    now: &[u8],
    book: Book,
    key: Key,
) -> Result<StillShown, Fault>
    ensures answer { result ≢ Err Fault.Memory
        → overtaken.still_shown (project_at before.now) (project_at now.now) (segment book key)
        ≡ overtaken.as_still result }
    // A file that was no project is refused for that, whatever memory there is; but for its bundle,
    // where an operation of it is thinned.
    ensures no_project { IfErr (project_at before.now) (λ fault.
        RefusesFile before.now (of_loading fault) result) }
{
    let before = load(alloc, before)?;
    let now = load(alloc, now)?;
    let ids = now.shown_of(book, key, before.set().shown_ids(book, key))?;
    let is_all = shows_all(&before, now.set().shown_ids(book, key), book, key);
    Ok(StillShown { ids, is_all })
}

// Whether a segment of a replica shows all of these ids.
fn shows_all(replica: &Replica, ids: &[OpId], book: Book, key: Key) -> bool
    ensures { result ≡ list_all (is_among (shown_ids replica.now.held (segment book key))) ids.now }
{
    ids.iter().all(|id| replica.shows_id(book, key, *id))
}
