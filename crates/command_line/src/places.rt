// What `join` was given, and which of the words of `sync` say what is synced.
ghost use Rattle.std.specs.Prelude.{◌≡◌};
ghost use Rattle.command_line.specs.Places as said;

use op_core::ReplicaName;

/// What `join` was given.
#[derive(Debug, Drop)]
pub struct JoinWords {
    /// The folder.
    pub folder: String,
    /// The copy's name.
    pub name: ReplicaName,
    /// `--box DIR`: the folder in which the copies of a team leave their bundles.
    pub box_folder: Option<String>,
    /// `--names NAME`: a name that says how new files are named.
    pub form: Option<String>,
    /// `--from BUNDLE`: the bundles to begin with.
    pub bundles: Vec<String>,
}

/// What the first words of `sync` say.
#[derive(Clone, Copy, Debug, PartialEq, Eq)]
pub enum Places {
    /// Nothing: it is the folder that one is in, with the project that it remembers.
    Here,
    /// The first is a folder, with the project that it remembers. Bundles follow.
    Folder,
    /// The first is a project, and the second its folder. Bundles follow.
    ProjectAndFolder,
}

/// What the first words of `sync` say, by how many words there are, and by what stands under the
/// first: where that is a folder, it is the one that is synced, and else a project. None where it
/// is a project, and no folder is named.
pub fn sync_places(count: usize, is_folder: bool) -> Option<Places>
    ensures { result ≡ said.places count is_folder }
{
    if count == 0 {
        Some(Places::Here)
    } else if is_folder {
        Some(Places::Folder)
    } else if count == 1 {
        None
    } else {
        Some(Places::ProjectAndFolder)
    }
}
