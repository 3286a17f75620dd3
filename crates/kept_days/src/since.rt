// Since when: what a word names, and which folder has the days.
ghost use Rattle.std.specs.Prelude.{◌≡◌, ◌≢◌, ◌++◌, ℕ, List, MatchOption, option_map};
ghost use Rattle.kept_days.specs.Words as words;

use crate::days::is_day;

/// What the word of `--since` names.
#[derive(Clone, Copy, Debug, PartialEq, Eq)]
pub enum Since {
    /// A day, of which the project's folder keeps the summary.
    Day,
    /// A folder of books: what its files were written from before the last time.
    Folder,
    /// A summary, a bundle or a project.
    File,
}

/// What the word of `--since` names: a day where it is spelled as one, whatever stands under that
/// name; else a folder where one stands there; and else a file. It does not allocate.
pub fn since_what(word: &str, is_folder: bool) -> Since
    ensures { result ≡ words.since_what word.now is_folder }
{
    if is_day(word) {
        Since::Day
    } else if is_folder {
        Since::Folder
    } else {
        Since::File
    }
}

/// The folder of books whose days are asked for with a project: the word of the project itself, where
/// a folder stands there; else what stands before the end `.project` of it, as `join` names a project
/// beside its folder. None where nothing does, or no name. It does not allocate.
pub fn folder_of(project: &str, is_folder: bool) -> Option<&str>
    ensures { words.IsFolderOf project.now is_folder (option_map (λ folder. folder.now) result) }
{
    if is_folder {
        return Some(project);
    }
    match before_end(project) {
        Some(folder) if is_named(folder) => Some(folder),
        _ => None,
    }
}

// What stands before the end `.project` of a name.
fn before_end(name: &str) -> Option<&str>
    ensures { MatchOption result ((front : List ℕ) → name.now ≢ front ++ words.project_end)
        (λ front. name.now ≡ front.now ++ words.project_end) }
{
    name.strip_suffix(".project")
}

// Whether a path ends in a name.
fn is_named(path: &str) -> bool
    ensures { result ≡ words.is_named path.now }
{
    !path.is_empty() && !path.ends_with('/')
}
