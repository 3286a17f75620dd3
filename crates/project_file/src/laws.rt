//! Laws of project files, over the definitions alone. Each function does nothing: its contract is
//! the law.
ghost use Rattle.project_file.specs.Laws as laws;

/// What is saved is loaded as it was.
pub fn saved_is_loaded()
    ensures { laws.SavedIsLoaded }
{}

/// What was loaded is saved as the same bytes.
pub fn loaded_is_saved()
    ensures { laws.LoadedIsSaved }
{}

/// Two replicas that differ in their names or in what they hold have project files that differ.
pub fn one_replica()
    ensures { laws.OneReplica }
{}
