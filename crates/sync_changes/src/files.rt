// The edits that the files made.
ghost use Rattle.std.specs.Prelude.{◌≡◌};
ghost use Rattle.sync_changes.specs.Changes as changing;

use op_core::{OpId, ReplicaName};

/// Which edits a copy's files made in a sync: those of its own name that are numbered above a number.
#[derive(Clone, Copy, Debug)]
pub struct FileEdits {
    /// The copy's own name.
    pub name: ReplicaName,
    /// The greatest number that is not one of theirs.
    pub above: u64,
}

impl FileEdits {
    // Whether the files made the operation of an id.
    pub(crate) fn has(&self, id: &OpId) -> bool
        ensures { result ≡ changing.by_files self.now id.now }
    {
        id.name == self.name && self.above < id.number
    }
}
