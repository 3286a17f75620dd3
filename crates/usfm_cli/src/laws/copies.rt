//! Laws of how a project stands, over the definitions alone. Each function does nothing: its
//! contract is the law.
ghost use Rattle.usfm_cli.specs.Copies as copies;

/// The segments of a book that a project's status names as in conflict are those that the report
/// lists texts of.
pub fn conflicts_are_reported()
    ensures { copies.ConflictsAreReported }
{}
