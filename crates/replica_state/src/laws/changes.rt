//! Laws of changes.
ghost use Rattle.replica_state.specs.ChangeLaws as laws;

/// Changes of a book whose keys rise, where the book is begun or the first of them begins it, are
/// edits over their ids, one after the other, where they are not refused; and none of these is
/// refused.
pub fn changes_are_edits()
    ensures { laws.ChangesAreEdits }
{}
