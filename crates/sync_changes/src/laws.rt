//! Laws of what a sync changed, over the definitions alone.
ghost use Rattle.sync_changes.specs.Laws as laws;

/// A segment that is not among those where something came in shows the same texts without the edits
/// that the files made as the known operations show by themselves, where none of these edits was
/// known.
pub fn unlisted_shows_same()
    ensures { laws.UnlistedShowsSame }
{}

/// Where all is known that is held, nothing came in.
pub fn nothing_new_nothing_came()
    ensures { laws.NothingNewNothingCame }
{}
