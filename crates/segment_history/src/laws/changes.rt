//! Laws of what changed, over the definitions alone.
ghost use Rattle.segment_history.specs.ChangeLaws as laws;

/// A segment that is not among those that changed shows the same as the known operations show by
/// themselves.
pub fn unlisted_shows_same()
    ensures { laws.UnlistedShowsSame }
{}

/// Since a set's own summary nothing changed in it.
pub fn nothing_since_own()
    ensures { laws.NothingSinceOwn }
{}

/// Where nothing is known, each segment with an operation changed.
pub fn all_since_nothing()
    ensures { laws.AllSinceNothing }
{}
