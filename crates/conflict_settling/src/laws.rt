//! Laws of settling, over the definitions alone. Each function does nothing: its contract is the
//! law.
ghost use Rattle.conflict_settling.specs.Laws as laws;

/// A question lists the ids that its segment shows, each of them and no other.
pub fn lists_what_is_shown()
    ensures { laws.ListsWhatIsShown }
{}

/// What a question did not list is shown after its answer, as it was before: also what came in
/// while the question stood.
pub fn unlisted_stays()
    ensures { laws.UnlistedStays }
{}

/// Where nothing came in while the question stood, its answer replaces all that the segment shows.
pub fn settles_all()
    ensures { laws.SettlesAll }
{}
