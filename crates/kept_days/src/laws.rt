//! Laws of the days that are kept.
ghost use Rattle.kept_days.specs.Laws as laws;

/// Of days in their order those answer, one after another, that are not before the day which is
/// asked for; so the first is the earliest of them.
pub fn earliest_answers()
    ensures { laws.EarliestAnswers }
{}

/// Of days in their order none that goes is after one that stays, and no more than 400 stay.
pub fn newest_stay()
    ensures { laws.NewestStay }
{}
