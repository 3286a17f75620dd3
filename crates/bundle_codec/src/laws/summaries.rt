//! Laws of summaries, over the definitions alone. Each function does nothing: its contract is the
//! law.
ghost use Rattle.bundle_codec.specs.SummaryLaws as laws;

/// The summary of a set covers exactly its ids, by ranges as long as can be.
pub fn summary_covers_its_ids()
    ensures { laws.SummaryCoversItsIds }
{}

/// A set has one summary.
pub fn one_summary_of_a_set()
    ensures { laws.OneSummaryOfASet }
{}

/// One summary has one spelling, and one spelling is of one summary.
pub fn one_spelling_of_a_summary()
    ensures { laws.OneSpellingOfASummary }
{}

/// What a set without thinned operations has outside the summary of another one, joined to that
/// one, gives the union of both, and never clashes.
pub fn outside_gives_union()
    ensures { laws.OutsideGivesUnion }
{}

/// Where two sets do not clash, what the one has outside the summary of the other, joined to that
/// one, does not clash either, and gives the union of both but for texts that are left out.
pub fn outside_gives_skeleton()
    ensures { laws.OutsideGivesSkeleton }
{}

/// Each thinned operation of what a set has outside a summary is named there.
pub fn outside_is_legal()
    ensures { laws.OutsideIsLegal }
{}

/// Nothing of a set lies outside its own summary.
pub fn nothing_outside_own()
    ensures { laws.NothingOutsideOwn }
{}
