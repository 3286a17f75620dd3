//! Laws of bundles, over the definitions alone. Each function does nothing: its contract is the
//! law.
ghost use Rattle.bundle_codec.specs.Laws as laws;

pub mod summaries;

/// One set has one spelling, and one spelling has one set, whatever follows it.
pub fn one_spelling()
    ensures { laws.OneSpelling }
{}

/// No proper front of a bundle is a bundle, and it is refused as cut.
pub fn fronts_are_cut()
    ensures bundle { laws.FrontsAreNoBundles }
    ensures fault { laws.FrontsAreCut }
{}

/// Two bundles joined are the same bytes either way, or clash at the same id either way.
pub fn bundles_commute()
    ensures { laws.BundlesCommute }
{}

/// A bundle joined with itself is that bundle.
pub fn bundle_with_itself()
    ensures { laws.BundleWithItself }
{}

/// Both groupings of three bundles in which no id of a thinned operation has two operations give
/// the same bytes, and one is refused with a clash exactly where the other is.
pub fn bundles_associate()
    ensures { laws.BundlesAssociate }
{}

/// Where both groupings of three bundles give bytes, these are the same, with thinned operations
/// too.
pub fn groupings_give_the_same()
    ensures { laws.GroupingsGiveTheSame }
{}

/// Both groupings of three bundles of one family, in which no id has two operations, give the
/// same bytes.
pub fn bundles_of_one_family()
    ensures { laws.BundlesOfOneFamily }
{}
