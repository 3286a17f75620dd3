//! Laws of reports, over the definitions alone. Each function does nothing: its contract is the
//! law.
ghost use Rattle.conflict_report.specs.Laws as laws;

pub mod worlds;

/// The report of a set is empty exactly where no segment shows two different texts, and no id is
/// awaited.
pub fn empty_reports()
    ensures { laws.EmptyReports }
{}

/// Replicas that received bundles with the same operations together, none of them refused, in
/// whatever order, grouping and repetition, give the same report.
pub fn same_bundles_same_reports()
    ensures { laws.SameBundlesSameReports }
{}

/// Sets that are equal but for texts left out, and in which no id has two operations, give the
/// same report.
pub fn skeleton_reports()
    ensures { laws.SkeletonReports }
{}

/// Replicas that received bundles of one family, with the same ids together, in whatever order,
/// grouping and repetition, and thinned at whatever moments, give the same report.
pub fn thinned_bundles_same_reports()
    ensures { laws.ThinnedBundlesSameReports }
{}
