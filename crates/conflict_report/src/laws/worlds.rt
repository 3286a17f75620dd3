//! Laws of reports in worlds: what holds after every list of events, at any number of replicas.
//! Each function does nothing: its contract is the law.
ghost use Rattle.conflict_report.specs.Worlds as worlds;

/// A set that stands for another one gives its report.
pub fn stand_ins_report_same()
    ensures { worlds.StandInsReportSame }
{}

/// At every moment each replica gives the report that it gives in the twin, in which none thins.
pub fn thinning_reports_nothing()
    ensures { worlds.ThinningReportsNothing }
{}

/// Replicas that hold one set but for texts left out give the same report.
pub fn same_skeletons_report_same()
    ensures { worlds.SameSkeletonsReportSame }
{}

/// Where after the last edit a relay leads from each replica to each other, any two of them give
/// the same report, and it has no `awaited` line.
pub fn all_report_the_same()
    ensures { worlds.AllReportTheSame }
{}
