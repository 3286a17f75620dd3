//! Laws of replicas that accepted the same operations: projects under commands, and streams of
//! bundles. Each function does nothing: its contract is the law.
ghost use Rattle.usfm_cli.specs.Headline as headline;

/// Replicas that accepted the same operations but for texts left out, in whatever order, grouping
/// and repetition, write the same bytes of every book, or refuse it alike, where no id has two
/// operations.
pub fn same_operations_same_bytes()
    ensures { headline.SameOperationsSameBytes }
{}

/// Those of them that are projects write the same conflict report.
pub fn same_operations_same_report()
    ensures { headline.SameOperationsSameReport }
{}
