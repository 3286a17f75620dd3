//! Laws of combining bundles, over the definitions alone. Each function does nothing: its contract
//! is the law.
ghost use Rattle.usfm_cli.specs.CombiningLaws as laws;

/// Bundles that have the same operations together, in whatever order, grouping and repetition, are
/// combined into the same bytes, if none is refused.
pub fn same_operations_same_bundle()
    ensures { laws.SameOperationsSameBundle }
{}

/// What some bundles are combined into stands for them among others: all are combined into the same
/// bytes, if none is refused. So bundles may be combined as a tree.
pub fn combined_stands_for_them()
    ensures { laws.CombinedStandsForThem }
{}

/// Bundles one after another are combined into what the bundles by themselves are, or refused as
/// they are.
pub fn streams_combine_alike()
    ensures { laws.StreamsCombineAlike }
{}
