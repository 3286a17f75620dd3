//! Laws of replicas that hold thinned operations.
ghost use Rattle.replica_state.specs.ThinLaws as laws;

/// A thinning leaves a replica that holds the same but for texts left out, and shows, picks,
/// exports, awaits and sums up the same. A second one leaves out nothing more.
pub fn thinning_is_unseen()
    ensures { laws.ThinningIsUnseen }
{}

/// Replicas that received bundles of one family, with the same ids together, in whatever order,
/// grouping and repetition, and thinned at whatever moments, hold and export the same but for texts
/// left out. No bundle is refused.
pub fn thinned_bundles_same_books()
    ensures { laws.ThinnedBundlesSameBooks }
{}

/// A replica that receives the delta for its own summary, of another one with a set of the same
/// family, holds the union of both sets but for texts left out, and never refuses it.
pub fn thinned_deltas_give_union()
    ensures { laws.ThinnedDeltasGiveUnion }
{}
