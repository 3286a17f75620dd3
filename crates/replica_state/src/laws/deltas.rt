//! Laws of deltas, over the definitions alone. Each function does nothing: its contract is the law.
ghost use Rattle.replica_state.specs.DeltaLaws as laws;

/// A replica that receives the delta for its own summary, of another one without thinned
/// operations, holds the union of both sets, and never refuses it.
pub fn deltas_give_union()
    ensures { laws.DeltasGiveUnion }
{}

/// The delta for one's own summary holds nothing.
pub fn own_delta_is_empty()
    ensures { laws.OwnDeltaIsEmpty }
{}
