//! Laws of replicas, over the definitions alone. Each function does nothing: its contract is the
//! law.
ghost use Rattle.replica_state.specs.Laws as laws;

pub mod calls;
pub mod changes;
pub mod deltas;
pub mod imports;
pub mod since;
pub mod thinning;
pub mod worlds;

/// Replicas that received bundles with the same operations together, none of them refused, in
/// whatever order, grouping and repetition, hold the same operations, and export the same bytes of
/// every book.
pub fn same_bundles_same_books()
    ensures { laws.SameBundlesSameBooks }
{}
