//! Laws of sets of operations, over the definitions alone.
ghost use Rattle.std.specs.Prelude.{◌≡◌};
ghost use Rattle.op_core.specs.CutsBack as cuts_back;
ghost use Rattle.op_core.specs.Ids.{Id, id_cmp};
ghost use Rattle.op_core.specs.Laws as laws;

pub mod thinning;

use crate::ids::op_id::OpId;

/// Ids go by number, and then by the bytes of the name.
pub fn ids_are_ordered()
    ensures { (a b : Id) → ⟦<OpId as Ord>⟧.cmp a b ≡ id_cmp a b }
{}

/// Each grouping of three sets has the same union.
pub fn join_is_associative()
    ensures { laws.JoinIsAssociative }
{}

/// Sets without a clash have the same union either way.
pub fn join_commutes()
    ensures { laws.JoinCommutes }
{}

/// A set joined with itself is the set.
pub fn join_with_itself()
    ensures { laws.JoinWithItself }
{}

/// The union is a set that holds at each id what one of the two holds there, without its text where
/// either has left it out.
pub fn join_holds_both()
    ensures { laws.JoinHoldsBoth }
{}

/// Sets that hold the same operation at each id are equal.
pub fn same_held_same_set()
    ensures { laws.SameHeldSameSet }
{}

/// A segment with an operation shows at least one.
pub fn segment_shows_one()
    ensures { laws.SegmentShowsOne }
{}

/// Two sets clash at one id, whichever comes first.
pub fn clash_commutes()
    ensures { laws.ClashCommutes }
{}

/// A clash is real, and the least: both sets hold the id, by operations that do not agree, and
/// below it they agree.
pub fn clash_is_least()
    ensures { laws.ClashIsLeast }
{}

/// Sets without a clash agree at every id.
pub fn no_clash_agrees()
    ensures { laws.NoClashAgrees }
{}

/// Two ways of joining sets that have the same operations together are refused alike, where no id
/// of a thinned operation has two operations.
pub fn refused_alike()
    ensures { laws.RefusedAlike }
{}

/// Sets that have the same operations together, joined in whatever order, grouping and repetition
/// and not refused, have one union, and so one export of every book.
pub fn equal_unions_export_alike()
    ensures { laws.EqualUnionsExportAlike }
{}

/// The export of a book of a set cuts back into the head's picked text, perhaps empty, and then
/// each other picked text that is not empty, each with its key and its place.
pub fn exports_cut_back()
    ensures { cuts_back.ExportsCutBack }
{}

/// Each key with a picked text that is not empty is among those of the export.
pub fn picks_are_exported()
    ensures { cuts_back.PicksAreExported }
{}

/// The export of a book of a set is UTF-8.
pub fn exports_are_text()
    ensures { cuts_back.ExportsAreText }
{}
