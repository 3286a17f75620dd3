//! Laws of sets with operations whose texts are left out, over the definitions alone.
ghost use Rattle.op_core.specs.ThinLaws as laws;

/// Two operations agree if they are equal, or if one is thinned and they are equal but for their
/// texts.
pub fn agree_means()
    ensures { laws.AgreeMeans }
{}

/// There is no clash exactly where what two sets hold at each id agrees.
pub fn no_clash_means()
    ensures { laws.NoClashMeans }
{}

/// The union of legal sets without a clash is legal.
pub fn join_is_legal()
    ensures { laws.JoinIsLegal }
{}

/// What is joined stands for what is joined in full, and is not refused.
pub fn join_stands()
    ensures { laws.JoinStands }
{}

/// What is thinned stands for the same full set.
pub fn thin_stands()
    ensures { laws.ThinStands }
{}

/// Thinning again changes nothing.
pub fn thin_once()
    ensures { laws.ThinOnce }
{}

/// A set without thinned operations stands for itself.
pub fn full_stands()
    ensures { laws.FullStands }
{}

/// A legal subset by ids stands for the same subset.
pub fn subset_stands()
    ensures { laws.SubsetStands }
{}

/// A legal subset by anything but the texts stands for the same subset.
pub fn filter_stands()
    ensures { laws.FilterStands }
{}

/// A delta of a legal set is legal.
pub fn delta_is_legal()
    ensures { laws.DeltaIsLegal }
{}

/// A delta stands for the same operations of the full set.
pub fn delta_stands()
    ensures { laws.DeltaStands }
{}

/// A set shows what the full set shows, with the texts.
pub fn shows_same()
    ensures { laws.ShowsSame }
{}

/// The operations that a legal set shows have their texts.
pub fn shown_are_full()
    ensures { laws.ShownAreFull }
{}

/// An operation that a legal set picks has its text.
pub fn pick_is_full()
    ensures { laws.PickIsFull }
{}

/// Sets with equal skeletons have the same ids, shown and awaited ids, keys and books.
pub fn skeleton_answers()
    ensures { laws.SkeletonAnswers }
{}

/// A set picks what the full set picks.
pub fn picks_same()
    ensures { laws.PicksSame }
{}

/// Texts, ids, numbers and awaited ids are those of the full set.
pub fn says_same()
    ensures { laws.SaysSame }
{}

/// Where a set stands for a full one, it does so still once both take in a new full operation.
pub fn put_stands()
    ensures { laws.PutStands }
{}

/// Sets that stand for full ones without a clash are joined in any order.
pub fn stand_ins_join()
    ensures { laws.StandInsJoin }
{}

/// Of full sets one grouping is refused where the other is.
pub fn full_groupings_alike()
    ensures { laws.FullGroupingsAlike }
{}

/// Sets with equal skeletons that stand for full sets which do not clash stand for one set.
pub fn same_skeleton_one_whole()
    ensures { laws.SameSkeletonOneWhole }
{}

/// Sets with equal skeletons that stand for full sets which do not clash show the same.
pub fn same_skeleton_shows_same()
    ensures { laws.SameSkeletonShowsSame }
{}

/// Legal sets with equal skeletons that do not clash show the same.
pub fn skeleton_shows()
    ensures { laws.SkeletonShows }
{}

/// Legal sets with equal skeletons that do not clash pick the same.
pub fn skeleton_picks()
    ensures { laws.SkeletonPicks }
{}

/// Of a set without thinned operations, what is sent is what is lacked alone.
pub fn full_delta()
    ensures { laws.FullDelta }
{}

/// Of two sets that do not clash, what one sends to the other for ids that this one holds is not
/// refused there, and adds what the whole adds, but for texts.
pub fn delta_joins()
    ensures { laws.DeltaJoins }
{}

/// A delta of the second of two sets adds to the first, but for texts, what the whole second set
/// adds; and the same operations add the same to the full sets that the two stand for.
pub fn deltas_add()
    ensures { laws.DeltasAdd }
{}

/// Sets of one family are joined without a clash, and the union is of it.
pub fn family_joins()
    ensures { laws.FamilyJoins }
{}

/// What is thinned is of the same family.
pub fn family_thins()
    ensures { laws.FamilyThins }
{}

/// Sets of one family with the same ids, joined in any way, show the same.
pub fn unions_alike()
    ensures { laws.UnionsAlike }
{}

/// A full operation of a held id that agrees with what is held changes nothing.
pub fn put_held()
    ensures { laws.PutHeld }
{}

/// A legal set stays legal where texts of operations are left out that others of their segments
/// name.
pub fn thin_where_is_legal()
    ensures { laws.ThinWhereIsLegal }
{}

/// What is new is joined first, and then texts are left out.
pub fn join_in_two_steps()
    ensures { laws.JoinInTwoSteps }
{}

/// A held operation of its segment names an operation exactly where the segment does not show it.
pub fn past_is_not_shown()
    ensures { laws.PastIsNotShown }
{}

/// Legal sets with equal skeletons that do not clash export the same.
pub fn skeleton_exports()
    ensures { laws.SkeletonExports }
{}

/// A set that stands for a full one of a family is of the family.
pub fn family_of_whole()
    ensures { laws.FamilyOfWhole }
{}
