//! Laws of worlds: what holds after every list of events, at any number of replicas, thinnings
//! among the events. Each function does nothing: its contract is the law.
ghost use Rattle.replica_state.specs.World.Agreement as agreement;
ghost use Rattle.replica_state.specs.World.Bytes as bytes;
ghost use Rattle.replica_state.specs.World.Calls as calls;
ghost use Rattle.replica_state.specs.World.Exchanges as exchanges;
ghost use Rattle.replica_state.specs.World.Invisible as invisible;
ghost use Rattle.replica_state.specs.World.Schedules as schedules;

/// No receiving of a bundle is refused.
pub fn no_receiving_clashes()
    ensures { schedules.NoReceivingClashes }
{}

/// A replica holds from then on, perhaps without its text, what it made.
pub fn holds_its_own()
    ensures { schedules.HoldsItsOwn }
{}

/// What is held or in a bundle was made in one of the events, and at most its text is left out.
pub fn found_was_made()
    ensures { schedules.FoundWasMade }
{}

/// No two operations with one id are made.
pub fn made_once()
    ensures { schedules.MadeOnce }
{}

/// What an event makes rises by ids: no two of its operations have one id.
pub fn made_rise()
    ensures { schedules.MadeRise }
{}

/// No id has two operations, at any replicas and in any bundles.
pub fn one_for_each_id()
    ensures { schedules.OneForEachId }
{}

/// An operation names another only where that one was shown at its maker when it was made.
pub fn names_what_was_shown()
    ensures { schedules.NamesWhatWasShown }
{}

/// From a held operation a chain of replacements, all held, leads to a shown one.
pub fn shown_in_the_end()
    ensures { schedules.ShownInTheEnd }
{}

/// Replicas that receive each other's deltas hold the union, but for texts left out.
pub fn deltas_join()
    ensures { exchanges.DeltasJoin }
{}

/// So they do where the second delta is made after the first was received.
pub fn deltas_join_in_turn()
    ensures { exchanges.DeltasJoinInTurn }
{}

/// A legal bundle is made, and can be received from then on.
pub fn bundles_stay()
    ensures { exchanges.BundlesStay }
{}

/// A summary is made, and is there from then on.
pub fn summaries_stay()
    ensures { exchanges.SummariesStay }
{}

/// Whole bundles and deltas are made at every moment.
pub fn can_be_heard()
    ensures { exchanges.CanBeHeard }
{}

/// A bundle that has what a teller is asked for tells it, at whatever replica it was made.
pub fn any_bundle_tells()
    ensures { exchanges.AnyBundleTells }
{}

/// Where a relay leads, what was held is held.
pub fn relay_tells()
    ensures { exchanges.RelayTells }
{}

/// Replicas that hold one set but for texts left out show and answer the same.
pub fn same_skeletons_show_same()
    ensures { agreement.SameSkeletonsShowSame }
{}

/// Replicas that hold every operation hold one set but for texts left out.
pub fn holds_all_holds_same()
    ensures { agreement.HoldsAllHoldsSame }
{}

/// What a replica that holds every operation holds names nothing that it lacks.
pub fn holds_all_awaits_none()
    ensures { agreement.HoldsAllAwaitsNone }
{}

/// Where after the last edit a relay leads from each replica to each other, all hold every
/// operation.
pub fn all_hold_all()
    ensures { agreement.AllHoldAll }
{}

/// Where after the last edit a relay leads from each replica to each other, any two show and answer
/// the same, and await nothing.
pub fn all_agree_in_the_end()
    ensures { agreement.AllAgreeInTheEnd }
{}

/// Of two replicas with one name, where the set of the first stands for that of the second, the
/// same edit, edit over and import has the same reply, and the sets stand so again; so it is with
/// two bundles of which the first stands for the second, if the second does not clash with what the
/// second one holds.
pub fn stand_ins_step_alike()
    ensures { invisible.StandInsStepAlike }
{}

/// At every moment each replica's set stands for its twin's, and so does each bundle.
pub fn thinning_is_invisible()
    ensures { invisible.ThinningIsInvisible }
{}

/// No replica thins in the twin.
pub fn twin_keeps_texts()
    ensures { invisible.TwinKeepsTexts }
{}

/// At every moment each replica shows and answers what it does in the twin.
pub fn thinning_shows_nothing()
    ensures { invisible.ThinningShowsNothing }
{}

/// An edit, edit over or import makes the same operations in the twin.
pub fn edits_are_the_same()
    ensures { invisible.EditsAreTheSame }
{}

/// An edit, edit over, import or receiving has the same reply in the twin.
pub fn replies_are_the_same()
    ensures { invisible.RepliesAreTheSame }
{}

/// Where no replica thins, the world is its twin, all is held in full, and replicas whose skeletons
/// are equal hold equal sets.
pub fn without_thinnings()
    ensures { invisible.WithoutThinnings }
{}

/// What each replica holds is a legal set of operations, each within its ranges, and so is each
/// bundle.
pub fn worlds_hold_sets()
    ensures { schedules.WorldsHoldSets }
{}

/// A replica stays what it is in a world through each event at another one.
pub fn others_stay()
    ensures { calls.OthersStay }
{}

/// The receiving of a proper front of a bundle's bytes is refused as cut, and changes nothing.
pub fn cut_receivings_are_refused()
    ensures { bytes.CutReceivingsAreRefused }
{}

/// The bytes of a bundle that was made are read as what it holds, and each proper front of them is
/// refused as cut.
pub fn bundles_are_read()
    ensures { bytes.BundlesAreRead }
{}
