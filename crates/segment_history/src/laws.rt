//! Laws of histories, over the definitions alone. Each function does nothing: its contract is the
//! law.
ghost use Rattle.segment_history.specs.Laws as laws;

pub mod changes;
pub mod restores;

/// The ids of a history are exactly those of its segment that are held or awaited, each once, in
/// descending order.
pub fn history_tells_ids()
    ensures { laws.HistoryTellsIds }
{}

/// The operations that a history tells of as shown are those that its segment shows.
pub fn history_shows()
    ensures { laws.HistoryShows }
{}

/// Each operation of a history is replaced by exactly the held ones of its segment that name it.
pub fn history_tells_replacers()
    ensures { laws.HistoryTellsReplacers }
{}

/// Sets that are equal but for texts left out tell the same history but for texts.
pub fn skeleton_tells()
    ensures { laws.SkeletonTells }
{}
