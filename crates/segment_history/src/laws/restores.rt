//! Laws of texts that are had back, over the definitions alone.
ghost use Rattle.segment_history.specs.RestoreLaws as laws;

/// An edit by which a text is had back names exactly what its segment shows.
pub fn restored_over_shown()
    ensures { laws.RestoredOverShown }
{}

/// After the edit, or where none is made, the segment has the text.
pub fn restored_is_picked()
    ensures { laws.RestoredIsPicked }
{}

/// After the edit the segment shows it alone.
pub fn restored_is_alone()
    ensures { laws.RestoredIsAlone }
{}

/// After it another segment shows what it showed.
pub fn others_stay()
    ensures { laws.OthersStay }
{}

/// Had back again, a text makes no edit.
pub fn restored_once()
    ensures { laws.RestoredOnce }
{}
