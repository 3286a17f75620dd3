//! What holds of the readings of all texts, by whatever style sheet. Each function does nothing:
//! its contract is the law.

ghost use Rattle.book_reading.specs.Laws.{NothingIsLeftOut, ChaptersHoldAll};
ghost use Rattle.book_reading.specs.Laws.{NotesHoldAll, BlocksHoldAll};

/// The runs of a reading, those of notes at the notes' marks, join to the text.
pub fn nothing_is_left_out()
    ensures { NothingIsLeftOut }
{}

/// The chapters of runs have all of them, in order.
pub fn chapters_hold_all()
    ensures { ChaptersHoldAll }
{}

/// The notes of the chapters of a text have all its runs that stand in notes, in order.
pub fn notes_hold_all()
    ensures { NotesHoldAll }
{}

/// The blocks of runs have all of them, in order.
pub fn blocks_hold_all()
    ensures { BlocksHoldAll }
{}
