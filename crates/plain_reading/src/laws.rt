//! What holds of the plain text of all readings. Each function does nothing: its contract is the
//! law.

ghost use Rattle.plain_reading.specs.Laws.{LinesFit, NothingIsLeftOut};

/// Without blanks and line ends, the plain text of runs is what is written of them, chapter by
/// chapter, and of the notes of each chapter after it.
pub fn nothing_is_left_out()
    ensures { NothingIsLeftOut }
{}

/// The lines of a paragraph have its words in order, and none has more columns than the width, but
/// for one that is a word alone.
pub fn lines_fit()
    ensures { LinesFit }
{}
