//! Laws of lines that are edited.
ghost use Rattle.line_editing.specs.Laws as laws;

/// What is kept stays: a line of which nothing was typed, and what comes later, are the text.
pub fn kept_stays()
    ensures { laws.KeptStays }
{}
