//! That places rise. The function does nothing: its contract is the law.
ghost use Rattle.line_column.specs.Laws.{PlacesRise};

/// Of two offsets in a text, from the end of U+FEFF at its front on, the place of the later one is
/// in a later line, or in the same line at a later column, if a character begins at the first one:
/// so no two of them at which a character begins have one place.
pub fn places_rise()
    ensures { PlacesRise }
{}
