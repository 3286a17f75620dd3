//! What holds of each page, over the definitions alone. Each function does nothing: its contract is
//! the law.
ghost use Rattle.project_page.specs.Laws as laws;

/// Where a text stands in a page it has no markup: no `<`, `>`, `"` or `'`, and each `&` begins a
/// reference; and but for line feeds it has no control character, no bidirectional control and no
/// noncharacter.
pub fn texts_have_no_markup()
    ensures none { laws.SaidHasNoMarkup }
    ensures references { laws.SaidRefers }
    ensures plain { laws.SaidMayStand }
{}

/// The markup of a page is that of the same page with each text and name left out: no text adds
/// any.
pub fn markup_is_fixed()
    ensures { laws.MarkupIsFixed }
{}
