//! Laws of merges, over the definitions alone. Each function does nothing: its contract is the law.
ghost use Rattle.book_merge.specs.Laws as laws;

/// A union shows what each side changed: a segment that one side changed shows the text of that
/// side alone; one that both changed to one text shows that text alone; and one that both changed
/// otherwise shows both texts, that of OURS last, so that it is picked. So nothing is lost, no
/// conflict is told where there is none, each one is told, and exchanging the sides changes nothing
/// but which text of a conflict is picked.
pub fn unions_show_both()
    ensures { laws.UnionsShowBoth }
{}

/// No union shows a text of one side alone where both changed it otherwise, nor that of THEIRS last
/// there; nor that of BASE where one side changed it; nor two texts where one side changed it, both
/// changed it to one text, or neither did.
pub fn unions_show_no_other()
    ensures { laws.UnionsShowNoOther }
{}

/// Exchanging the sides changes nothing of what a union shows, but the order of two texts.
pub fn exchanged_show_the_same()
    ensures { laws.ExchangedShowTheSame }
{}

/// A segment that neither side changed has the text of BASE.
pub fn unchanged_stays()
    ensures { laws.UnchangedStays }
{}

/// Where no segment was changed by both sides, a merge has no conflict, and each segment has the
/// text of the side that changed it.
pub fn apart_have_changed()
    ensures { laws.ApartHaveChanged }
{}

/// Equal sides give the book that both are.
pub fn equal_sides_give_them()
    ensures { laws.EqualSidesGiveThem }
{}

/// Where THEIRS is BASE, the merge gives OURS.
pub fn ours_alone_is_given()
    ensures { laws.OursAloneIsGiven }
{}

/// Where OURS is BASE, the merge gives THEIRS.
pub fn theirs_alone_is_given()
    ensures { laws.TheirsAloneIsGiven }
{}
