//! Laws of answers that travel, over the definitions alone. Each function does nothing: its
//! contract is the law.
ghost use Rattle.conflict_answers.specs.Laws as laws;

/// An edit that an answer makes gives its segment the text that was chosen, and names the ids of
/// its line, all of them and no other.
pub fn only_what_stood_on_the_page()
    ensures { laws.OnlyWhatStoodOnThePage }
{}

/// What answers make that are settled together is what they make one after another.
pub fn together_is_one_after_another()
    ensures { laws.TogetherIsOneAfterAnother }
{}

/// An answer of which an edit was made is left whenever it comes again, whatever came in since.
pub fn made_is_made_once()
    ensures { laws.MadeIsMadeOnce }
{}

/// The same answers a second time make nothing, where the replica holds those of their ids that
/// have its own name.
pub fn twice_is_once()
    ensures { laws.TwiceIsOnce }
{}
