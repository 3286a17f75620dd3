//! What holds of the runs of word characters in every passage, and so in every plain leaf. Each
//! function does nothing: its contract is the law.

ghost use Rattle.concordance.specs.Laws.{RunsAreLongest, WordCharactersAreInOneRun};

/// Each run of word characters is a longest one: it has word characters alone, and directly before
/// it and directly after it is none.
pub fn runs_are_longest()
    ensures { RunsAreLongest }
{}

/// Each word character lies in exactly one run, and no other character lies in any.
pub fn word_characters_are_in_one_run()
    ensures { WordCharactersAreInOneRun }
{}
