//! What holds of the words of all texts. Each function does nothing: its contract is the law.

ghost use Rattle.word_diff.specs.Words.{OneList, WordsPart};

/// Each text is cut in exactly one way: `words_of` is the one list of longest marks, longest runs
/// of blanks and longest runs of other bytes.
pub fn one_list()
    ensures { OneList }
{}

/// Words that are neighbours in a text are the words of their own bytes.
pub fn words_part()
    ensures { WordsPart }
{}
