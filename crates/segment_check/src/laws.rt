//! What holds of the findings in all texts, by whatever style sheet. Each function does nothing:
//! its contract is the law.

ghost use Rattle.segment_check.specs.Laws.{CodesRise, FindingsAreRead, LeavesAreTooDeep};
ghost use Rattle.segment_check.specs.Laws.{NoTwoAlike};
ghost use Rattle.segment_check.specs.Laws.{StartsAreTokens, StartsNeverFall};

/// The reading of the marks from the left, with what the tree says of them, gives the findings.
pub fn findings_are_read()
    ensures { FindingsAreRead }
{}

/// The starts of findings never fall.
pub fn starts_never_fall()
    ensures { StartsNeverFall }
{}

/// Findings at one start are in the order of the codes.
pub fn codes_rise()
    ensures { CodesRise }
{}

/// No two findings have one start and one code.
pub fn no_two_alike()
    ensures { NoTwoAlike }
{}

/// Each finding starts where a token of the text does.
pub fn starts_are_tokens()
    ensures { StartsAreTokens }
{}

/// Each leaf whose mark begins a node is within 64 nodes: it was left out for its depth alone.
pub fn leaves_are_too_deep()
    ensures { LeavesAreTooDeep }
{}
