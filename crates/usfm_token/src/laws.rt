//! What holds of the tokens of all texts. Each function does nothing: its contract is the law.

ghost use Rattle.usfm_token.specs.Tokens.{OneCut, OneSpelling, TokensJoin, TokensLie, TokensPart};
ghost use Rattle.usfm_token.specs.Tokens.{TokensRest};

/// Each text is cut in exactly one way: `tokens_of` is the one list of longest marks and of texts
/// between them.
pub fn one_cut()
    ensures { OneCut }
{}

/// A mark's bytes have one reading: two marks with the same bytes have the same parts.
pub fn one_spelling()
    ensures { OneSpelling }
{}

/// Each token is the bytes of the text from the place on where the tokens before it end.
pub fn tokens_lie()
    ensures { TokensLie }
{}

/// Where the second of two texts is empty or begins with a backslash, the tokens of both are those
/// of the first, and then those of the second.
pub fn tokens_join()
    ensures { TokensJoin }
{}

/// The first tokens of a text are the tokens of their own bytes.
pub fn tokens_part()
    ensures { TokensPart }
{}

/// The last tokens of a text are the tokens of their own bytes.
pub fn tokens_rest()
    ensures { TokensRest }
{}
