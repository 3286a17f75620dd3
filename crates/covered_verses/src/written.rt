// Whether a verse's tokens are written.
ghost use Rattle.std.specs.Prelude.{◌≡◌};
ghost use Rattle.std.specs.List.{list_any};
ghost use Rattle.usfm_token.specs.Tokens.{tokens_of};
ghost use Rattle.usfm_token.specs.View.{lexeme, rest_of};
ghost use Rattle.covered_verses.specs.Covers as covers;

use usfm_ref::is_blank;
use usfm_token::{Token, TokenIter};

// Whether bytes have one that is no blank.
pub(crate) fn has_ink(bytes: &[u8]) -> bool
    ensures { result ≡ covers.has_ink bytes.now }
{
    for byte in bytes {
        if !is_blank(*byte) {
            return true;
        }
    }
    false
}

// Whether one of the tokens that are left is a text with more than blanks.
pub(crate) fn is_any_inked(tokens: TokenIter<'_>) -> bool
    ensures { result ≡ list_any covers.is_inked (tokens_of (rest_of tokens.entry)) }
{
    for token in tokens {
        if is_inked(&token) {
            return true;
        }
    }
    false
}

fn is_inked(token: &Token<'_>) -> bool
    ensures { result ≡ covers.is_inked (lexeme token.now) }
{
    match token {
        Token::Mark(_) => false,
        Token::Text(text) => has_ink(text.as_bytes()),
    }
}
