ghost use Rattle.std.specs.Prelude.{◌≡◌, IfOk};
ghost use Rattle.usfm_token.specs.Tokens.{AreTokensOf, tokens_of};
ghost use Rattle.usfm_token.specs.View.{lexemes, rest_of};

use crate::token::{Token, split_token};
use std::alloc::{AllocError, Global};

/// The tokens of a text, one after the other. It does not allocate.
#[derive(Clone, Debug, Drop)]
pub struct TokenIter<'a> {
    rest: &'a str,
}

impl<'a> TokenIter<'a> {
    /// An iterator over all tokens of a text.
    pub fn new(text: &'a str) -> Self
        ensures { rest_of result ≡ text.now }
    {
        TokenIter { rest: text }
    }

    /// The text that is left, after the tokens that were given.
    pub fn rest(&self) -> &'a str
        ensures { result.now ≡ rest_of self.now }
    {
        self.rest
    }
}

impl<'a> Iterator for TokenIter<'a> {
    ghost use Rattle.std.specs.Iterator.{YieldsFirstBy, item_count};
    ghost use Rattle.usfm_token.specs.Tokens.{tokens_of};
    ghost use Rattle.usfm_token.specs.View.{lexeme, rest_of};

    type Item = Token<'a>;

    ghost next_gives = { YieldsFirstBy lexeme (λ s. tokens_of (rest_of s)) };

    ghost remaining = { item_count (λ s. tokens_of (rest_of s)) };

    #[tactic(auto, using(crate::proofs::TokenLemmas::tokens_of_empty))]
    fn next(&mut self) -> Option<Token<'a>> {
        if self.rest.is_empty() {
            return None;
        }
        let (token, after) = split_token(self.rest);
        self.rest = after;
        Some(token)
    }
}

/// The marks and texts of a text, in order: the items of a `TokenIter` over it.
///
/// # Errors
///
/// `AllocError` where there is no memory for the list.
pub fn tokens(alloc: Global, text: &str) -> Result<Vec<Token<'_>>, AllocError>
    ensures cut { IfOk result (λ list. AreTokensOf (lexemes list.items) text.now) }
    ensures value { IfOk result (λ list. lexemes list.items ≡ tokens_of text.now) }
{
    TokenIter::new(text).collect(alloc)
}
