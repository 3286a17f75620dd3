ghost use Rattle.std.specs.Prelude.{◌≡◌, ◌<◌, ◌∷◌, ◌++◌, length};
ghost use Rattle.std.specs.List.{before_first};
ghost use Rattle.usfm_token.specs.Tokens.{is_backslash, slice_of, tokens_of};
ghost use Rattle.usfm_token.specs.View.{lexeme};

use crate::mark::Mark;
use crate::scan::text_len;

/// A mark, or a text between marks, which is not empty and has no backslash.
#[derive(Clone, Copy, Debug, PartialEq, Eq)]
pub enum Token<'a> {
    Mark(Mark<'a>),
    Text(&'a str),
}

impl<'a> Token<'a> {
    /// The token's bytes in the text that it was read from.
    pub fn slice(&self) -> &'a str
        ensures { result.now ≡ slice_of (lexeme self.now) }
    {
        match self {
            Token::Mark(mark) => mark.slice(),
            Token::Text(text) => text,
        }
    }
}

// The text at the front, and what follows it.
fn split_text(text: &str) -> (&str, &str)
    ensures text { result.0.now ≡ before_first is_backslash text.now }
    ensures after { result.0.now ++ result.1.now ≡ text.now }
{
    text.split_at(text_len(text.as_bytes()))
}

// The token at the front, and what follows it.
pub(crate) fn split_token(text: &str) -> (Token<'_>, &str)
    requires { 0 < length text.now }
    ensures { tokens_of text.now ≡ lexeme result.0 ∷ tokens_of result.1.now }
{
    if text.as_bytes()[0] == b'\\' {
        let (mark, after) = Mark::split_front(text);
        (Token::Mark(mark), after)
    } else {
        let (words, after) = split_text(text);
        (Token::Text(words), after)
    }
}
