//! The look-ahead after a milestone mark.

ghost use Rattle.std.specs.Prelude.{◌≡◌, ◌∷◌};
ghost use Rattle.usfm_token.specs.Tokens.{tokens_of, mark, words};
ghost use Rattle.usfm_token.specs.View.{mark_parts};
ghost use Rattle.usfm_tree.specs.Reading.{is_bare_close};
ghost use Rattle.usfm_tree.specs.Loops.TakenViews.{TakesOf};

use crate::taken::Taken;
use usfm_token::{Mark, Token, TokenIter};

fn is_bare(close: Mark<'_>) -> bool
    ensures { result ≡ is_bare_close (mark (mark_parts close.entry)) }
{
    close.closing() && !close.nested() && close.name().is_empty()
}

fn takes_nothing<'a>(rest: &'a str) -> Taken<'a>
    ensures { result ≡ record { text = None; close = None; after = rest.entry } }
{
    Taken {
        text: None,
        close: None,
        after: rest,
    }
}

// What is taken where a text is in front.
#[tactic(auto, using(crate::proofs::TakenLemmas::outcome_text_end, crate::proofs::TakenLemmas::outcome_text_other, crate::proofs::TakenLemmas::outcome_text_bare))]
fn takes_after<'a>(rest: &'a str, text: &'a str, after_text: &'a str) -> Taken<'a>
    requires { tokens_of rest.now ≡ words text.now ∷ tokens_of after_text.now }
    ensures { TakesOf rest.now result }
{
    let mut tokens = TokenIter::new(after_text);
    match tokens.next() {
        None => takes_nothing(rest),
        Some(Token::Text(_)) => takes_nothing(rest),
        Some(Token::Mark(close)) => {
            if is_bare(close) {
                Taken {
                    text: Some(text),
                    close: Some(close),
                    after: tokens.rest(),
                }
            } else {
                takes_nothing(rest)
            }
        }
    }
}

// A text and a bare closing mark, or a bare closing mark, or nothing.
#[tactic(auto, using(crate::proofs::TakenLemmas::outcome_none, crate::proofs::TakenLemmas::outcome_other, crate::proofs::TakenLemmas::outcome_bare))]
pub(crate) fn takes<'a>(rest: &'a str) -> Taken<'a>
    ensures { TakesOf rest.now result }
{
    let mut tokens = TokenIter::new(rest);
    match tokens.next() {
        None => takes_nothing(rest),
        Some(Token::Text(text)) => takes_after(rest, text, tokens.rest()),
        Some(Token::Mark(close)) => {
            if is_bare(close) {
                Taken {
                    text: None,
                    close: Some(close),
                    after: tokens.rest(),
                }
            } else {
                takes_nothing(rest)
            }
        }
    }
}
