//! The words of what is written, which stand between blanks.

ghost use Rattle.std.specs.Prelude.{◌≡◌, ◌<◌, [], ◌∷◌, length, MatchOption};
ghost use Rattle.std.specs.List.{prefix_len};
ghost use Rattle.usfm_ref.specs.Numbers.{is_blank};
ghost use Rattle.sty_sheet.specs.Lines.{not_blank, after_blanks, first_word, after_word};
ghost use Rattle.sty_sheet.specs.Records.{words_of};

use usfm_ref::is_blank;

// How many blanks are at the front.
fn blanks_len(bytes: &[u8]) -> usize
    ensures { result ≡ prefix_len is_blank bytes.now }
{
    bytes.iter().take_while(|b| is_blank(**b)).count()
}

// How many bytes come before the first blank, or the end.
fn word_len(bytes: &[u8]) -> usize
    ensures { result ≡ prefix_len not_blank bytes.now }
{
    bytes.iter().take_while(|b| !is_blank(**b)).count()
}

// The text without the blanks at its front.
fn after_blanks(text: &str) -> &str
    ensures { result.now ≡ after_blanks text.now }
{
    text.split_at(blanks_len(text.as_bytes())).1
}

// The text up to the first blank, and what follows.
fn split_word(text: &str) -> (&str, &str)
    ensures word { result.0.now ≡ first_word text.now }
    ensures rest { result.1.now ≡ after_word text.now }
{
    text.split_at(word_len(text.as_bytes()))
}

// The first word, and what follows it.
pub(crate) fn next_word(text: &str) -> Option<(&str, &str)>
    ensures { MatchOption result (words_of text.now ≡ [])
        (λ p. words_of text.now ≡ p.0.now ∷ words_of p.1.now) }
{
    let (word, rest) = split_word(after_blanks(text));
    if word.is_empty() {
        None
    } else {
        Some((word, rest))
    }
}
