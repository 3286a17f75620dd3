ghost use Rattle.std.specs.Prelude.{◌≡◌, ◌≢◌, ◌<◌, ◌∷◌, ◌++◌, length, drop, slice_index, IfOk};
ghost use Rattle.std.specs.List.{prefix_len};
ghost use Rattle.usfm_ref.specs.Numbers.{is_blank};
ghost use Rattle.usfm_token.specs.Tokens.{mark_after, mark_bytes};
ghost use Rattle.word_diff.specs.Words.{is_plain, texts, words_of};

use std::alloc::{AllocError, Global};
use usfm_ref::is_blank;
use usfm_token::TokenIter;

// How many bytes at the front are blanks.
fn blanks_len(bytes: &[u8]) -> usize
    ensures { result ≡ prefix_len is_blank bytes.now }
{
    bytes.iter().take_while(|b| is_blank(**b)).count()
}

// How many bytes at the front are neither blanks nor backslashes.
fn plain_len(bytes: &[u8]) -> usize
    ensures { result ≡ prefix_len is_plain bytes.now }
{
    bytes
        .iter()
        .take_while(|b| !is_blank(**b) && **b != b'\\')
        .count()
}

// The mark at the front, and what follows it.
fn split_mark(text: &str) -> (&str, &str)
    requires { slice_index text.now 0 ≡ 92 }
    ensures word { result.0.now ≡ mark_bytes (mark_after (drop 1 text.now)) }
    ensures join { result.0.now ++ result.1.now ≡ text.now }
{
    let mut tokens = TokenIter::new(text);
    let mark = tokens.next().unwrap();
    (mark.slice(), tokens.rest())
}

// The word at the front, and what follows it.
fn split_word(text: &str) -> (&str, &str)
    requires { 0 < length text.now }
    ensures { words_of text.now ≡ result.0.now ∷ words_of result.1.now }
{
    let bytes = text.as_bytes();
    if bytes[0] == b'\\' {
        split_mark(text)
    } else if is_blank(bytes[0]) {
        text.split_at(blanks_len(bytes))
    } else {
        text.split_at(plain_len(bytes))
    }
}

/// The words of a text, in order. They join to it.
///
/// # Errors
///
/// `AllocError` where there is no memory for the list.
pub fn words(alloc: Global, text: &str) -> Result<Vec<&str>, AllocError>
    ensures { IfOk result (λ list. texts list.items ≡ words_of text.now) }
{
    let mut words = Vec::new(alloc);
    let mut rest = text;
    while !rest.is_empty() {
        let (word, after) = split_word(rest);
        words.push(word)?;
        rest = after;
    }
    Ok(words)
}
