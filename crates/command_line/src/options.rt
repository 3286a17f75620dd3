// The options that every line may have.
ghost use Rattle.std.specs.Prelude.{◌≡◌, not, codes, take_while, string_bytes};
ghost use Rattle.std.specs.List.{list_any};
ghost use Rattle.std.specs.Str.{bytes_eq};

use std::alloc::{AllocError, Global};

// The word that asks for what a fault means in words.
const EXPLAIN: &str = "--explain";

// The word that asks for an exit status that says what was found.
const EXIT_CODE: &str = "--exit-code";

// The word after which no word is an option.
const END: &str = "--";

/// Whether a command line asks for what a fault means in words: by the word `--explain` before any
/// `--`.
pub fn asks_for_words(words: &[String]) -> bool
    ensures { result ≡ list_any (λ word. bytes_eq (string_bytes word) (codes "--explain"))
        (take_while (λ word. not (bytes_eq (string_bytes word) (codes "--"))) words.now) }
{
    has_option(words, EXPLAIN)
}

/// Whether a command line asks for an exit status that says what was found: by the word
/// `--exit-code` before any `--`.
pub fn asks_for_exit_code(words: &[String]) -> bool
    ensures { result ≡ list_any (λ word. bytes_eq (string_bytes word) (codes "--exit-code"))
        (take_while (λ word. not (bytes_eq (string_bytes word) (codes "--"))) words.now) }
{
    has_option(words, EXIT_CODE)
}

// Whether a command line has this word before any `--`.
fn has_option(words: &[String], wanted: &str) -> bool
    ensures { result ≡ list_any (λ word. bytes_eq (string_bytes word) wanted.now)
        (take_while (λ word. not (bytes_eq (string_bytes word) (codes "--"))) words.now) }
{
    words
        .iter()
        .take_while(|word| !is_word(word, END))
        .any(|word| is_word(word, wanted))
}

// Whether a word is this one.
fn is_word(word: &String, wanted: &str) -> bool
    ensures { result ≡ bytes_eq (string_bytes word.now) wanted.now }
{
    word.as_str() == wanted
}

// The words without those before `--` that ask for an explanation.
pub(crate) fn without_explain(alloc: Global, words: &[String]) -> Result<Vec<String>, AllocError> {
    let mut kept = Vec::new(alloc);
    let mut is_ended = false;
    for word in words {
        is_ended |= is_word(word, END);
        if is_ended || !is_word(word, EXPLAIN) {
            kept.push(word.clone()?)?;
        }
    }
    Ok(kept)
}
