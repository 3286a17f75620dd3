// The wording of a text.
ghost use Rattle.std.specs.Prelude.{◌≡◌, IfOk, reverse};
ghost use Rattle.usfm_ref.specs.Books.{same_bytes};
ghost use Rattle.verse_cut.specs.Reading.{after_bom};
ghost use Rattle.book_merge.specs.Wordings as wordings;

use std::alloc::{AllocError, Global};

/// Whether two texts have one wording: whether they are equal but for U+FEFF at the front, blanks
/// at the ends of lines, and line ends at the end. A CR is a blank. Where the texts are equal, it
/// does not allocate.
///
/// # Errors
/// Out of memory alone.
pub fn same_wording(alloc: Global, one: &str, other: &str) -> Result<bool, AllocError>
    ensures { IfOk result (λ same. same ≡ wordings.same_wording one.now other.now) }
{
    if one.as_bytes() == other.as_bytes() {
        return Ok(true);
    }
    let one = wording_backwards(alloc, one)?;
    let other = wording_backwards(alloc, other)?;
    Ok(are_same(one.as_slice(), other.as_slice()))
}

// Whether bytes are the same.
fn are_same(one: &[u8], other: &[u8]) -> bool
    ensures { result ≡ same_bytes one.now other.now }
{
    one == other
}

// The wording of a text, from its last byte to its first.
fn wording_backwards(alloc: Global, text: &str) -> Result<Vec<u8>, AllocError>
    ensures { IfOk result (λ made. reverse made.items ≡ wordings.wording_of text.now) }
{
    let mut made = Vec::new(alloc);
    let mut left = without_mark(text).as_bytes();
    'bytes: while let [front @ .., byte] = left {
        if !says_nothing(*byte, &made) {
            made.push(*byte)?;
        }
        left = front;
    }
    Ok(made)
}

// What comes after U+FEFF at the front, or all.
fn without_mark(text: &str) -> &str
    ensures { result.now ≡ after_bom text.now }
{
    text.strip_prefix("\u{FEFF}").unwrap_or(text)
}

// Whether a byte says nothing before a wording, which is given from its last byte to its first.
fn says_nothing(byte: u8, backwards: &[u8]) -> bool
    ensures { result ≡ wordings.says_nothing byte (reverse backwards.now) }
{
    match backwards.last() {
        None => is_line_blank(byte) || byte == b'\n',
        Some(next) => is_line_blank(byte) && *next == b'\n',
    }
}

// Whether a byte is a space, a tab or a CR.
fn is_line_blank(byte: u8) -> bool
    ensures { result ≡ wordings.is_line_blank byte }
{
    byte == b' ' || byte == b'\t' || byte == b'\r'
}
