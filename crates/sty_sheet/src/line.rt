//! What counts of a line.

ghost use Rattle.std.specs.Prelude.{◌≡◌, true};
ghost use Rattle.sty_sheet.specs.Lines.{comment_at, uncommented, after_bang, after_feff, body};

use crate::words::after_blanks;
use usfm_ref::is_blank;

// How many bytes come before the comment, or the end.
fn comment_at(bytes: &[u8]) -> usize
    ensures { result ≡ comment_at true bytes.now }
{
    let mut may = true;
    for (i, b) in bytes.iter().enumerate() {
        if may && *b == b'#' {
            return i;
        }
        may = is_blank(*b);
    }
    bytes.len()
}

fn uncommented(text: &str) -> &str
    ensures { result.now ≡ uncommented text.now }
{
    text.split_at(comment_at(text.as_bytes())).0
}

// One `#!` at the front is passed over, with the blanks after it.
fn after_bang(text: &str) -> &str
    ensures { result.now ≡ after_bang text.now }
{
    match text.strip_prefix("#!") {
        None => text,
        Some(rest) => after_blanks(rest),
    }
}

// U+FEFF at the very start is passed over.
pub(crate) fn after_feff(text: &str) -> &str
    ensures { result.now ≡ after_feff text.now }
{
    text.strip_prefix("\u{feff}").unwrap_or(text)
}

pub(crate) fn body(line: &str) -> &str
    ensures { result.now ≡ body line.now }
{
    uncommented(after_bang(after_blanks(line)))
}
