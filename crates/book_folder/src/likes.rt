// Texts that are like each other, and the manner of their line ends.
ghost use Rattle.std.specs.Prelude.{◌≡◌, ◌∷◌, ◌<◌, ◌++◌, [], length, OnOk, string_bytes};
ghost use Rattle.std.specs.Option.{MatchOption};
ghost use Rattle.usfm_ref.specs.Books.{same_bytes};
ghost use Rattle.verse_cut.specs.Reading.{after_bom};
ghost use Rattle.book_folder.specs.Likes as likes;

use std::alloc::AllocError;

/// The manner of a text's line ends.
#[derive(Clone, Copy, Debug, PartialEq, Eq)]
pub enum LineEnds {
    /// The text has no CR.
    Lf,
    /// It has an LF, and each LF has a CR directly before it.
    CrLf,
    /// Neither.
    Mixed,
}

impl LineEnds {
    /// The manner of a text's line ends.
    pub fn of(text: &[u8]) -> LineEnds
        ensures { result ≡ likes.line_ends text.now }
    {
        if text.contains(&b'\n') && each_lf_has_cr(text) {
            LineEnds::CrLf
        } else if text.contains(&b'\r') {
            LineEnds::Mixed
        } else {
            LineEnds::Lf
        }
    }
}

// Whether each LF has a CR directly before it.
#[tactic(auto, unfolding(crate::specs::Likes::each_lf_has_cr))]
fn each_lf_has_cr(text: &[u8]) -> bool
    ensures { result ≡ likes.each_lf_has_cr 0 text.now }
{
    let mut before = 0;
    let mut left = text;
    'bytes: while let [byte, later @ ..] = left {
        if *byte == b'\n' && before != b'\r' {
            return false;
        }
        before = *byte;
        left = later;
    }
    true
}

/// Whether two texts are like each other: equal but for a U+FEFF at the front, and for each CR
/// directly before an LF. It does not allocate.
pub fn is_like(one: &[u8], other: &[u8]) -> bool
    ensures { result ≡ likes.like one.now other.now }
{
    // Nearly always they are equal, which takes no walk.
    one == other || is_plainly(after_bom(one), after_bom(other))
}

// What comes after U+FEFF at the front, or all.
fn after_bom(text: &[u8]) -> &[u8]
    ensures { result.now ≡ after_bom text.now }
{
    match text {
        [0xEF, 0xBB, 0xBF, after @ ..] => after,
        _ => text,
    }
}

// Whether two texts are equal without each CR directly before an LF.
fn is_plainly(one: &[u8], other: &[u8]) -> bool
    ensures { result ≡ same_bytes (likes.without_cr one.now) (likes.without_cr other.now) }
{
    let mut left = one;
    let mut right = other;
    'bytes: while let Some((x, later)) = next_byte(left) {
        match next_byte(right) {
            Some((y, after)) if x == y => {
                left = later;
                right = after;
            }
            _ => return false,
        }
    }
    next_byte(right).is_none()
}

// The first byte of a text without each CR directly before an LF, and what comes after it.
#[tactic(auto, unfolding(crate::specs::Likes::without_cr))]
fn next_byte(text: &[u8]) -> Option<(u8, &[u8])>
    ensures byte { MatchOption result (likes.without_cr text.now ≡ [])
        (λ next. likes.without_cr text.now ≡ next.0 ∷ likes.without_cr next.1.now) }
    ensures shorter { MatchOption result (text.now ≡ [])
        (λ next. length next.1.now < length text.now) }
{
    match text {
        [] => None,
        [b'\r', b'\n', rest @ ..] => Some((b'\n', rest)),
        [byte, rest @ ..] => Some((*byte, rest)),
    }
}

/// Puts a text after another one, with its line ends in a manner; to be mixed is none, so that the
/// text stays as it is.
///
/// # Errors
/// Out of memory alone.
pub fn push_in_line_ends(made: &mut String, text: &str, ends: LineEnds) -> Result<(), AllocError>
    ensures { OnOk result (string_bytes made.new
        ≡ string_bytes made.old ++ likes.in_line_ends ends text.now) }
{
    match ends {
        LineEnds::Lf => push_with_ends(made, text, "\n"),
        LineEnds::CrLf => push_with_ends(made, text, "\r\n"),
        LineEnds::Mixed => made.push_str(text),
    }
}

// Puts a text after another one, with this end of each line.
#[tactic(auto, using(crate::proofs::Ends::with_ends_line, crate::proofs::Ends::with_ends_last))]
fn push_with_ends(made: &mut String, text: &str, end: &str) -> Result<(), AllocError>
    ensures { OnOk result (string_bytes made.new
        ≡ string_bytes made.old ++ likes.with_ends end.now text.now) }
{
    let mut left = text;
    'lines: while let Some((line, rest)) = left.split_once('\n') {
        made.push_str(without_last_cr(line))?;
        made.push_str(end)?;
        left = rest;
    }
    made.push_str(left)
}

// A line without a CR at its end.
fn without_last_cr(line: &str) -> &str
    ensures { result.now ≡ likes.without_last_cr line.now }
{
    match line.strip_suffix('\r') {
        Some(front) => front,
        None => line,
    }
}
