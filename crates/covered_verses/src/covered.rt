ghost use Rattle.std.specs.Prelude.{◌≡◌, ◌≤◌, length, IfSome, option_map};
ghost use Rattle.usfm_ref.specs.Numbers.{verse_in};
ghost use Rattle.usfm_token.specs.Tokens.{tokens_of};
ghost use Rattle.usfm_token.specs.View.{lexeme};
ghost use Rattle.covered_verses.specs.Covers as covers;

use crate::written::{has_ink, is_any_inked};
use usfm_ref::verse_after;
use usfm_token::{Token, TokenIter};

/// What the text of a verse covers.
#[derive(Clone, Copy, Debug, PartialEq, Eq)]
pub struct Covered {
    /// The number of the verse, or of the first verse of a bridge.
    pub first: u16,
    /// The letter of a part of the first verse, the byte of a to z.
    pub letter: Option<u8>,
    /// The number of the last verse of a bridge; without a bridge, the verse's own number.
    pub last: u16,
    /// The letter of the part that the text ends with; none where all of the last verse is covered.
    pub last_letter: Option<u8>,
    /// Whether the text has more than its mark, its number, other marks and blanks.
    pub written: bool,
}

/// What the text of a verse covers, which begins with the mark of that verse, with this number 0 to
/// 999 and letter. A bridge to a number that is not greater is none. It does not allocate.
pub fn covered_by(number: u16, letter: Option<u8>, text: &str) -> Covered
    ensures { result ≡ covers.covered_by number letter (tokens_of text.now) }
{
    let mut tokens = TokenIter::new(text);
    let _mark = tokens.next();
    let number_text = plain(tokens.next());
    let (bridge, length) = bridge_of(number_text);
    let (last, last_letter) = end_of(number, letter, bridge);
    let (_, rest) = number_text.as_bytes().split_at(length);
    Covered {
        first: number,
        letter,
        last,
        last_letter,
        written: has_ink(rest) || is_any_inked(tokens),
    }
}

// The text of a token, empty where it is a mark or there is none.
fn plain(token: Option<Token<'_>>) -> &str
    ensures { result.now ≡ covers.plain_if_any (option_map lexeme token.entry) }
{
    match token {
        Some(Token::Text(text)) => text,
        Some(Token::Mark(_)) | None => "",
    }
}

// Of the text directly after a verse's mark: the last verse of its bridge, and how many bytes the
// number takes with its bridge.
fn bridge_of(text: &str) -> (Option<(u16, Option<u8>)>, usize)
    ensures bridge { result.0 ≡ covers.bridge_in (verse_in text.now) }
    ensures length { result.1 ≡ covers.number_length (verse_in text.now) }
    ensures within { result.1 ≤ length text.now }
{
    match verse_after(text) {
        None => (None, 0),
        Some(mark) => (mark.last, mark.length),
    }
}

// The last verse that is covered, with the letter of its part.
fn end_of(number: u16, letter: Option<u8>, bridge: Option<(u16, Option<u8>)>) -> (u16, Option<u8>)
    ensures { result ≡ covers.end_of number letter bridge }
{
    match bridge {
        Some((end, part)) if number < end => (end, part),
        _ => (number, letter),
    }
}
