ghost use Rattle.std.specs.Prelude.{◌≡◌, ℕ, ◌-◌, ◌≤◌, length, nat_le, ◌&&◌, None, Some, IsTrue};
ghost use Rattle.std.specs.Prelude.{IfSome, MatchOption, if◌then◌else◌};
ghost use Rattle.std.specs.List.{list_all, prefix_len};
ghost use Rattle.std.specs.Char.{is_ascii_digit};
ghost use Rattle.std.specs.Str.{IsCharBoundary};
ghost use Rattle.usfm_ref.specs.Numbers as numbers;
ghost use Rattle.usfm_ref.specs.Numbers.{ReadsChapter, ReadsVerse, is_last, is_verse};
ghost use Rattle.usfm_ref.specs.declared.number.VerseMark as marks;

/// A verse and its letter, if it has one.
type Verse = (u16, Option<u8>);

/// What is read after a verse's mark: the verse's number, its letter, and its bridge.
#[derive(Clone, Copy, Debug, PartialEq, Eq)]
pub struct VerseMark {
    /// The number of the verse, 0 to 999.
    pub number: u16,
    /// The letter of a part of the verse, the byte of a to z.
    pub letter: Option<u8>,
    /// The last verse of a bridge, with its letter.
    pub last: Option<(u16, Option<u8>)>,
    /// How many bytes of the text are read, with the blanks in front.
    pub length: usize,
}

/// Reads the number of a chapter in the text directly after the mark `\c`.
///
/// It is one blank or more (space, tab, CR, LF) and one to three digits, before the end or a
/// character that is no ASCII letter or digit. None where no number is there.
pub fn chapter_after(text: &str) -> Option<u16>
    ensures reads { IfSome result (ReadsChapter text.now) }
    ensures only { (number : ℕ) → ReadsChapter text.now number → result ≡ Some number }
    ensures value { result ≡ numbers.chapter_in text.now }
    ensures in_range { IfSome result (λ number. number ≤ 999) }
{
    let bytes = blanks_at(text.as_bytes())?;
    let (number, rest) = number_at(bytes)?;
    ends_number(rest).then_some(number)
}

/// Reads the verse in the text directly after the mark `\v`.
///
/// It is one blank or more (space, tab, CR, LF), one to three digits and at most one letter a to
/// z, before the end or a character that is no ASCII letter or digit. Where that character is a
/// hyphen and after it come digits and a letter in the same way, they are the last verse of a
/// bridge; else the verse has no bridge. None where no number is there.
pub fn verse_after(text: &str) -> Option<VerseMark>
    ensures reads { IfSome result (ReadsVerse text.now) }
    ensures only { (mark : marks.VerseMark) → ReadsVerse text.now mark → result ≡ Some mark }
    ensures value { result ≡ numbers.verse_in text.now }
    ensures in_range { IfSome result (λ mark. IsTrue (is_verse (mark.number, mark.letter))) }
    ensures last_in_range { IfSome result (λ mark. IsTrue (is_last mark.last)) }
    ensures boundary { IfSome result (λ mark. IsCharBoundary text.now mark.length) }
{
    let bytes = blanks_at(text.as_bytes())?;
    let ((number, letter), after) = verse_at(bytes)?;
    let (last, rest) = match bridge_at(after) {
        Some((last, rest)) => (Some(last), rest),
        None => (None, after),
    };
    Some(VerseMark {
        number,
        letter,
        last,
        length: text.len() - rest.len(),
    })
}

/// Whether a byte is a blank: a space, a tab, a CR or an LF.
pub fn is_blank(byte: u8) -> bool
    ensures { result ≡ numbers.is_blank byte }
{
    matches!(byte, b' ' | b'\t' | b'\r' | b'\n')
}

// What comes after one blank or more.
#[tactic(auto, unfolding(crate::specs::Numbers::blanks_at))]
fn blanks_at(bytes: &[u8]) -> Option<&[u8]>
    ensures { MatchOption result (numbers.blanks_at bytes.now ≡ None)
        (λ rest. numbers.blanks_at bytes.now ≡ Some rest.now) }
{
    match blanks_len(bytes) {
        0 => None,
        count => Some(bytes.split_at(count).1),
    }
}

fn blanks_len(bytes: &[u8]) -> usize
    ensures value { result ≡ prefix_len numbers.is_blank bytes.now }
    ensures within { result ≤ length bytes.now }
{
    bytes.iter().take_while(|b| is_blank(**b)).count()
}

// The number that digits write, if they are one to three.
fn number_of(digits: &[u8]) -> Option<u16>
    requires { IsTrue (list_all is_ascii_digit digits.now) }
    ensures { result ≡ (if nat_le 1 (length digits.now) && nat_le (length digits.now) 3
        then Some (numbers.number_of digits.now) else None) }
{
    match *digits {
        [a] => Some(digit(a)),
        [a, b] => Some(digit(a) * 10 + digit(b)),
        [a, b, c] => Some((digit(a) * 10 + digit(b)) * 10 + digit(c)),
        _ => None,
    }
}

fn digit(byte: u8) -> u16
    requires { IsTrue (is_ascii_digit byte) }
    ensures value { result ≡ byte - 48 }
    ensures small { result ≤ 9 }
{
    u16::from(byte - b'0')
}

// A run of one to three digits, and what comes after it.
#[tactic(auto, unfolding(crate::specs::Numbers::number_at))]
pub(crate) fn number_at(bytes: &[u8]) -> Option<(u16, &[u8])>
    ensures { MatchOption result (numbers.number_at bytes.now ≡ None)
        (λ n. numbers.number_at bytes.now ≡ Some (n.0, n.1.now)) }
{
    let (digits, rest) = bytes.split_at(digits_len(bytes));
    Some((number_of(digits)?, rest))
}

fn digits_len(bytes: &[u8]) -> usize
    ensures value { result ≡ prefix_len is_ascii_digit bytes.now }
    ensures within { result ≤ length bytes.now }
{
    bytes.iter().take_while(|b| b.is_ascii_digit()).count()
}

// Whether a number ends before these bytes.
fn ends_number(bytes: &[u8]) -> bool
    ensures { result ≡ numbers.ends_number bytes.now }
{
    match bytes {
        [] => true,
        [first, ..] => !first.is_ascii_alphanumeric(),
    }
}

// A verse's number with its letter, which ends, and what comes after it.
#[tactic(auto, unfolding(crate::specs::Numbers::verse_at))]
fn verse_at(bytes: &[u8]) -> Option<(Verse, &[u8])>
    ensures { MatchOption result (numbers.verse_at bytes.now ≡ None)
        (λ v. numbers.verse_at bytes.now ≡ Some (v.0, v.1.now)) }
{
    let (number, rest) = number_at(bytes)?;
    let (letter, rest) = match rest {
        [letter @ b'a'..=b'z', rest @ ..] => (Some(*letter), rest),
        _ => (None, rest),
    };
    ends_number(rest).then_some(((number, letter), rest))
}

// A bridge's last verse, and what comes after it.
#[tactic(auto, unfolding(crate::specs::Numbers::bridge_at))]
fn bridge_at(bytes: &[u8]) -> Option<(Verse, &[u8])>
    ensures { MatchOption result (numbers.bridge_at bytes.now ≡ None)
        (λ v. numbers.bridge_at bytes.now ≡ Some (v.0, v.1.now)) }
{
    match bytes {
        [b'-', last @ ..] => verse_at(last),
        _ => None,
    }
}
