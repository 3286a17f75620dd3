//! What is wrong with the numbers of marks.

ghost use Rattle.std.specs.Prelude.{◌≡◌, ◌≤◌, ◌||◌, not, IsTrue, IfSome};
ghost use Rattle.segment_check.specs.NumberConditions as conditions;
ghost use Rattle.segment_check.specs.Numbers as numbers;
ghost use Rattle.segment_check.specs.Reading as reading;
ghost use Rattle.segment_check.specs.Scenes as scenes;
ghost use Rattle.usfm_ref.specs.Numbers.{is_verse};
ghost use Rattle.usfm_token.specs.View.{mark_parts};

use usfm_ref::{Key, Place, VerseMark, chapter_after, verse_after};
use usfm_token::Mark;

// A verse and its letter, if it has one.
pub(crate) type Verse = (u16, Option<u8>);

fn is_plain(mark: Mark<'_>) -> bool
    ensures { result ≡ not ((mark_parts mark.entry).nested || (mark_parts mark.entry).closing) }
{
    !(mark.nested() || mark.closing())
}

// The verse after a mark `\v`.
pub(crate) fn mark_verse(mark: Mark<'_>, after: &str) -> Option<VerseMark>
    ensures value { result ≡ scenes.mark_verse (mark_parts mark.entry) after.now }
    ensures in_range { IfSome result (λ v. IsTrue (is_verse (v.number, v.letter))) }
{
    if is_plain(mark) && mark.name() == "v" {
        verse_after(after)
    } else {
        None
    }
}

// The chapter after a mark `\c`.
pub(crate) fn mark_chapter(mark: Mark<'_>, after: &str) -> Option<u16>
    ensures value { result ≡ numbers.mark_chapter (mark_parts mark.entry) after.now }
    ensures in_range { IfSome result (λ number. number ≤ 999) }
{
    if is_plain(mark) && mark.name() == "c" {
        chapter_after(after)
    } else {
        None
    }
}

// The key of a mark with the chapter or verse after it, where a verse is in the chapter.
pub(crate) fn key_of(chapter: u16, head: Option<u16>, verse: Option<VerseMark>) -> Option<Key>
    requires chapter { chapter ≤ 999 }
    requires head { IfSome head (λ number. number ≤ 999) }
    requires verse { IfSome verse (λ v. IsTrue (is_verse (v.number, v.letter))) }
    ensures { result ≡ numbers.key_by chapter head verse }
{
    match (head, verse) {
        (Some(chapter), _) => Some(Key::chapter_head(chapter)),
        (None, Some(verse)) => {
            let place = Place::Verse {
                number: verse.number,
                letter: verse.letter,
            };
            Some(Key { chapter, place })
        }
        (None, None) => None,
    }
}

// Whether no number comes after a mark that has one.
pub(crate) fn lacks_number(mark: Mark<'_>, after: &str) -> bool
    ensures { result ≡ conditions.lacks_number (mark_parts mark.entry) after.now }
{
    is_plain(mark)
        && match mark.name() {
            "c" => chapter_after(after).is_none(),
            "v" => verse_after(after).is_none(),
            _ => false,
        }
}

// Whether a hyphen is at a place.
fn has_hyphen(text: &str, place: usize) -> bool
    ensures { result ≡ conditions.hyphen_at text.now place }
{
    text.as_bytes().get(place) == Some(&b'-')
}

// Whether a hyphen follows a verse's number and no bridge, or its bridge does not lead to a later
// verse.
pub(crate) fn fails_bridge(verse: VerseMark, after: &str) -> bool
    ensures { result ≡ conditions.fails_bridge after.now verse }
{
    match verse.last {
        None => has_hyphen(after, verse.length),
        Some(last) => !leads_on(verse, last),
    }
}

// Whether a bridge leads to a later verse.
fn leads_on(verse: VerseMark, last: Verse) -> bool
    ensures { result ≡ conditions.bridges_forward verse last }
{
    let first = Place::Verse {
        number: verse.number,
        letter: verse.letter,
    };
    let last = Place::Verse {
        number: last.0,
        letter: last.1,
    };
    first < last
}

fn is_after(letter: Option<u8>, last: Option<u8>) -> bool
    ensures { result ≡ conditions.is_after letter last }
{
    match (letter, last) {
        (Some(letter), Some(last)) => last < letter,
        _ => false,
    }
}

// Whether a bridge's last verse reaches a verse.
pub(crate) fn reaches(last: Verse, verse: VerseMark) -> bool
    ensures { result ≡ conditions.reaches last verse }
{
    verse.number < last.0 || verse.number == last.0 && !is_after(verse.letter, last.1)
}

fn is_letter_within(last: Option<u8>, other: Option<u8>) -> bool
    ensures { result ≡ reading.is_letter_within last other }
{
    match (last, other) {
        (_, None) => true,
        (None, Some(_)) => false,
        (Some(last), Some(other)) => last <= other,
    }
}

// Whether all that a bridge's last verse reaches is reached by another.
fn is_within(last: Verse, other: Verse) -> bool
    ensures { result ≡ reading.is_within last other }
{
    last.0 < other.0 || last.0 == other.0 && is_letter_within(last.1, other.1)
}

// The one of two last verses of bridges that reaches more.
pub(crate) fn further(reach: Option<Verse>, last: Option<Verse>) -> Option<Verse>
    ensures { result ≡ reading.further reach last }
{
    match (reach, last) {
        (None, last) => last,
        (Some(reach), None) => Some(reach),
        (Some(reach), Some(last)) => {
            if is_within(last, reach) {
                Some(reach)
            } else {
                Some(last)
            }
        }
    }
}
