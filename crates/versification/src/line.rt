// What a line of a versification says.
ghost use Rattle.std.specs.Prelude.{◌≡◌, ◌≤◌, [], ◌∷◌, length, map, IfOk, IfSome, option_map};
ghost use Rattle.std.specs.List.{list_any};
ghost use Rattle.versification.specs.Lines as lines;
ghost use Rattle.versification.specs.LineViews.{line_view};

use std::alloc::{AllocError, Global};
use usfm_ref::{Book, Key, Place, Segment, is_blank};

// What a line says.
#[derive(Debug, Drop)]
pub(crate) enum Line {
    // Nothing that is read here.
    Passed,
    // The last verse of each chapter of a book.
    LastVerses(Book, Vec<u16>),
    // A verse that is left out.
    LeftOut(Segment),
}

// What a line says. None where it has none of the forms.
pub(crate) fn line_of(alloc: Global, line: &[u8]) -> Result<Option<Line>, AllocError>
    ensures { IfOk result (λ said. option_map line_view said ≡ lines.line_of line.now) }
{
    let words = words_of(alloc, line)?;
    said_by(alloc, &words)
}

// The words of a line, which blanks divide.
fn words_of(alloc: Global, line: &[u8]) -> Result<Vec<&[u8]>, AllocError>
    ensures { IfOk result (λ words. map (λ w. w.now) words.items ≡ lines.words_of line.now) }
{
    line.split(|byte| is_blank(*byte))
        .filter(|word| !word.is_empty())
        .collect(alloc)
}

// What a line of these words says.
fn said_by(alloc: Global, words: &[&[u8]]) -> Result<Option<Line>, AllocError>
    ensures { IfOk result (λ said. option_map line_view said
        ≡ lines.said_by (map (λ w. w.now) words.now)) }
{
    match words {
        [] => Ok(Some(Line::Passed)),
        [first, more @ ..] => said_from(alloc, first, more),
    }
}

// What a line says that begins with a word, and then has more.
fn said_from(alloc: Global, first: &[u8], more: &[&[u8]]) -> Result<Option<Line>, AllocError>
    ensures { IfOk result (λ said. option_map line_view said
        ≡ lines.said_by (first.now ∷ map (λ w. w.now) more.now)) }
{
    if is_passed(first) || is_equals(first) || is_any_equals(more) {
        return Ok(Some(Line::Passed));
    }
    read_by(alloc, first, more)
}

// The same of a line that is not passed over.
fn read_by(alloc: Global, first: &[u8], more: &[&[u8]]) -> Result<Option<Line>, AllocError>
    ensures { IfOk result (λ said. option_map line_view said
        ≡ lines.read_by first.now (map (λ w. w.now) more.now)) }
{
    match first {
        [] => last_verses(alloc, first, more),
        [b'-', code @ ..] => Ok(left_out(code, more)),
        [_, ..] => last_verses(alloc, first, more),
    }
}

// Whether one of some words is the `=` of a mapping.
fn is_any_equals(words: &[&[u8]]) -> bool
    ensures { result ≡ list_any lines.is_equals (map (λ w. w.now) words.now) }
{
    let mut left = words;
    'words: while let [word, later @ ..] = left {
        if is_equals(word) {
            return true;
        }
        left = later;
    }
    false
}

// Whether a line that begins with this word is passed over: a comment, or the segments of a verse.
fn is_passed(word: &[u8]) -> bool
    ensures { result ≡ lines.is_passed word.now }
{
    matches!(word, [b'#' | b'*', ..])
}

// Whether a word is the `=` of a mapping.
fn is_equals(word: &[u8]) -> bool
    ensures { result ≡ lines.is_equals word.now }
{
    matches!(word, [b'='])
}

// The verse of a book that is left out, by the words after the book's code.
fn left_out(code: &[u8], words: &[&[u8]]) -> Option<Line>
    ensures { option_map line_view result ≡ lines.left_out code.now (map (λ w. w.now) words.now) }
{
    let book = book_in(code)?;
    let (chapter, verse) = match words {
        [] => return None,
        [word] => verse_in(word)?,
        [_, _, ..] => return None,
    };
    let place = Place::Verse {
        number: verse,
        letter: None,
    };
    let key = Key { chapter, place };
    Some(Line::LeftOut(Segment { book, key }))
}

// The last verses of a book's chapters, by the words after the book's code.
fn last_verses(alloc: Global, code: &[u8], words: &[&[u8]]) -> Result<Option<Line>, AllocError>
    ensures { IfOk result (λ said. option_map line_view said
        ≡ lines.last_verses code.now (map (λ w. w.now) words.now)) }
{
    let Some(book) = book_in(code) else {
        return Ok(None);
    };
    if words.is_empty() {
        return Ok(None);
    }
    match verses_by_chapter(alloc, words)? {
        Some(verses) => Ok(Some(Line::LastVerses(book, verses))),
        None => Ok(None),
    }
}

// The last verse of each chapter, where the words are of chapter 1 and those after it in turn.
fn verses_by_chapter(alloc: Global, words: &[&[u8]]) -> Result<Option<Vec<u16>>, AllocError>
    ensures { IfOk result (λ verses. option_map (λ v. v.items) verses
        ≡ lines.verses_from 1 (map (λ w. w.now) words.now)) }
{
    let mut verses = Vec::new(alloc);
    let mut left = words;
    'words: while let [word, later @ ..] = left {
        match verse_in(word) {
            Some((chapter, verse)) if usize::from(chapter) == verses.len() + 1 => {
                verses.push(verse)?;
            }
            _ => return Ok(None),
        }
        left = later;
    }
    Ok(Some(verses))
}

// The book whose code a word is.
fn book_in(word: &[u8]) -> Option<Book>
    ensures { result ≡ lines.book_in word.now }
{
    let [a, b, c] = word else {
        return None;
    };
    Book::of_code([*a, *b, *c])
}

// The chapter and the verse that a word has on either side of a colon.
fn verse_in(word: &[u8]) -> Option<(u16, u16)>
    ensures value { result ≡ lines.verse_in word.now }
    ensures chapter { IfSome result (λ r. r.0 ≤ 999) }
    ensures verse { IfSome result (λ r. r.1 ≤ 999) }
{
    let (chapter, rest) = word.split_at(before_colon(word));
    let [_, verse @ ..] = rest else {
        return None;
    };
    Some((number_in(chapter)?, number_in(verse)?))
}

// How many bytes come before the first colon, or the end.
fn before_colon(word: &[u8]) -> usize
    ensures value { result ≡ lines.before_colon word.now }
    ensures within { result ≤ length word.now }
{
    word.iter().take_while(|byte| **byte != b':').count()
}

// The number that bytes write, if they are one to three digits.
fn number_in(bytes: &[u8]) -> Option<u16>
    ensures value { result ≡ lines.number_in bytes.now }
    ensures within { IfSome result (λ n. n ≤ 999) }
{
    match *bytes {
        [a] => digit(a),
        [a, b] => Some(digit(a)? * 10 + digit(b)?),
        [a, b, c] => Some((digit(a)? * 10 + digit(b)?) * 10 + digit(c)?),
        _ => None,
    }
}

fn digit(byte: u8) -> Option<u16>
    ensures value { result ≡ lines.number_in (byte ∷ []) }
    ensures small { IfSome result (λ n. n ≤ 9) }
{
    if byte.is_ascii_digit() {
        Some(u16::from(byte - b'0'))
    } else {
        None
    }
}
