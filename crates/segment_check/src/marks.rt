//! The findings at the marks of a text, from the left.

ghost use Rattle.std.specs.Prelude.{◌≡◌, ◌++◌, List, IfOk, OnOk, false};
ghost use Rattle.std.specs.Option.{option_map_or};
ghost use Rattle.segment_check.specs.NumberConditions.{fails_bridge};
ghost use Rattle.segment_check.specs.Loops.WalkViews.{IsFirst};
ghost use Rattle.segment_check.specs.Reading as reading;
ghost use Rattle.segment_check.specs.Reading.{finding_if, findings_with, found_in};
ghost use Rattle.usfm_token.specs.Tokens.{Lexeme};
ghost use Rattle.usfm_token.specs.View.{mark_parts};
ghost use Rattle.verse_cut.specs.Keys.{text_after};

use crate::code::Code;
use crate::finding::Finding;
use crate::numbers::{
    Verse, fails_bridge, further, key_of, lacks_number, mark_chapter, mark_verse, reaches,
};
use crate::seen::Seen;
use std::alloc::{AllocError, Global};
use usfm_ref::{Key, VerseMark};
use usfm_token::{Mark, Token, TokenIter};

// Which codes hold at a mark.
#[derive(Clone, Copy)]
struct Held {
    seen: Seen,
    bad_number: bool,
    bad_bridge: bool,
    not_rising: bool,
    overlap: bool,
}

// How far a walk over the marks of a text has come: the key of the piece that is open, the last
// verse of its chapter that a bridge reaches so far, and what the tree says of the marks that are
// left.
#[derive(Drop)]
struct Walk<'t> {
    key: Key,
    reach: Option<Verse>,
    seen: &'t [Seen],
}

impl Walk<'_> {
    ghost use Rattle.segment_check.specs.Reading.{state_after, found_with, held_at, seen_first, seen_rest};
    ghost use Rattle.segment_check.specs.Loops.WalkViews.{state_of};

    // Takes what the tree says of the next mark.
    fn take_seen(&mut self) -> Seen
        ensures first { result ≡ seen_first (state_of self.old).seen }
        ensures rest { let st = state_of self.old in
            state_of self.new ≡ record st { seen = seen_rest st.seen } }
    {
        match self.seen {
            [] => Seen::nothing(),
            [seen, rest @ ..] => {
                self.seen = rest;
                *seen
            }
        }
    }

    // Takes a mark, and what comes after it.
    fn take(&mut self, mark: Mark<'_>, after: &str) -> Held
        ensures held { let st = state_of self.old in
            result ≡ held_at st (mark_parts mark.entry) after.now }
        ensures state_after { let st = state_of self.old in
            state_of self.new ≡ state_after st (mark_parts mark.entry) after.now }
    {
        let seen = self.take_seen();
        let verse = mark_verse(mark, after);
        let key = key_of(self.key.chapter, mark_chapter(mark, after), verse);
        let opens = is_above(self.key, key);
        let held = Held {
            seen,
            bad_number: lacks_number(mark, after),
            bad_bridge: has_bad_bridge(verse, after),
            not_rising: key.is_some() && !opens,
            overlap: opens && overlaps(self.reach, verse),
        };
        if opens {
            self.reach = reach_with(self.reach, verse);
        }
        self.key = key_then(self.key, key);
        held
    }

    // Takes a mark, and puts what is found at it after the other findings.
    fn find(
        &mut self,
        findings: &mut Vec<Finding>,
        start: usize,
        mark: Mark<'_>,
        after: &str,
    ) -> Result<(), AllocError>
        ensures found { let st = state_of self.old in
            let found = found_with st start (mark_parts mark.entry) after.now in
            OnOk result (findings.new.items ≡ findings.old.items ++ found) }
        ensures state_after { let st = state_of self.old in
            OnOk result (state_of self.new ≡ state_after st (mark_parts mark.entry) after.now) }
    {
        let held = self.take(mark, after);
        let key = self.key;
        push_held(findings, held, start, key)
    }
}

fn is_above(key: Key, found: Option<Key>) -> bool
    ensures { result ≡ reading.is_above key found }
{
    match found {
        None => false,
        Some(found) => key < found,
    }
}

// The key of the piece that is open after a mark with this key.
fn key_then(key: Key, found: Option<Key>) -> Key
    ensures { result ≡ reading.key_then key found }
{
    match found {
        None => key,
        Some(found) => { if key < found { found } else { key } }
    }
}

// Whether a bridge before it reaches a verse.
fn overlaps(reach: Option<Verse>, verse: Option<VerseMark>) -> bool
    ensures { result ≡ option_map_or (reading.any_reaches reach) verse false }
{
    match (verse, reach) {
        (Some(verse), Some(reach)) => reaches(reach, verse),
        _ => false,
    }
}

// How far bridges reach after a mark that opens a piece: its verse's bridge counts, and at the
// head of a chapter none does.
fn reach_with(reach: Option<Verse>, verse: Option<VerseMark>) -> Option<Verse>
    ensures { result ≡ reading.reach_with reach verse }
{
    match verse {
        None => None,
        Some(verse) => further(reach, verse.last),
    }
}

fn has_bad_bridge(verse: Option<VerseMark>, after: &str) -> bool
    ensures { result ≡ option_map_or (fails_bridge after.now) verse false }
{
    match verse {
        None => false,
        Some(verse) => fails_bridge(verse, after),
    }
}

// The text of the next token, empty where that is a mark or there is none.
fn text_of<'a>(next: Option<Token<'a>>) -> &'a str
    ensures { (ts : List Lexeme) → IsFirst next.entry ts → result.now ≡ text_after ts }
{
    match next {
        Some(Token::Text(text)) => text,
        Some(Token::Mark(_)) | None => "",
    }
}

fn push_if(
    findings: &mut Vec<Finding>,
    holds: bool,
    code: Code,
    start: usize,
    key: Key,
) -> Result<(), AllocError>
    ensures { let found = finding_if holds code start key in
        OnOk result (findings.new.items ≡ findings.old.items ++ found) }
{
    if holds {
        findings.push(Finding { code, start, key })?;
    }
    Ok(())
}

// The findings at a mark, in the order of the codes.
fn push_held(
    findings: &mut Vec<Finding>,
    held: Held,
    start: usize,
    key: Key,
) -> Result<(), AllocError>
    ensures { let found = findings_with held start key in
        OnOk result (findings.new.items ≡ findings.old.items ++ found) }
{
    let seen = held.seen;
    push_if(
        findings,
        seen.unknown_marker,
        Code::UnknownMarker,
        start,
        key,
    )?;
    push_if(findings, seen.stray_close, Code::StrayClose, start, key)?;
    push_if(findings, seen.unclosed_char, Code::UnclosedChar, start, key)?;
    push_if(findings, seen.unclosed_note, Code::UnclosedNote, start, key)?;
    push_if(findings, seen.too_deep, Code::TooDeep, start, key)?;
    push_if(findings, held.bad_number, Code::BadNumber, start, key)?;
    push_if(findings, held.bad_bridge, Code::BadBridge, start, key)?;
    push_if(findings, held.not_rising, Code::NotRising, start, key)?;
    push_if(findings, held.overlap, Code::Overlap, start, key)?;
    push_if(findings, seen.not_under, Code::NotUnder, start, key)?;
    Ok(())
}

// The findings at the marks of a text, where the tree says this of its marks.
pub(crate) fn find_marks(
    alloc: Global,
    text: &str,
    seen: &[Seen],
) -> Result<Vec<Finding>, AllocError>
    ensures { IfOk result (λ list. list.items ≡ found_in seen.now text.now) }
{
    let mut findings = Vec::new(alloc);
    let mut walk = Walk {
        key: Key::chapter_head(0),
        reach: None,
        seen,
    };
    let mut tokens = TokenIter::new(text);
    let mut at = text;
    let mut next = tokens.next();
    while let Some(token) = next {
        let start = text.len() - at.len();
        at = tokens.rest();
        next = tokens.next();
        if let Token::Mark(mark) = token {
            walk.find(&mut findings, start, mark, text_of(next))?;
        }
    }
    Ok(findings)
}
