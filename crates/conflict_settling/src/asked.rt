// The next conflict that is asked.
ghost use Rattle.std.specs.Prelude.{◌≡◌, ◌++◌, length, map, OnOk, IfOk, string_bytes};
ghost use Rattle.usfm_ref.specs.Segments.{segment};
ghost use Rattle.conflict_settling.specs.Answers.{Answers};
ghost use Rattle.conflict_settling.specs.Asked as asked;
ghost use Rattle.conflict_settling.specs.declared.asked.SettleFault.TheVariants as settling;

use crate::answer::{Answer, numbered};
use crate::book_texts::BookTexts;
use crate::numbers::TextNumbers;
use crate::pending::open_conflicts;
use crate::question::{Manner, push_before, push_choice, push_entries, push_head, push_repeated};
use crate::sides::compare;
use crate::wanted::{Wanted, has_books};
use conflict_report::{ShownTexts, shown_texts};
use op_core::{Op, OpId};
use replica_state::Replica;
use std::alloc::{AllocError, Global};
use std::marker::Model;
use thiserror::Error;
use usfm_ref::{Book, Key, Segment};

/// Why nothing is asked.
#[derive(Clone, Copy, Debug, PartialEq, Eq, Error)]
pub enum SettleFault {
    /// 1: an allocation failed.
    #[error("out of memory")]
    Memory,
    /// 82: the project has no operation of a book that is wanted.
    #[error("no such book")]
    NoBook,
}

impl From<AllocError> for SettleFault {
    ghost from_gives = { λ _ fault. fault ≡ settling.Memory };

    fn from(_: AllocError) -> Self {
        SettleFault::Memory
    }
}

/// A conflict as it is asked: what a person reads, and what an answer needs. It is a copy: the
/// replica may change before the answer comes.
#[derive(Debug, Drop)]
pub struct Asked {
    segment: Segment,
    ids: Vec<OpId>,
    texts: Vec<String>,
    question: Vec<u8>,
}

impl Model for Asked {
    ghost use Rattle.std.specs.Prelude.{map, string_bytes};
    ghost use Rattle.conflict_settling.specs.Asked.{AskedParts};

    ghost Value = { AskedParts };

    ghost view = { λ a. record {
      segment = a.segment;
      ids = a.ids.items;
      texts = map (λ t. string_bytes t) a.texts.items;
      question = a.question.items;
    } };
}

impl Asked {
    /// The segment.
    pub fn segment(&self) -> Segment
        ensures { result ≡ self.now.segment }
    {
        self.segment
    }

    /// The ids that the question has: what an answer replaces, and nothing else.
    pub fn ids(&self) -> &[OpId]
        ensures { result.now ≡ self.now.ids }
    {
        &self.ids
    }

    /// What a person reads: the segment, the text before it, its distinct texts by number, each
    /// with who made it and with what differs set off, and what may be answered.
    pub fn question(&self) -> &[u8]
        ensures { result.now ≡ self.now.question }
    {
        &self.question
    }

    /// What a line answers, without the blanks around it: a number, the text with this number; `e`,
    /// a text of one's own; `s`, nothing here; `q`, nothing more. Any other line leaves the
    /// question as it is.
    pub fn answer(&self, line: &str) -> Answer<'_>
        ensures { Answers self.now.texts line.now result }
    {
        match line.trim_ascii() {
            "e" => Answer::Own,
            "s" => Answer::Skip,
            "q" => Answer::Stop,
            word => match numbered(&self.texts, word) {
                Some(text) => Answer::Take(text),
                None => Answer::Unclear,
            },
        }
    }
}

/// The first of the conflicts that are wanted and come after the segment that was passed
/// (`open_conflicts`), as it is asked. None where there is none.
///
/// # Errors
/// - `NoBook` (82) exactly where a book that is wanted, or that of a wanted segment, has no
///   operation.
/// - `Memory` (1) where an allocation failed.
pub fn next_question(
    alloc: Global,
    replica: &Replica,
    wanted: &[Wanted],
    passed: Option<Segment>,
    manner: Manner,
) -> Result<Option<Asked>, SettleFault>
    ensures { asked.Asks replica.now.held wanted.now passed manner result }
{
    if !has_books(replica, wanted) {
        return Err(SettleFault::NoBook);
    }
    let open = open_conflicts(alloc, replica, wanted, passed)?;
    match open.first() {
        None => Ok(None),
        Some(segment) => {
            let asked = ask(
                alloc,
                replica,
                segment.book,
                segment.key,
                open.len(),
                manner,
            )?;
            Ok(Some(asked))
        }
    }
}

// A segment as it is asked, where this many conflicts are left.
fn ask(
    alloc: Global,
    replica: &Replica,
    book: Book,
    key: Key,
    left: usize,
    manner: Manner,
) -> Result<Asked, AllocError>
    ensures { IfOk result (asked.IsAskedOf replica.now.held (segment book key) left manner) }
{
    let shown = shown_texts(alloc, &mut replica.set().cursor(), book, key)?;
    let ids = ids_of(alloc, &shown)?;
    let texts = texts_of(alloc, &shown.distinct)?;
    let question = question_of(alloc, replica, book, key, left, manner, &shown)?;
    Ok(Asked {
        segment: Segment { book, key },
        ids,
        texts,
        question,
    })
}

// The ids of all operations that a segment shows, in the order of the question.
fn ids_of(alloc: Global, shown: &ShownTexts<'_>) -> Result<Vec<OpId>, AllocError>
    ensures { IfOk result (λ ids. ids.items
        ≡ map (λ op. op.now.id) shown.now.distinct.items
        ++ map (λ op. op.now.id) shown.now.repeated.items) }
{
    let mut ids = Vec::new(alloc);
    push_ids(&mut ids, &shown.distinct)?;
    push_ids(&mut ids, &shown.repeated)?;
    Ok(ids)
}

fn push_ids(ids: &mut Vec<OpId>, ops: &[&Op]) -> Result<(), AllocError>
    ensures { OnOk result (ids.new.items ≡ ids.old.items ++ map (λ op. op.now.id) ops.now) }
{
    for op in ops {
        ids.push(op.id())?;
    }
    Ok(())
}

// Copies of the texts.
fn texts_of(alloc: Global, ops: &[&Op]) -> Result<Vec<String>, AllocError>
    ensures { IfOk result (λ texts. map (λ t. string_bytes t) texts.items
        ≡ map (λ op. asked.own_text op.now) ops.now) }
{
    let mut texts = Vec::new(alloc);
    for op in ops {
        texts.push(String::from_str(alloc, op.text_or_empty())?)?;
    }
    Ok(texts)
}

// What a person reads of a segment that shows these texts.
fn question_of(
    alloc: Global,
    replica: &Replica,
    book: Book,
    key: Key,
    left: usize,
    manner: Manner,
    shown: &ShownTexts<'_>,
) -> Result<Vec<u8>, AllocError>
    ensures { IfOk result (λ bytes.
        asked.IsQuestionOf replica.now.held (segment book key) left manner
        (map (λ op. op.now) shown.now.distinct.items)
        (map (λ op. op.now) shown.now.repeated.items) bytes.items) }
{
    let entries = compare(alloc, &shown.distinct)?;
    let texts = BookTexts::of(alloc, replica, book)?;
    let mut bytes = Vec::new(alloc);
    push_head(alloc, &mut bytes, book, key, left)?;
    push_before(alloc, &mut bytes, &texts.before(key))?;
    push_entries(
        alloc,
        &mut bytes,
        &entries,
        &replica.pick(book, key),
        manner,
    )?;
    let numbers = TextNumbers::new(alloc, &shown.distinct)?;
    push_repeated(alloc, &mut bytes, &numbers, &shown.repeated)?;
    push_choice(&mut bytes)?;
    Ok(bytes)
}
