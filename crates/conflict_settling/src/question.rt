// What a person reads of a conflict.
ghost use Rattle.std.specs.Prelude.{◌≡◌, ℕ, ◌==◌, ◌++◌, [], ◌∷◌, codes, length, map, string_bytes};
ghost use Rattle.std.specs.Prelude.{IfOk, OnOk, if◌then◌else◌};
ghost use Rattle.std.specs.Fmt.{decimal};
ghost use Rattle.std.specs.List.{flat_map};
ghost use Rattle.usfm_ref.specs.Segments.{segment};
ghost use Rattle.op_core.specs.Shown as picks;
ghost use Rattle.conflict_settling.specs.Entries.{view, views};
ghost use Rattle.conflict_settling.specs.Questions as questions;
ghost use Rattle.plain_line.specs.Plain as plain;
ghost use Rattle.word_diff.specs.Parts.{spans};

use crate::numbers::TextNumbers;
use crate::sides::Entry;
use op_core::{Op, Picked};
use plain_line::{CarriageReturn, push_text};
use std::alloc::{AllocError, Global};
use usfm_ref::{Book, Key, write_ref};
use word_diff::{Kind, Part};

const CHOICE: &str =
    "Type the number of the text to keep, e to type your own, s to skip, q to stop.\n";

/// How what differs is set off.
#[derive(Clone, Copy, Debug, PartialEq, Eq)]
pub enum Manner {
    /// Between `[` and `]`.
    Brackets,
    /// In reverse video, by a terminal's escape sequences.
    Reverse,
}

impl Manner {
    // What is written before what differs.
    fn opening(self) -> &'static str
        ensures { result.now ≡ questions.opening self }
    {
        match self {
            Manner::Brackets => "[",
            Manner::Reverse => "\x1b[7m",
        }
    }

    // What is written after it.
    fn closing(self) -> &'static str
        ensures { result.now ≡ questions.closing self }
    {
        match self {
            Manner::Brackets => "]",
            Manner::Reverse => "\x1b[27m",
        }
    }
}

// Adds the first line: the segment, and how many conflicts are left.
pub(crate) fn push_head(
    alloc: Global,
    bytes: &mut Vec<u8>,
    book: Book,
    key: Key,
    left: usize,
) -> Result<(), AllocError>
    ensures { OnOk result (bytes.new.items ≡ bytes.old.items
        ++ questions.head_line (segment book key) left) }
{
    let reference = write_ref(alloc, book, key)?;
    let line = format!(in alloc; "\n{reference}, {left} left\n\n")?;
    bytes.extend_from_slice(line.as_bytes())
}

// Adds the text before the segment, if the book has one there.
pub(crate) fn push_before(
    alloc: Global,
    bytes: &mut Vec<u8>,
    before: &Picked<'_>,
) -> Result<(), AllocError>
    ensures { OnOk result (bytes.new.items ≡ bytes.old.items
        ++ questions.before_lines (picks.picked_text (picks.picked before.now))) }
{
    match before {
        Picked::Nothing => Ok(()),
        Picked::Held(op) => push_context(alloc, bytes, op.text_or_empty()),
        Picked::ChapterLine(chapter) => {
            let line = format!(in alloc; "\\c {chapter}\n")?;
            push_context(alloc, bytes, &line)
        }
    }
}

fn push_context(alloc: Global, bytes: &mut Vec<u8>, text: &str) -> Result<(), AllocError>
    ensures { OnOk result (bytes.new.items ≡ bytes.old.items ++ questions.before_lines text.now) }
{
    if text.is_empty() {
        return Ok(());
    }
    bytes.extend_from_slice(b"before it:\n")?;
    push_plain(alloc, bytes, text, CarriageReturn::LeftOut)?;
    bytes.push(b'\n')?;
    Ok(())
}

// Adds a text in which each control character but the line feed is spelled out.
fn push_plain(
    alloc: Global,
    bytes: &mut Vec<u8>,
    text: &str,
    returns: CarriageReturn,
) -> Result<(), AllocError>
    ensures { OnOk result (bytes.new.items ≡ bytes.old.items ++ plain.text returns text.now) }
{
    let mut plain = String::new(alloc);
    push_text(&mut plain, text, returns)?;
    bytes.extend_from_slice(plain.as_bytes())
}

// Adds the texts, each with its number and who made it.
pub(crate) fn push_entries(
    alloc: Global,
    bytes: &mut Vec<u8>,
    entries: &[Entry<'_>],
    picked: &Picked<'_>,
    manner: Manner,
) -> Result<(), AllocError>
    ensures { OnOk result (bytes.new.items ≡ bytes.old.items
        ++ flat_map (questions.entry_lines manner (picks.picked picked.now)) (views entries.now)) }
{
    for entry in entries {
        push_entry_head(alloc, bytes, entry, picked)?;
        push_side(alloc, bytes, entry, manner)?;
        bytes.push(b'\n')?;
    }
    Ok(())
}

// Adds the line before a text: its number, the id of its operation, whether the book has it, and
// whether it is empty.
fn push_entry_head(
    alloc: Global,
    bytes: &mut Vec<u8>,
    entry: &Entry<'_>,
    picked: &Picked<'_>,
) -> Result<(), AllocError>
    ensures { OnOk result (bytes.new.items ≡ bytes.old.items
        ++ questions.entry_head (picks.picked picked.now) (view entry.now)) }
{
    let number = entry.number;
    let id = id_words(alloc, entry.op)?;
    let mark = if number == 1 {
        pick_mark(alloc, picked)?
    } else {
        String::new(alloc)
    };
    let none = if entry.op.text_or_empty().is_empty() {
        ", no text"
    } else {
        ""
    };
    let line = format!(in alloc; "{number}: {id}{mark}{none}\n")?;
    bytes.extend_from_slice(line.as_bytes())
}

// The number and the name of an operation's id.
fn id_words(alloc: Global, op: &Op) -> Result<String, AllocError>
    ensures { IfOk result (λ words. string_bytes words ≡ questions.id_words op.now.id) }
{
    let id = op.id();
    let number = id.number;
    let name = id.name.text();
    format!(in alloc; "{number} {name}")
}

// What is said of the text that is picked.
fn pick_mark(alloc: Global, picked: &Picked<'_>) -> Result<String, AllocError>
    ensures { IfOk result (λ mark.
        string_bytes mark ≡ questions.pick_mark (picks.picked picked.now)) }
{
    match picked {
        Picked::Nothing => Ok(String::new(alloc)),
        Picked::Held(_) => String::from_str(alloc, ", in the book"),
        Picked::ChapterLine(chapter) => format!(in alloc; ", in the book as \\c {chapter}"),
    }
}

// Adds a text, with what differs set off.
fn push_side(
    alloc: Global,
    bytes: &mut Vec<u8>,
    entry: &Entry<'_>,
    manner: Manner,
) -> Result<(), AllocError>
    ensures { OnOk result (bytes.new.items ≡ bytes.old.items
        ++ questions.side manner (view entry.now)) }
{
    let is_first = entry.number == 1;
    for part in &entry.parts {
        push_part(alloc, bytes, is_first, part, manner)?;
    }
    Ok(())
}

// Adds a part of two texts, if it is on this side: that of the first text, or else the other.
fn push_part(
    alloc: Global,
    bytes: &mut Vec<u8>,
    is_first: bool,
    part: &Part<'_>,
    manner: Manner,
) -> Result<(), AllocError>
    ensures { OnOk result (bytes.new.items ≡ bytes.old.items
        ++ questions.part_on manner is_first part.now) }
{
    let is_here = if is_first {
        part.kind.is_old()
    } else {
        part.kind.is_new()
    };
    if !is_here {
        return Ok(());
    }
    if part.kind == Kind::Kept {
        push_plain(alloc, bytes, part.text, CarriageReturn::LeftOut)
    } else {
        push_set_off(alloc, bytes, part.text, manner)
    }
}

// Adds what differs, each line of it set off by itself. Two texts may differ in line ends alone.
fn push_set_off(
    alloc: Global,
    bytes: &mut Vec<u8>,
    text: &str,
    manner: Manner,
) -> Result<(), AllocError>
    ensures { OnOk result (bytes.new.items ≡ bytes.old.items ++ questions.set_off manner text.now) }
{
    let mut plain = String::new(alloc);
    push_text(&mut plain, text, CarriageReturn::Spelled)?;
    bytes.extend_from_slice(manner.opening().as_bytes())?;
    for byte in plain.as_bytes() {
        push_byte(bytes, *byte, manner)?;
    }
    bytes.extend_from_slice(manner.closing().as_bytes())
}

// Adds a byte of what differs. A line feed stands outside.
fn push_byte(bytes: &mut Vec<u8>, byte: u8, manner: Manner) -> Result<(), AllocError>
    ensures { OnOk result (bytes.new.items ≡ bytes.old.items
        ++ questions.set_off_byte manner byte) }
{
    if byte != b'\n' {
        bytes.push(byte)?;
        return Ok(());
    }
    bytes.extend_from_slice(manner.closing().as_bytes())?;
    bytes.push(b'\n')?;
    bytes.extend_from_slice(manner.opening().as_bytes())
}

// Adds a line for each operation that has one of these texts too.
pub(crate) fn push_repeated(
    alloc: Global,
    bytes: &mut Vec<u8>,
    texts: &TextNumbers<'_, '_>,
    ops: &[&Op],
) -> Result<(), AllocError>
    ensures { let texts = map (λ op. op.now) texts.now.ops.now in
        OnOk result (bytes.new.items ≡ bytes.old.items
        ++ flat_map (λ op. questions.repeated_line texts op.now) ops.now) }
{
    for op in ops {
        let line = repeated_line(alloc, texts, op)?;
        bytes.extend_from_slice(line.as_bytes())?;
    }
    Ok(())
}

fn repeated_line(alloc: Global, texts: &TextNumbers<'_, '_>, op: &Op) -> Result<String, AllocError>
    ensures { let texts = map (λ op. op.now) texts.now.ops.now in
        IfOk result (λ line. string_bytes line ≡ questions.repeated_line texts op.now) }
{
    let id = id_words(alloc, op)?;
    let number = texts.number_of(op.text_or_empty());
    format!(in alloc; "{id} has text {number} too\n")
}

// Adds the last line: what may be answered.
pub(crate) fn push_choice(bytes: &mut Vec<u8>) -> Result<(), AllocError>
    ensures { OnOk result (bytes.new.items ≡ bytes.old.items ++ questions.choice_line) }
{
    bytes.extend_from_slice(CHOICE.as_bytes())
}
