// The export of a book with the remarks of its conflicts.
ghost use Rattle.std.specs.Prelude.{◌≡◌, ◌++◌, ◌∷◌, [], IfOk, OnOk, map, string_bytes};
ghost use Rattle.std.specs.List.{flat_map};
ghost use Rattle.usfm_ref.specs.Segments.{segment};
ghost use Rattle.op_core.specs.Shown.{picked, picked_text};
ghost use Rattle.merged_file.specs.Remarks as remarks;

use crate::lines::{line_end, push_slashed};
use conflict_report::shown_texts;
use op_core::{Cursor, Op, Picked, chapter_line};
use replica_state::Replica;
use std::alloc::{AllocError, Global};
use usfm_export::exported_keys;
use usfm_ref::{Book, Key, write_ref};

// The export of a book, with the other texts of each conflict as remarks after the picked one.
pub(crate) fn marked_export(
    alloc: Global,
    replica: &Replica,
    book: Book,
) -> Result<Vec<u8>, AllocError>
    ensures { IfOk result (λ made.
        made.items ≡ remarks.marked_export replica.now.held book) }
{
    let mut made = Vec::new(alloc);
    let mut cursor = replica.set().cursor();
    for key in exported_keys(replica, book) {
        push_marked(alloc, &mut made, &mut cursor, book, key)?;
    }
    Ok(made)
}

// Adds what a segment's place in the book has.
fn push_marked(
    alloc: Global,
    made: &mut Vec<u8>,
    cursor: &mut Cursor<'_>,
    book: Book,
    key: Key,
) -> Result<(), AllocError>
    ensures marked { OnOk result (made.new.items
        ≡ made.old.items ++ remarks.marked_at cursor.old book key) }
    ensures same { cursor.new ≡ cursor.old }
{
    let text = picked(alloc, cursor.pick(book, key))?;
    made.extend_from_slice(&text)?;
    let texts = shown_texts(alloc, cursor, book, key)?.distinct;
    let [_, others @ ..] = texts.as_slice() else {
        return Ok(());
    };
    if others.is_empty() {
        return Ok(());
    }
    made.extend_from_slice(line_end(&text))?;
    for op in others {
        push_remarks(alloc, made, book, key, op)?;
    }
    Ok(())
}

// A copy of the text that is picked.
fn picked(alloc: Global, choice: Picked<'_>) -> Result<Vec<u8>, AllocError>
    ensures { IfOk result (λ text. text.items ≡ picked_text (picked choice.entry)) }
{
    match choice {
        Picked::Held(op) => op.text_or_empty().as_bytes().to_vec(alloc),
        Picked::ChapterLine(chapter) => chapter_line(chapter).bytes().to_vec(alloc),
        Picked::Nothing => Ok(Vec::new(alloc)),
    }
}

// Adds the remarks of a text.
fn push_remarks(
    alloc: Global,
    made: &mut Vec<u8>,
    book: Book,
    key: Key,
    op: &Op,
) -> Result<(), AllocError>
    ensures { OnOk result (made.new.items
        ≡ made.old.items ++ remarks.remarks_of (segment book key) op.now) }
{
    let begin = remark_begin(alloc, book, key, op)?;
    let text = op.text_or_empty();
    let mut left = text.strip_suffix('\n').unwrap_or(text);
    'lines: while let Some((line, later)) = left.split_once('\n') {
        push_remark(made, &begin, line)?;
        left = later;
    }
    push_remark(made, &begin, left)
}

// Adds a line of a text as a remark that begins so.
fn push_remark(made: &mut Vec<u8>, begin: &str, line: &str) -> Result<(), AllocError>
    ensures { OnOk result (made.new.items ≡ made.old.items
        ++ (begin.now ++ (map remarks.slashed line.now ++ 10 ∷ []))) }
{
    made.extend_from_slice(begin.as_bytes())?;
    push_slashed(made, line.as_bytes())?;
    made.push(b'\n')?;
    Ok(())
}

// How each remark of a text begins.
fn remark_begin(alloc: Global, book: Book, key: Key, op: &Op) -> Result<String, AllocError>
    ensures { IfOk result (λ begin.
        string_bytes begin ≡ remarks.remark_begin (segment book key) op.now.id.name) }
{
    let reference = write_ref(alloc, book, key)?;
    let id = op.id();
    let name = id.name.text();
    format!(in alloc; "\\rem conflict {reference} {name}: ")
}
