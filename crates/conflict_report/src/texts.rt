// The texts that a segment shows. What is shown is not replaced, so it has its text.
ghost use Rattle.std.specs.Prelude.{◌≡◌, IfOk, map};
ghost use Rattle.usfm_ref.specs.Segments.{segment};
ghost use Rattle.conflict_report.specs.Reports as reports;

use op_core::{Cursor, Op};
use std::alloc::{AllocError, Global};
use std::collections::BTreeSet;
use usfm_ref::{Book, Key};

/// The operations that a segment shows, lent from their set, in two lists in descending order
/// of ids.
#[derive(Debug, Drop)]
pub struct ShownTexts<'a> {
    /// Of each distinct text the operation with the greatest id that has it.
    pub distinct: Vec<&'a Op>,
    /// The others. Each has the text of a distinct one with a greater id.
    pub repeated: Vec<&'a Op>,
}

/// The texts that a segment shows, each once, and the operations that repeat one of them.
///
/// # Errors
/// Out of memory alone.
pub fn shown_texts<'a>(
    alloc: Global,
    cursor: &mut Cursor<'a>,
    book: Book,
    key: Key,
) -> Result<ShownTexts<'a>, AllocError>
    ensures distinct { IfOk result (λ texts.
        map (λ op. op.now) texts.distinct.items
        ≡ reports.distinct_texts cursor.old (segment book key)) }
    ensures repeated { IfOk result (λ texts.
        map (λ op. op.now) texts.repeated.items
        ≡ reports.repeated_texts cursor.old (segment book key)) }
    ensures same { cursor.new ≡ cursor.old }
{
    let mut shown = cursor.shown(alloc, book, key)?;
    let mut distinct = Vec::new(alloc);
    let mut repeated = Vec::new(alloc);
    let mut texts: BTreeSet<&str> = BTreeSet::new(alloc);
    'falling: while let Some(op) = shown.pop() {
        if texts.insert(op.text_or_empty())? {
            distinct.push(op)?;
        } else {
            repeated.push(op)?;
        }
    }
    Ok(ShownTexts { distinct, repeated })
}
