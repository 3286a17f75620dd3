// The conflicts, each with its texts side by side.
ghost use Rattle.std.specs.Prelude.{◌≡◌, ◌==◌, ◌++◌, OnOk, map};
ghost use Rattle.std.specs.List.{flat_map};
ghost use Rattle.op_core.specs.Ops.{own_text};
ghost use Rattle.op_core.specs.Shown as picks;
ghost use Rattle.conflict_settling.specs.Entries.{view, views};
ghost use Rattle.project_page.specs.Pages as pages;
ghost use Rattle.project_page.specs.Parts.{conflict_view};
ghost use Rattle.project_page.specs.Said.{said};

use crate::PageConflict;
use crate::markup::{
    AFTER, BEFORE, CONFLICT, CONFLICT_END, CONFLICTS, COUNT_END, DIFFERS, DIFFERS_END, DIV_END,
    ENTRY, ENTRY_BY, ID, ID_NAME, IN_BOOK, IN_BOOK_AS, LEGEND, LINE_END, NAMED, NO_TEXT, REPEATED,
    TEXT, TEXTS,
};
use crate::said::{push_html, push_id_line, push_name, push_number, push_text};
use conflict_settling::Entry;
use op_core::{Op, OpId, Picked};
use plain_line::CarriageReturn;
use std::alloc::{AllocError, Global};
use usfm_ref::write_ref;
use word_diff::{Kind, Part};

// Adds how many conflicts there are, and each of them.
#[tactic(auto, unfolding(crate::specs::Pages::conflicts))]
pub(crate) fn push_conflicts(
    alloc: Global,
    page: &mut Vec<u8>,
    conflicts: &[PageConflict<'_>],
) -> Result<(), AllocError>
    ensures { OnOk result (page.new.items
        ≡ page.old.items ++ pages.conflicts said (map conflict_view conflicts.now)) }
{
    push_number(alloc, page, CONFLICTS, conflicts.len())?;
    push_html(page, COUNT_END)?;
    for conflict in conflicts {
        push_conflict(alloc, page, conflict)?;
    }
    Ok(())
}

#[tactic(auto, unfolding(crate::specs::Pages::conflict))]
fn push_conflict(
    alloc: Global,
    page: &mut Vec<u8>,
    conflict: &PageConflict<'_>,
) -> Result<(), AllocError>
    ensures { OnOk result (page.new.items
        ≡ page.old.items ++ pages.conflict said (conflict_view conflict.now)) }
{
    let reference = write_ref(alloc, conflict.book, conflict.key)?;
    push_html(page, CONFLICT)?;
    push_ids(alloc, page, conflict)?;
    push_html(page, LEGEND)?;
    push_name(alloc, page, reference.as_str())?;
    push_html(page, NAMED)?;
    push_near(alloc, page, BEFORE, &conflict.before)?;
    push_entries(alloc, page, &conflict.entries, &conflict.picked)?;
    push_repeated(alloc, page, &conflict.repeated)?;
    push_near(alloc, page, AFTER, &conflict.after)?;
    push_html(page, CONFLICT_END)
}

// Adds the ids that an answer is over.
#[tactic(auto, unfolding(crate::specs::Pages::id_words))]
fn push_ids(
    alloc: Global,
    page: &mut Vec<u8>,
    conflict: &PageConflict<'_>,
) -> Result<(), AllocError>
    ensures { OnOk result (page.new.items
        ≡ page.old.items ++ pages.id_words said (conflict_view conflict.now)) }
{
    push_entry_ids(alloc, page, &conflict.entries)?;
    push_repeated_ids(alloc, page, &conflict.repeated)
}

// Adds the ids of the texts.
fn push_entry_ids(
    alloc: Global,
    page: &mut Vec<u8>,
    entries: &[Entry<'_>],
) -> Result<(), AllocError>
    ensures { OnOk result (page.new.items ≡ page.old.items
        ++ flat_map (λ e. pages.id_word said e.op.id) (views entries.now)) }
{
    for entry in entries {
        push_id_word(alloc, page, &entry.op.id())?;
    }
    Ok(())
}

// Adds the ids of the operations that have one of the texts too.
fn push_repeated_ids(alloc: Global, page: &mut Vec<u8>, ops: &[&Op]) -> Result<(), AllocError>
    ensures { OnOk result (page.new.items ≡ page.old.items
        ++ flat_map (λ o. pages.id_word said o.id) (map (λ op. op.now) ops.now)) }
{
    for op in ops {
        push_id_word(alloc, page, &op.id())?;
    }
    Ok(())
}

// Adds an id as an answer names it, after a space.
#[tactic(auto, unfolding(crate::specs::Pages::id_word))]
fn push_id_word(alloc: Global, page: &mut Vec<u8>, id: &OpId) -> Result<(), AllocError>
    ensures { OnOk result (page.new.items ≡ page.old.items ++ pages.id_word said id.now) }
{
    push_number(alloc, page, ID, id.number as usize)?;
    push_html(page, ID_NAME)?;
    push_name(alloc, page, id.name.text())
}

// Adds a text that stands before or after, after the piece that says so, unless it is empty.
#[tactic(auto, unfolding(crate::specs::Pages::near))]
fn push_near(alloc: Global, page: &mut Vec<u8>, html: &str, text: &str) -> Result<(), AllocError>
    ensures { OnOk result (page.new.items
        ≡ page.old.items ++ pages.near said html.now text.now) }
{
    if text.is_empty() {
        return Ok(());
    }
    push_html(page, html)?;
    push_text(alloc, page, text, CarriageReturn::LeftOut)?;
    push_html(page, LINE_END)
}

// Adds the texts side by side.
#[tactic(auto, unfolding(crate::specs::Pages::texts))]
fn push_entries(
    alloc: Global,
    page: &mut Vec<u8>,
    entries: &[Entry<'_>],
    picked: &Picked<'_>,
) -> Result<(), AllocError>
    ensures { OnOk result (page.new.items ≡ page.old.items
        ++ pages.texts said (picks.picked picked.now) (views entries.now)) }
{
    push_html(page, TEXTS)?;
    for entry in entries {
        push_entry(alloc, page, entry, picked)?;
    }
    push_html(page, DIV_END)
}

#[tactic(auto, unfolding(crate::specs::Pages::entry))]
fn push_entry(
    alloc: Global,
    page: &mut Vec<u8>,
    entry: &Entry<'_>,
    picked: &Picked<'_>,
) -> Result<(), AllocError>
    ensures { OnOk result (page.new.items ≡ page.old.items
        ++ pages.entry said (picks.picked picked.now) (view entry.now)) }
{
    push_number(alloc, page, ENTRY, entry.number)?;
    push_id_line(alloc, page, ENTRY_BY, &entry.op.id())?;
    push_pick(alloc, page, entry.number, picked)?;
    push_entry_text(alloc, page, entry)?;
    push_html(page, DIV_END)
}

// Adds what is picked, if the text of this number is the first.
#[tactic(auto, unfolding(crate::specs::Pages::pick_on))]
fn push_pick(
    alloc: Global,
    page: &mut Vec<u8>,
    number: usize,
    picked: &Picked<'_>,
) -> Result<(), AllocError>
    ensures { OnOk result (page.new.items
        ≡ page.old.items ++ pages.pick_on number (picks.picked picked.now)) }
{
    if number != 1 {
        return Ok(());
    }
    match picked {
        Picked::Nothing => Ok(()),
        Picked::Held(_) => push_html(page, IN_BOOK),
        Picked::ChapterLine(chapter) => {
            push_number(alloc, page, IN_BOOK_AS, usize::from(*chapter))?;
            push_html(page, LINE_END)
        }
    }
}

// Adds one of the texts, with what differs marked.
#[tactic(auto, unfolding(crate::specs::Pages::entry_text))]
fn push_entry_text(alloc: Global, page: &mut Vec<u8>, entry: &Entry<'_>) -> Result<(), AllocError>
    ensures { OnOk result (page.new.items
        ≡ page.old.items ++ pages.entry_text said (view entry.now)) }
{
    if has_no_text(entry.op) {
        return push_html(page, NO_TEXT);
    }
    push_html(page, TEXT)?;
    push_side(alloc, page, entry.number == 1, &entry.parts)?;
    push_html(page, LINE_END)
}

// Whether the text of an operation is empty.
fn has_no_text(op: &Op) -> bool
    ensures { result ≡ picks.is_empty (own_text op.now) }
{
    op.text_or_empty().is_empty()
}

// Adds the parts of two texts that are on one side: that of the first text, or else the other.
fn push_side(
    alloc: Global,
    page: &mut Vec<u8>,
    is_first: bool,
    parts: &[Part<'_>],
) -> Result<(), AllocError>
    ensures { OnOk result (page.new.items
        ≡ page.old.items ++ flat_map (pages.part_on said is_first) parts.now) }
{
    for part in parts {
        push_part_on(alloc, page, is_first, part)?;
    }
    Ok(())
}

// Adds a part, if it is on this side.
#[tactic(auto, unfolding(crate::specs::Pages::part_on))]
fn push_part_on(
    alloc: Global,
    page: &mut Vec<u8>,
    is_first: bool,
    part: &Part<'_>,
) -> Result<(), AllocError>
    ensures { OnOk result (page.new.items
        ≡ page.old.items ++ pages.part_on said is_first part.now) }
{
    if is_here(is_first, part.kind) {
        push_part(alloc, page, part)
    } else {
        Ok(())
    }
}

fn is_here(is_first: bool, kind: Kind) -> bool
    ensures { result ≡ pages.is_here is_first kind }
{
    if is_first {
        kind.is_old()
    } else {
        kind.is_new()
    }
}

// Adds a part: what is not in both texts is marked. Two texts may differ in line ends alone.
#[tactic(auto, unfolding(crate::specs::Pages::part_said))]
fn push_part(alloc: Global, page: &mut Vec<u8>, part: &Part<'_>) -> Result<(), AllocError>
    ensures { OnOk result (page.new.items ≡ page.old.items ++ pages.part_said said part.now) }
{
    if part.kind == Kind::Kept {
        return push_text(alloc, page, part.text, CarriageReturn::LeftOut);
    }
    push_html(page, DIFFERS)?;
    push_text(alloc, page, part.text, CarriageReturn::Spelled)?;
    push_html(page, DIFFERS_END)
}

// Adds a line for each operation that has one of the texts too.
fn push_repeated(alloc: Global, page: &mut Vec<u8>, ops: &[&Op]) -> Result<(), AllocError>
    ensures { OnOk result (page.new.items
        ≡ page.old.items ++ flat_map (pages.repeated said) (map (λ op. op.now) ops.now)) }
{
    for op in ops {
        push_id_line(alloc, page, REPEATED, &op.id())?;
    }
    Ok(())
}
