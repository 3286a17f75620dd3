// The lines that say how a project stands.
ghost use Rattle.std.specs.Prelude.{◌≡◌, ◌++◌, IfOk, OnOk};
ghost use Rattle.std.specs.List.{flat_map};
ghost use Rattle.op_core.specs.Lists.{awaited, books_of};
ghost use Rattle.project_status.specs.Lines as lines;
ghost use Rattle.project_status.specs.Numbers as numbers;

use crate::conflicts::differ;
use crate::makers::{Maker, makers_of, shown_names};
use crate::verses::push_verses;
use op_core::{OpId, OpSet, ReplicaName};
use std::alloc::{AllocError, Global};
use usfm_ref::{Book, write_ref};

// Adds the line of the copy's name.
pub(crate) fn push_copy(
    alloc: Global,
    name: &ReplicaName,
    text: &mut Vec<u8>,
) -> Result<(), AllocError>
    ensures { OnOk result (text.new.items ≡ text.old.items ++ lines.copy_line name.now) }
{
    let name = name.text();
    let line = format!(in alloc; "copy {name}\n")?;
    text.extend_from_slice(line.as_bytes())?;
    Ok(())
}

// Adds how what is held stands.
pub(crate) fn push_held(alloc: Global, set: &OpSet, text: &mut Vec<u8>) -> Result<(), AllocError>
    ensures { OnOk result (text.new.items ≡ text.old.items ++ lines.held_lines set.now) }
{
    push_counts(alloc, set, text)?;
    push_conflicts(alloc, set, text)?;
    push_awaited(alloc, set, text)
}

// Adds how much is held.
fn push_counts(alloc: Global, set: &OpSet, text: &mut Vec<u8>) -> Result<(), AllocError>
    ensures { OnOk result (text.new.items ≡ text.old.items ++ lines.count_lines set.now) }
{
    let books = books_of(alloc, set)?;
    push_books(alloc, books.len(), verses_written(alloc, set)?, text)?;
    let names = shown_names(alloc, set)?;
    push_shown(alloc, &makers_of(alloc, &names)?, text)?;
    let replaced = set.len().saturating_sub(names.len());
    push_replaced(alloc, replaced, thinned_count(set), text)
}

// The books with an operation, in their order.
fn books_of(alloc: Global, set: &OpSet) -> Result<Vec<Book>, AllocError>
    ensures { IfOk result (λ books. books.items ≡ books_of set.now) }
{
    let mut books = Vec::new(alloc);
    for book in set.books() {
        books.push(book)?;
    }
    Ok(books)
}

fn push_books(
    alloc: Global,
    books: usize,
    verses: usize,
    text: &mut Vec<u8>,
) -> Result<(), AllocError>
    ensures { OnOk result (text.new.items ≡ text.old.items ++ lines.books_line books verses) }
{
    if books == 0 {
        return Ok(());
    }
    let line = match verses {
        0 => format!(in alloc; "books {books}\n")?,
        _ => format!(in alloc; "books {books}, verses {verses}\n")?,
    };
    text.extend_from_slice(line.as_bytes())?;
    Ok(())
}

fn push_shown(alloc: Global, makers: &[Maker], text: &mut Vec<u8>) -> Result<(), AllocError>
    ensures { OnOk result (text.new.items ≡ text.old.items ++ lines.shown_line makers.now) }
{
    let [first, more @ ..] = makers else {
        return Ok(());
    };
    push_maker(alloc, "shown ", first, text)?;
    push_more(alloc, more, text)?;
    text.push(b'\n')?;
    Ok(())
}

// Adds makers, each after a comma.
fn push_more(alloc: Global, makers: &[Maker], text: &mut Vec<u8>) -> Result<(), AllocError>
    ensures { OnOk result (text.new.items ≡ text.old.items ++ lines.more_makers makers.now) }
{
    for maker in makers {
        push_maker(alloc, ", ", maker, text)?;
    }
    Ok(())
}

// Adds a maker after some words.
fn push_maker(
    alloc: Global,
    words: &str,
    maker: &Maker,
    text: &mut Vec<u8>,
) -> Result<(), AllocError>
    ensures { OnOk result (text.new.items
        ≡ text.old.items ++ (words.now ++ lines.maker_words maker.now)) }
{
    let name = maker.name.text();
    let count = maker.count;
    let told = format!(in alloc; "{words}{name} {count}")?;
    text.extend_from_slice(told.as_bytes())?;
    Ok(())
}

fn push_replaced(
    alloc: Global,
    replaced: usize,
    thinned: usize,
    text: &mut Vec<u8>,
) -> Result<(), AllocError>
    ensures { OnOk result (text.new.items
        ≡ text.old.items ++ lines.replaced_line replaced thinned) }
{
    if replaced == 0 {
        return Ok(());
    }
    let words = format!(in alloc; "replaced {replaced}")?;
    text.extend_from_slice(words.as_bytes())?;
    push_thinned(alloc, thinned, text)?;
    text.push(b'\n')?;
    Ok(())
}

// Adds how many of the replaced operations have no text.
fn push_thinned(alloc: Global, thinned: usize, text: &mut Vec<u8>) -> Result<(), AllocError>
    ensures { OnOk result (text.new.items ≡ text.old.items ++ lines.thinned_part thinned) }
{
    if thinned == 0 {
        return Ok(());
    }
    let words = format!(in alloc; ", of these {thinned} without their texts")?;
    text.extend_from_slice(words.as_bytes())?;
    Ok(())
}

/// How many operations are kept without their texts. It does not allocate.
pub fn thinned_count(set: &OpSet) -> usize
    ensures { result ≡ numbers.thinned_count set.now }
{
    set.iter().filter(|op| op.text().is_none()).count()
}

/// How many verses of all books are written, each segment counted once.
///
/// # Errors
/// Out of memory alone.
pub fn verses_written(alloc: Global, set: &OpSet) -> Result<usize, AllocError>
    ensures { IfOk result (λ count. count ≡ numbers.verses_written set.now) }
{
    let mut verses = Vec::new(alloc);
    for book in set.books() {
        push_verses(set, book, &mut verses)?;
    }
    Ok(verses.iter().filter(|verse| verse.written).count())
}

// Adds the conflicts of all books, in the order of books.
fn push_conflicts(alloc: Global, set: &OpSet, text: &mut Vec<u8>) -> Result<(), AllocError>
    ensures { OnOk result (text.new.items ≡ text.old.items
        ++ flat_map (lines.conflict_lines set.now) (books_of set.now)) }
{
    for book in set.books() {
        push_conflicts_in(alloc, set, book, text)?;
    }
    Ok(())
}

// Adds the conflicts of a book, by rising key.
fn push_conflicts_in(
    alloc: Global,
    set: &OpSet,
    book: Book,
    text: &mut Vec<u8>,
) -> Result<(), AllocError>
    ensures { OnOk result (text.new.items
        ≡ text.old.items ++ lines.conflict_lines set.now book) }
{
    let mut cursor = set.cursor();
    for key in set.keys(book) {
        if differ(&cursor.shown(alloc, book, key)?) {
            let reference = write_ref(alloc, book, key)?;
            let line = format!(in alloc; "conflict {reference}\n")?;
            text.extend_from_slice(line.as_bytes())?;
        }
    }
    Ok(())
}

// Adds the awaited ids, rising.
fn push_awaited(alloc: Global, set: &OpSet, text: &mut Vec<u8>) -> Result<(), AllocError>
    ensures { OnOk result (text.new.items
        ≡ text.old.items ++ flat_map lines.awaited_line (awaited set.now)) }
{
    let ids = set.awaited(alloc)?;
    for id in &ids {
        push_id(alloc, id, text)?;
    }
    Ok(())
}

// Adds the line of an id that is awaited.
fn push_id(alloc: Global, id: &OpId, text: &mut Vec<u8>) -> Result<(), AllocError>
    ensures { OnOk result (text.new.items ≡ text.old.items ++ lines.awaited_line id.now) }
{
    let number = id.number;
    let name = id.name.text();
    let line = format!(in alloc; "awaited {number} {name}\n")?;
    text.extend_from_slice(line.as_bytes())?;
    Ok(())
}
