// The lines that say what is missing.
ghost use Rattle.std.specs.Prelude.{◌≡◌, ◌<◌, ◌≤◌, ◌+◌, ◌&&◌, ◌++◌, ◌∷◌, [], not, length, if◌then◌else◌, OnOk};
ghost use Rattle.std.specs.List.{flat_map};
ghost use Rattle.usfm_ref.specs.References.{ref_text};
ghost use Rattle.verse_cut.specs.Views.{piece_view, pieces_view};
ghost use Rattle.versification.specs.Views.{verses_in};
ghost use Rattle.missing_verses.specs.Lines as lines;

use crate::chapter::Chapter;
use crate::pieces::covered_in;
use std::alloc::{AllocError, Global};
use usfm_ref::{Book, Key, write_ref};
use verse_cut::Piece;

// Appends what is missing of a chapter with these pieces, by the flags of its verses.
pub(crate) fn push_missing(
    alloc: Global,
    chapter: &Chapter<'_>,
    own: &[Piece<'_>],
    flags: &[bool],
    bytes: &mut Vec<u8>,
) -> Result<(), AllocError>
    ensures { OnOk result (bytes.new.items ≡ bytes.old.items ++ lines.missing_lines
        chapter.now.book chapter.now.number (pieces_view own.now) flags.now) }
{
    match own {
        [] => push_absent(alloc, chapter, flags, bytes),
        [_, ..] => push_runs(alloc, "missing", chapter, flags, bytes),
    }
}

// Appends the line of a chapter of which there is nothing, if a verse of it is missing.
fn push_absent(
    alloc: Global,
    chapter: &Chapter<'_>,
    flags: &[bool],
    bytes: &mut Vec<u8>,
) -> Result<(), AllocError>
    ensures { OnOk result (bytes.new.items ≡ bytes.old.items
        ++ lines.chapter_line chapter.now.book chapter.now.number flags.now) }
{
    if !is_any(flags) {
        return Ok(());
    }
    let (book, number) = (chapter.book, chapter.number);
    let line = format!(in alloc; "missing {book} {number}\n")?;
    bytes.extend_from_slice(line.as_bytes())?;
    Ok(())
}

// Whether a flag is set.
fn is_any(flags: &[bool]) -> bool
    ensures { result ≡ lines.is_any flags.now }
{
    flags.iter().any(|flag| *flag)
}

// Appends a line for each of the longest runs of flags that are set.
pub(crate) fn push_runs(
    alloc: Global,
    word: &str,
    chapter: &Chapter<'_>,
    flags: &[bool],
    bytes: &mut Vec<u8>,
) -> Result<(), AllocError>
    ensures { OnOk result (bytes.new.items ≡ bytes.old.items
        ++ lines.run_lines word.now chapter.now.book chapter.now.number flags.now) }
{
    let mut first = 0;
    for number in 0..flags.len() {
        if ends_run(flags, number) {
            push_run(alloc, word, chapter, first, number, bytes)?;
        }
        first = first_after(flags, first, number);
    }
    Ok(())
}

// Whether the flag of a number is the last of those that are set one after another.
fn ends_run(flags: &[bool], number: usize) -> bool
    requires { number < length flags.now }
    ensures { result
        ≡ (lines.is_set flags.now number && not (lines.is_set flags.now (number + 1))) }
{
    is_set(flags, number) && !is_set(flags, number + 1)
}

// Where the flags begin that are set up to the next number, if those up to this one begin at the
// first.
fn first_after(flags: &[bool], first: usize, number: usize) -> usize
    requires { number < length flags.now }
    ensures { result ≡ (if lines.is_set flags.now number then first else number + 1) }
{
    if is_set(flags, number) {
        first
    } else {
        number + 1
    }
}

// Whether the flag of a number is set.
fn is_set(flags: &[bool], number: usize) -> bool
    ensures { result ≡ lines.is_set flags.now number }
{
    match flags.get(number) {
        Some(flag) => *flag,
        None => false,
    }
}

// Appends the line of a word and the verses from the first to the last.
fn push_run(
    alloc: Global,
    word: &str,
    chapter: &Chapter<'_>,
    first: usize,
    last: usize,
    bytes: &mut Vec<u8>,
) -> Result<(), AllocError>
    ensures { OnOk result (bytes.new.items ≡ bytes.old.items ++ lines.verses_line
        word.now chapter.now.book chapter.now.number first last) }
{
    let (book, number) = (chapter.book, chapter.number);
    let line = if first == last {
        format!(in alloc; "{word} {book} {number}:{first}\n")?
    } else {
        format!(in alloc; "{word} {book} {number}:{first}-{last}\n")?
    };
    bytes.extend_from_slice(line.as_bytes())?;
    Ok(())
}

// Appends a line for each flag that is set.
pub(crate) fn push_each(
    alloc: Global,
    word: &str,
    chapter: &Chapter<'_>,
    flags: &[bool],
    bytes: &mut Vec<u8>,
) -> Result<(), AllocError>
    ensures { OnOk result (bytes.new.items ≡ bytes.old.items
        ++ lines.verse_lines word.now chapter.now.book chapter.now.number flags.now) }
{
    for number in 0..flags.len() {
        if is_set(flags, number) {
            push_run(alloc, word, chapter, number, number, bytes)?;
        }
    }
    Ok(())
}

// Appends a line for each piece with a verse that the versification does not have.
pub(crate) fn push_beyond(
    alloc: Global,
    chapter: &Chapter<'_>,
    own: &[Piece<'_>],
    bytes: &mut Vec<u8>,
) -> Result<(), AllocError>
    requires { chapter.now.number ≤ 999 }
    ensures { OnOk result (bytes.new.items ≡ bytes.old.items
        ++ flat_map (lines.beyond_line (verses_in chapter.now.versification.now)
        chapter.now.book chapter.now.number) (pieces_view own.now)) }
{
    let mut left = own;
    'pieces: while let [piece, later @ ..] = left {
        push_if_beyond(alloc, chapter, piece, bytes)?;
        left = later;
    }
    Ok(())
}

// Appends the line of a piece, if it has a verse that the versification does not have.
fn push_if_beyond(
    alloc: Global,
    chapter: &Chapter<'_>,
    piece: &Piece<'_>,
    bytes: &mut Vec<u8>,
) -> Result<(), AllocError>
    requires { chapter.now.number ≤ 999 }
    ensures { OnOk result (bytes.new.items ≡ bytes.old.items
        ++ lines.beyond_line (verses_in chapter.now.versification.now) chapter.now.book
        chapter.now.number (piece_view piece.now)) }
{
    match covered_in(piece) {
        Some(one) if chapter.is_exceeded(&one) => {
            push_segment(alloc, "beyond", chapter.book, piece.key, bytes)
        }
        _ => Ok(()),
    }
}

// Appends a line for each piece of a verse without words.
pub(crate) fn push_empty(
    alloc: Global,
    book: Book,
    own: &[Piece<'_>],
    bytes: &mut Vec<u8>,
) -> Result<(), AllocError>
    ensures { OnOk result (bytes.new.items
        ≡ bytes.old.items ++ flat_map (lines.empty_line book) (pieces_view own.now)) }
{
    let mut left = own;
    'pieces: while let [piece, later @ ..] = left {
        push_if_empty(alloc, book, piece, bytes)?;
        left = later;
    }
    Ok(())
}

// Appends the line of a piece, if it is of a verse without words.
fn push_if_empty(
    alloc: Global,
    book: Book,
    piece: &Piece<'_>,
    bytes: &mut Vec<u8>,
) -> Result<(), AllocError>
    ensures { OnOk result (bytes.new.items
        ≡ bytes.old.items ++ lines.empty_line book (piece_view piece.now)) }
{
    match covered_in(piece) {
        Some(one) if !one.written => push_segment(alloc, "empty", book, piece.key, bytes),
        _ => Ok(()),
    }
}

// Appends a word and a reference as a line.
fn push_segment(
    alloc: Global,
    word: &str,
    book: Book,
    key: Key,
    bytes: &mut Vec<u8>,
) -> Result<(), AllocError>
    ensures { OnOk result (bytes.new.items
        ≡ bytes.old.items ++ (word.now ++ (32 ∷ (ref_text book key ++ 10 ∷ [])))) }
{
    let reference = write_ref(alloc, book, key)?;
    let line = format!(in alloc; "{word} {reference}\n")?;
    bytes.extend_from_slice(line.as_bytes())?;
    Ok(())
}
