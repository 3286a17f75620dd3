// The lines of findings, hits and words.
ghost use Rattle.std.specs.Prelude.{◌≡◌, ◌∷◌, ◌++◌, IfOk, OnOk};
ghost use Rattle.std.specs.List.{flat_map};
ghost use Rattle.usfm_ref.specs.References.{key_text};
ghost use Rattle.concordance.specs.Views.{hit_view, hits_view};
ghost use Rattle.book_reports.specs.Lines as lines;

use concordance::{Hit, Word};
use segment_check::Finding;
use std::alloc::{AllocError, Global};
use usfm_ref::{Book, Key, write_key, write_ref};

/// The findings in a book, a line `REF CODE START` for each.
///
/// # Errors
/// `AllocError` where an allocation failed.
pub fn finding_lines(alloc: Global, book: Book, found: &[Finding]) -> Result<Vec<u8>, AllocError>
    ensures { IfOk result (λ bytes. bytes.items ≡ lines.finding_lines book found.now) }
{
    let mut bytes = Vec::new(alloc);
    for finding in found {
        push_finding(alloc, &mut bytes, book, finding)?;
    }
    Ok(bytes)
}

// Appends the line of a finding.
fn push_finding(
    alloc: Global,
    bytes: &mut Vec<u8>,
    book: Book,
    finding: &Finding,
) -> Result<(), AllocError>
    ensures { OnOk result (bytes.new.items
        ≡ bytes.old.items ++ lines.finding_line book finding.now) }
{
    let reference = write_ref(alloc, book, finding.key)?;
    let name = finding.code.name();
    let start = finding.start;
    let line = format!(in alloc; "{reference} {name} {start}\n")?;
    bytes.extend_from_slice(line.as_bytes())
}

/// The hits in a book, a line `REF START` for each.
///
/// # Errors
/// `AllocError` where an allocation failed.
pub fn hit_lines(alloc: Global, book: Book, hits: &[Hit<'_>]) -> Result<Vec<u8>, AllocError>
    ensures { IfOk result (λ bytes. bytes.items ≡ lines.hit_lines book (hits_view hits.now)) }
{
    let mut bytes = Vec::new(alloc);
    for hit in hits {
        push_hit(alloc, &mut bytes, book, hit)?;
    }
    Ok(bytes)
}

// Appends the line of a hit.
fn push_hit(alloc: Global, bytes: &mut Vec<u8>, book: Book, hit: &Hit<'_>) -> Result<(), AllocError>
    ensures { OnOk result (bytes.new.items
        ≡ bytes.old.items ++ lines.hit_line book (hit_view hit.now)) }
{
    let reference = write_ref(alloc, book, hit.key)?;
    let start = hit.start;
    let line = format!(in alloc; "{reference} {start}\n")?;
    bytes.extend_from_slice(line.as_bytes())
}

/// The words of a book, a line for each: its form, and each of its keys after a space.
///
/// # Errors
/// `AllocError` where an allocation failed.
pub fn word_lines(alloc: Global, words: &[Word]) -> Result<Vec<u8>, AllocError>
    ensures { IfOk result (λ bytes. bytes.items ≡ lines.word_lines words.now) }
{
    let mut bytes = Vec::new(alloc);
    for word in words {
        push_word(alloc, &mut bytes, word)?;
    }
    Ok(bytes)
}

// Appends the line of a word.
fn push_word(alloc: Global, bytes: &mut Vec<u8>, word: &Word) -> Result<(), AllocError>
    ensures { OnOk result (bytes.new.items ≡ bytes.old.items ++ lines.word_line word.now) }
{
    bytes.extend_from_slice(word.form().as_bytes())?;
    push_keys(alloc, bytes, word.keys())?;
    bytes.push(b'\n')?;
    Ok(())
}

// Appends each key after a space.
pub(crate) fn push_keys(alloc: Global, bytes: &mut Vec<u8>, keys: &[Key]) -> Result<(), AllocError>
    ensures { OnOk result (bytes.new.items
        ≡ bytes.old.items ++ flat_map (λ k. 32 ∷ key_text k) keys.now) }
{
    for key in keys {
        push_key(alloc, bytes, *key)?;
    }
    Ok(())
}

fn push_key(alloc: Global, bytes: &mut Vec<u8>, key: Key) -> Result<(), AllocError>
    ensures { OnOk result (bytes.new.items ≡ bytes.old.items ++ 32 ∷ key_text key) }
{
    bytes.push(b' ')?;
    bytes.extend_from_slice(write_key(alloc, key)?.as_bytes())
}
