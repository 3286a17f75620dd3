// What other copies have and lack, as their summaries or bundles tell it.
ghost use Rattle.std.specs.Prelude.{◌≡◌, ◌++◌, IfOk, OnOk};
ghost use Rattle.std.specs.List.{count_by, flat_map};
ghost use Rattle.bundle_codec.specs.Summaries.{covers};
ghost use Rattle.project_status.specs.Others as telling;

use crate::status::{push_copy, push_held};
use bundle_codec::Summary;
use op_core::{OpSet, ReplicaName};
use std::alloc::{AllocError, Global};
use std::marker::Model;

/// What a file tells of another copy: which ids it has. The file is named as it was given.
#[derive(Debug, Drop)]
pub struct Other<'a> {
    file: &'a str,
    known: Summary,
}

impl<'a> Model for Other<'a> {
    ghost use Rattle.project_status.specs.Others.{OtherParts};

    ghost Value = { OtherParts };

    ghost view = { λ o. record { file = o.file.now; known = o.known } };
}

impl<'a> Other<'a> {
    /// What the file of this name tells.
    pub fn new(file: &'a str, known: Summary) -> Other<'a>
        ensures { result ≡ record { file = file.now; known = known } }
    {
        Other { file, known }
    }

    // The file's name.
    pub(crate) fn file(&self) -> &str
        ensures { result.now ≡ self.now.file }
    {
        self.file
    }

    // The ids that the other copy has.
    pub(crate) fn known(&self) -> &Summary
        ensures { result.now ≡ self.now.known }
    {
        &self.known
    }
}

// How many of the held operations another copy does not have.
pub(crate) fn lacks(set: &OpSet, known: &Summary) -> usize
    ensures { result ≡ telling.lacks known.now set.now }
{
    set.iter().filter(|op| !known.covers(&op.id())).count()
}

// How many ids another copy has that are not held.
pub(crate) fn lacked(set: &OpSet, known: &Summary) -> u128
    ensures { result ≡ telling.lacked known.now set.now }
{
    known.len().saturating_sub(common(set, known) as u128)
}

// How many of the held operations another copy has.
fn common(set: &OpSet, known: &Summary) -> usize
    ensures { result ≡ count_by (λ o. covers known.now o.id) set.now }
{
    set.iter().filter(|op| known.covers(&op.id())).count()
}

/// How a copy of this name stands that holds these operations, in lines of which each is left out
/// where it has nothing to say: `copy NAME`; `books N, verses N`, the books with an operation and
/// the verses that are written; `shown NAME N, ..`, who made what is shown; `replaced N, of these N
/// without their texts`; `conflict REF` for each segment that shows two or more distinct texts, in
/// the order of the report; `awaited NUMBER NAME`, as the report has it; the lines of the copy's
/// folder, as they are given; and for each other copy `lacks FILE N`, how many of the operations it
/// does not have, and `lacked FILE N`, how many it has that are not held.
///
/// # Errors
/// Out of memory alone.
pub fn status_text(
    alloc: Global,
    name: &ReplicaName,
    set: &OpSet,
    folder: &[u8],
    others: &[Other<'_>],
) -> Result<Vec<u8>, AllocError>
    ensures { IfOk result (λ text. text.items
        ≡ telling.status name.now set.now folder.now others.now) }
{
    let mut text = Vec::new(alloc);
    push_copy(alloc, name, &mut text)?;
    push_held(alloc, set, &mut text)?;
    text.extend_from_slice(folder)?;
    push_others(alloc, set, others, &mut text)?;
    Ok(text)
}

// Adds what other copies lack and have, one after another.
fn push_others(
    alloc: Global,
    set: &OpSet,
    others: &[Other<'_>],
    text: &mut Vec<u8>,
) -> Result<(), AllocError>
    ensures { OnOk result (text.new.items
        ≡ text.old.items ++ flat_map (telling.other_lines set.now) others.now) }
{
    for other in others {
        push_other(alloc, set, other, text)?;
    }
    Ok(())
}

// Adds what another copy lacks, and what it has that is lacked here.
fn push_other(
    alloc: Global,
    set: &OpSet,
    other: &Other<'_>,
    text: &mut Vec<u8>,
) -> Result<(), AllocError>
    ensures { OnOk result (text.new.items
        ≡ text.old.items ++ telling.other_lines set.now other.now) }
{
    let file = other.file();
    let lacks = lacks(set, other.known()) as u128;
    push_count(alloc, "lacks", file, lacks, text)?;
    let lacked = lacked(set, other.known());
    push_count(alloc, "lacked", file, lacked, text)?;
    Ok(())
}

// Adds the line of a word, a file and a number, unless the number is 0.
fn push_count(
    alloc: Global,
    word: &str,
    file: &str,
    count: u128,
    text: &mut Vec<u8>,
) -> Result<(), AllocError>
    ensures { OnOk result (text.new.items
        ≡ text.old.items ++ telling.other_line word.now file.now count) }
{
    if count == 0 {
        return Ok(());
    }
    let line = format!(in alloc; "{word} {file} {count}\n")?;
    text.extend_from_slice(line.as_bytes())?;
    Ok(())
}
