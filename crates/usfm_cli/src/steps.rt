// What commands do to a replica, and what they write.
ghost use Rattle.std.specs.Prelude.{◌≡◌, true, false, ◌++◌, IfOk, IfErr, OnOk, codes, map};
ghost use Rattle.std.specs.Prelude.{option_map, string_bytes};
ghost use Rattle.std.specs.Fmt.{decimal};
ghost use Rattle.std.specs.List.{find};
ghost use Rattle.std.specs.Str.{is_utf8};
ghost use Rattle.std.specs.Str.Lossy.{utf8_valid_len};
ghost use Rattle.usfm_ref.specs.Segments.{segment};
ghost use Rattle.op_core.specs.Ids.{same_id};
ghost use Rattle.bundle_codec.specs.Joining.{whole_at};
ghost use Rattle.bundle_codec.specs.SummaryReading.{read_summary};
ghost use Rattle.usfm_cli.specs.Commands as commands;

use crate::command::Command;
use crate::sheet_reports::{check, find, words};
use bundle_codec::{Summary, decode_whole};
use command_faults::Fault;
use conflict_report::report_text;
use op_core::{Op, OpId};
use replica_state::Replica;
use std::alloc::{AllocError, Global};
use usfm_export::book_text;
use usfm_ref::{Book, Key};
use usfm_token::read_text;

// Does what a command says, and answers what it writes.
pub(crate) fn obey(
    alloc: Global,
    replica: &mut Replica,
    command: &Command<'_>,
) -> Result<Vec<u8>, Fault>
    ensures { commands.Answers (commands.is_late command.now)
        (commands.outcome replica.old command.now) replica.new result }
{
    match *command {
        Command::Import(file) => import(alloc, replica, file),
        Command::ImportSince { file, base } => import_since(alloc, replica, file, base),
        Command::Edit { book, key, text } => edit(alloc, replica, book, key, text),
        Command::EditOver {
            book,
            key,
            text,
            ids,
        } => edit_over(alloc, replica, book, key, text, ids),
        Command::EditWith { book, key, of, ids } => {
            edit_with(alloc, replica, book, key, of, ids)
        }
        Command::Receive(bytes) => receive(alloc, replica, bytes),
        Command::Thin => thin(alloc, replica),
        Command::Shown(book, key) => Ok(shown_lines(alloc, replica, book, key)?),
        Command::Send => Ok(replica.bundle(alloc)?),
        Command::Export(book) => Ok(book_text(alloc, replica, book)?),
        Command::Summary => Ok(replica.summary(alloc)?.write(alloc)?),
        Command::Delta(summary) => delta(alloc, replica, summary),
        Command::Report => Ok(report_text(alloc, replica)?),
        Command::Check(book, sheet) => check(alloc, replica, book, sheet),
        Command::Find(book, sheet, needle) => find(alloc, replica, book, sheet, needle),
        Command::Words(book, sheet) => words(alloc, replica, book, sheet),
    }
}

// Takes in the file of a book.
fn import(alloc: Global, replica: &mut Replica, file: &[u8]) -> Result<Vec<u8>, Fault>
    ensures { commands.Answers commands.is_numbers_used_up
        (commands.import_done replica.old file.now) replica.new result }
{
    let added = replica.import(text_in(file)?)?;
    Ok(count_line(alloc, "added", added)?)
}

// Takes in what was changed in the file of a book since a bundle.
fn import_since(
    alloc: Global,
    replica: &mut Replica,
    file: &[u8],
    base: &[u8],
) -> Result<Vec<u8>, Fault>
    ensures { commands.Answers (commands.is_late_since base.now)
        (commands.since_done replica.old file.now (whole_at base.now)) replica.new result }
{
    let file = text_in(file)?;
    let base = decode_whole(alloc, base)?;
    let added = replica.import_since(&base, file)?;
    Ok(count_line(alloc, "added", added)?)
}

// Gives a segment a text, in the place of all that it shows.
fn edit(
    alloc: Global,
    replica: &mut Replica,
    book: Book,
    key: Key,
    text: &[u8],
) -> Result<Vec<u8>, Fault>
    ensures { commands.Answers commands.no_fault
        (commands.edit_done replica.old (segment book key) text.now) replica.new result }
{
    let made = replica.edit(book, key, text_in(text)?)?;
    Ok(made_line(alloc, &made)?)
}

// Gives a segment a text, in the place of some operations that it shows.
fn edit_over(
    alloc: Global,
    replica: &mut Replica,
    book: Book,
    key: Key,
    text: &[u8],
    ids: &[OpId],
) -> Result<Vec<u8>, Fault>
    ensures { commands.Answers commands.no_fault
        (commands.edit_over_done replica.old (segment book key) text.now ids.now) replica.new
        result }
{
    let made = replica.edit_over(book, key, text_in(text)?, ids)?;
    Ok(made_line(alloc, &made)?)
}

// Gives a segment the text of a shown operation, in the place of some.
fn edit_with(
    alloc: Global,
    replica: &mut Replica,
    book: Book,
    key: Key,
    of: OpId,
    ids: &[OpId],
) -> Result<Vec<u8>, Fault>
    ensures { commands.Answers commands.any_fault
        (commands.edit_with_done replica.old (segment book key) of ids.now) replica.new result }
{
    let Some(text) = shown_text(alloc, replica, book, key, of)? else {
        return Err(Fault::NotShown(of));
    };
    let made = replica.edit_over(book, key, &text, ids)?;
    Ok(made_line(alloc, &made)?)
}

// A copy of the text of the operation of an id, if the segment shows it.
fn shown_text(
    alloc: Global,
    replica: &Replica,
    book: Book,
    key: Key,
    of: OpId,
) -> Result<Option<String>, AllocError>
    ensures { IfOk result (λ text. option_map (λ t. string_bytes t) text
        ≡ commands.text_shown replica.now.held (segment book key) of) }
{
    let ops = replica.shown(alloc, book, key)?;
    match op_of(&ops, of) {
        Some(op) => Ok(Some(String::from_str(alloc, op.text_or_empty())?)),
        None => Ok(None),
    }
}

// The operation of an id, if it is one of these.
fn op_of<'a>(ops: &[&'a Op], of: OpId) -> Option<&'a Op>
    ensures { option_map (λ op. op.now) result
        ≡ find (λ o. same_id o.id of) (map (λ op. op.now) ops.now) }
{
    for op in ops {
        if op.id() == of {
            return Some(*op);
        }
    }
    None
}

// Takes in a bundle.
fn receive(alloc: Global, replica: &mut Replica, bytes: &[u8]) -> Result<Vec<u8>, Fault>
    ensures { commands.Answers (commands.is_late_in bytes.now)
        (commands.with_bundle replica.old (whole_at bytes.now)) replica.new result }
{
    let bundle = decode_whole(alloc, bytes)?;
    let new = replica.receive(&bundle)?;
    Ok(count_line(alloc, "new", new)?)
}

// Leaves out the texts that were replaced.
fn thin(alloc: Global, replica: &mut Replica) -> Result<Vec<u8>, Fault>
    ensures { commands.Answers commands.no_fault
        (commands.thin_done replica.old) replica.new result }
{
    let count = replica.thin();
    Ok(count_line(alloc, "thinned", count)?)
}

// The bundle of what lies outside a summary.
fn delta(alloc: Global, replica: &Replica, summary: &[u8]) -> Result<Vec<u8>, Fault>
    ensures { commands.Gives commands.no_fault
        (commands.delta_for replica.now.held (read_summary summary.now)) result }
{
    let summary = Summary::read(alloc, summary)?;
    Ok(replica.delta(alloc, &summary)?)
}

// What a segment shows, operation by operation.
fn shown_lines(
    alloc: Global,
    replica: &Replica,
    book: Book,
    key: Key,
) -> Result<Vec<u8>, AllocError>
    ensures { IfOk result (λ bytes.
        bytes.items ≡ commands.shown_text replica.now.held (segment book key)) }
{
    let mut bytes = Vec::new(alloc);
    let shown = replica.shown(alloc, book, key)?;
    for op in &shown {
        push_op(alloc, &mut bytes, *op)?;
    }
    Ok(bytes)
}

// Appends a shown operation: a line with its id and the length of its text, the text, and a line
// feed.
fn push_op(alloc: Global, bytes: &mut Vec<u8>, op: &Op) -> Result<(), AllocError>
    ensures { OnOk result (bytes.new.items ≡ bytes.old.items ++ commands.shown_line op.now) }
{
    let id = op.id();
    let line = format!(in alloc;
        "op {} {} {}\n",
        id.number,
        id.name.text(),
        op.text_or_empty().len()
    )?;
    bytes.extend_from_slice(line.as_bytes())?;
    bytes.extend_from_slice(op.text_or_empty().as_bytes())?;
    bytes.push(b'\n')?;
    Ok(())
}

// A line of a word and a count.
pub(crate) fn count_line(alloc: Global, word: &str, count: u64) -> Result<Vec<u8>, AllocError>
    ensures { IfOk result (λ line. line.items ≡ commands.line_of word.now (decimal count)) }
{
    let line = format!(in alloc; "{word} {count}\n")?;
    Ok(line.into_bytes())
}

// The line of the id that an edit made.
fn made_line(alloc: Global, id: &OpId) -> Result<Vec<u8>, AllocError>
    ensures { IfOk result (λ line.
        line.items ≡ commands.line_of (codes "made") (commands.id_words id.now)) }
{
    let line = format!(in alloc; "made {} {}\n", id.number, id.name.text())?;
    Ok(line.into_bytes())
}

// The bytes as text.
pub(crate) fn text_in(bytes: &[u8]) -> Result<&str, Fault>
    ensures ok { IfOk result (λ text. (is_utf8 bytes.now ≡ true) × (text.now ≡ bytes.now)) }
    ensures refused { IfErr result (λ fault.
        (is_utf8 bytes.now ≡ false) × (fault ≡ Fault.NotText (utf8_valid_len bytes.now))) }
{
    Ok(read_text(bytes)?)
}
