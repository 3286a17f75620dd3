// What is said of a command that was done, where a person reads what faults mean.
ghost use Rattle.std.specs.Prelude.{◌≡◌, [], Ok, IsTrue, option_map};
ghost use Rattle.sty_sheet.specs.Sheets.{sheet_of};
ghost use Rattle.usfm_cli.specs.Remarks as said;
ghost use Rattle.usfm_cli.specs.TextNames as names;

use crate::command::Command;
use std::alloc::Global;
use std::str;
use sty_sheet::Sheet;

const SHOWS_NOTHING: &str = "the project has no text of this segment";

const NO_RECORD: &str = "the style sheet has no \\Marker, so it knows no mark: is it another file?";

const NO_CONFLICT: &str = "no segment has two texts, and no edit is awaited";

/// What is said where `check` reports nothing.
pub const NOTHING_WRONG: &str = "`check` found nothing wrong";

/// What is said where `find` finds nothing.
pub const NOTHING_FOUND: &str =
    "the text was not found: capitals, accents and quotation marks have to be the same";

/// What is said where `words` lists nothing.
pub const NO_WORD: &str = "no word was found";

/// What is said where `read` writes nothing.
pub const NOTHING_READ: &str = "the project has no text of this";

/// What is said where `missing` lists nothing.
pub const NOTHING_MISSING: &str = "nothing is missing";

/// What follows the name of a folder in which there is no file of a book.
pub const NO_BOOK_FILE: &str = " has no book in it yet: the name of a book's file ends in .usfm \
    or .sfm, and it begins with \\id and a code";

/// What follows the name of a folder whose books' files are gone.
pub const FILES_GONE: &str = " has none of its books' files any more: `sync` writes them again";

/// What is said of a file whose name ends in `.txt`, in a folder of books' files.
pub const TEXT_NAME: &str = ": the name of a book's file ends in .usfm or .sfm";

/// What is said of a file in a folder of bundles that was meant as one, and has another name.
pub const TEXT_BUNDLE: &str = ": the name of a bundle ends in .bundle";

/// Whether a file of this name in a folder is a text that an editor gave another ending than books'
/// files have: it is not hidden, and the name ends in `.txt`, in any case. It does not allocate.
pub fn is_text_name(name: &str) -> bool
    ensures { result ≡ names.is_text_name name.now }
{
    let name = name.as_bytes();
    !name.starts_with(b".") && ends_in(name, b".txt")
}

// Whether the name ends so, in any case of the letters A to Z.
fn ends_in(name: &[u8], ending: &[u8]) -> bool
    ensures { result ≡ names.ends_in name.now ending.now }
{
    let (_, end) = name.split_at(name.len().saturating_sub(ending.len()));
    end.eq_ignore_ascii_case(ending)
}

/// What is to be said beside the answer of a command that was done: that a segment shows nothing,
/// where that is asked, that a style sheet has no record, or that nothing is to be reported.
pub fn remark(alloc: Global, command: &Command<'_>, output: &[u8]) -> Option<&'static str>
    ensures { said.RemarksOn command.now output.now (option_map (λ line. line.now) result) }
{
    match command {
        Command::Shown(_, _) => if_empty(output, SHOWS_NOTHING),
        Command::Report => if_empty(output, NO_CONFLICT),
        Command::Check(_, sheet) => look_remark(alloc, sheet, output, NOTHING_WRONG),
        Command::Find(_, sheet, _) => look_remark(alloc, sheet, output, NOTHING_FOUND),
        Command::Words(_, sheet) => look_remark(alloc, sheet, output, NO_WORD),
        Command::Import(_)
        | Command::ImportSince { .. }
        | Command::Edit { .. }
        | Command::EditOver { .. }
        | Command::EditWith { .. }
        | Command::Receive(_)
        | Command::Thin
        | Command::Send
        | Command::Export(_)
        | Command::Summary
        | Command::Delta(_) => None,
    }
}

// A line, where nothing was written.
fn if_empty(output: &[u8], line: &'static str) -> Option<&'static str>
    ensures { option_map (λ line. line.now) result ≡ said.if_empty output.now line.now }
{
    if output.is_empty() { Some(line) } else { None }
}

/// What is to be said beside an answer by a style sheet: that the sheet has no record, if it has
/// none, and else the line that is given, where nothing was written. Where there is no memory to
/// read the sheet, it counts as one that has a record.
pub fn look_remark(
    alloc: Global,
    sheet: &[u8],
    output: &[u8],
    nothing: &'static str,
) -> Option<&'static str>
    ensures { said.RemarksOnLook sheet.now output.now nothing.now
        (option_map (λ line. line.now) result) }
{
    if has_no_record(alloc, sheet) {
        Some(NO_RECORD)
    } else {
        if_empty(output, nothing)
    }
}

// Whether the bytes are a style sheet without a record. Where there is no memory, they are not.
fn has_no_record(alloc: Global, sheet: &[u8]) -> bool
    ensures { IsTrue result → sheet_of sheet.now ≡ Ok [] }
{
    match str::from_utf8(sheet) {
        Ok(text) => match Sheet::read(alloc, text) {
            Ok(sheet) => sheet.iter().next().is_none(),
            Err(_) => false,
        },
        Err(_) => false,
    }
}
