// Merges of two versions of a book's file, as git wants them of a merge driver.
use crate::files::read_file;
use crate::output::write_output;
use crate::project::{Project, lock_project};
use crate::refusal::Refusal;
use crate::settle::settle_in_memory;
use crate::telling::{refuse, say_lines};
use book_merge::{MergeFault, Merged, MergedFile};
use command_faults::{Expected, Fault};
use command_line::MergeWords;
use conflict_report::report_text;
use merged_file::{Marking, merged_file};
use project_file::{load, save};
use std::process::ExitCode;
use std::str;
use usfm_token::read_text;

// The exit status where segments are in conflict.
const CONFLICTS: u8 = 1;

// The exit status where nothing was written.
pub(crate) const NOT_MERGED: u8 = 2;

// Merges two versions of a book's file. The exit status says how that ended.
pub(crate) fn merge(rt: &HostRuntime, words: &MergeWords, explains: bool) -> ExitCode {
    match merge_files(rt, words) {
        Ok(report) => tell_conflicts(rt, &report),
        Err(refusal) => refuse(rt, &refusal, explains, NOT_MERGED),
    }
}

// Merges files, and writes the book; the report of its conflicts, which is empty where there is none.
fn merge_files(rt: &HostRuntime, words: &MergeWords) -> Result<Vec<u8>, Refusal> {
    let base = read_side(rt, &words.base)?;
    let (held, ours) = read_ours(rt, words)?;
    let theirs = read_side(rt, &words.theirs)?;
    let base = text_of(rt, &words.base, &base)?;
    let ours = text_of(rt, &words.ours, &ours)?;
    let theirs = text_of(rt, &words.theirs, &theirs)?;
    let merged = book_merge::merge(rt.alloc(), base, ours, theirs);
    let merged = merged.map_err(|fault| refusal_of(rt, words, fault))?;
    let merged = if words.asks {
        settled(rt, merged)?
    } else {
        merged
    };
    let marking = if words.is_marked {
        Marking::Remarked
    } else {
        Marking::Plain
    };
    let report = report_text(rt.alloc(), &merged.replica).map_err(Fault::from)?;
    let book = merged_file(rt.alloc(), &merged, ours, marking).map_err(Fault::from)?;
    write_book(rt, words, held, ours.as_bytes(), book.as_bytes())?;
    Ok(report)
}

// The bytes of a file, or the refusal of it.
fn read_side(rt: &HostRuntime, path: &str) -> Result<Vec<u8>, Refusal> {
    read_file(rt, path).map_err(|fault| refused_side(rt, path, fault))
}

// The bytes of OURS; and where the book is written there, the file, which no other command changes
// meanwhile. It is held and replaced as a project's file is.
fn read_ours(rt: &HostRuntime, words: &MergeWords) -> Result<(Option<Project>, Vec<u8>), Refusal> {
    let path = words.ours.as_str();
    if words.to_stdout {
        return Ok((None, read_side(rt, path)?));
    }
    let held = lock_project(rt, path).map_err(|fault| refused_side(rt, path, fault))?;
    let bytes = held
        .read(rt)
        .map_err(|fault| refused_side(rt, path, fault))?;
    Ok((Some(held), bytes))
}

// The text that bytes of a file are, or the refusal of it.
fn text_of<'a>(rt: &HostRuntime, path: &str, bytes: &'a [u8]) -> Result<&'a str, Refusal> {
    match read_text(bytes) {
        Ok(text) => Ok(text),
        Err(fault) => Err(refused_side(rt, path, Fault::from(fault))),
    }
}

// Writes the book to standard output, or to OURS, where that has other bytes.
fn write_book(
    rt: &HostRuntime,
    words: &MergeWords,
    held: Option<Project>,
    ours: &[u8],
    book: &[u8],
) -> Result<(), Refusal> {
    let Some(mut held) = held else {
        return write_output(rt, book);
    };
    if book == ours {
        return Ok(());
    }
    let written = held.replace(rt, book);
    written.map_err(|fault| refused_side(rt, &words.ours, fault))
}

// A merge once its conflicts were asked.
fn settled(rt: &HostRuntime, merged: Merged) -> Result<Merged, Refusal> {
    let union = save(rt.alloc(), &merged.replica).map_err(Fault::from)?;
    let union = settle_in_memory(rt, union)?;
    let replica = load(rt.alloc(), &union).map_err(Fault::from)?;
    Ok(Merged {
        book: merged.book,
        replica,
    })
}

// Says which segments are in conflict, and with which texts, where some are.
fn tell_conflicts(rt: &HostRuntime, report: &[u8]) -> ExitCode {
    if report.is_empty() {
        return ExitCode::SUCCESS;
    }
    if let Ok(text) = str::from_utf8(report) {
        say_lines(rt, text);
    }
    ExitCode::from(CONFLICTS)
}

// Why files were not merged.
fn refusal_of(rt: &HostRuntime, words: &MergeWords, fault: MergeFault) -> Refusal {
    match fault {
        MergeFault::Memory => Refusal::from(Fault::Memory),
        MergeFault::NumbersUsedUp => Refusal::from(Fault::NumbersUsedUp),
        MergeFault::BadFile(file, fault) => {
            refused_side(rt, path_of(words, file), Fault::from(fault))
        }
        MergeFault::OtherBook(file) => {
            Refusal::expecting(rt, Fault::FileChanged, path_of(words, file), Expected::Side)
        }
    }
}

// How the line names a file.
fn path_of(words: &MergeWords, file: MergedFile) -> &str {
    match file {
        MergedFile::Base => words.base.as_str(),
        MergedFile::Ours => words.ours.as_str(),
        MergedFile::Theirs => words.theirs.as_str(),
    }
}

// The refusal of one of the files. Out of memory is of none.
fn refused_side(rt: &HostRuntime, path: &str, fault: Fault) -> Refusal {
    match fault {
        Fault::Memory => Refusal::from(fault),
        Fault::FileFailed => Refusal::expecting(rt, fault, path, Expected::Side),
        _ => Refusal::expecting(rt, fault, path, Expected::BookFile),
    }
}
