// What is said on standard error: faults, in words where a person reads it, and remarks. Names of
// files stand there without control characters.
use crate::files::{Opened, open_plain, read_file};
use crate::refusal::Refusal;
use command_faults::{
    Circumstances, Expected, FRONT_BYTES, Fault, Found, Slip, book_meant, explained, fault_line,
    found_file, front_slip,
};
use command_line::has_split_reference;
use plain_line::{is_plain, push_line, push_lines};
use std::alloc::AllocError;
use std::fs;
use std::fs::File;
use std::io::{ErrorKind, IsTerminal, Read, Write};
use std::path::Path;
use std::process::ExitCode;
use usfm_cli::{Wanted, conflict_count};
use usfm_ref::{Key, read_ref, write_ref};

const USAGE: u8 = 2;

const ONE_WORD: &str =
    "\n  tip: a reference is one word, so put it between quotes, as in 'MAT 1:1'\n";

const IN_QUOTES: &str =
    "If this belongs to a reference, put the whole reference in quotes: 'MAT 1:1'.";

const SHEET: &str = "A style sheet is named so: --sheet FILE.";

const WHOLE_BOOK: &str = "A command that takes a BOOK takes all of it: write its code alone.";

const SECOND_BOOK: &str =
    ": it has a second \\id, and all of it counts as the first book: make a file of each";

// What is said where the words of a text to find may have been taken for others.
pub(crate) const SEVERAL_WORDS: &str =
    "A text to find that has several words goes in quotes: 'the beginning'.";

// What is said where segments are in conflict.
pub(crate) const SETTLE: &str = "`settle` goes through the conflicts and asks which text to keep";

// What follows the reference of a chapter's head, where a person may have meant the chapter.
const HEAD_ALONE: &str = " is the head of the chapter alone: name a verse, or the book";

const IN_ONE_WORD: &str = "\n  tip: a text to find that has several words goes in quotes\n";

// So many words has a line that looks for a text in one book by a style sheet. Where there are more,
// the text has several.
const MOST_TO_FIND: usize = 5;

const ONE_BOOK: &str = "\n  tip: this command takes a whole book, so write its code alone\n";

// Says why a command was refused: the line of the fault, the file that it is of, and in words
// what that means. Where it cannot be written, the exit status alone shows it.
pub(crate) fn tell_refusal(rt: &HostRuntime, refusal: &Refusal, explains: bool) {
    if refusal.is_unread {
        return;
    }
    let _ = rt.stderr().write_all(fault_line(&refusal.fault).bytes());
    let mut known = Circumstances::UNKNOWN;
    if let Some(file) = &refusal.file {
        if explains || !file.is_alone {
            say_of(rt, "in ", &file.name, "");
        }
        if explains {
            if let Some(other) = &file.beside {
                say_of(rt, "beside ", other, "");
            }
            known.expected = file.expected;
            known.found = look(rt, &file.name);
            if matches!(file.expected, Expected::BookFile) {
                known.slip = slip_in(rt, &file.name);
            }
        }
    }
    if let Some(lines) = &refusal.lines {
        let _ = rt.stderr().write_all(lines);
    }
    if explains {
        let _ = write!(rt.stderr(), "{}", explained(&refusal.fault, &known));
        if let (Fault::ReadFailed, Found::Nothing, Some(file)) = (
            &refusal.fault,
            known.found,
            &refusal.file,
        ) {
            say_of_reference(rt, &file.name);
        }
    }
}

// Says of a file that is skipped why it would be refused, and in words what that means.
pub(crate) fn tell_skipped(
    rt: &HostRuntime,
    name: &str,
    fault: &Fault,
    found: Found,
    explains: bool,
) {
    if let Ok(name) = plain_line(rt, name) {
        let _ = write!(rt.stderr(), "skipped {name} ");
        let _ = rt.stderr().write_all(fault_line(fault).bytes());
        if explains {
            let mut known = Circumstances::UNKNOWN;
            known.expected = Expected::Bundle;
            known.found = found;
            let _ = write!(rt.stderr(), "{}", explained(fault, &known));
        }
    }
}

// Says why a word of the line was refused.
pub(crate) fn tell_refused_word(rt: &HostRuntime, fault: &Fault, word: &str, explains: bool) {
    let _ = rt.stderr().write_all(fault_line(fault).bytes());
    if explains {
        let mut known = Circumstances::UNKNOWN;
        known.slip = match book_meant(word.as_bytes()) {
            Some(book) => Some(Slip::SmallLetters(book)),
            None => None,
        };
        let _ = write!(rt.stderr(), "{}", explained(fault, &known));
        say_of_reference(rt, word);
    }
}

// Says of a word that could be a reference, or its end, how that is written.
fn say_of_reference(rt: &HostRuntime, word: &str) {
    if word.parse::<Key>().is_ok() {
        say(rt, IN_QUOTES);
    } else if read_ref(word).is_ok() {
        say(rt, WHOLE_BOOK);
    } else if word.ends_with(".sty") {
        say(rt, SHEET);
    }
}

// Whether a plain file has the front of a book's. Nothing is waited for, and no link is followed.
pub(crate) fn begins_as_book(rt: &HostRuntime, path: &str) -> bool {
    matches!(found_plain(rt, path), Found::BookFile)
}

// Whether a plain file has the front of a bundle.
pub(crate) fn begins_as_bundle(rt: &HostRuntime, path: &str) -> bool {
    matches!(found_plain(rt, path), Found::Bundle)
}

// What a plain file is, by its front.
fn found_plain(rt: &HostRuntime, path: &str) -> Found {
    let mut front = [0; FRONT_BYTES];
    match open_plain(rt, path) {
        Ok(Opened::Plain(file)) => found_in(&file, &mut front),
        _ => Found::Unseen,
    }
}

// Whether a line after the first one begins with `\id` and a blank.
pub(crate) fn has_second_book(bytes: &[u8]) -> bool {
    let mut lines = bytes.split(|byte| *byte == b'\n').skip(1);
    lines.any(|line| line.starts_with(b"\\id "))
}

// Says of a book's file that it has a second book.
pub(crate) fn say_second_book(rt: &HostRuntime, name: &str) {
    say_of(rt, "", name, SECOND_BOOK);
}

// What stands under a name. Nothing is waited for: of what is no plain file nothing is read.
fn look(rt: &HostRuntime, name: &str) -> Found {
    match fs::metadata(rt, name) {
        Ok(found) if found.is_dir() => Found::Folder,
        Ok(found) if found.is_file() => look_at_front(rt, name),
        Ok(_) => Found::Other,
        Err(error) if error.kind() == ErrorKind::NotFound => look_above(rt, name),
        Err(_) => Found::Unseen,
    }
}

// Where nothing stands under a name: whether the folder is there that it would be in.
fn look_above(rt: &HostRuntime, name: &str) -> Found {
    match Path::new(name).parent() {
        Some(folder) if !folder.as_str().is_empty() => match fs::metadata(rt, folder.as_str()) {
            Err(error) if error.kind() == ErrorKind::NotFound => Found::NoFolder,
            _ => Found::Nothing,
        },
        _ => Found::Nothing,
    }
}

fn look_at_front(rt: &HostRuntime, name: &str) -> Found {
    let mut front = [0; FRONT_BYTES];
    match File::open(rt, name) {
        Ok(file) => found_in(&file, &mut front),
        Err(_) => Found::Other,
    }
}

// What a file is, by its front.
fn found_in(mut file: &File, front: &mut [u8]) -> Found {
    match file.read(front) {
        Ok(len) => found_file(front.get(..len).unwrap_or(&[])),
        Err(_) => Found::Other,
    }
}

// What is wrong with how a plain file that is to be a book's begins.
fn slip_in(rt: &HostRuntime, name: &str) -> Option<Slip> {
    if !fs::metadata(rt, name).is_ok_and(|found| found.is_file()) {
        return None;
    }
    match read_file(rt, name) {
        Ok(bytes) => front_slip(&bytes),
        Err(_) => None,
    }
}

// Writes a line with a name in it. One with control characters takes memory: where there is none,
// the line is left out.
pub(crate) fn say_of(rt: &HostRuntime, before: &str, name: &str, after: &str) {
    if is_plain(name) {
        let _ = writeln!(rt.stderr(), "{before}{name}{after}");
        return;
    }
    let mut plain = String::new(rt.alloc());
    if push_line(&mut plain, name).is_ok() {
        let _ = writeln!(rt.stderr(), "{before}{plain}{after}");
    }
}

// The heads of chapters that are named, and are not in conflict: a person may have meant the chapter.
// What cannot be told leaves a head out.
pub(crate) fn unconflicted_heads(
    rt: &HostRuntime,
    project: &[u8],
    wanted: &[Wanted],
) -> Vec<Wanted> {
    let mut heads = Vec::new(rt.alloc());
    for one in wanted {
        if is_head(*one) && conflict_count(rt.alloc(), project, &[*one]).is_ok_and(|n| n == 0) {
            let _ = heads.push(*one);
        }
    }
    heads
}

// Whether the head of a chapter is named.
pub(crate) fn names_heads(wanted: &[Wanted]) -> bool {
    wanted.iter().any(|one| is_head(*one))
}

fn is_head(wanted: Wanted) -> bool {
    match wanted {
        Wanted::One(_, key) => key == key.head() && !key.is_book_head(),
        Wanted::Whole(_) => false,
    }
}

// Says of the heads of chapters that they are no chapters.
pub(crate) fn say_heads(rt: &HostRuntime, wanted: &[Wanted]) {
    for one in wanted {
        if let Wanted::One(book, key) = *one {
            if let Ok(head) = write_ref(rt.alloc(), book, key) {
                say_of(rt, "", &head, HEAD_ALONE);
            }
        }
    }
}

// Writes a line.
pub(crate) fn say(rt: &HostRuntime, line: &str) {
    let _ = writeln!(rt.stderr(), "{line}");
}

// Why words are no line, with a tip where a person reads it who gave a reference without quotes.
pub(crate) fn with_tip(
    mut text: String,
    words: &[String],
    explains: bool,
) -> Result<String, AllocError> {
    if !explains {
        return Ok(text);
    }
    if has_split_reference(words) {
        text.push_str(if takes_book(words) {
            ONE_BOOK
        } else {
            ONE_WORD
        })?;
    } else if are_find(words) && words.len() > MOST_TO_FIND {
        text.push_str(IN_ONE_WORD)?;
    }
    Ok(text)
}

// Whether the words are those of `find`.
pub(crate) fn are_find(words: &[String]) -> bool {
    match words.first() {
        Some(name) => name.as_str() == "find",
        None => false,
    }
}

// Whether the subcommand takes books, and no reference.
fn takes_book(words: &[String]) -> bool {
    match words.first() {
        Some(name) => matches!(
            name.as_str(),
            "export" | "progress" | "check" | "words" | "fold"
        ),
        None => false,
    }
}

// A name as it stands in a line: without control characters.
pub(crate) fn plain_line(rt: &HostRuntime, name: &str) -> Result<String, AllocError> {
    let mut plain = String::new(rt.alloc());
    push_line(&mut plain, name)?;
    Ok(plain)
}

// Writes a message of several lines, which may have words of the command line; at a terminal
// without their control characters.
pub(crate) fn say_lines(rt: &HostRuntime, text: &str) {
    if !rt.stderr().is_terminal() {
        let _ = rt.stderr().write_all(text.as_bytes());
        return;
    }
    if let Ok(plain) = plain_lines(rt, text) {
        let _ = rt.stderr().write_all(plain.as_bytes());
    }
}

// A text of several lines as a terminal gets it: without its control characters. Lines that end in
// CR LF, as many editors end them, look like others.
pub(crate) fn plain_lines(rt: &HostRuntime, text: &str) -> Result<String, AllocError> {
    let mut plain = String::new(rt.alloc());
    push_lines(&mut plain, &text.replace(rt.alloc(), "\r\n", "\n")?)?;
    Ok(plain)
}

// Says why the words are no command line of the program.
pub(crate) fn tell_usage(rt: &HostRuntime, text: &str) -> ExitCode {
    say_lines(rt, text);
    ExitCode::from(USAGE)
}

// Says why a command was refused, which ends with a status.
pub(crate) fn refuse(rt: &HostRuntime, refusal: &Refusal, explains: bool, status: u8) -> ExitCode {
    tell_refusal(rt, refusal, explains);
    ExitCode::from(status)
}
