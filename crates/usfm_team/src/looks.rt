// What is looked up in a project's books by a style sheet: the one that the line names, or the
// program's own.
use crate::answer;
use crate::output::{write_as_it_is, write_output};
use crate::refusal::{Given, Refusal, read_named};
use crate::telling::say;
use carried_sheet::carried_sheet;
use command_faults::{Expected, Fault};
use command_line::{Ending, WIDTH, read_width};
use std::env;
use std::io::IsTerminal;
use usfm_cli::{
    Command, Form, NO_WORD, NOTHING_FOUND, NOTHING_READ, NOTHING_WRONG, SetOff, Wanted,
    check_project, find_project, look_remark, read_project, word_project,
};
use usfm_ref::Book;

// Whether it is the form of the commands on one book.
fn is_plain(form: Form) -> bool {
    !form.by_lines && form.set_off.is_none()
}

// Reports what is found in a book, or in all.
pub(crate) fn check(
    rt: &HostRuntime,
    project: &str,
    book: Option<Book>,
    sheet: Option<String>,
    form: Form,
    explains: bool,
) -> Result<Ending, Refusal> {
    let bytes = read_named(rt, project, Expected::Project)?;
    let project = Given::of(project, &bytes);
    let sheet = read_sheet(rt, sheet)?;
    let given = sheet.bytes.as_slice();
    let is_found = match book {
        Some(book) if is_plain(form) => {
            let command = Command::Check(book, given);
            answer(rt, &project, &command, sheet.named(), explains)?
        }
        book => {
            let lines = check_project(rt.alloc(), &bytes, book, given, form);
            let nothing = if explains { Some(NOTHING_WRONG) } else { None };
            write_lines(rt, &project, &sheet, lines, form.set_off, nothing)?
        }
    };
    Ok(Ending::of(is_found))
}

// Finds a needle in a book, or in all.
pub(crate) fn find(
    rt: &HostRuntime,
    project: &str,
    book: Option<Book>,
    sheet: Option<String>,
    needle: &str,
    form: Form,
    explains: bool,
) -> Result<Ending, Refusal> {
    let bytes = read_named(rt, project, Expected::Project)?;
    let project = Given::of(project, &bytes);
    let sheet = read_sheet(rt, sheet)?;
    let given = sheet.bytes.as_slice();
    let is_found = match book {
        Some(book) if is_plain(form) => {
            let command = Command::Find(book, given, needle);
            answer(rt, &project, &command, sheet.named(), explains)?
        }
        book => {
            let lines = find_project(rt.alloc(), &bytes, book, given, needle, form);
            let nothing = if explains { Some(NOTHING_FOUND) } else { None };
            write_lines(rt, &project, &sheet, lines, form.set_off, nothing)?
        }
    };
    Ok(Ending::of(!is_found))
}

// Lists the words of a book, or of all.
pub(crate) fn words(
    rt: &HostRuntime,
    project: &str,
    book: Option<Book>,
    sheet: Option<String>,
    explains: bool,
) -> Result<(), Refusal> {
    let bytes = read_named(rt, project, Expected::Project)?;
    let project = Given::of(project, &bytes);
    let sheet = read_sheet(rt, sheet)?;
    let given = sheet.bytes.as_slice();
    match book {
        Some(book) => {
            let command = Command::Words(book, given);
            answer(rt, &project, &command, sheet.named(), explains)?;
        }
        None => {
            let lines = word_project(rt.alloc(), &bytes, given);
            let nothing = if explains { Some(NO_WORD) } else { None };
            write_lines(rt, &project, &sheet, lines, None, nothing)?;
        }
    }
    Ok(())
}

// Writes a book, a chapter or a segment as plain text.
pub(crate) fn read(
    rt: &HostRuntime,
    project: &str,
    wanted: Wanted,
    sheet: Option<String>,
    width: Option<usize>,
    explains: bool,
) -> Result<(), Refusal> {
    let bytes = read_named(rt, project, Expected::Project)?;
    let project = Given::of(project, &bytes);
    let sheet = read_sheet(rt, sheet)?;
    let width = width.unwrap_or_else(|| terminal_width(rt));
    let text = read_project(rt.alloc(), &bytes, wanted, &sheet.bytes, width);
    let nothing = if explains { Some(NOTHING_READ) } else { None };
    write_lines(rt, &project, &sheet, text, None, nothing)?;
    Ok(())
}

// The columns of a line: at a terminal those that the variable COLUMNS says, if it says some.
fn terminal_width(rt: &HostRuntime) -> usize {
    if !rt.stdout().is_terminal() {
        return WIDTH;
    }
    match env::var(rt, "COLUMNS") {
        Ok(word) => read_width(&word).unwrap_or(WIDTH),
        Err(_) => WIDTH,
    }
}

// A style sheet, and the name that the line gives it, unless it is the program's own.
#[derive(Drop)]
pub(crate) struct GivenSheet {
    path: Option<String>,
    pub(crate) bytes: Vec<u8>,
}

impl GivenSheet {
    // What a refusal of it names.
    pub(crate) fn named(&self) -> Option<(&str, Expected)> {
        match &self.path {
            Some(path) => Some((path.as_str(), Expected::Sheet)),
            None => None,
        }
    }
}

// The style sheet that the line names, or else the program's own.
pub(crate) fn read_sheet(rt: &HostRuntime, path: Option<String>) -> Result<GivenSheet, Refusal> {
    let bytes = match &path {
        Some(path) => read_named(rt, path, Expected::Sheet)?,
        None => carried_sheet()
            .as_bytes()
            .to_vec(rt.alloc())
            .map_err(Fault::from)?,
    };
    Ok(GivenSheet { path, bytes })
}

// Writes what was found, and says where a person reads it that this is nothing; answers whether it
// is something. At a terminal the lines with the text have no control character but those that set
// something off.
fn write_lines(
    rt: &HostRuntime,
    project: &Given<'_>,
    sheet: &GivenSheet,
    lines: Result<Vec<u8>, Fault>,
    set_off: Option<SetOff>,
    nothing: Option<&'static str>,
) -> Result<bool, Refusal> {
    let lines = match lines {
        Ok(lines) => lines,
        Err(fault) => return Err(Refusal::of_inputs(rt, fault, project, sheet.named())),
    };
    write_found(rt, sheet, &lines, set_off, nothing)
}

// The same of lines that were made.
pub(crate) fn write_found(
    rt: &HostRuntime,
    sheet: &GivenSheet,
    lines: &[u8],
    set_off: Option<SetOff>,
    nothing: Option<&'static str>,
) -> Result<bool, Refusal> {
    match set_off {
        Some(_) => write_as_it_is(rt, lines)?,
        None => write_output(rt, lines)?,
    }
    if let Some(nothing) = nothing {
        if let Some(line) = look_remark(rt.alloc(), &sheet.bytes, lines, nothing) {
            say(rt, line);
        }
    }
    Ok(!lines.is_empty())
}

// How what is found is written, by the options of the line.
pub(crate) fn form_of(rt: &HostRuntime, with_text: bool, by_lines: bool) -> Form {
    let set_off = set_off(rt, with_text);
    Form { by_lines, set_off }
}

// How what is found is set off in the line of the text, if that is asked for.
fn set_off(rt: &HostRuntime, with_text: bool) -> Option<SetOff> {
    if !with_text {
        None
    } else if rt.stdout().is_terminal() {
        Some(SetOff::Reverse)
    } else {
        Some(SetOff::Brackets)
    }
}
