// What is looked up in books' files as they stand, without a project.
use crate::files::read_file;
use crate::looks::{form_of, read_sheet, write_found};
use crate::missing::read_versification;
use crate::output::write_output;
use crate::refusal::Refusal;
use crate::telling::{plain_line, say};
use command_faults::{Expected, Fault};
use command_line::{Ending, FilesLook, FilesWords};
use file_reports::{BookFile, check_files, find_files, missing_files, word_files};
use sty_sheet::Sheet;
use usfm_cli::{Form, NO_WORD, NOTHING_FOUND, NOTHING_MISSING, NOTHING_WRONG, SetOff};
use usfm_token::read_text;
use versification::Versification;

// Looks something up in the files that the line names. If one of them is no book's, nothing is
// written.
pub(crate) fn look_at_files(
    rt: &HostRuntime,
    words: FilesWords,
    explains: bool,
) -> Result<Ending, Refusal> {
    let FilesWords { files: names, look } = words;
    let bytes = read_all(rt, &names)?;
    let plain_names = plain_names(rt, &names)?;
    let files = book_files(rt, &names, &plain_names, &bytes)?;
    match look {
        FilesLook::Missing { versification } => look_for_missing(
            rt,
            &files,
            versification,
            explains,
        ),
        FilesLook::Check {
            sheet,
            with_text,
            by_lines,
        } => {
            let look = SheetLook::Findings(form_of(rt, with_text, by_lines));
            let is_found = look_by_sheet(rt, &files, sheet, look, explains)?;
            Ok(Ending::of(is_found))
        }
        FilesLook::Find {
            sheet,
            needle,
            with_text,
            by_lines,
        } => {
            let look = SheetLook::Hits(&needle, form_of(rt, with_text, by_lines));
            let is_found = look_by_sheet(rt, &files, sheet, look, explains)?;
            Ok(Ending::of(!is_found))
        }
        FilesLook::Words { sheet } => {
            look_by_sheet(rt, &files, sheet, SheetLook::Words, explains)?;
            Ok(Ending::Plain)
        }
    }
}

// What is looked up by a style sheet: findings and hits by a form.
#[derive(Clone, Copy)]
enum SheetLook<'a> {
    Findings(Form),
    Hits(&'a str, Form),
    Words,
}

impl SheetLook<'_> {
    // What is said where nothing is found.
    fn nothing(self) -> &'static str {
        match self {
            SheetLook::Findings(_) => NOTHING_WRONG,
            SheetLook::Hits(_, _) => NOTHING_FOUND,
            SheetLook::Words => NO_WORD,
        }
    }

    // How it is set off in the line of the text.
    fn set_off(self) -> Option<SetOff> {
        match self {
            SheetLook::Findings(form) | SheetLook::Hits(_, form) => form.set_off,
            SheetLook::Words => None,
        }
    }
}

// Looks something up by a style sheet, and answers whether it is there.
fn look_by_sheet(
    rt: &HostRuntime,
    files: &[BookFile<'_>],
    sheet: Option<String>,
    look: SheetLook<'_>,
    explains: bool,
) -> Result<bool, Refusal> {
    let given = read_sheet(rt, sheet)?;
    let lines = match lines_by_sheet(rt, &given.bytes, files, look) {
        Ok(lines) => lines,
        Err(fault) => return Err(refused_beside(rt, fault, given.named())),
    };
    let nothing = if explains { Some(look.nothing()) } else { None };
    write_found(rt, &given, &lines, look.set_off(), nothing)
}

fn lines_by_sheet(
    rt: &HostRuntime,
    sheet: &[u8],
    files: &[BookFile<'_>],
    look: SheetLook<'_>,
) -> Result<Vec<u8>, Fault> {
    let alloc = rt.alloc();
    let sheet = Sheet::read(alloc, read_text(sheet)?)?;
    Ok(match look {
        SheetLook::Findings(form) => check_files(alloc, &sheet, files, form)?,
        SheetLook::Hits(needle, form) => find_files(alloc, &sheet, needle, files, form)?,
        SheetLook::Words => word_files(alloc, &sheet, files)?,
    })
}

// Says what is missing of the files by a versification.
fn look_for_missing(
    rt: &HostRuntime,
    files: &[BookFile<'_>],
    versification: Option<String>,
    explains: bool,
) -> Result<Ending, Refusal> {
    let given = read_versification(rt, versification)?;
    let lines = match missing_lines(rt, &given.bytes, files) {
        Ok(lines) => lines,
        Err(fault) => return Err(refused_beside(rt, fault, given.named())),
    };
    write_output(rt, &lines)?;
    if explains && lines.is_empty() {
        say(rt, NOTHING_MISSING);
    }
    Ok(Ending::of(!lines.is_empty()))
}

fn missing_lines(
    rt: &HostRuntime,
    versification: &[u8],
    files: &[BookFile<'_>],
) -> Result<Vec<u8>, Fault> {
    let versification = Versification::read(rt.alloc(), versification)?;
    Ok(missing_files(rt.alloc(), &versification, files)?)
}

// The bytes of the files.
fn read_all(rt: &HostRuntime, names: &[String]) -> Result<Vec<Vec<u8>>, Refusal> {
    let mut files = Vec::new(rt.alloc());
    for name in names {
        let bytes = read_file(rt, name).map_err(|fault| refused_file(rt, name, fault))?;
        files.push(bytes).map_err(Fault::from)?;
    }
    Ok(files)
}

// The names as they stand in lines.
fn plain_names(rt: &HostRuntime, names: &[String]) -> Result<Vec<String>, Fault> {
    let mut plain_names = Vec::new(rt.alloc());
    for name in names {
        plain_names.push(plain_line(rt, name)?)?;
    }
    Ok(plain_names)
}

// The books' files of these names with these bytes, by their plain names.
fn book_files<'a>(
    rt: &HostRuntime,
    names: &[String],
    plain_names: &'a [String],
    bytes: &'a [Vec<u8>],
) -> Result<Vec<BookFile<'a>>, Refusal> {
    let mut files = Vec::new(rt.alloc());
    for ((name, plain), bytes) in names.iter().zip(plain_names).zip(bytes) {
        match book_file(plain, bytes) {
            Ok(file) => {
                if files.push(file).is_err() {
                    return Err(Refusal::from(Fault::Memory));
                }
            }
            Err(fault) => return Err(refused_file(rt, name, fault)),
        }
    }
    Ok(files)
}

// A book's file of this name with these bytes.
fn book_file<'a>(name: &'a str, bytes: &'a [u8]) -> Result<BookFile<'a>, Fault> {
    let text = read_text(bytes)?;
    match BookFile::new(name, text) {
        Ok(file) => Ok(file),
        Err(fault) => Err(Fault::from(fault)),
    }
}

// The refusal of a file. Out of memory is of none.
fn refused_file(rt: &HostRuntime, path: &str, fault: Fault) -> Refusal {
    match fault {
        Fault::Memory => Refusal::from(fault),
        _ => Refusal::expecting(rt, fault, path, Expected::BookFile),
    }
}

// The refusal of what is given beside the files, by the name that the line has for it. Out of memory
// and an empty needle are of no file.
fn refused_beside(rt: &HostRuntime, fault: Fault, named: Option<(&str, Expected)>) -> Refusal {
    match (fault, named) {
        (Fault::Memory, _) => Refusal::from(Fault::Memory),
        (Fault::EmptyNeedle, _) => Refusal::from(Fault::EmptyNeedle),
        (fault, Some((path, expected))) => Refusal::alone(rt, fault, path, expected),
        (fault, None) => Refusal::from(fault),
    }
}
