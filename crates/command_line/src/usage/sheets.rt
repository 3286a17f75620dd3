// The subcommands that go by a style sheet: of each its words, its help, and the line that it is
// read as.
use super::book_files::{files_line, has_files, with_files};
use super::{BOOK, exit_code};
use crate::files::FilesLook;
use crate::given::{book_if_given, text};
use crate::words::{Line, LineFault};
use clap::{Arg, ArgAction, ArgMatches, Command};
use std::alloc::{AllocError, Global};

// The style sheet of an option, which has a name of its own beside the word SHEET.
const SHEET_GIVEN: &str = "sheet";

const WITH_TEXT: &str = "text";

const BY_LINES: &str = "lines";

// A subcommand that asks for a project and perhaps a book, or for files, and perhaps a style sheet.
fn by_sheet<'a>(
    alloc: Global,
    name: &'a str,
    about: &'a str,
    more: &'a str,
    usage: &'a str,
) -> Result<Command<'a>, AllocError> {
    let (word, help) = BOOK;
    let book = Arg::new(alloc, word).help(help);
    let sheet = Arg::new(alloc, "SHEET").help("The same as --sheet SHEET");
    let given = Arg::new(alloc, SHEET_GIVEN)
        .long("sheet")
        .value_name("SHEET")
        .help("A style sheet such as Paratext's usfm.sty");
    with_files(alloc, name, about, more, usage)?
        .arg(book)?
        .arg(sheet)?
        .arg(given)
}

// The option that writes the line of the text too.
fn with_text<'a>(alloc: Global) -> Arg<'a> {
    Arg::new(alloc, WITH_TEXT)
        .long("text")
        .action(ArgAction::SetTrue)
        .help("Also write the line of the text")
}

// The option that says where something stands by line and column.
fn by_lines<'a>(alloc: Global) -> Arg<'a> {
    Arg::new(alloc, BY_LINES)
        .long("lines")
        .action(ArgAction::SetTrue)
        .help("Write where it stands by line and column")
}

// The style sheet that is given as a word of the line or by the option, if one is.
fn sheet_if_given(
    alloc: Global,
    given: &ArgMatches<'_>,
    word: Option<&str>,
) -> Result<Option<String>, LineFault> {
    match (word, given.get_str(SHEET_GIVEN)) {
        (Some(_), Some(_)) => Err(LineFault::Usage(String::from_str(alloc, ONE_SHEET)?)),
        (Some(sheet), None) | (None, Some(sheet)) => Ok(Some(String::from_str(alloc, sheet)?)),
        (None, None) => Ok(None),
    }
}

const ONE_SHEET: &str = "\
error: one style sheet is given, as the word SHEET or by --sheet SHEET

For more information, try '--help'.
";

pub(crate) fn check<'a>(alloc: Global) -> Result<Command<'a>, AllocError> {
    by_sheet(
        alloc,
        "check",
        "Reports what is wrong with the marks and the numbers of books",
        CHECK,
        CHECK_USAGE,
    )?
    .arg(with_text(alloc))?
    .arg(by_lines(alloc))?
    .arg(exit_code(alloc, "Exit with status 3 where there is a finding"))
}

const CHECK_USAGE: &str = "\
usfm_team check [OPTIONS] <PROJECT> [BOOK] [SHEET]
       usfm_team check [OPTIONS] --files <FILE>...";

const CHECK: &str = "\
Of one BOOK, or of all. Without SHEET it goes by the program's own, which has
the markers of USFM 3.0. Writes a line `REF CODE START` for each finding: its
segment, what is found, and how many bytes of the export come before it; with
--text also the line of the text, with the mark in brackets. The codes:
unknown-marker, stray-close, unclosed-char, unclosed-note, too-deep, bad-number,
bad-bridge, not-rising, overlap, not-under. No line: nothing was found.

With --files it needs no project: of each FILE it writes what it would write of
the book if FILE were imported. With --lines each line begins as editors and
continuous integration read it: `FILE:LINE:COLUMN: CODE REF`, a column being a
character; of a project's books `REF:LINE:COLUMN: CODE`, by lines of the export.

Example: usfm_team check ana.project
Example: usfm_team check ana.project MAT samples/small.sty
Example: usfm_team check --files texts/*.usfm --lines --exit-code

Faults, after those of FILE `in FILE`:
  fault 1                  out of memory
  fault 10 BYTES           SHEET or FILE is not UTF-8 after this many bytes
  fault 20                 BOOK is not a book's code
  fault 20, fault 30       FILE does not begin with \\id and a book's code
  fault 40 LINE            SHEET has a field before its first marker
  fault 41 LINE            SHEET has a marker without a name
  fault 42 LINE            SHEET has an unknown style type
  fault 60 to 70, 110      PROJECT is not a project
  fault 82                 the project has no edit of the book
  fault 90 BYTES           writing failed after this many bytes
  fault 120                a file could not be read
  fault 121                a file has more than 268,435,456 bytes";

pub(crate) fn check_line(alloc: Global, given: &ArgMatches<'_>) -> Result<Line, LineFault> {
    let sheet = sheet_if_given(alloc, given, given.get_str("SHEET"))?;
    let (with_text, by_lines) = (given.get_flag(WITH_TEXT), given.get_flag(BY_LINES));
    if has_files(given) {
        let look = FilesLook::Check {
            sheet,
            with_text,
            by_lines,
        };
        return files_line(alloc, given, look, given.get_str("PROJECT").is_some());
    }
    Ok(Line::Check {
        project: text(alloc, given, "PROJECT")?,
        book: book_if_given(alloc, given.get_str("BOOK"))?,
        sheet,
        with_text,
        by_lines,
    })
}

pub(crate) fn find<'a>(alloc: Global) -> Result<Command<'a>, AllocError> {
    let needle = Arg::new(alloc, "NEEDLE").help("The text to find, byte for byte");
    let made = by_sheet(
        alloc,
        "find",
        "Finds a text in the verses of books",
        FIND,
        FIND_USAGE,
    )?
    .arg(needle)?;
    let made = made.arg(with_text(alloc))?.arg(by_lines(alloc))?;
    made.arg(exit_code(alloc, "Exit with status 3 where nothing is found"))
}

const FIND_USAGE: &str = "\
usfm_team find [OPTIONS] <PROJECT> [BOOK] [SHEET] <NEEDLE>
       usfm_team find [OPTIONS] <NEEDLE> --files <FILE>...";

const FIND: &str = "\
The last word is the NEEDLE: put several words in quotes. A text that a mark, a
note or the end of a line interrupts is not found, nor one in another of
Unicode's forms. Looks in one BOOK, or in all, in paragraphs whose
style in SHEET has `\\TextType VerseText`, outside notes, milestones, attributes
and verse numbers; without SHEET by the program's own. Writes a line `REF START`
for each hit: its segment, and how many bytes of the export come before it; with
--text also the line of the text, with the hit in brackets. No line: no hit.
--files and --lines are those of `check`: `FILE:LINE:COLUMN: found REF`, and of
a project's books `REF:LINE:COLUMN: found`.

Example: usfm_team find ana.project 'the beginning' --text
Example: usfm_team find ana.project MAT samples/small.sty beginning
Example: usfm_team find 'the beginning' --files texts/*.usfm --lines

Faults: those of `check`, and
  fault 100                NEEDLE is empty";

// Which of the words is which, their number shows: the needle is the last.
pub(crate) fn find_line(alloc: Global, given: &ArgMatches<'_>) -> Result<Line, LineFault> {
    if has_files(given) {
        return find_files_line(alloc, given);
    }
    let words = (
        given.get_str("BOOK"),
        given.get_str("SHEET"),
        given.get_str("NEEDLE"),
    );
    let (book, sheet, needle) = match words {
        (Some(needle), None, _) => (None, None, needle),
        (book, Some(needle), None) => (book, None, needle),
        (book, sheet, Some(needle)) => (book, sheet, needle),
        (None, None, None) => {
            return Err(LineFault::Usage(String::from_str(alloc, NO_NEEDLE)?));
        }
    };
    let sheet = sheet_if_given(alloc, given, sheet)?;
    Ok(Line::Find {
        project: text(alloc, given, "PROJECT")?,
        book: book_if_given(alloc, book)?,
        sheet,
        needle: String::from_str(alloc, needle)?,
        with_text: given.get_flag(WITH_TEXT),
        by_lines: given.get_flag(BY_LINES),
    })
}

// The needle is the one word beside the files.
fn find_files_line(alloc: Global, given: &ArgMatches<'_>) -> Result<Line, LineFault> {
    let Some(needle) = given.get_str("PROJECT") else {
        return Err(LineFault::Usage(String::from_str(alloc, NO_NEEDLE)?));
    };
    let look = FilesLook::Find {
        sheet: sheet_if_given(alloc, given, None)?,
        needle: String::from_str(alloc, needle)?,
        with_text: given.get_flag(WITH_TEXT),
        by_lines: given.get_flag(BY_LINES),
    };
    files_line(alloc, given, look, given.get_str("BOOK").is_some())
}

const NO_NEEDLE: &str = "\
error: the following required arguments were not provided:
  <NEEDLE>

Usage: usfm_team find [OPTIONS] <PROJECT> [BOOK] [SHEET] <NEEDLE>

For more information, try '--help'.
";

pub(crate) fn words<'a>(alloc: Global) -> Result<Command<'a>, AllocError> {
    by_sheet(
        alloc,
        "words",
        "Lists the words in the verses of books",
        WORDS,
        WORDS_USAGE,
    )
}

const WORDS_USAGE: &str = "\
usfm_team words [OPTIONS] <PROJECT> [BOOK] [SHEET]
       usfm_team words [OPTIONS] --files <FILE>...";

const WORDS: &str = "\
Of one BOOK it writes a line for each word: the word in Unicode's Normalization
Form C, and after it the places where it occurs, each after a space. Where the
text has another form, `find` finds the word only as it stands there. Of all
books it writes such a line for each word of each book, with the book's code
between the two; the lines of one word are together, in the order of the books,
and so it does of books' files with --files. Without SHEET it goes by the
program's own.

Example: usfm_team words ana.project
Example: usfm_team words ana.project MAT samples/small.sty
Example: usfm_team words --files texts/*.usfm

Faults: those of `check`";

pub(crate) fn words_line(alloc: Global, given: &ArgMatches<'_>) -> Result<Line, LineFault> {
    let sheet = sheet_if_given(alloc, given, given.get_str("SHEET"))?;
    if has_files(given) {
        let look = FilesLook::Words { sheet };
        return files_line(alloc, given, look, given.get_str("PROJECT").is_some());
    }
    Ok(Line::Words {
        project: text(alloc, given, "PROJECT")?,
        book: book_if_given(alloc, given.get_str("BOOK"))?,
        sheet,
    })
}
