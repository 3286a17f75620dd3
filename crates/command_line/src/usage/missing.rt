// The subcommand that says what is missing by a versification: its words, its help, and the line
// that it is read as.
use super::book_files::{files_line, has_files, with_files};
use super::exit_code;
use crate::files::FilesLook;
use crate::given::{refused_word, text, text_if_given};
use crate::words::{Line, LineFault};
use clap::{Arg, ArgAction, ArgMatches, Command};
use conflict_settling::Wanted;
use missing_verses::Part;
use std::alloc::{AllocError, Global};
use usfm_ref::{Place, RefFault};

const VERSIFICATION: &str = "VERSIFICATION";

const ALL: &str = "all";

// The option that takes another versification than the program's own.
pub(crate) fn versification<'a>(alloc: Global) -> Arg<'a> {
    Arg::new(alloc, VERSIFICATION)
        .long("versification")
        .value_name("FILE")
        .help("A versification such as Paratext's eng.vrs")
}

// The file that it names, if one is given.
pub(crate) fn versification_if_given(
    alloc: Global,
    given: &ArgMatches<'_>,
) -> Result<Option<String>, AllocError> {
    text_if_given(alloc, given, VERSIFICATION)
}

pub(crate) fn missing<'a>(alloc: Global) -> Result<Command<'a>, AllocError> {
    let parts = Arg::new(alloc, "BOOK")
        .num_args(0..)
        .value_name("BOOK|CHAPTER")
        .help("MAT or \"MAT 1\"; else all books of the project");
    let all = Arg::new(alloc, ALL)
        .long("all")
        .action(ArgAction::SetTrue)
        .help("Also list the books of which there is nothing");
    with_files(
        alloc,
        "missing",
        "Says which verses of books are missing",
        MISSING,
        MISSING_USAGE,
    )?
    .arg(parts)?
    .arg(versification(alloc))?
    .arg(all)?
    .arg(exit_code(alloc, "Exit with status 3 where a line is written"))
}

const MISSING_USAGE: &str = "\
usfm_team missing [OPTIONS] <PROJECT> [BOOK|CHAPTER]...
       usfm_team missing [OPTIONS] --files <FILE>...";

const MISSING: &str = "\
Compares books with a versification, which says how many verses each chapter
has: with FILE, in the form of Paratext's .vrs, or with the program's own, that
of the English Bible. Writes these lines, chapter by chapter:
  missing MAT 1:4-25       verses that no segment and no bridge has
  missing MAT 28           a chapter of which there is nothing
  beyond MAT 1:26          a segment with a verse that the versification does
                           not have
  twice MAT 1:5            a verse that a bridge and another segment have
  empty MAT 1:7            a verse without words
No line: nothing is missing. A book of which there is nothing has no line; with
--all it has one, `missing MRK`, if the versification has the book.
With --files it needs no project: it compares books' files as they stand.

Example: usfm_team missing ana.project
Example: usfm_team missing ana.project 'MAT 1' --versification eng.vrs
Example: usfm_team missing --files texts/*.usfm

Faults, after those of --files `in FILE`:
  fault 1                  out of memory
  fault 10 BYTES           a file of --files is not UTF-8 after this many bytes
  fault 20, fault 30       it does not begin with \\id and a book's code
  fault 20, fault 21       BOOK|CHAPTER is no book's code and no chapter
  fault 43 LINE            this line of FILE is none of a versification
  fault 60 to 70, 110      PROJECT is not a project
  fault 82                 the project has no edit of the book
  fault 90 BYTES           writing failed after this many bytes
  fault 120                a file could not be read
  fault 121                a file has more than 268,435,456 bytes";

pub(crate) fn missing_line(alloc: Global, given: &ArgMatches<'_>) -> Result<Line, LineFault> {
    if has_files(given) {
        let look = FilesLook::Missing {
            versification: versification_if_given(alloc, given)?,
        };
        let is_of_project = given.get_str("PROJECT").is_some() || given.get_flag(ALL);
        return files_line(alloc, given, look, is_of_project);
    }
    Ok(Line::Missing {
        project: text(alloc, given, "PROJECT")?,
        parts: parts(alloc, given)?,
        versification: versification_if_given(alloc, given)?,
        all: given.get_flag(ALL),
    })
}

// The books and chapters that the words name.
fn parts(alloc: Global, given: &ArgMatches<'_>) -> Result<Vec<Part>, LineFault> {
    let mut parts = Vec::new(alloc);
    for word in given.get_strs("BOOK").unwrap_or(&[]) {
        match part_of(*word) {
            Ok(part) => parts.push(part)?,
            Err(fault) => return Err(refused_word(alloc, fault, *word)),
        }
    }
    Ok(parts)
}

// The book or the chapter that a word names.
fn part_of(word: &str) -> Result<Part, RefFault> {
    match Wanted::read(word)? {
        Wanted::Whole(book) => Ok(Part::Whole(book)),
        Wanted::One(book, key) => match key.place {
            Place::Head => Ok(Part::OneChapter(book, key.chapter)),
            Place::Verse {
                number: _,
                letter: _,
            } => Err(RefFault::BadRef),
        },
    }
}
