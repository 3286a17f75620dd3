// The subcommand that settles conflicts: its words, its help, and the line that it is read as.
use super::{PROJECT, command};
use crate::given::{text, texts, wanted};
use crate::words::{Line, LineFault};
use clap::{Arg, ArgMatches, Command};
use std::alloc::{AllocError, Global};

pub(crate) fn settle<'a>(alloc: Global) -> Result<Command<'a>, AllocError> {
    let named = Arg::new(alloc, "REF")
        .value_name("REF|BOOK")
        .num_args(0..)
        .help("The segments or books to settle, as \"MAT 1:1\" or MAT; else all");
    let answers = Arg::new(alloc, "FILE")
        .long("answers")
        .num_args(1..)
        .help("Ask nothing, and take the answers of these files");
    command(
        alloc,
        "settle",
        "Shows the conflicts one by one, and asks which text is right",
        SETTLE,
        &[PROJECT],
    )?
    .arg(named)?
    .arg(answers)
}

const SETTLE: &str = "\
For each segment that shows several texts it writes the text before it and its
texts, each with a number and who made it. What differs from the first text is
set off: at a terminal in reverse, else between [ and ]. A control character is
written as \\x and its number. Then it reads a line:
  1, 2 ..    takes the text of this number
  e          asks each line of text 1, in brackets: Return keeps it, - leaves
             it out, + TEXT adds one after it, any other text takes its place;
             of an empty text 1 it takes the lines that you type next, up to
             a line with only a full stop
  s          skips this segment
  q          stops, as control-D does
Each answer is an edit of its own, made at once; it writes `made NUMBER NAME`.
It replaces only what you were shown: where another command changed a text
meanwhile, or a typed text does not fit, nothing is made, and you are asked
again. In the end it writes
  settled N      how many edits were made
  conflicts N    how many conflicts are left, of those that were named
The next sync writes the settled texts into the files of a folder.

With --answers it asks nothing. Each answer of FILE has the ids of the texts
that whoever answered had read, and makes one edit over exactly these. Where one
of them is not shown any more, or the text does not fit, it makes nothing, and
`left REF` says so. A remark is written as `remark REF LENGTH`, its text of
LENGTH bytes and a line feed. In the end it writes `settled N` and `left N`. It
takes all files, or none: if it refuses one of several, a second line `in FILE`
on standard error names it.

Example:
  usfm_team settle ana.project
  printf '1\\n2\\n' | usfm_team settle ana.project MAT 'MRK 1:1'
  usfm_team settle ana.project --answers cy.answers

Faults:
  fault 1                  out of memory
  fault 20, fault 21       REF is not a reference, or BOOK not a book's code
  fault 60 to 70, 110      PROJECT is not a project
  fault 81                 no number is left for the edit
  fault 82                 the project has no edit of a book that is named
  fault 85 LINE            this line of FILE is none of a file of answers
  fault 90 BYTES           writing failed; the edits so far are made
  fault 120                a file could not be read
  fault 121                a file has more than 268,435,456 bytes
  fault 130                the project could not be written";

pub(crate) fn settle_line(alloc: Global, given: &ArgMatches<'_>) -> Result<Line, LineFault> {
    let project = text(alloc, given, "PROJECT")?;
    let wanted = wanted(alloc, given, "REF")?;
    let files = texts(alloc, given, "FILE")?;
    if files.is_empty() {
        Ok(Line::Settle { project, wanted })
    } else if wanted.is_empty() {
        Ok(Line::SettleAnswers { project, files })
    } else {
        Err(LineFault::Usage(String::from_str(alloc, ANSWERS_ALONE)?))
    }
}

const ANSWERS_ALONE: &str = "\
error: files of answers name their segments: with --answers name no REF or BOOK

Usage: usfm_team settle [OPTIONS] <PROJECT> [REF|BOOK]...
       usfm_team settle [OPTIONS] <PROJECT> --answers <FILE>...

For more information, try '--help'.
";
