// The subcommand that merges files of a book: its words, its help, and the line that it is read as.
use super::command;
use crate::files::MergeWords;
use crate::given::text;
use crate::words::{Line, LineFault};
use clap::{Arg, ArgAction, ArgMatches, Command};
use std::alloc::{AllocError, Global};

const BASE: (&str, &str) = (
    "BASE",
    "The file of a book that both others were written from",
);

const OURS: (&str, &str) = (
    "OURS",
    "The book as one side has it; the merge is written here",
);

const THEIRS: (&str, &str) = ("THEIRS", "The book as the other side has it");

const STDOUT: &str = "stdout";

const MARK: &str = "mark";

const ASK: &str = "ask";

pub(crate) fn merge<'a>(alloc: Global) -> Result<Command<'a>, AllocError> {
    command(
        alloc,
        "merge",
        "Merges two versions of a book's file, as a merge driver of git",
        MERGE,
        &[BASE, OURS, THEIRS],
    )?
    .arg(flag(alloc, STDOUT).help("Write the book to standard output, and leave OURS"))?
    .arg(flag(alloc, MARK).help("Also write the other text of each conflict, as remarks"))?
    .arg(flag(alloc, ASK).help("Ask about each conflict, as `settle` does"))
}

// An option without a value.
fn flag<'a>(alloc: Global, long: &'a str) -> Arg<'a> {
    Arg::new(alloc, long).long(long).action(ArgAction::SetTrue)
}

const MERGE: &str = "\
Needs no project. Goes by segments: OURS gets the book with what each side
changed in BASE. It keeps its line ends, and U+FEFF at its front if it has that.
Line ends, and blanks at the ends of lines, are in conflict with nothing.
Exits with
  status 0      no segment is in conflict
  status 1      both sides changed a segment, each to another text; the book has
                that of OURS, and standard error has both, as `report`
  status 2      nothing was written, for the fault on standard error
With --mark the book also has the text of THEIRS, after that of OURS, in lines
`\\rem conflict MAT 1:1 theirs: ..` with a / in the place of each backslash. With
--ask only what you leave open is a conflict in the end.

OURS is written by way of OURS.new, which is renamed. Where git has a line
`*.usfm merge=usfm` in .gitattributes, it merges so after this:
  git config merge.usfm.driver 'usfm_team merge %O %A %B'

Example: usfm_team merge base.usfm ours.usfm theirs.usfm --stdout > merged.usfm

Faults, after each `in FILE` where it is about one:
  fault 1                  out of memory
  fault 10 BYTES           FILE is not UTF-8 after this many bytes
  fault 20, fault 30       FILE does not begin with \\id and a book's code
  fault 90 BYTES           writing failed after this many bytes
  fault 120                a file could not be read
  fault 121                a file has more than 268,435,456 bytes
  fault 130                OURS could not be written
  fault 131                this side is of another book than BASE";

pub(crate) fn merge_line(alloc: Global, given: &ArgMatches<'_>) -> Result<Line, LineFault> {
    let (to_stdout, asks) = (given.get_flag(STDOUT), given.get_flag(ASK));
    if to_stdout && asks {
        return Err(LineFault::Usage(String::from_str(alloc, ASKED_THERE)?));
    }
    Ok(Line::Merge(MergeWords {
        base: text(alloc, given, "BASE")?,
        ours: text(alloc, given, "OURS")?,
        theirs: text(alloc, given, "THEIRS")?,
        to_stdout,
        is_marked: given.get_flag(MARK),
        asks,
    }))
}

const ASKED_THERE: &str = "\
error: --ask writes its questions to standard output, so --stdout cannot go with it

For more information, try '--help'.
";
