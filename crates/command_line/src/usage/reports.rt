// The subcommands that change no project: of each its words, its help, and the line that it is read
// as.
use super::{BOOK, PROJECT, REF, command, exit_code};
use crate::given::{book, reference, text, texts};
use crate::words::{Line, LineFault};
use clap::{Arg, ArgAction, ArgMatches, Command};
use std::alloc::{AllocError, Global};

pub(crate) fn shown<'a>(alloc: Global) -> Result<Command<'a>, AllocError> {
    command(
        alloc,
        "shown",
        "Shows a segment: each text that no other one replaces",
        SHOWN,
        &[PROJECT, REF],
    )
}

const SHOWN: &str = "\
For each edit a line `op NUMBER NAME LENGTH`, the text of LENGTH bytes,
and a line feed. The last one is the text that the book has, but for a chapter's
head: if the last one is empty and a verse has a text, the book has `\\c N`.
Verses that stand together, as in `\\v 3-4`, have the REF of the first one.

Example: usfm_team shown ana.project 'MAT 1:1'

Faults:
  fault 1                  out of memory
  fault 20, fault 21       REF is not a reference to a segment
  fault 60 to 70, 110      PROJECT is not a project
  fault 90 BYTES           writing failed after this many bytes
  fault 120                the file could not be read
  fault 121                the file has more than 268,435,456 bytes";

pub(crate) fn shown_line(alloc: Global, given: &ArgMatches<'_>) -> Result<Line, LineFault> {
    let project = text(alloc, given, "PROJECT")?;
    let (book, key) = reference(alloc, given, "REF")?;
    Ok(Line::Shown { project, book, key })
}

pub(crate) fn send<'a>(alloc: Global) -> Result<Command<'a>, AllocError> {
    command(
        alloc,
        "send",
        "Writes the bundle of all edits of the project",
        SEND,
        &[PROJECT],
    )?
    .arg(sealed(alloc))
}

// The option by which a bundle is written sealed.
fn sealed<'a>(alloc: Global) -> Arg<'a> {
    Arg::new(alloc, "sealed")
        .long("sealed")
        .action(ArgAction::SetTrue)
        .help("Seal it, so that damage on its way is seen")
}

const SEND: &str = "\
With --sealed the bundle stands behind its length and its SHA-256, and is
refused with fault 72 if it was damaged on its way, or is not whole. Versions
before 1.3.0 do not take it in.

Example: usfm_team send ana.project > ana.bundle

Faults:
  fault 1                  out of memory
  fault 60 to 70, 110      PROJECT is not a project
  fault 90 BYTES           writing failed after this many bytes
  fault 120                the file could not be read
  fault 121                the file has more than 268,435,456 bytes";

pub(crate) fn send_line(alloc: Global, given: &ArgMatches<'_>) -> Result<Line, LineFault> {
    Ok(Line::Send {
        project: text(alloc, given, "PROJECT")?,
        sealed: given.get_flag("sealed"),
    })
}

pub(crate) fn summary<'a>(alloc: Global) -> Result<Command<'a>, AllocError> {
    command(
        alloc,
        "summary",
        "Writes the summary of all edits of the project",
        SUMMARY,
        &[PROJECT],
    )
}

const SUMMARY: &str = "\
Anybody who has it can write what this project lacks: see `delta`.

Example: usfm_team summary ben.project > ben.summary

Faults:
  fault 1                  out of memory
  fault 60 to 70, 110      PROJECT is not a project
  fault 90 BYTES           writing failed after this many bytes
  fault 120                the file could not be read
  fault 121                the file has more than 268,435,456 bytes";

pub(crate) fn summary_line(alloc: Global, given: &ArgMatches<'_>) -> Result<Line, LineFault> {
    Ok(Line::Summary {
        project: text(alloc, given, "PROJECT")?,
    })
}

pub(crate) fn delta<'a>(alloc: Global) -> Result<Command<'a>, AllocError> {
    let summary = (
        "SUMMARY",
        "The summary of another project, as `summary` writes it",
    );
    command(
        alloc,
        "delta",
        "Writes the bundle of the edits that another project lacks",
        DELTA,
        &[PROJECT, summary],
    )?
    .arg(sealed(alloc))
}

const DELTA: &str = "\
The bundle has the edits that the summary does not cover; if one of them
has no text, all those of its segment. The other project takes it in with
`receive`, and then has all that this one has. With --sealed it is sealed, as
`usfm_team help send` says.

Example: usfm_team delta ana.project ben.summary > ana.bundle

Faults:
  fault 1                  out of memory
  fault 60 to 70, 110      PROJECT is not a project
  fault 71                 SUMMARY is not a summary
  fault 90 BYTES           writing failed after this many bytes
  fault 120                a file could not be read
  fault 121                a file has more than 268,435,456 bytes";

pub(crate) fn delta_line(alloc: Global, given: &ArgMatches<'_>) -> Result<Line, LineFault> {
    Ok(Line::Delta {
        project: text(alloc, given, "PROJECT")?,
        summary: text(alloc, given, "SUMMARY")?,
        sealed: given.get_flag("sealed"),
    })
}

pub(crate) fn report<'a>(alloc: Global) -> Result<Command<'a>, AllocError> {
    command(
        alloc,
        "report",
        "Reports conflicts, and the edits that are awaited",
        REPORT,
        &[PROJECT],
    )?
    .arg(exit_code(alloc, "Exit with status 3 where a line is written"))
}

const REPORT: &str = "\
For each segment that shows several texts a line `conflict REF COUNT`; then for
each of its texts, that of the greatest edit first, a line
`text NUMBER NAME LENGTH`, the text of LENGTH bytes, and a line feed. Then a
line `awaited NUMBER NAME` for each edit that another one replaces and
that has not come yet.

Example: usfm_team report ana.project

Faults:
  fault 1                  out of memory
  fault 60 to 70, 110      PROJECT is not a project
  fault 90 BYTES           writing failed after this many bytes
  fault 120                the file could not be read
  fault 121                the file has more than 268,435,456 bytes";

pub(crate) fn report_line(alloc: Global, given: &ArgMatches<'_>) -> Result<Line, LineFault> {
    Ok(Line::Report {
        project: text(alloc, given, "PROJECT")?,
    })
}

pub(crate) fn fold<'a>(alloc: Global) -> Result<Command<'a>, AllocError> {
    command(
        alloc,
        "fold",
        "Joins the bundles on standard input and writes a book's text",
        FOLD,
        &[BOOK],
    )
}

const FOLD: &str = "\
Bundles come one after another; their order, and how often each comes, make no
difference. Sealed ones are opened first.

Example: usfm_team fold MAT < first.bundle

Faults:
  fault 1                out of memory
  fault 20               BOOK is not a book's code
  fault 51 NUMBER NAME   two edits that differ have this id
  fault 60               a bundle does not begin as a bundle does
  fault 61               a truncated bundle
  fault 62 to 69 PLACE   the edit at this place is not well formed
  fault 72               a sealed bundle was damaged, or is not whole
  fault 82               no edit is of the book
  fault 90 BYTES         writing failed after this many bytes
  fault 120              reading failed
  fault 121              the input has more than 268,435,456 bytes";

pub(crate) fn fold_line(alloc: Global, given: &ArgMatches<'_>) -> Result<Line, LineFault> {
    Ok(Line::Fold(book(alloc, given, "BOOK")?))
}

pub(crate) fn combine<'a>(alloc: Global) -> Result<Command<'a>, AllocError> {
    let bundles = Arg::new(alloc, "BUNDLE")
        .num_args(0..)
        .help("Bundles; without one, those on standard input");
    let made = command(
        alloc,
        "combine",
        "Writes the one bundle that has all of several",
        COMBINE,
        &[],
    )?;
    made.arg(bundles)?.arg(sealed(alloc))
}

const COMBINE: &str = "\
The bundle stands for all of them: their order, how often each comes, and which
were combined before make no difference to its bytes. Sealed ones are opened
first. With --sealed the bundle is sealed, as `usfm_team help send` says.

Example: usfm_team combine ana.bundle ben.bundle > team.bundle

Faults:
  fault 1                out of memory
  fault 51 NUMBER NAME   two edits that differ have this id
  fault 60               a BUNDLE does not begin as a bundle does
  fault 61               a truncated bundle
  fault 62 to 69 PLACE   the edit at this place is not well formed
  fault 70               something stands after a bundle
  fault 72               a sealed bundle was damaged, or is not whole
  fault 90 BYTES         writing failed after this many bytes
  fault 120              a file could not be read
  fault 121              a file or the input has more than 268,435,456 bytes";

pub(crate) fn combine_line(alloc: Global, given: &ArgMatches<'_>) -> Result<Line, LineFault> {
    Ok(Line::Combine {
        bundles: texts(alloc, given, "BUNDLE")?,
        sealed: given.get_flag("sealed"),
    })
}

pub(crate) fn faults<'a>(alloc: Global) -> Result<Command<'a>, AllocError> {
    command(
        alloc,
        "faults",
        "Lists the faults: what each means, and what to do",
        FAULTS,
        &[],
    )
}

const FAULTS: &str = "\
A command that is refused says this of its own fault at a terminal, and with
--explain wherever its standard error goes.

Example: usfm_team faults

Faults:
  fault 1          out of memory
  fault 90 BYTES   writing failed after this many bytes";
