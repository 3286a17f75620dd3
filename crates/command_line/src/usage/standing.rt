// The subcommands that say how a project stands: of each its words, its help, and the line that it
// is read as.
use super::missing::{versification, versification_if_given};
use super::{PROJECT, command, exit_code};
use crate::given::{book_if_given, text, texts};
use crate::words::{Line, LineFault};
use clap::{Arg, ArgMatches, Command};
use std::alloc::{AllocError, Global};

pub(crate) fn status<'a>(alloc: Global) -> Result<Command<'a>, AllocError> {
    let files = Arg::new(alloc, "FILE").num_args(0..).help(
        "The folder of its books, and other copies' summaries or bundles",
    );
    command(
        alloc,
        "status",
        "Says how the project stands",
        STATUS,
        &[PROJECT],
    )?
    .arg(files)?
    .arg(exit_code(
        alloc,
        "Exit with status 3 for conflicts or a changed folder",
    ))
}

const STATUS: &str = "\
Writes these lines, leaving out those with nothing to say:
  copy NAME                the name of this copy
  books N, verses N        the books, and the verses in them that have a text
                           besides marks; a bridge is one
  shown NAME N, ..         whose texts are shown, and how many of each
  replaced N, of these N without their texts
                           the edits that others replace, and how many of
                           them `thin` left without a text
  conflict REF             a segment that shows different texts: see `report`
  awaited NUMBER NAME      an edit that another one replaces and that has
                           not come yet: ask NAME for a bundle
  changed FILE N           a file of the folder: `sync` takes in N edits of it
  unread FILE fault ..     a file of the folder that `sync` refuses, and why
  lacks FILE N             how many edits of this project the copy of
                           FILE does not have: write it a `delta`
  lacked FILE N            how many edits that copy has that this project
                           does not have: ask for a bundle

The folder comes first, where one is given. Nothing is locked or changed.

Example: usfm_team status ana.project texts ben.summary

Faults:
  fault 1                  out of memory
  fault 60 to 71           FILE is no folder, no summary and no bundle
  fault 72                 FILE is a sealed bundle that was damaged, or is cut
  fault 60 to 70, 110      PROJECT is not a project
  fault 90 BYTES           writing failed after this many bytes
  fault 120                a file could not be read
  fault 121                a file has more than 268,435,456 bytes";

pub(crate) fn status_line(alloc: Global, given: &ArgMatches<'_>) -> Result<Line, LineFault> {
    Ok(Line::Status {
        project: text(alloc, given, "PROJECT")?,
        files: texts(alloc, given, "FILE")?,
    })
}

pub(crate) fn progress<'a>(alloc: Global) -> Result<Command<'a>, AllocError> {
    let book = Arg::new(alloc, "BOOK").help("One book's code, such as MAT; else all books");
    command(
        alloc,
        "progress",
        "Says how many verses of each chapter have a text",
        PROGRESS,
        &[PROJECT],
    )?
    .arg(book)?
    .arg(versification(alloc))
}

const PROGRESS: &str = "\
Writes `BOOK CHAPTER N of M` for each chapter: of the M verses that it has, N
have a text. How many it has, FILE says, a versification in the form of
Paratext's .vrs, or without one the program's own, that of the English Bible; of
a chapter that it does not have, M is the greatest number of a verse there. What
a verse has besides its number, marks and blanks is its text. A bridge counts
for each of its verses, and a verse that stands in parts, such as 3a and 3b,
once. Chapter 0 is what stands before the first chapter.

Example: usfm_team progress ana.project MAT

Faults:
  fault 1                  out of memory
  fault 20                 BOOK is not a book's code
  fault 43 LINE            this line of FILE is none of a versification
  fault 60 to 70, 110      PROJECT is not a project
  fault 82                 the project does not have the book
  fault 90 BYTES           writing failed after this many bytes
  fault 120                a file could not be read
  fault 121                a file has more than 268,435,456 bytes";

pub(crate) fn progress_line(alloc: Global, given: &ArgMatches<'_>) -> Result<Line, LineFault> {
    let project = text(alloc, given, "PROJECT")?;
    let book = book_if_given(alloc, given.get_str("BOOK"))?;
    Ok(Line::Progress {
        project,
        book,
        versification: versification_if_given(alloc, given)?,
    })
}

pub(crate) fn page<'a>(alloc: Global) -> Result<Command<'a>, AllocError> {
    command(
        alloc,
        "page",
        "Writes a page about the project, to look at in a browser",
        PAGE,
        &[PROJECT],
    )?
    .arg(versification(alloc))
}

const PAGE: &str = "\
Writes one page of HTML to look at in a browser, to mail or to print: how the
project stands, as in `status`; a picture of how many verses of each chapter
have a text, by FILE as in `progress`; each conflict with the text before it,
its texts side by side with what differs marked, a box to tick at each of them,
and the text after it; and what is awaited. Where a browser runs its script, the
conflicts are answered on the page, and a button writes the answers as a file,
for `settle --answers`. The page needs no other file and no network.

Example: usfm_team page ana.project > ana.html

Faults:
  fault 1                  out of memory
  fault 43 LINE            this line of FILE is none of a versification
  fault 60 to 70, 110      PROJECT is not a project
  fault 90 BYTES           writing failed after this many bytes
  fault 120                a file could not be read
  fault 121                a file has more than 268,435,456 bytes";

pub(crate) fn page_line(alloc: Global, given: &ArgMatches<'_>) -> Result<Line, LineFault> {
    Ok(Line::Page {
        project: text(alloc, given, "PROJECT")?,
        versification: versification_if_given(alloc, given)?,
    })
}
