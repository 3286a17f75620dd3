// The subcommands on what was in a project: of each its words, its help, and the line that it is
// read as.
use super::{PROJECT, command, exit_code};
use crate::given::{ids, names, text, text_if_given};
use crate::words::{Line, LineFault};
use clap::{Arg, ArgAction, ArgMatches, Command};
use std::alloc::{AllocError, Global};

// An option without a value.
fn flag<'a>(alloc: Global, long: &'a str, help: &'a str) -> Arg<'a> {
    Arg::new(alloc, long)
        .long(long)
        .action(ArgAction::SetTrue)
        .help(help)
}

// The option by which a reference is a whole chapter.
fn chapter<'a>(alloc: Global) -> Arg<'a> {
    flag(alloc, "chapter", "Take each REF as its whole chapter")
}

// The option that says since when.
fn since<'a>(alloc: Global, help: &'a str) -> Arg<'a> {
    Arg::new(alloc, "WHAT").long("since").help(help)
}

pub(crate) fn history<'a>(alloc: Global) -> Result<Command<'a>, AllocError> {
    let named = Arg::new(alloc, "REF")
        .value_name("REF|BOOK")
        .required(true)
        .num_args(1..)
        .help("The segments or books, as \"MAT 1:1\" or MAT");
    command(
        alloc,
        "history",
        "Lists all edits of a segment, and what replaced them",
        HISTORY,
        &[PROJECT],
    )?
    .arg(named)?
    .arg(chapter(alloc))
}

const HISTORY: &str = "\
For each segment a line `history REF COUNT`, and for each of its edits, the
greatest first, a line
  op NUMBER NAME LENGTH shown
                           or, in the place of `shown`, `replaced` and the ids
                           of the edits that replace it, as 3:ana; then the
                           text of LENGTH bytes, and a line feed
  op NUMBER NAME thinned ID ..
                           its text was left out by `thin`
  awaited NUMBER NAME replaced ID ..
                           it was replaced, and has not come yet
Of a BOOK, or of a chapter, each segment that has an edit. To have a text back,
give its id to `restore`.

Example:
  usfm_team history ana.project 'MAT 5:3'
  usfm_team history ana.project 'MAT 5' --chapter

Faults:
  fault 1                  out of memory
  fault 20, fault 21       REF is not a reference, or BOOK not a book's code
  fault 60 to 70, 110      PROJECT is not a project
  fault 82                 the project has no edit of a book that is named
  fault 90 BYTES           writing failed after this many bytes
  fault 120                the file could not be read
  fault 121                the file has more than 268,435,456 bytes";

pub(crate) fn history_line(alloc: Global, given: &ArgMatches<'_>) -> Result<Line, LineFault> {
    Ok(Line::History {
        project: text(alloc, given, "PROJECT")?,
        names: names(alloc, given, "REF", given.get_flag("chapter"))?,
    })
}

pub(crate) fn changes<'a>(alloc: Global) -> Result<Command<'a>, AllocError> {
    let named = Arg::new(alloc, "REF")
        .value_name("REF|BOOK")
        .num_args(0..)
        .help("The segments or books, as \"MAT 1:1\" or MAT; else all");
    let what = since(alloc, "What was: a day, folder, summary, bundle or project");
    command(
        alloc,
        "changes",
        "Lists the segments that changed, and who changed them",
        CHANGES,
        &[PROJECT],
    )?
    .arg(named)?
    .arg(what)?
    .arg(chapter(alloc))?
    .arg(flag(alloc, "text", "Write what was shown, and what is shown"))?
    .arg(exit_code(alloc, "Exit with status 3 where something changed"))
}

const CHANGES: &str = "\
For each segment with an edit that WHAT does not have, a line
`changed REF NAME ..`, with the names of the copies that made those edits. With
--text then for each edit that those of WHAT show by themselves, the greatest
first, a line `was NUMBER NAME LENGTH`, the text of LENGTH bytes and a line
feed, and for each that is shown now the same with `is`; where the text was left
out, `thinned` stands in the place of LENGTH, and no text follows.
WHAT is a summary, a bundle or a project; or the folder of books of a sync: what
its files were written from before the last time; or a day, as 2026-11-24: what
the project was when the day began, by its folder. On each day on which a sync
changes the project, the folder keeps what it was before; of a day without one
the next that is kept answers. PROJECT may be the folder, if it is set up; or
the folder stands beside it, as ana beside ana.project.

Example:
  usfm_team summary ana.project > monday.summary
  usfm_team changes ana.project --since monday.summary --text

Faults:
  fault 1                  out of memory
  fault 20, fault 21       REF is not a reference, or BOOK not a book's code
  fault 60 to 71, 110      WHAT is not a summary, a bundle or a project
  fault 72                 WHAT is a sealed bundle that was damaged, or is cut
  fault 60 to 70, 110      PROJECT is not a project
  fault 82                 the project has no edit of a book that is named
  fault 90 BYTES           writing failed after this many bytes
  fault 120                a file could not be read, or no such day is kept
  fault 121                a file has more than 268,435,456 bytes";

pub(crate) fn changes_line(alloc: Global, given: &ArgMatches<'_>) -> Result<Line, LineFault> {
    let project = text(alloc, given, "PROJECT")?;
    match text_if_given(alloc, given, "WHAT")? {
        Some(since) => Ok(Line::Changes {
            project,
            since,
            names: names(alloc, given, "REF", given.get_flag("chapter"))?,
            with_texts: given.get_flag("text"),
        }),
        None => Err(LineFault::Usage(String::from_str(alloc, NO_SINCE)?)),
    }
}

const NO_SINCE: &str = "\
error: say since when, with --since WHAT

Usage: usfm_team changes [OPTIONS] --since <WHAT> <PROJECT> [REF|BOOK]...

For more information, try '--help'.
";

pub(crate) fn restore<'a>(alloc: Global) -> Result<Command<'a>, AllocError> {
    let named = Arg::new(alloc, "ID")
        .value_name("ID|REF|BOOK")
        .num_args(0..)
        .help("Edits by their ids; with --since segments or books");
    let what = since(
        alloc,
        "Go back to a day, folder, summary, bundle or project",
    );
    command(
        alloc,
        "restore",
        "Gives segments a text that they had before",
        RESTORE,
        &[PROJECT],
    )?
    .arg(named)?
    .arg(what)?
    .arg(flag(alloc, "all", "With --since: all segments"))?
    .arg(chapter(alloc))?
    .arg(flag(alloc, "try", "Say what would be done, and do nothing"))
}

const RESTORE: &str = "\
With IDs, as `history` lists them (3:ana for `op 3 ana`): each segment gets the
text of its edit again, one after another. Writes `made NUMBER NAME` for each
edit that this makes. With --since each named segment gets the text that it had
by the edits of WHAT alone, and none where these have none; writes
`restored N CODE` for each book in which N edits were made. An edit replaces all
that the segment shows; what it replaces stays in the history. A segment that
has the text gets no edit. It restores all, or nothing. WHAT is as it is for
`changes`.

Example:
  usfm_team restore ana.project 3:ana
  usfm_team restore ana.project --since monday.summary 'MAT 5' --chapter

Faults:
  fault 1                  out of memory
  fault 20, fault 21       REF is not a reference, or BOOK not a book's code
  fault 52                 ID is not the id of an edit
  fault 60 to 71, 110      WHAT is not a summary, a bundle or a project
  fault 72                 WHAT is a sealed bundle that was damaged, or is cut
  fault 60 to 70, 110      PROJECT is not a project
  fault 80                 by WHAT the book has no head: it cannot lose that
  fault 81                 no number is left for the edit
  fault 82                 the project has no edit of a book that is named
  fault 83 NUMBER NAME     the project does not have this edit
  fault 84 NUMBER NAME     the text of this edit was left out by `thin`
  fault 90 BYTES           writing the output failed; the project is changed
  fault 120                a file could not be read, or no such day is kept
  fault 121                a file has more than 268,435,456 bytes
  fault 130                the project could not be written";

pub(crate) fn restore_line(alloc: Global, given: &ArgMatches<'_>) -> Result<Line, LineFault> {
    let project = text(alloc, given, "PROJECT")?;
    let is_try = given.get_flag("try");
    let all = given.get_flag("all");
    let is_empty = given.get_strs("ID").unwrap_or(&[]).is_empty();
    match text_if_given(alloc, given, "WHAT")? {
        None if !is_empty && !all && !given.get_flag("chapter") => Ok(Line::Restore {
            project,
            ids: ids(alloc, given, "ID")?,
            is_try,
        }),
        Some(since) if is_empty == all => Ok(Line::RestoreSince {
            project,
            since,
            names: names(alloc, given, "ID", given.get_flag("chapter"))?,
            is_try,
        }),
        _ => Err(LineFault::Usage(String::from_str(alloc, NAME_WHAT)?)),
    }
}

const NAME_WHAT: &str = "\
error: name the ids of edits; or with --since segments or books, or else --all

Usage: usfm_team restore [OPTIONS] <PROJECT> <ID>...
       usfm_team restore [OPTIONS] --since <WHAT> <PROJECT> <REF|BOOK>...

For more information, try '--help'.
";

pub(crate) fn thin<'a>(alloc: Global) -> Result<Command<'a>, AllocError> {
    command(
        alloc,
        "thin",
        "Leaves out the texts that were replaced",
        THIN,
        &[PROJECT],
    )
}

const THIN: &str = "\
The project then has no text that another edit of its segment replaced,
and nobody can read those texts there any more: `history` lists them without a
text, and `restore` cannot have them back. Books and reports stay the same, and
a copy that receives the project's bundle leaves these texts out too. At a
terminal it says how many texts of how many segments these are, and asks first.
Writes `thinned N`, N the number of texts that were left out now.

Example: usfm_team thin ana.project

Faults:
  fault 1                  out of memory
  fault 60 to 70, 110      PROJECT is not a project
  fault 90 BYTES           writing the output failed; the project is changed
  fault 120                the file could not be read
  fault 121                the file has more than 268,435,456 bytes
  fault 130                the project could not be written";

pub(crate) fn thin_line(alloc: Global, given: &ArgMatches<'_>) -> Result<Line, LineFault> {
    Ok(Line::Thin {
        project: text(alloc, given, "PROJECT")?,
    })
}
