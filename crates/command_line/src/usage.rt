// The program's subcommands: of each its words, its help, and the line that it is read as.
// `program` and `line_of` name them all.
mod book_files;
mod folders;
mod history;
mod joining;
mod merging;
mod missing;
mod reading;
mod reports;
mod settling;
mod sheets;
mod standing;

use self::folders::{export, export_line, sync, sync_line};
use self::history::{
    changes, changes_line, history, history_line, restore, restore_line, thin, thin_line,
};
use self::joining::{join, join_line};
use self::merging::{merge, merge_line};
use self::missing::{missing, missing_line};
use self::reading::{read, read_line};
use self::reports::{
    combine, combine_line, delta, delta_line, faults, fold, fold_line, report, report_line, send,
    send_line, shown, shown_line, summary, summary_line,
};
use self::settling::{settle, settle_line};
use self::sheets::{check, check_line, find, find_line, words, words_line};
use self::standing::{page, page_line, progress, progress_line, status, status_line};
use crate::given::{id_if_given, ids, reference, text, text_if_given, texts, word};
use crate::words::{Line, LineFault};
use clap::{Arg, ArgAction, ArgMatches, Command};
use op_core::ReplicaName;
use std::alloc::{AllocError, Global};

/// The version of this workspace, which `usfm_team --version` prints. It is here alone.
pub const VERSION: &str = "1.4.0";

// What an argument is called, and what is to be given for it.
type Words<'a> = &'a [(&'static str, &'static str)];

pub(crate) const PROJECT: (&str, &str) = ("PROJECT", "The project's file");

pub(crate) const REF: (&str, &str) = (
    "REF",
    "\"MAT 1:1\" a verse, \"MAT 1\" a chapter's head, \"MAT 0\" the book's",
);

pub(crate) const BOOK: (&str, &str) = (
    "BOOK",
    "The book's code: three of A to Z and 0 to 9, such as MAT",
);

/// The program's subcommands and their words.
pub(crate) fn program<'a>(alloc: Global) -> Result<Command<'a>, AllocError> {
    let program = Command::new(alloc, "usfm_team")
        .bin_name("usfm_team")?
        .no_binary_name(true)
        .version(VERSION)
        .about("Keeps the Scripture project of a team that works offline.")
        .after_help(MORE)
        .subcommand_required(true);
    let program = with(program, init(alloc))?;
    let program = with(program, import(alloc))?;
    let program = with(program, edit(alloc))?;
    let program = with(program, edit_over(alloc))?;
    let program = with(program, settle(alloc))?;
    let program = with(program, shown(alloc))?;
    let program = with(program, history(alloc))?;
    let program = with(program, changes(alloc))?;
    let program = with(program, restore(alloc))?;
    let program = with(program, receive(alloc))?;
    let program = with(program, join(alloc))?;
    let program = with(program, sync(alloc))?;
    let program = with(program, send(alloc))?;
    let program = with(program, export(alloc))?;
    let program = with(program, summary(alloc))?;
    let program = with(program, delta(alloc))?;
    let program = with(program, status(alloc))?;
    let program = with(program, progress(alloc))?;
    let program = with(program, page(alloc))?;
    let program = with(program, missing(alloc))?;
    let program = with(program, report(alloc))?;
    let program = with(program, check(alloc))?;
    let program = with(program, find(alloc))?;
    let program = with(program, words(alloc))?;
    let program = with(program, read(alloc))?;
    let program = with(program, thin(alloc))?;
    let program = with(program, fold(alloc))?;
    let program = with(program, combine(alloc))?;
    let program = with(program, merge(alloc))?;
    with(program, faults(alloc))
}

/// The line of a subcommand, by what it was given.
pub(crate) fn line_of(
    alloc: Global,
    name: &str,
    given: &ArgMatches<'_>,
) -> Result<Line, LineFault> {
    match name {
        "init" => init_line(alloc, given),
        "import" => import_line(alloc, given),
        "edit" => edit_line(alloc, given),
        "edit-over" => edit_over_line(alloc, given),
        "settle" => settle_line(alloc, given),
        "shown" => shown_line(alloc, given),
        "history" => history_line(alloc, given),
        "changes" => changes_line(alloc, given),
        "restore" => restore_line(alloc, given),
        "receive" => receive_line(alloc, given),
        "join" => join_line(alloc, given),
        "sync" => sync_line(alloc, given),
        "send" => send_line(alloc, given),
        "export" => export_line(alloc, given),
        "summary" => summary_line(alloc, given),
        "delta" => delta_line(alloc, given),
        "status" => status_line(alloc, given),
        "progress" => progress_line(alloc, given),
        "page" => page_line(alloc, given),
        "missing" => missing_line(alloc, given),
        "report" => report_line(alloc, given),
        "check" => check_line(alloc, given),
        "find" => find_line(alloc, given),
        "words" => words_line(alloc, given),
        "read" => read_line(alloc, given),
        "thin" => thin_line(alloc, given),
        "fold" => fold_line(alloc, given),
        "combine" => combine_line(alloc, given),
        "merge" => merge_line(alloc, given),
        "faults" => Ok(Line::Faults),
        _ => Err(LineFault::Usage(String::from_str(alloc, NO_SUBCOMMAND)?)),
    }
}

/// What is said where no subcommand was given. `program` asks for one, and says so itself.
pub(crate) const NO_SUBCOMMAND: &str = "\
error: no subcommand was given

For more information, try '--help'.
";

// The program with one more subcommand. What it has by then stays out of the proof of `program`,
// which would repeat it at each of them.
fn with<'a>(
    program: Command<'a>,
    made: Result<Command<'a>, AllocError>,
) -> Result<Command<'a>, AllocError> {
    program.subcommand(made?)
}

const MORE: &str = "\
Begin with a folder of books, and a box that the team shares:
  usfm_team join texts ana --box stick
  usfm_team sync texts

An edit is one text for one segment, also where an import or a sync made it; its
id is a number and a copy's name. A segment is a verse, or a head: what comes
before the first verse of a chapter, or before the first chapter of a book.

A command that is refused writes `fault NUMBER ..` to standard error, and exits
with status 1, `merge` with 2; the help of a subcommand lists its faults. At a
terminal, or with --explain, it also says what that means and what to do;
`usfm_team faults` lists this for all faults. A wrong command line exits with
status 2. With --exit-code some commands exit with status 3 for what they find,
and `sync` with 4 where it skipped a bundle of the box. A change is written to
PROJECT.new, which is renamed to PROJECT; if PROJECT is a link, this replaces
the file that it leads to. A project of more than 268,435,456 bytes is written,
but cannot be read again.";

// A subcommand with its words, each of them required, and with `--explain`, which `read_words`
// takes out of every line.
pub(crate) fn command<'a>(
    alloc: Global,
    name: &'a str,
    about: &'a str,
    more: &'a str,
    words: Words<'_>,
) -> Result<Command<'a>, AllocError> {
    let mut made = Command::new(alloc, name).about(about).after_help(more);
    for (word, help) in words {
        made = made.arg(Arg::new(alloc, *word).required(true).help(*help))?;
    }
    let explain = Arg::new(alloc, "explain")
        .long("explain")
        .action(ArgAction::SetTrue)
        .help("Say what a fault means and what to do");
    made.arg(explain)
}

// The option of a command that may exit with another status than 0 where it is not refused.
pub(crate) fn exit_code<'a>(alloc: Global, help: &'a str) -> Arg<'a> {
    Arg::new(alloc, "exit-code")
        .long("exit-code")
        .action(ArgAction::SetTrue)
        .help(help)
}

fn init<'a>(alloc: Global) -> Result<Command<'a>, AllocError> {
    let name = (
        "NAME",
        "A name that no other copy has: 1 to 32 of a to z, 0 to 9 and -",
    );
    command(alloc, "init", "Begins a project", INIT, &[PROJECT, name])
}

const INIT: &str = "\
Example: usfm_team init ana.project ana

Faults:
  fault 1      out of memory
  fault 50     NAME is not a name for a copy: see above
  fault 130    PROJECT is there already, or could not be written";

fn init_line(alloc: Global, given: &ArgMatches<'_>) -> Result<Line, LineFault> {
    Ok(Line::Init {
        project: text(alloc, given, "PROJECT")?,
        name: ReplicaName::read(word(given, "NAME"))?,
    })
}

fn import<'a>(alloc: Global) -> Result<Command<'a>, AllocError> {
    let files = Arg::new(alloc, "FILE").required(true).num_args(1..).help(
        "A book in USFM, in UTF-8, that begins with \\id and the book's code",
    );
    let since = Arg::new(alloc, "BUNDLE")
        .long("since")
        .help("The bundle that was sent when FILE was exported");
    command(
        alloc,
        "import",
        "Takes in the files of books; each difference becomes an edit",
        IMPORT,
        &[PROJECT],
    )?
    .arg(files)?
    .arg(since)
}

const IMPORT: &str = "\
Writes `added N` for each FILE, N the number of edits. Takes in all, or none: if
it refuses one of several, a second line `in FILE` on standard error names it.
One file has one book: what follows a second \\id stays in the first book.

If FILE differs from the book, it replaces all that is shown there, also what
came from others. If it was exported from PROJECT and others' work was received
since, give the bundle of that time:
  usfm_team send ana.project > ana.bundle
  usfm_team export ana.project MAT > matthew.usfm
  usfm_team import ana.project matthew.usfm --since ana.bundle
Then an edit replaces only what FILE had at that time; what came in stays.

Example: usfm_team import ana.project matthew.usfm mark.usfm

Faults:
  fault 1                  out of memory
  fault 10 BYTES           FILE is not UTF-8 after this many bytes
  fault 20, fault 30       FILE does not begin with \\id and a book's code
  fault 51 NUMBER NAME     two edits that differ have this id
  fault 60 to 70, 110      PROJECT is not a project, or BUNDLE not a bundle
  fault 81                 no number is left for the edits
  fault 90 BYTES           writing the output failed; the project is changed
  fault 120                a file could not be read
  fault 121                a file has more than 268,435,456 bytes
  fault 130                the project could not be written";

fn import_line(alloc: Global, given: &ArgMatches<'_>) -> Result<Line, LineFault> {
    Ok(Line::Import {
        project: text(alloc, given, "PROJECT")?,
        files: texts(alloc, given, "FILE")?,
        since: text_if_given(alloc, given, "BUNDLE")?,
    })
}

fn edit<'a>(alloc: Global) -> Result<Command<'a>, AllocError> {
    command(
        alloc,
        "edit",
        "Replaces all that a segment shows by the text of standard input",
        EDIT,
        &[PROJECT, REF],
    )
}

const EDIT: &str = "\
The text is the whole segment, with its mark: `\\v 1 In the beginning` for
verse 1, and with the end of its last line. Verses that stand together, as in
`\\v 3-4`, are one segment, that of the first one. An empty text removes the
segment from its book. Writes `made NUMBER NAME`, the edit's id.

Example: printf '\\\\v 1 At\\n' | usfm_team edit ana.project 'MAT 1:1'

Faults:
  fault 1                  out of memory
  fault 10 BYTES           the text is not UTF-8 after this many bytes
  fault 20, fault 21       REF is not a reference to a segment
  fault 60 to 70, 110      PROJECT is not a project
  fault 80                 the text begins with another mark, or has a later one
  fault 81                 no number is left for the edit
  fault 82                 no such book yet: import it, or edit its head `MAT 0`
  fault 90 BYTES           writing the output failed; the project is changed
  fault 120                a file could not be read
  fault 121                a file has more than 268,435,456 bytes
  fault 130                the project could not be written";

fn edit_line(alloc: Global, given: &ArgMatches<'_>) -> Result<Line, LineFault> {
    let project = text(alloc, given, "PROJECT")?;
    let (book, key) = reference(alloc, given, "REF")?;
    Ok(Line::Edit { project, book, key })
}

fn edit_over<'a>(alloc: Global) -> Result<Command<'a>, AllocError> {
    let ids = Arg::new(alloc, "ID")
        .num_args(0..)
        .help("The edits to replace: 3:ana for `op 3 ana` of `shown`");
    let text_of = Arg::new(alloc, "TEXT")
        .long("text-of")
        .value_name("ID")
        .help("Take this edit's text, and not standard input's");
    command(
        alloc,
        "edit-over",
        "Replaces the given edits by the text of standard input",
        EDIT_OVER,
        &[PROJECT, REF],
    )?
    .arg(ids)?
    .arg(text_of)
}

const EDIT_OVER: &str = "\
Operations that are not named stay shown beside the new text; with no ID it
replaces nothing. --text-of names an edit that the segment shows, which may
be one of those that are replaced.

Example:
  printf '\\\\v 1 As\\n' | usfm_team edit-over ana.project 'MAT 1:1' 3:ana 3:ben
  usfm_team edit-over ana.project 'MAT 1:1' 3:ana 3:ben --text-of 3:ben

Faults: those of `edit`, and
  fault 52                 ID is not the id of an edit
  fault 83 NUMBER NAME     the segment does not show this edit";

fn edit_over_line(alloc: Global, given: &ArgMatches<'_>) -> Result<Line, LineFault> {
    let project = text(alloc, given, "PROJECT")?;
    let (book, key) = reference(alloc, given, "REF")?;
    let ids = ids(alloc, given, "ID")?;
    Ok(Line::EditOver {
        project,
        book,
        key,
        ids,
        text_of: id_if_given(given, "TEXT")?,
    })
}

fn receive<'a>(alloc: Global) -> Result<Command<'a>, AllocError> {
    let bundles = Arg::new(alloc, "BUNDLE")
        .required(true)
        .num_args(1..)
        .help("A bundle, as `send` writes it, sealed or not");
    command(alloc, "receive", "Takes in bundles", RECEIVE, &[PROJECT])?.arg(bundles)
}

const RECEIVE: &str = "\
Writes `new N` for each BUNDLE, N the number of edits that the project did
not have. Takes in all, or none: if it refuses one of several, a second line
`in BUNDLE` on standard error names it. At a terminal it also says on standard
error what `changes` writes: each verse of which an edit came, and whose it is.

Example: usfm_team receive ana.project ben.bundle cy.bundle

Faults:
  fault 1                  out of memory
  fault 51 NUMBER NAME     two edits that differ have this id
  fault 60 to 70           BUNDLE is not a bundle, or PROJECT not a project
  fault 72                 BUNDLE is sealed, and was damaged, or is not whole
  fault 90 BYTES           writing the output failed; the project is changed
  fault 110                PROJECT is not a project
  fault 120                a file could not be read
  fault 121                a file has more than 268,435,456 bytes
  fault 130                the project could not be written";

fn receive_line(alloc: Global, given: &ArgMatches<'_>) -> Result<Line, LineFault> {
    Ok(Line::Receive {
        project: text(alloc, given, "PROJECT")?,
        bundles: texts(alloc, given, "BUNDLE")?,
    })
}
