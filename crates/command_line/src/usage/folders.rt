// The subcommands on a folder of books' files, and the export of one book: of each its words, its
// help, and the line that it is read as.
use super::{BOOK, PROJECT, command, exit_code};
use crate::given::{book_of, books, text, text_if_given, texts, wanted};
use crate::words::{Line, LineFault, SyncWords};
use clap::{Arg, ArgAction, ArgMatches, Command};
use std::alloc::{AllocError, Global};

const FOLDER: (&str, &str) = ("FOLDER", "The folder with the files of the books");

pub(crate) fn sync<'a>(alloc: Global) -> Result<Command<'a>, AllocError> {
    let bundles = Arg::new(alloc, "BUNDLE")
        .num_args(0..)
        .help("Bundles, as `send` and `delta` write them");
    let box_folder = value(alloc, "DIR", "box").help("A folder where all leave their bundles");
    let settled = value(alloc, "CODE", "settle")
        .action(ArgAction::Append)
        .help("Let the file settle the conflicts of this segment or book");
    let form = value(alloc, "NAME", "names").help("Name new files like this one, as 41MATana.SFM");
    let made = command(
        alloc,
        "sync",
        "Takes in a folder's changes and bundles, and writes its books",
        SYNC,
        &[],
    )?;
    let made = made.arg(place(alloc, PROJECT))?.arg(place(alloc, FOLDER))?;
    let made = made.arg(bundles)?.arg(box_folder)?.arg(settled)?;
    let made = made.arg(flag(alloc, "try").help("Say what would be done, and do nothing"))?;
    let made = made.arg(flag(alloc, "quiet").help("Write none of the lines but `left FILE`"))?;
    let made = made.arg(form)?;
    let made = made.arg(flag(alloc, "remember").help("Have FOLDER remember what is said here"))?;
    let made = made.arg(flag(alloc, "emptied").help(
        "After fault 132: the texts are gone on purpose",
    ))?;
    let made = made.arg(flag(alloc, "undone").help("After fault 133: it was undone on purpose"))?;
    let made = made.arg(flag(alloc, "stale").help("After fault 133: the file is an older one"))?;
    let made = made.arg(flag(alloc, "join").help("After fault 134: join the other project"))?;
    made.arg(exit_code(alloc, "Exit with 3 for conflicts, 4 for a skipped bundle"))
}

// A word that may be left out, as the folder may remember what it says.
fn place<'a>(alloc: Global, word: (&'a str, &'a str)) -> Arg<'a> {
    let (name, help) = word;
    Arg::new(alloc, name).help(help)
}

// An option with a value.
fn value<'a>(alloc: Global, name: &'a str, long: &'a str) -> Arg<'a> {
    Arg::new(alloc, name).long(long)
}

// An option without one.
fn flag<'a>(alloc: Global, long: &'a str) -> Arg<'a> {
    Arg::new(alloc, long).long(long).action(ArgAction::SetTrue)
}

const SYNC: &str = "\
If the first word is a folder, it is FOLDER, and BUNDLES follow; without words
it is the folder that you are in. Then the project, the box and the form of new
names are those that FOLDER remembers since `usfm_team join` or --remember, in
its file .usfm_team/setup. Else the first word is PROJECT, and the second is
FOLDER. What the line says goes before what FOLDER remembers, and where the two
differ, a line says so.

A book's file is the one whose name ends in .usfm or .sfm and that begins with
\\id and the book's code; it keeps its name. A new one is named as the others
are, or CODE.usfm. First what the bundles have comes in, then what was changed
in the files since they were written, so that what came from others stays; then
the files get the books. Line ends may be CR LF. Links are skipped, and files
with hard links. One file has one book: what follows a second \\id stays in the
first book. If anything is refused, nothing is taken in, and a second line
`in FILE` on standard error says where. Writes
  new N base       what FOLDER had and PROJECT lacked, if it was set back
  new N            for each BUNDLE; with --box `new N FILE`
  added N CODE     for each file in which something was changed
  came REF NAME .. for each verse that shows another text by what came in
  removed REF      for each that a file's change left without a text
  replaced REF NAME ..
                   for each in which a file's change replaced NAME's text, which
                   came in at one of the last three syncs
  .. and N more    after the first twenty of one of these three kinds
  wrote FILE       for each file that was written
  left FILE        for each that was changed meanwhile: sync again
  conflicts N      if there is something to see in `report`, and for each of
  conflict REF     the first twenty the segment
With --quiet it writes of these only `left FILE`, unless --try asks for them; on
standard error stays what was skipped or refused.

Save and close the files in the editor first: an open file still has the old
text, and saving it undoes what came in. Putting back an older copy does the
same. If a verse of FILE has the text that stood there before another's came in
at one of the last three syncs, FILE is refused with fault 133. An old text in
which that verse alone was changed cannot be told from a change: `replaced` says
so. `usfm_team history PROJECT REF` shows what was removed or replaced, and
`usfm_team restore PROJECT ID` has it back.

DIR of --box is a folder that everyone on the team can reach, or a USB stick
that is passed around. The bundles of DIR come in; one that would be refused is
passed over, and `skipped FILE fault N` on standard error says so. What PROJECT
has goes to DIR/NAME.bundle, NAME being the copy's name, sealed as by
`usfm_team send --sealed`: one that is damaged on its way is passed over (72).
No copy writes another's bundle.

Example: usfm_team sync ana.project texts --box stick --remember
Example: usfm_team sync texts
Example: usfm_team sync ana.project texts ben.bundle

If a verse shows several texts, its file has one of them. To settle it, take one
with `usfm_team settle` and sync; or give the file the right text, or leave it,
and have it replace them all:
  usfm_team sync ana.project texts --settle 'MAT 5:3'

After fault 131 look at FILE. If it begins with another book's \\id now, it was
renamed: give it its old name back. It may have lost its first line, with \\id
and the code, or be saved in an encoding other than UTF-8: correct it. Two files
may be of one book: move one away. Or it is not known what FILE was written
from. Then move it away and sync, and make its changes in the file that is
written; or, to have FILE replace what the book has,
`usfm_team import PROJECT FILE`, and sync.

After fault 132 texts are gone from FILE: an editor may have saved only a part
of it. Correct it, or add --emptied. After fault 133 FILE has older texts in the
place of those that came in: with --stale it is taken as an older file, and what
came in at the last three syncs stays; with --undone it is undone. With --try,
lines `empties REF` and `undoes REF NAME` say which verses these are. After
fault 134 the bundle is of another translation: leave it out, or add --join.
Each of these words is for all files and bundles of the line: add --try first,
and see what would be done. After fault 135 a sync was cut short, or a file is
taken as an older one: sync without --settle, look at the file, and settle then.

After fault 130 in a book's FILE, or in DIR/NAME.bundle, that file alone could
not be written, and all else is done: look at its rights and the free space, and
sync again. After fault 60 to 70 in a file of FOLDER/.usfm_team, that file is
damaged: remove it, and sync. After fault 51 in a bundle of DIR, it was damaged
on its way, or two copies use one name: move it away, and its owner's next sync
writes it again. If the fault comes back, or it has your own copy's name, let
one of the two copies go on under another name.

Faults: those of `import`, `receive` and `export`, and
  fault 132 COUNT          this many texts are gone from FILE
  fault 133 COUNT          FILE undoes this many texts that came in
  fault 134 COUNT          another project's bundle: this many conflicts
  fault 135                --settle after a sync that was cut short, or --stale";

// The words of `sync` that are no options, in their order.
fn sync_words(alloc: Global, given: &ArgMatches<'_>) -> Result<Vec<String>, LineFault> {
    let mut words = Vec::new(alloc);
    for name in ["PROJECT", "FOLDER"] {
        if let Some(word) = text_if_given(alloc, given, name)? {
            words.push(word)?;
        }
    }
    for bundle in texts(alloc, given, "BUNDLE")? {
        words.push(bundle)?;
    }
    Ok(words)
}

pub(crate) fn sync_line(alloc: Global, given: &ArgMatches<'_>) -> Result<Line, LineFault> {
    Ok(Line::Sync(SyncWords {
        words: sync_words(alloc, given)?,
        box_folder: text_if_given(alloc, given, "DIR")?,
        settled: wanted(alloc, given, "CODE")?,
        form: text_if_given(alloc, given, "NAME")?,
        is_try: given.get_flag("try"),
        is_quiet: given.get_flag("quiet"),
        emptied: given.get_flag("emptied"),
        undone: given.get_flag("undone"),
        stale: given.get_flag("stale"),
        joined: given.get_flag("join"),
        remembers: given.get_flag("remember"),
    }))
}

pub(crate) fn export<'a>(alloc: Global) -> Result<Command<'a>, AllocError> {
    let (word, help) = BOOK;
    let books = Arg::new(alloc, word)
        .num_args(0..)
        .required_unless_present("FOLDER")?
        .help(help);
    let folder = Arg::new(alloc, "FOLDER")
        .long("into")
        .help("Write into a folder's files; all books without BOOK");
    command(
        alloc,
        "export",
        "Writes the text of a book",
        EXPORT,
        &[PROJECT],
    )?
    .arg(books)?
    .arg(folder)
}

const EXPORT: &str = "\
If a segment shows several texts, the one with the greatest id is written.

With --into the books go into the files of FOLDER, as `usfm_team help sync`
says, but nothing is taken in: a file that was changed is refused.

Example: usfm_team export ana.project MAT > matthew.usfm
Example: usfm_team export ana.project --into texts

Faults:
  fault 1                  out of memory
  fault 20                 BOOK is not a book's code
  fault 51 NUMBER NAME     two edits that differ have this id
  fault 60 to 70, 110      PROJECT is not a project
  fault 82                 the project has no edit of the book
  fault 90 BYTES           writing failed after this many bytes
  fault 120                a file could not be read
  fault 121                a file has more than 268,435,456 bytes
  fault 130                a file of FOLDER could not be written
  fault 131                a file would lose its text: see `sync`";

pub(crate) fn export_line(alloc: Global, given: &ArgMatches<'_>) -> Result<Line, LineFault> {
    let project = text(alloc, given, "PROJECT")?;
    if let Some(folder) = text_if_given(alloc, given, "FOLDER")? {
        let books = books(alloc, given, "BOOK")?;
        return Ok(Line::ExportInto {
            project,
            folder,
            books,
        });
    }
    let books = given.get_strs("BOOK").unwrap_or(&[]);
    match books {
        [book] => Ok(Line::Export {
            project,
            book: book_of(alloc, *book)?,
        }),
        _ => Err(LineFault::Usage(String::from_str(alloc, ONE_BOOK)?)),
    }
}

const ONE_BOOK: &str = "\
error: name one BOOK; for several, add --into FOLDER

Usage: usfm_team export <PROJECT> <BOOK>

For more information, try '--help'.
";
