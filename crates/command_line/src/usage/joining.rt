// The subcommand that sets up a folder: its words, its help, and the line that it is read as.
use super::command;
use crate::given::{text, text_if_given, texts, word};
use crate::places::JoinWords;
use crate::words::{Line, LineFault};
use clap::{Arg, ArgAction, ArgMatches, Command};
use op_core::ReplicaName;
use std::alloc::{AllocError, Global};

pub(crate) fn join<'a>(alloc: Global) -> Result<Command<'a>, AllocError> {
    let folder = (
        "FOLDER",
        "The folder for the files of the books; it is made if there is none",
    );
    let name = (
        "NAME",
        "A name that no other copy has: 1 to 32 of a to z, 0 to 9 and -",
    );
    let box_folder = Arg::new(alloc, "DIR")
        .long("box")
        .help("A folder where all leave their bundles");
    let form = Arg::new(alloc, "FORM")
        .long("names")
        .value_name("NAME")
        .help("Name new files like this one, as 41MATana.SFM");
    let from = Arg::new(alloc, "BUNDLE")
        .long("from")
        .action(ArgAction::Append)
        .num_args(1..)
        .help("Bundles to begin with, as `send` writes them");
    command(
        alloc,
        "join",
        "Sets up a folder and a project for a new copy, and syncs them",
        JOIN,
        &[folder, name],
    )?
    .arg(box_folder)?
    .arg(form)?
    .arg(from)
}

const JOIN: &str = "\
It makes FOLDER, and the project beside it, FOLDER.project, under the copy's
name; takes in what the box and the bundles have, and the files of books that
are in FOLDER; and writes the books into FOLDER, as `usfm_team help sync` says.
FOLDER remembers the project, the box and the form of new names in
FOLDER/.usfm_team/setup, so that from then on this is enough:
  usfm_team sync FOLDER
or, in FOLDER, `usfm_team sync`.

A name is one copy's, and so is refused where the box has it: if NAME.bundle is
there, or a bundle has an edit under NAME. A person with two computers has two
copies, each with a name of its own. A copy that is lost goes on under another
name. If `join` was cut short, give it again.

Example: usfm_team join books eve --box stick
Example: usfm_team join gospels dan --from ben.bundle

Faults: those of `sync`, and
  fault 50     NAME is not a name for a copy, or another copy has it
  fault 130    FOLDER.project is there, FOLDER is set up, or DIR is no box";

pub(crate) fn join_line(alloc: Global, given: &ArgMatches<'_>) -> Result<Line, LineFault> {
    Ok(Line::Join(JoinWords {
        folder: text(alloc, given, "FOLDER")?,
        name: ReplicaName::read(word(given, "NAME"))?,
        box_folder: text_if_given(alloc, given, "DIR")?,
        form: text_if_given(alloc, given, "FORM")?,
        bundles: texts(alloc, given, "BUNDLE")?,
    }))
}
