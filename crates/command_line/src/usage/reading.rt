// The subcommand that writes what a reader sees: its words, its help, and the line that it is read
// as.
use super::{PROJECT, command};
use crate::given::{refused_word, text, text_if_given, word};
use crate::words::{Line, LineFault};
use clap::{Arg, ArgMatches, Command};
use conflict_settling::Wanted;
use plain_reading::read_width;
use std::alloc::{AllocError, Global};

const SHEET_GIVEN: &str = "sheet";

const WIDTH_GIVEN: &str = "width";

pub(crate) fn read<'a>(alloc: Global) -> Result<Command<'a>, AllocError> {
    let part = (
        "BOOK|CHAPTER|REF",
        "MAT, \"MAT 1\" a chapter, or \"MAT 1:1\" a verse",
    );
    let sheet = Arg::new(alloc, SHEET_GIVEN)
        .long("sheet")
        .value_name("SHEET")
        .help("A style sheet such as Paratext's usfm.sty");
    let width = Arg::new(alloc, WIDTH_GIVEN)
        .long("width")
        .value_name("N")
        .help("How many columns a line has at most, from 1 to 9999");
    command(
        alloc,
        "read",
        "Writes a book, a chapter or a verse as a reader sees it",
        READ,
        &[PROJECT, part],
    )?
    .arg(sheet)?
    .arg(width)
}

const READ: &str = "\
Writes what `export` has as plain text, by a style sheet: SHEET, or the
program's own, which has the markers of USFM 3.0. Lines are wrapped at N
columns, else at a terminal at those that the variable COLUMNS says, else at 72.
  - Chapters and headings stand on lines of their own, poetry and lists are
    indented by their levels, and verses have their numbers in front of them.
  - Notes are numbers in the text, as [1], and listed at their chapter's end.
  - Words with attributes are the words alone, figures their captions.
  - A mark that the sheet does not know is shown as it stands.
  - [conflict] stands in front of a verse with more than one text.
No line: there is no text of this.

Example: usfm_team read ana.project MAT
Example: usfm_team read ana.project 'MAT 5' --width 60

Faults:
  fault 1                  out of memory
  fault 10 BYTES           SHEET is not UTF-8 after this many bytes
  fault 20, fault 21       BOOK|CHAPTER|REF is no book's code and no reference
  fault 40 LINE            SHEET has a field before its first marker
  fault 41 LINE            SHEET has a marker without a name
  fault 42 LINE            SHEET has an unknown style type
  fault 60 to 70, 110      PROJECT is not a project
  fault 82                 the project has no edit of the book
  fault 90 BYTES           writing failed after this many bytes
  fault 120                a file could not be read
  fault 121                a file has more than 268,435,456 bytes";

pub(crate) fn read_line(alloc: Global, given: &ArgMatches<'_>) -> Result<Line, LineFault> {
    let project = text(alloc, given, "PROJECT")?;
    let named = word(given, "BOOK|CHAPTER|REF");
    let wanted = match Wanted::read(named) {
        Ok(wanted) => wanted,
        Err(fault) => return Err(refused_word(alloc, fault, named)),
    };
    Ok(Line::Read {
        project,
        wanted,
        sheet: text_if_given(alloc, given, SHEET_GIVEN)?,
        width: width_if_given(alloc, given)?,
    })
}

// The columns that the word of the option says, which may be left out.
fn width_if_given(alloc: Global, given: &ArgMatches<'_>) -> Result<Option<usize>, LineFault> {
    match given.get_str(WIDTH_GIVEN) {
        None => Ok(None),
        Some(word) => match read_width(word) {
            Some(width) => Ok(Some(width)),
            None => Err(LineFault::Usage(String::from_str(alloc, NO_WIDTH)?)),
        },
    }
}

const NO_WIDTH: &str = "\
error: what follows --width is a number from 1 to 9999

For more information, try '--help'.
";
