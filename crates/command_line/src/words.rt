// The words of the command line.
ghost use Rattle.std.specs.Prelude.{◌≡◌, ◌&&◌, map, option_map, string_bytes};
ghost use Rattle.usfm_ref.specs.Books.{is_book_code};
ghost use Rattle.command_line.specs.Words as said;

use crate::files::{FilesWords, MergeWords};
use crate::options::without_explain;
use crate::places::JoinWords;
use crate::usage::{NO_SUBCOMMAND, line_of, program};
use clap::Error;
use clap::error::ErrorKind;
use command_faults::Fault;
use conflict_settling::Wanted;
use missing_verses::Part;
use op_core::{IdFault, OpId, ReplicaName};
use segment_history::Named;
use std::alloc::{AllocError, AllocFailed, Global};
use usfm_ref::{Book, Key, RefFault};

/// What the words ask for: a subcommand with its values. Files are named as they were given.
#[derive(Debug, Drop)]
pub enum Line {
    /// `init PROJECT NAME`: begin a project under a replica's name.
    Init {
        project: String,
        name: ReplicaName,
    },
    /// `import PROJECT FILE..`: take in the files of books, all or none; with `--since BUNDLE` what
    /// was changed in them since they were written from the bundle.
    Import {
        project: String,
        files: Vec<String>,
        since: Option<String>,
    },
    /// `edit PROJECT REF`: give a segment the text of standard input.
    Edit {
        project: String,
        book: Book,
        key: Key,
    },
    /// `edit-over PROJECT REF [ID..]`: the same, in the place of these operations alone; with
    /// `--text-of ID` by the text of this one.
    EditOver {
        project: String,
        book: Book,
        key: Key,
        ids: Vec<OpId>,
        text_of: Option<OpId>,
    },
    /// `settle PROJECT [REF|BOOK]..`: ask the conflicts, all where none is named, and make the
    /// edits that are answered.
    Settle {
        project: String,
        wanted: Vec<Wanted>,
    },
    /// `settle PROJECT --answers FILE..`: make the edits that files of answers say, all or none.
    SettleAnswers {
        project: String,
        files: Vec<String>,
    },
    /// `shown PROJECT REF`: list what a segment shows.
    Shown {
        project: String,
        book: Book,
        key: Key,
    },
    /// `history PROJECT REF|BOOK..`: list all that is held of segments.
    History {
        project: String,
        names: Vec<Named>,
    },
    /// `changes PROJECT --since WHAT [REF|BOOK]..`: list what changed, in all segments where none is
    /// named; with `--text` with what was shown and what is shown.
    Changes {
        project: String,
        since: String,
        names: Vec<Named>,
        with_texts: bool,
    },
    /// `restore PROJECT ID..`: give the segments of edits their texts again; with `--try` to see
    /// what that makes.
    Restore {
        project: String,
        ids: Vec<OpId>,
        is_try: bool,
    },
    /// `restore PROJECT --since WHAT REF|BOOK..`: give segments the texts that they had then, all
    /// with `--all`, where none is named.
    RestoreSince {
        project: String,
        since: String,
        names: Vec<Named>,
        is_try: bool,
    },
    /// `receive PROJECT BUNDLE..`: take in bundles, all or none.
    Receive {
        project: String,
        bundles: Vec<String>,
    },
    /// `send PROJECT`: write the bundle of all operations; with `--sealed` sealed.
    Send {
        project: String,
        sealed: bool,
    },
    /// `export PROJECT BOOK`: write the text of a book.
    Export {
        project: String,
        book: Book,
    },
    /// `export PROJECT --into FOLDER [BOOK..]`: write the books into a folder, all where none is
    /// given.
    ExportInto {
        project: String,
        folder: String,
        books: Vec<Book>,
    },
    /// `join FOLDER NAME`: begin a copy with a folder, which remembers what it is synced with, and
    /// sync it.
    Join(JoinWords),
    /// `sync [[PROJECT] FOLDER [BUNDLE..]]`: take in what was changed in a folder and bundles, and
    /// write the books into the folder.
    Sync(SyncWords),
    /// `summary PROJECT`: write the summary of what the project holds.
    Summary {
        project: String,
    },
    /// `delta PROJECT SUMMARY`: write the bundle of what another project lacks by its summary; with
    /// `--sealed` sealed.
    Delta {
        project: String,
        summary: String,
        sealed: bool,
    },
    /// `check PROJECT [BOOK [SHEET]]`: report what is found in a book by a style sheet, or in all;
    /// with `--text` with the lines of the text, with `--lines` by lines and columns.
    Check {
        project: String,
        book: Option<Book>,
        sheet: Option<String>,
        with_text: bool,
        by_lines: bool,
    },
    /// `find PROJECT [BOOK [SHEET]] NEEDLE`: find a needle in a book by a style sheet, or in all;
    /// with `--text` with the lines of the text, with `--lines` by lines and columns.
    Find {
        project: String,
        book: Option<Book>,
        sheet: Option<String>,
        needle: String,
        with_text: bool,
        by_lines: bool,
    },
    /// `words PROJECT [BOOK [SHEET]]`: list the words of a book by a style sheet, or of all.
    Words {
        project: String,
        book: Option<Book>,
        sheet: Option<String>,
    },
    /// `check`, `find`, `words` and `missing` with `--files FILE..`: the same of books' files.
    Files(FilesWords),
    /// `thin PROJECT`: leave out the texts that were replaced.
    Thin {
        project: String,
    },
    /// `report PROJECT`: report the conflicts, and what is awaited.
    Report {
        project: String,
    },
    /// `status PROJECT [FILE..]`: say how a project stands, and what the copies of the summaries
    /// and bundles have and lack.
    Status {
        project: String,
        files: Vec<String>,
    },
    /// `missing PROJECT [BOOK|CHAPTER]..`: say what is missing by a versification, of all books
    /// where none is named; with `--all` also which books there are nothing of.
    Missing {
        project: String,
        parts: Vec<Part>,
        versification: Option<String>,
        all: bool,
    },
    /// `progress PROJECT [BOOK]`: say how far the chapters are written by a versification, of one
    /// book or of all.
    Progress {
        project: String,
        book: Option<Book>,
        versification: Option<String>,
    },
    /// `page PROJECT`: write a page about a project by a versification.
    Page {
        project: String,
        versification: Option<String>,
    },
    /// `read PROJECT BOOK|CHAPTER|REF`: write it as plain text by a style sheet, in lines of so many
    /// columns.
    Read {
        project: String,
        wanted: Wanted,
        sheet: Option<String>,
        width: Option<usize>,
    },
    /// `fold BOOK`: fold the bundles of standard input into the book.
    Fold(Book),
    /// `combine [BUNDLE..]`: write the one bundle of bundles, of those of standard input where none
    /// is named; with `--sealed` sealed.
    Combine {
        bundles: Vec<String>,
        sealed: bool,
    },
    /// `merge BASE OURS THEIRS`: merge two versions of a book's file.
    Merge(MergeWords),
    /// `faults`: list the faults.
    Faults,
}

impl Line {
    /// What is said at a terminal of a line whose answer is bytes and no text: that it goes into a
    /// file. Other lines answer text.
    pub fn only_into_file(&self) -> Option<&'static str>
        ensures { option_map (λ text. text.now) result ≡ said.only_into_file self.now }
    {
        match self {
            Line::Send { .. } => Some(SEND_INTO_FILE),
            Line::Summary { .. } => Some(SUMMARY_INTO_FILE),
            Line::Delta { .. } => Some(DELTA_INTO_FILE),
            Line::Combine { .. } => Some(COMBINE_INTO_FILE),
            _ => None,
        }
    }
}

const SEND_INTO_FILE: &str = "\
error: a bundle is not written to a terminal: redirect it to a file

Example: usfm_team send ana.project > ana.bundle
";

const SUMMARY_INTO_FILE: &str = "\
error: a summary is not written to a terminal: redirect it to a file

Example: usfm_team summary ben.project > ben.summary
";

const DELTA_INTO_FILE: &str = "\
error: a bundle is not written to a terminal: redirect it to a file

Example: usfm_team delta ana.project ben.summary > ana.bundle
";

const COMBINE_INTO_FILE: &str = "\
error: a bundle is not written to a terminal: redirect it to a file

Example: usfm_team combine ana.bundle ben.bundle > team.bundle
";

/// What is said where `sync` has a project, and no folder.
pub const NO_FOLDER: &str = "\
error: a folder is wanted: this is none. Where PROJECT is named, FOLDER follows it

Usage: usfm_team sync [PROJECT] [FOLDER] [BUNDLE]...

For more information, try '--help'.
";

/// What `sync` was given.
#[derive(Debug, Drop)]
pub struct SyncWords {
    /// Where, and then the bundles: how many of them say where, `sync_places` says.
    pub words: Vec<String>,
    /// `--box DIR`: the folder in which the copies of a team leave their bundles.
    pub box_folder: Option<String>,
    /// `--settle REF|CODE`: the books and segments whose conflicts a file settles.
    pub settled: Vec<Wanted>,
    /// `--names NAME`: a name that says how new files are named.
    pub form: Option<String>,
    /// `--try`: whether nothing is to be written.
    pub is_try: bool,
    /// `--quiet`: whether it is not to be said what was done.
    pub is_quiet: bool,
    /// `--emptied`: whether texts that are gone from a file are gone on purpose.
    pub emptied: bool,
    /// `--undone`: whether what came in was undone on purpose.
    pub undone: bool,
    /// `--stale`: whether a file that undoes what came in is an older one.
    pub stale: bool,
    /// `--join`: whether a bundle of another project is to be joined.
    pub joined: bool,
    /// `--remember`: whether the folder is to remember what the line says.
    pub remembers: bool,
}

/// Why the words ask for nothing that is done.
#[derive(Debug, Drop)]
pub enum LineFault {
    /// Help or the version was asked for. It goes to standard output.
    Help(String),
    /// The words are no line of the program: the message and the usage, for standard error.
    Usage(String),
    /// The line has its shape, and a value of it is refused; or out of memory.
    Refused(Fault),
    /// The same, where a word was to begin with a book's code: the fault and the word.
    RefusedWord(Fault, String),
}

impl From<AllocError> for LineFault {
    fn from(_: AllocError) -> Self {
        LineFault::Refused(Fault::Memory)
    }
}

impl<T: Drop> From<AllocFailed<T>> for LineFault {
    fn from(_: AllocFailed<T>) -> Self {
        LineFault::Refused(Fault::Memory)
    }
}

impl From<RefFault> for LineFault {
    fn from(fault: RefFault) -> Self {
        LineFault::Refused(Fault::from(fault))
    }
}

impl From<IdFault> for LineFault {
    fn from(fault: IdFault) -> Self {
        LineFault::Refused(Fault::from(fault))
    }
}

/// Reads the words of a command line, without the program's own name: first its shape, which is the
/// subcommand and the number of its words, and then its values from left to right. `--explain` may
/// stand anywhere before `--`; it says nothing of the line.
///
/// Tests alone show what it answers; no contract says it.
///
/// # Errors
/// - `Help` where `--help`, `-h` or `help` asks for it, or `--version` or `-V` for the version.
/// - `Usage` where the words have the shape of no subcommand.
/// - `RefusedWord` with `Reference` (20, 21) where a book is no code or a reference is none;
///   `Refused` with `Naming` (50, 52) where a name is no replica's or an id is none, with `Memory`
///   (1) where an allocation failed.
pub fn read_words(alloc: Global, words: &[String]) -> Result<Line, LineFault> {
    let words = without_explain(alloc, words)?;
    match program(alloc)?.try_get_matches_from(&words) {
        Ok(matches) => match matches.subcommand() {
            Some((name, given)) => line_of(alloc, name, given),
            None => Err(LineFault::Usage(String::from_str(alloc, NO_SUBCOMMAND)?)),
        },
        Err(error) => Err(line_fault(alloc, &error)?),
    }
}

/// Whether a reference stands in the words as two of them, as it does without quotes: a book's code
/// and then a key. It does not allocate.
pub fn has_split_reference(words: &[String]) -> bool
    ensures { result
        ≡ said.has_split_reference (map (λ word. string_bytes word) words.now) }
{
    let mut is_after_book = false;
    for word in words {
        if ends_reference(is_after_book, word) {
            return true;
        }
        is_after_book = is_book(word);
    }
    false
}

// Whether a word is a key, where a book's code was the one before.
fn ends_reference(is_after_book: bool, word: &String) -> bool
    ensures { result ≡ (is_after_book && said.is_key (string_bytes word.now)) }
{
    is_after_book && word.as_str().parse::<Key>().is_ok()
}

// Whether a word is a book's code.
fn is_book(word: &String) -> bool
    ensures { result ≡ is_book_code (string_bytes word.now) }
{
    Book::read(word.as_str()).is_ok()
}

// What is to be said of words that are no line.
fn line_fault(alloc: Global, error: &Error) -> Result<LineFault, AllocError> {
    if error.kind() == ErrorKind::OutOfMemory {
        return Err(AllocError);
    }
    let text = error.to_string(alloc)?;
    if error.use_stderr() {
        Ok(LineFault::Usage(text))
    } else {
        Ok(LineFault::Help(text))
    }
}
