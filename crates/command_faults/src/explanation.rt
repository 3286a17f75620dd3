// Which sentences belong to a fault and what is known beside it.
ghost use Rattle.std.specs.Prelude.{◌≡◌, Some};
ghost use Rattle.command_faults.specs.Explaining as told;

use crate::answers::BAD_ANSWERS;
use crate::book_fronts::Slip;
use crate::circumstances::{Circumstances, Expected, Found};
use crate::fault::Fault;
use crate::merge_sentences::{SIDE_NOT_WRITTEN, SIDE_OF_OTHER_BOOK};
use crate::seal_sentences::BAD_SEAL;
use crate::sentences::{
    BAD_ID, BAD_KEY, BAD_NAME, BAD_OPERATION, BAD_REPLACED, BAD_SEGMENT, BAD_STYLE_TYPE, BAD_TAG,
    BAD_TEXT, BAD_VERSIFICATION, BOOK_NOT_BUNDLE, BOOK_NOT_PROJECT, BOX_IS_FILE, BUNDLE_NOT_BOOK,
    BUNDLE_NOT_LEFT, BUNDLE_NOT_PROJECT, BUNDLE_NOT_SUMMARY, CLASH, CLASH_IN_BUNDLE, CUT_LINE,
    DAMAGED_BASE, DAMAGED_PROJECT, EMPTIED, EMPTY_MARKER, EMPTY_NEEDLE, FIELD_BEFORE_MARKER,
    FILE_CHANGED, FILE_FAILED, FILE_NO_BOOK, FILE_NOT_READ, FILE_NOT_WRITTEN, FILE_RENAMED,
    FILE_UNBASED, FOLDER_IS_THERE, FOLDER_UNREADABLE, HALF_IS_THERE, ID_IN_LINE, IN_CAPITALS,
    IS_FILE, IS_FOLDER, IS_THERE, LEFT_OUT, MEMORY, NAME_TAKEN, NEWER, NO_BOOK, NO_BUNDLE, NO_CODE,
    NO_FOLDER_FOR_IT, NO_FOLDER_THERE, NO_FORM, NO_ID, NO_PROJECT, NO_PROJECT_THERE, NO_REFERENCE,
    NO_SUMMARY, NOT_OWN_BUNDLE, NOT_RISING, NOT_SHOWN, NOT_TEXT, NOTHING_THERE, NUMBERS_USED_UP,
    ONE_SPACE, OWN_NOT_FOLDER, OWN_UNREADABLE, PROJECT_NOT_BOOK, PROJECT_NOT_BUNDLE, READ_FAILED,
    SECOND_FILE, SETTLED_EARLY, SUMMARY_NOT_BOOK, SUMMARY_NOT_BUNDLE, SUMMARY_NOT_PROJECT,
    TAKE_OUT, TEXT_NOT_UTF8, TOO_LONG, TRAILING, TRUNCATED, UNDONE, UNLIKE, UNLIKE_FOLDER,
    UNSUPPORTED, WRITE_FAILED,
};
use crate::setup_sentences as set;
use bundle_codec::BundleFault;
use op_core::IdFault;
use std::fmt;
use usfm_ref::{Book, RefFault};

/// What a person reads of a fault: as text its lines, each with a line feed, of which the first
/// says what is the case, and the others what to do.
#[derive(Clone, Copy, Debug, Drop)]
pub enum Explanation {
    /// Sentences.
    Sentences(&'static str),
    /// A code of a book was given in small letters, and this is the book.
    InCapitals(Book),
    /// `\id` and a space begin this line of the file, counted from 1, and none before it.
    IdInLine(u64),
}

impl fmt::Display for Explanation {
    ghost output = { λ explanation. Some (told.explanation_text explanation) };

    fn fmt<W: fmt::Write>(&self, f: &mut fmt::Formatter<W>) -> fmt::Result {
        match self {
            Explanation::Sentences(text) => write!(f, "{text}\n"),
            Explanation::InCapitals(book) => write!(f, "{IN_CAPITALS}{book}\n"),
            Explanation::IdInLine(line) => write!(f, "{ID_IN_LINE}{line}{TAKE_OUT}\n"),
        }
    }
}

/// What a person reads of a fault, by what is known beside it. It does not allocate.
pub fn explained(fault: &Fault, known: &Circumstances) -> Explanation
    ensures { told.explanation_text result ≡ told.explained fault.now known.now }
{
    match fault {
        Fault::Reference(RefFault::BadBook) => of_code(&known.slip, known.expected),
        Fault::NoId => of_no_id(&known.slip, known.expected, known.found),
        _ => Explanation::Sentences(sentences(fault, known.expected, known.found)),
    }
}

// Of what is no book's code: what is wrong with it, if that is seen.
fn of_code(slip: &Option<Slip>, expected: Expected) -> Explanation
    ensures { told.explanation_text result ≡ told.of_code slip.now expected }
{
    match slip {
        Some(Slip::SmallLetters(book)) => Explanation::InCapitals(*book),
        Some(Slip::Blanks) => Explanation::Sentences(ONE_SPACE),
        _ => Explanation::Sentences(no_code(expected)),
    }
}

fn no_code(expected: Expected) -> &'static str
    ensures { result.now ≡ told.no_code expected }
{
    match expected {
        Expected::NewName => NO_FORM,
        _ => NO_CODE,
    }
}

// Of a text that does not begin with `\id`: the line that does, if one does.
fn of_no_id(slip: &Option<Slip>, expected: Expected, found: Found) -> Explanation
    ensures { told.explanation_text result ≡ told.of_no_id slip.now expected found }
{
    match slip {
        Some(Slip::LaterLine(line)) => Explanation::IdInLine(*line),
        _ => Explanation::Sentences(sentences(&Fault::NoId, expected, found)),
    }
}

/// The sentences of a fault of which nothing more is known.
pub(crate) fn general_sentences(fault: &Fault) -> &'static str
    ensures { result.now ≡ told.general fault.now }
{
    match fault {
        Fault::Memory => MEMORY,
        Fault::NotText { valid: _ } => NOT_TEXT,
        Fault::Reference(RefFault::BadBook) => NO_CODE,
        Fault::Reference(RefFault::BadRef) => NO_REFERENCE,
        Fault::NoId => NO_ID,
        Fault::FieldBeforeMarker { line: _ } => FIELD_BEFORE_MARKER,
        Fault::EmptyMarker { line: _ } => EMPTY_MARKER,
        Fault::BadStyleType { line: _ } => BAD_STYLE_TYPE,
        Fault::BadVersification { line: _ } => BAD_VERSIFICATION,
        Fault::Naming(IdFault::BadName) => BAD_NAME,
        Fault::Clash(_) => CLASH,
        Fault::Naming(IdFault::BadOpId) => BAD_ID,
        Fault::Bundle(fault) => of_bundle(fault),
        Fault::Trailing => TRAILING,
        Fault::BadSummary => NO_SUMMARY,
        Fault::BadSeal => BAD_SEAL,
        Fault::BadSegment => BAD_SEGMENT,
        Fault::NumbersUsedUp => NUMBERS_USED_UP,
        Fault::NoBook => NO_BOOK,
        Fault::NotShown(_) => NOT_SHOWN,
        Fault::LeftOut(_) => LEFT_OUT,
        Fault::BadAnswers { line: _ } => BAD_ANSWERS,
        Fault::WriteFailed { gone: _ } => WRITE_FAILED,
        Fault::EmptyNeedle => EMPTY_NEEDLE,
        Fault::BadProject => NO_PROJECT,
        Fault::ReadFailed => READ_FAILED,
        Fault::TooLong => TOO_LONG,
        Fault::FileFailed => FILE_FAILED,
        Fault::FileChanged => FILE_CHANGED,
        Fault::Emptied { count: _ } => EMPTIED,
        Fault::Undone { count: _ } => UNDONE,
        Fault::Unlike { count: _ } => UNLIKE,
        Fault::SettledEarly => SETTLED_EARLY,
    }
}

fn of_bundle(fault: &BundleFault) -> &'static str
    ensures { result.now ≡ told.of_bundle fault.now }
{
    match fault {
        BundleFault::Memory => MEMORY,
        BundleFault::Magic => NO_BUNDLE,
        BundleFault::Truncated => TRUNCATED,
        BundleFault::NotRising(_) => NOT_RISING,
        BundleFault::BadId(_) => BAD_OPERATION,
        BundleFault::BadKey(_) => BAD_KEY,
        BundleFault::BadReplaced(_) => BAD_REPLACED,
        BundleFault::BadTag(_) => BAD_TAG,
        BundleFault::NotUtf8(_) => TEXT_NOT_UTF8,
        BundleFault::BadText(_) => BAD_TEXT,
        BundleFault::Unsupported(_) => UNSUPPORTED,
    }
}

// The sentences of a fault by what its file was to be, and what stands there.
fn sentences(fault: &Fault, expected: Expected, found: Found) -> &'static str
    ensures { result.now ≡ told.sentences fault.now expected found }
{
    match fault {
        Fault::Bundle(inner) => of_bytes(inner, expected, found),
        Fault::Clash(_) => match expected {
            Expected::Bundle => CLASH_IN_BUNDLE,
            _ => CLASH,
        },
        Fault::Trailing => match expected {
            Expected::Project => DAMAGED_PROJECT,
            Expected::Kept => DAMAGED_BASE,
            _ => TRAILING,
        },
        Fault::Reference(RefFault::BadBook) => no_code(expected),
        Fault::Naming(IdFault::BadName) => bad_name(expected),
        Fault::NotText { valid: _ } | Fault::NoId => match expected {
            Expected::BookFile => no_book(fault, found),
            _ => general_sentences(fault),
        },
        Fault::BadProject => no_project(found),
        Fault::BadSummary => no_summary(found),
        Fault::ReadFailed => unread(expected, found),
        Fault::FileFailed => unwritten(expected, found),
        Fault::FileChanged => changed(expected),
        Fault::Unlike { count: _ } => match expected {
            Expected::Kept => UNLIKE_FOLDER,
            _ => UNLIKE,
        },
        _ => general_sentences(fault),
    }
}

// What is said of a name that no copy can have, or that another one has.
fn bad_name(expected: Expected) -> &'static str
    ensures { result.now ≡ told.bad_name expected }
{
    match expected {
        Expected::NameInUse => set::NAME_IN_USE,
        _ => BAD_NAME,
    }
}

// What is said of a file that was not written.
fn unwritten(expected: Expected, found: Found) -> &'static str
    ensures { result.now ≡ told.unwritten expected found }
{
    match expected {
        Expected::NewProject => not_begun(found),
        Expected::HalfProject => HALF_IS_THERE,
        Expected::OwnBundle => not_left(found),
        Expected::BookFile => FILE_NOT_WRITTEN,
        Expected::Side => SIDE_NOT_WRITTEN,
        Expected::NewSetup => set::SETUP_IS_THERE,
        Expected::Remembered => set::NOT_REMEMBERED,
        Expected::BoxInFolder => set::BOX_IN_FOLDER,
        Expected::BoxWithBooks => set::BOX_HAS_BOOKS,
        Expected::FolderOfBundles => set::FOLDER_IS_BOX,
        _ => FILE_FAILED,
    }
}

fn changed(expected: Expected) -> &'static str
    ensures { result.now ≡ told.changed expected }
{
    match expected {
        Expected::OneOfTwo => SECOND_FILE,
        Expected::Renamed => FILE_RENAMED,
        Expected::Side => SIDE_OF_OTHER_BOOK,
        Expected::Unbased => FILE_UNBASED,
        Expected::NewFile => NAME_TAKEN,
        Expected::NoBook => FILE_NO_BOOK,
        Expected::NotRead => FILE_NOT_READ,
        Expected::OwnFolder => OWN_NOT_FOLDER,
        Expected::Setup => set::SETUP_DAMAGED,
        _ => FILE_CHANGED,
    }
}

fn of_bytes(fault: &BundleFault, expected: Expected, found: Found) -> &'static str
    ensures { result.now ≡ told.of_bytes fault.now expected found }
{
    match expected {
        Expected::Project => of_damaged(found, DAMAGED_PROJECT),
        Expected::Kept => of_damaged(found, DAMAGED_BASE),
        _ => match fault {
            BundleFault::Magic => no_bundle(found),
            _ => of_bundle(fault),
        },
    }
}

// What is said of what is damaged, or of a newer version.
fn of_damaged(found: Found, damaged: &'static str) -> &'static str
    ensures { result.now ≡ told.of_damaged found damaged.now }
{
    match found {
        Found::Newer => NEWER,
        _ => damaged,
    }
}

fn no_bundle(found: Found) -> &'static str
    ensures { result.now ≡ told.no_bundle found }
{
    match found {
        Found::BookFile => BOOK_NOT_BUNDLE,
        Found::Project => PROJECT_NOT_BUNDLE,
        Found::Summary => SUMMARY_NOT_BUNDLE,
        Found::Newer => NEWER,
        _ => NO_BUNDLE,
    }
}

fn no_book(fault: &Fault, found: Found) -> &'static str
    ensures { result.now ≡ told.no_book fault.now found }
{
    match found {
        Found::Bundle => BUNDLE_NOT_BOOK,
        Found::Project => PROJECT_NOT_BOOK,
        Found::Summary => SUMMARY_NOT_BOOK,
        Found::Newer => NEWER,
        _ => general_sentences(fault),
    }
}

fn no_project(found: Found) -> &'static str
    ensures { result.now ≡ told.no_project found }
{
    match found {
        Found::Bundle => BUNDLE_NOT_PROJECT,
        Found::BookFile => BOOK_NOT_PROJECT,
        Found::Summary => SUMMARY_NOT_PROJECT,
        Found::Newer => NEWER,
        _ => NO_PROJECT,
    }
}

fn no_summary(found: Found) -> &'static str
    ensures { result.now ≡ told.no_summary found }
{
    match found {
        Found::Bundle => BUNDLE_NOT_SUMMARY,
        Found::Newer => NEWER,
        _ => NO_SUMMARY,
    }
}

fn unread(expected: Expected, found: Found) -> &'static str
    ensures { result.now ≡ told.unread expected found }
{
    match expected {
        Expected::Folder => unread_folder(found, IS_FILE),
        Expected::Box => unread_folder(found, BOX_IS_FILE),
        Expected::Project => unread_file(found, NO_PROJECT_THERE),
        Expected::OwnFolder => OWN_UNREADABLE,
        Expected::Setup => unread_file(found, set::NOT_SET_UP),
        Expected::Day => unread_file(found, set::NO_DAY),
        Expected::DayFolder => set::NO_DAY_FOLDER,
        Expected::Older => unread_file(found, set::NO_OLDER),
        Expected::Typed => CUT_LINE,
        _ => unread_file(found, NOTHING_THERE),
    }
}

fn unread_folder(found: Found, other: &'static str) -> &'static str
    ensures { result.now ≡ told.unread_folder found other.now }
{
    match found {
        Found::Unseen => READ_FAILED,
        Found::Folder => FOLDER_UNREADABLE,
        Found::Nothing | Found::NoFolder => NO_FOLDER_THERE,
        _ => other,
    }
}

fn unread_file(found: Found, missing: &'static str) -> &'static str
    ensures { result.now ≡ told.unread_file found missing.now }
{
    match found {
        Found::Nothing | Found::NoFolder => missing,
        Found::Folder => IS_FOLDER,
        _ => READ_FAILED,
    }
}

fn not_left(found: Found) -> &'static str
    ensures { result.now ≡ told.not_left found }
{
    match found {
        Found::Project | Found::Summary | Found::BookFile => NOT_OWN_BUNDLE,
        Found::Newer => NEWER,
        _ => BUNDLE_NOT_LEFT,
    }
}

fn not_begun(found: Found) -> &'static str
    ensures { result.now ≡ told.not_begun found }
{
    match found {
        Found::Unseen | Found::Nothing => FILE_FAILED,
        Found::NoFolder => NO_FOLDER_FOR_IT,
        Found::Folder => FOLDER_IS_THERE,
        _ => IS_THERE,
    }
}
