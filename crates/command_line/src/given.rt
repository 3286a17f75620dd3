// What a subcommand was given for its arguments.
use crate::words::LineFault;
use clap::ArgMatches;
use command_faults::Fault;
use conflict_settling::Wanted;
use op_core::OpId;
use segment_history::Named;
use std::alloc::{AllocError, Global};
use usfm_ref::{Book, Key, RefFault, Segment, read_ref};

// The ids that the words of an argument spell.
pub(crate) fn ids(
    alloc: Global,
    given: &ArgMatches<'_>,
    argument: &str,
) -> Result<Vec<OpId>, LineFault> {
    let mut ids = Vec::new(alloc);
    for word in given.get_strs(argument).unwrap_or(&[]) {
        ids.push(OpId::read(*word)?)?;
    }
    Ok(ids)
}

// The books and segments that the words of an argument name.
pub(crate) fn wanted(
    alloc: Global,
    given: &ArgMatches<'_>,
    argument: &str,
) -> Result<Vec<Wanted>, LineFault> {
    let mut wanted = Vec::new(alloc);
    for word in given.get_strs(argument).unwrap_or(&[]) {
        match Wanted::read(*word) {
            Ok(named) => wanted.push(named)?,
            Err(fault) => return Err(refused_word(alloc, fault, *word)),
        }
    }
    Ok(wanted)
}

// What the words of an argument name: a book, or a segment, or where chapters are asked for its
// chapter.
pub(crate) fn names(
    alloc: Global,
    given: &ArgMatches<'_>,
    argument: &str,
    chapters: bool,
) -> Result<Vec<Named>, LineFault> {
    let mut names = Vec::new(alloc);
    for wanted in &wanted(alloc, given, argument)? {
        names.push(match *wanted {
            Wanted::Whole(book) => Named::Whole(book),
            Wanted::One(book, key) if chapters => Named::Chapter(book, key.chapter),
            Wanted::One(book, key) => Named::One(Segment { book, key }),
        })?;
    }
    Ok(names)
}

// The id that the word of an argument spells, which may be left out.
pub(crate) fn id_if_given(
    given: &ArgMatches<'_>,
    argument: &str,
) -> Result<Option<OpId>, LineFault> {
    match given.get_str(argument) {
        Some(word) => Ok(Some(OpId::read(word)?)),
        None => Ok(None),
    }
}

// The books that the words of an argument name.
pub(crate) fn books(
    alloc: Global,
    given: &ArgMatches<'_>,
    argument: &str,
) -> Result<Vec<Book>, LineFault> {
    let mut books = Vec::new(alloc);
    for word in given.get_strs(argument).unwrap_or(&[]) {
        books.push(book_of(alloc, *word)?)?;
    }
    Ok(books)
}

// The book that a word names, if there is one.
pub(crate) fn book_if_given(alloc: Global, word: Option<&str>) -> Result<Option<Book>, LineFault> {
    match word {
        Some(word) => Ok(Some(book_of(alloc, word)?)),
        None => Ok(None),
    }
}

// The book that the word of an argument names.
pub(crate) fn book(
    alloc: Global,
    given: &ArgMatches<'_>,
    argument: &str,
) -> Result<Book, LineFault> {
    book_of(alloc, word(given, argument))
}

// The book of a code.
pub(crate) fn book_of(alloc: Global, word: &str) -> Result<Book, LineFault> {
    match Book::read(word) {
        Ok(book) => Ok(book),
        Err(fault) => Err(refused_word(alloc, fault, word)),
    }
}

// The segment that the word of an argument refers to.
pub(crate) fn reference(
    alloc: Global,
    given: &ArgMatches<'_>,
    argument: &str,
) -> Result<(Book, Key), LineFault> {
    let word = word(given, argument);
    match read_ref(word) {
        Ok(segment) => Ok(segment),
        Err(fault) => Err(refused_word(alloc, fault, word)),
    }
}

// The refusal of a word. Where out of memory keeps it from being copied, the fault alone is told.
pub(crate) fn refused_word(alloc: Global, fault: RefFault, word: &str) -> LineFault {
    let fault = Fault::from(fault);
    match String::from_str(alloc, word) {
        Ok(word) => LineFault::RefusedWord(fault, word),
        Err(_) => LineFault::Refused(fault),
    }
}

// The word of an argument. Each that is required was given.
pub(crate) fn word<'a>(given: &ArgMatches<'a>, argument: &str) -> &'a str {
    given.get_str(argument).unwrap_or("")
}

// A copy of it.
pub(crate) fn text(
    alloc: Global,
    given: &ArgMatches<'_>,
    argument: &str,
) -> Result<String, AllocError> {
    String::from_str(alloc, word(given, argument))
}

// A copy of the word of an argument that may be left out.
pub(crate) fn text_if_given(
    alloc: Global,
    given: &ArgMatches<'_>,
    argument: &str,
) -> Result<Option<String>, AllocError> {
    match given.get_str(argument) {
        Some(word) => Ok(Some(String::from_str(alloc, word)?)),
        None => Ok(None),
    }
}

// Copies of the words of an argument that takes several.
pub(crate) fn texts(
    alloc: Global,
    given: &ArgMatches<'_>,
    argument: &str,
) -> Result<Vec<String>, AllocError> {
    let mut copies = Vec::new(alloc);
    for word in given.get_strs(argument).unwrap_or(&[]) {
        copies.push(String::from_str(alloc, *word)?)?;
    }
    Ok(copies)
}
