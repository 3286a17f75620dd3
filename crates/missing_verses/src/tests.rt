use super::*;
use std::alloc::Global;
use std::process::Abort;
use std::test::Fail;
use usfm_ref::Book;
use versification::Versification;

const VERSES: &[u8] = b"MAT 1:5 2:3 3:2\n-MAT 1:4\nRUT 1:0\n";

fn versification(alloc: Global) -> Result<Versification, Fail> {
    Ok(Versification::read(alloc, VERSES)?)
}

// That these are the lines of a book.
fn check(rt: &impl Abort, alloc: Global, text: &str, lines: &str) -> Result<(), Fail> {
    let found = missing_in_book(alloc, &versification(alloc)?, Book::read("MAT")?, text)?;
    assert!(rt; found.as_slice() == lines.as_bytes(), "{text}");
    Ok(())
}

#[test]
fn says_what_is_missing(rt: HostRuntime) -> Result<(), Fail> {
    let whole = "\\id MAT\n\\c 1\n\\v 1 a\n\\v 2-3 b\n\\v 5 c\n\\c 2\n\\v 1a d\n\\v 1b e\n\
        \\v 2-3a f\n\\v 3b g\n\\c 3\n\\v 1-2 h\n";
    for (text, lines) in [
        (whole, ""),
        ("", ""),
        (
            "\\id MAT\n",
            "missing MAT 1\nmissing MAT 2\nmissing MAT 3\n",
        ),
        (
            "\\id MAT\n\\c 1\n\\p\n\\c 3\n\\v 2\n\\c 4\n\\v 1 x\n",
            "missing MAT 1:1-3\nmissing MAT 1:5\nmissing MAT 2\nmissing MAT 3:1\nempty MAT 3:2\n\
             beyond MAT 4:1\n",
        ),
        (
            "\\id MAT\n\\v 7 x\n\\c 1\n\\v 0 t\n\\v 1-3 a\n\\v 2-4 b\n\\v 5-7 c\n\\v 7 d\n\\c 2\n\
             \\v 1-3 e\n\\c 3\n\\v 1 \\p\n\\v 2a f\n\\v 2b\n",
            "beyond MAT 0:7\nbeyond MAT 1:2\nbeyond MAT 1:5\nbeyond MAT 1:7\ntwice MAT 1:2\n\
             twice MAT 1:3\ntwice MAT 1:7\nempty MAT 3:1\nempty MAT 3:2b\n",
        ),
    ] {
        check(&rt, rt.alloc(), text, lines)?;
    }
    Ok(())
}

#[test]
fn says_what_a_chapter_lacks(rt: HostRuntime) -> Result<(), Fail> {
    let alloc = rt.alloc();
    let read = versification(alloc)?;
    let matthew = Book::read("MAT")?;
    for (chapter, lines) in [
        (1, "missing MAT 1:2-3\nmissing MAT 1:5\n"),
        (2, "missing MAT 2\n"),
        (7, ""),
    ] {
        let found = missing_in_chapter(
            alloc,
            &read,
            matthew,
            "\\id MAT\n\\c 1\n\\v 1 a\n",
            chapter,
        )?;
        assert!(rt; found.as_slice() == lines.as_bytes(), "{chapter}");
    }
    Ok(())
}

#[test]
fn an_unknown_book_has_no_verses_beyond(rt: HostRuntime) -> Result<(), Fail> {
    let alloc = rt.alloc();
    let read = versification(alloc)?;
    let text = "\\id TOB\n\\c 1\n\\v 1-2 a\n\\v 2\n";
    let found = missing_in_book(alloc, &read, Book::read("TOB")?, text)?;
    assert!(rt; found.as_slice() == b"twice TOB 1:2\nempty TOB 1:2\n".as_slice());
    let found = missing_in_book(alloc, &read, Book::read("RUT")?, "\\id RUT\n")?;
    assert!(rt; found.is_empty());
    Ok(())
}
