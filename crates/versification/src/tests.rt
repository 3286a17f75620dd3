use super::*;
use std::process::Abort;
use std::test::Fail;
use usfm_ref::Book;

const FILE: &[u8] = b"\xEF\xBB\xBF# A versification\r\n\r\n\
    GEN 1:31 2:25\r\nRUT 1:22\n-GEN 1:5\n*GEN 1:1,-,a,b\nGEN 2:1 = GEN 2:2\n \tRUT  1:22\t2:23 ";

#[test]
fn reads_a_file(rt: HostRuntime) -> Result<(), Fail> {
    let read = Versification::read(rt.alloc(), FILE)?;
    let genesis = Book::read("GEN")?;
    let ruth = Book::read("RUT")?;
    let mark = Book::read("MRK")?;
    assert!(rt; read.books() == [genesis, ruth, ruth].as_slice());
    for (book, chapters) in [(genesis, 2), (ruth, 2), (mark, 0)] {
        assert_eq!(rt; read.chapters(book), chapters);
        assert_eq!(rt; read.last_verses(book).len(), chapters);
    }
    for (book, chapter, last) in [
        (genesis, 0, None),
        (genesis, 1, Some(31)),
        (genesis, 2, Some(25)),
        (genesis, 3, None),
        (ruth, 2, Some(23)),
        (mark, 1, None),
    ] {
        assert_eq!(rt; read.last_verse(book, chapter), last, "{book} {chapter}");
    }
    for (verse, has) in [(0, false), (4, true), (5, false), (31, true), (32, false)] {
        assert_eq!(rt; read.has_verse(genesis, 1, verse), has, "{verse}");
    }
    assert!(rt; read.is_left_out(genesis, 1, 5));
    assert!(rt; !read.is_left_out(genesis, 1, 6));
    assert!(rt; !read.is_left_out(ruth, 1, 5));
    Ok(())
}

// That bytes are refused for the line.
fn check_line(rt: &impl Abort, read: Result<Versification, VersificationFault>, line: usize) {
    match read {
        Ok(_) => panic!(rt; "line {line} has to be refused"),
        Err(told) => assert_eq!(rt; told, VersificationFault::BadLine { line }),
    }
}

#[test]
fn tells_the_first_bad_line(rt: HostRuntime) {
    for line in [
        "GEN",
        "GEN 1:31 3:24",
        "GEN 2:25",
        "GEN 1:1000",
        "GEN 1:",
        "GEN 1:31a",
        "gen 1:31",
        "GEN 1:31 # all",
        "-GEN",
        "-GEN 1:5 1:6",
        "- GEN 1:5",
        "\u{e9}",
    ] {
        check_line(&rt, Versification::read(rt.alloc(), line.as_bytes()), 1);
    }
    check_line(
        &rt,
        Versification::read(rt.alloc(), b"#\n\nGEN 1:1\nx\ny\n"),
        4,
    );
}

#[test]
fn an_empty_file_has_no_books(rt: HostRuntime) -> Result<(), Fail> {
    let read = Versification::read(rt.alloc(), b"")?;
    assert_eq!(rt; read.chapters(Book::read("GEN")?), 0);
    Ok(())
}
