use super::*;
use std::alloc::{AllocError, Global};
use std::process::Abort;
use usfm_ref::{Book, Key, Place, RefFault};

// A key's chapter, its verse if it is one, a piece's start, and its text.
type Row = (u16, Option<u16>, usize, &'static str);

fn key(chapter: u16, verse: Option<u16>) -> Option<Key> {
    let place = match verse {
        None => Place::Head,
        Some(number) => Place::Verse {
            number,
            letter: None,
        },
    };
    Key::new(chapter, place)
}

fn check_cut(rt: &impl Abort, alloc: Global, book: &str, rows: &[Row]) -> Result<(), AllocError> {
    let pieces = cut(alloc, book)?;
    assert_eq!(rt; pieces.len(), rows.len(), "{book}");
    for (piece, (chapter, verse, start, text)) in pieces.iter().zip(rows) {
        assert!(rt; Some(piece.key) == key(*chapter, *verse), "{text}");
        assert_eq!(rt; piece.start, *start);
        assert_eq!(rt; piece.text, *text);
    }
    Ok(())
}

#[test]
fn cuts_books(rt: HostRuntime) -> Result<(), AllocError> {
    let alloc = rt.alloc();
    check_cut(
        &rt,
        alloc,
        "\\id MAT\n\\c 1\n\\v 1 a \\v 3 b \\v 2 c \\v 4 d",
        &[
            (0, None, 0, "\\id MAT\n"),
            (1, None, 8, "\\c 1\n"),
            (1, Some(1), 13, "\\v 1 a "),
            (1, Some(3), 20, "\\v 3 b \\v 2 c "),
            (1, Some(4), 34, "\\v 4 d"),
        ],
    )?;
    check_cut(
        &rt,
        alloc,
        "\\id MAT\n\\c 3\n\\v 5 a\n\\c 2\n\\v 6 b\n",
        &[
            (0, None, 0, "\\id MAT\n"),
            (3, None, 8, "\\c 3\n"),
            (3, Some(5), 13, "\\v 5 a\n\\c 2\n"),
            (3, Some(6), 25, "\\v 6 b\n"),
        ],
    )?;
    check_cut(&rt, alloc, "", &[(0, None, 0, "")])?;
    check_cut(
        &rt,
        alloc,
        "\\id MAT\n\\c 1\n\\v 1 In\\\\v 2 b\n",
        &[
            (0, None, 0, "\\id MAT\n"),
            (1, None, 8, "\\c 1\n"),
            (1, Some(1), 13, "\\v 1 In\\"),
            (1, Some(2), 21, "\\v 2 b\n"),
        ],
    )
}

#[test]
fn texts_fit(rt: HostRuntime) -> Result<(), RefFault> {
    let mat = Book::read("MAT")?;
    let rows = [
        (0, None, "\\id MAT", true),
        (0, None, "\\id MAT \\c 0", true),
        (0, None, "\u{FEFF}\\id MAT\r\n", true),
        (0, None, "\\id MATT", false),
        (0, None, "\\id MAT\n\\c 1", false),
        (0, None, "", false),
        (0, Some(1), "\\v 1 a", true),
        (1, None, "\\c 1\n", true),
        (1, None, "", true),
        (1, None, "\\c 2", false),
        (1, None, " \\c 1", false),
        (1, None, "\u{FEFF}\\c 1", false),
        (1, Some(1), "\\v 1 a \\c 1", true),
        (1, Some(1), "\\v 1 a \\c 2", false),
        (1, Some(1), "\\v 2 b", false),
        (1, Some(1), "\\v 1 a \\v 2 b", false),
        (1, Some(1), "\\v 1 a\\p\\v 2 b", false),
        (1, Some(1), "\\v 1 \\vp 9\\vp*\\p\\cl 9", true),
        (5, Some(3), "\\v 3 \\c 3 \\v 9", false),
        (5, Some(3), "\\v 3 a \\+v 9 \\v* 9", true),
    ];
    for (chapter, verse, text, fit) in rows {
        let answer = key(chapter, verse).map(|key| fits(mat, key, text));
        assert_eq!(rt; answer, Some(fit), "{text}");
    }
    Ok(())
}

#[test]
fn books_are_named(rt: HostRuntime) -> Result<(), RefFault> {
    let mat = Book::read("MAT")?;
    for text in [
        "\\id MAT",
        "\\id MAT\n\\c 1",
        "\\id\nMAT\\c 1",
        "\u{FEFF}\\id MAT ",
    ] {
        assert!(rt; book_of(text) == Ok(mat), "{text}");
    }
    for text in [
        "\\id mat",
        "\\id  MAT",
        "\\id\r\nMAT",
        "\\id ",
        "\\id MATX",
        "\\id MAT-",
        "\\id MAT*",
        "\\id MATé",
        "\\id Mé",
    ] {
        assert!(rt; book_of(text) == Err(BookFault::BadBook), "{text}");
    }
    for text in [
        "",
        "\\id",
        "\\idx MAT",
        "\\id+ MAT",
        "\\id* MAT",
        "\\+id MAT",
        "\u{FEFF}\u{FEFF}\\id MAT",
        " \\id MAT",
        "\\c 1",
    ] {
        assert!(rt; book_of(text) == Err(BookFault::NoId), "{text}");
    }
    Ok(())
}
