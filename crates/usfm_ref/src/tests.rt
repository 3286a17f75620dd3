use super::*;
use std::test::Fail;

#[test]
fn codes_are_read(rt: HostRuntime) -> Result<(), Fail> {
    for code in ["GEN", "REV", "000", "ZZZ", "FRT"] {
        let book = Book::read(code)?;
        assert!(rt; book.code().as_slice() == code.as_bytes(), "{code}");
    }
    for text in ["mat", "MA", "MATX", "MÄT", "", "MA "] {
        assert!(rt; Book::read(text) == Err(RefFault::BadBook), "{text}");
    }
    Ok(())
}

#[test]
fn books_go_by_the_canon(rt: HostRuntime) -> Result<(), Fail> {
    let codes = ["GEN", "MAL", "MAT", "1CO", "REV", "000", "FRT", "ZZZ"];
    for later in 1..codes.len() {
        let before = Book::read(codes[later - 1])?;
        assert!(rt; before < Book::read(codes[later])?, "{later}");
    }
    Ok(())
}

#[test]
fn keys_have_ranges(rt: HostRuntime) {
    for (chapter, number, letter, fits) in [
        (0, 0, None, true),
        (999, 999, Some(b'a'), true),
        (1, 1, Some(b'z'), true),
        (1000, 0, None, false),
        (0, 1000, None, false),
        (0, 0, Some(b'`'), false),
        (0, 0, Some(b'{'), false),
    ] {
        let verse = Key::new(chapter, Place::Verse { number, letter });
        assert_eq!(rt; verse.is_some(), fits, "{chapter}:{number}");
    }
    for (chapter, fits) in [(0, true), (999, true), (1000, false)] {
        assert_eq!(rt; Key::new(chapter, Place::Head).is_some(), fits);
    }
}

#[test]
fn keys_go_by_chapter_and_place(rt: HostRuntime) -> Result<(), Fail> {
    let verse = |number, letter| Place::Verse { number, letter };
    let places = [
        (1, Place::Head),
        (1, verse(0, None)),
        (1, verse(3, None)),
        (1, verse(3, Some(b'a'))),
        (1, verse(3, Some(b'b'))),
        (1, verse(4, None)),
        (2, Place::Head),
    ];
    for later in 1..places.len() {
        let (chapter, place) = places[later - 1];
        let before = Key::new(chapter, place).ok_or("before")?;
        let (chapter, place) = places[later];
        assert!(rt;
            before < Key::new(chapter, place).ok_or("after")?,
            "{later}"
        );
    }
    Ok(())
}

#[test]
fn references_are_read_as_written(rt: HostRuntime) -> Result<(), Fail> {
    let verse = |number, letter| Place::Verse { number, letter };
    for (text, chapter, place, key_text) in [
        ("MAT 0", 0, Place::Head, "0"),
        ("MAT 5", 5, Place::Head, "5"),
        ("MAT 0:1", 0, verse(1, None), "0:1"),
        ("MAT 5:3a", 5, verse(3, Some(b'a')), "5:3a"),
        ("1CO 999:999z", 999, verse(999, Some(b'z')), "999:999z"),
    ] {
        let (book, key) = read_ref(text)?;
        assert!(rt; key.chapter == chapter && key.place == place);
        assert_eq!(rt; write_ref(rt.alloc(), book, key)?.as_str(), text);
        assert_eq!(rt; write_key(rt.alloc(), key)?.as_str(), key_text);
    }
    Ok(())
}

#[test]
fn other_texts_are_no_references(rt: HostRuntime) {
    for text in ["mat 5", "MA", "MÄT 1", "MAÄ 1", ""] {
        assert!(rt; read_ref(text) == Err(RefFault::BadBook), "{text}");
    }
    for text in [
        "MAT",
        "MAT ",
        "MAT 05",
        "MAT 1000",
        "MAT 5:03",
        "MAT 5:1000",
        "MAT 5:",
        "MAT 5:3A",
        "MAT 5:3ab",
        "MAT 5a",
        "MAT 5:3 ",
        "MAT 5-6",
        "MAT  5",
        "MAT\t5",
        "MATT 5",
        "MAT +5",
    ] {
        assert!(rt; read_ref(text) == Err(RefFault::BadRef), "{text}");
    }
}

#[test]
fn chapters_are_read(rt: HostRuntime) {
    for (text, number) in [
        (" 0", Some(0)),
        (" 12", Some(12)),
        (" \t\r\n003 x", Some(3)),
        (" 12-13", Some(12)),
        (" 12é", Some(12)),
        (" 12a", None),
        (" 0000", None),
        ("12", None),
        (" x", None),
        ("\u{A0}12", None),
    ] {
        assert_eq!(rt; chapter_after(text), number, "{text}");
    }
}

#[test]
fn verses_are_read(rt: HostRuntime) {
    let a = Some(b'a');
    let b = Some(b'b');
    for (text, number, letter, last, length) in [
        (" 3-4 x", 3, None, Some((4, None)), 4),
        (" 3a", 3, a, None, 3),
        (" 3-x", 3, None, None, 2),
        (" 3a-4b.", 3, a, Some((4, b)), 6),
        (" 003", 3, None, None, 4),
        (" 3é", 3, None, None, 2),
        (" 3_", 3, None, None, 2),
        (" 3|", 3, None, None, 2),
        (" 3–4", 3, None, None, 2),
        (" 3-4-5", 3, None, Some((4, None)), 4),
        (" 3-1000", 3, None, None, 2),
        (" 3-4ab", 3, None, None, 2),
        (" 3--4", 3, None, None, 2),
        (" 3- 4", 3, None, None, 2),
        (" 5-5", 5, None, Some((5, None)), 4),
        (" \r\n\t999z-0\\", 999, Some(b'z'), Some((0, None)), 10),
    ] {
        let mark = VerseMark {
            number,
            letter,
            last,
            length,
        };
        assert_eq!(rt; verse_after(text), Some(mark), "{text}");
    }
    for text in ["3", " 1000", " 0000", " 3ab", " 3A", " 3aA", "", " ", " a"] {
        assert_eq!(rt; verse_after(text), None, "{text}");
    }
}
