use super::*;
use std::alloc::Global;
use std::process::Abort;
use std::str;
use std::test::Fail;
use sty_sheet::Sheet;
use usfm_ref::{Book, Key, Place, Segment};

const SHEET: &str = "\\Marker id
\\StyleType Paragraph
\\Marker h
\\StyleType Paragraph
\\Marker c
\\StyleType Paragraph
\\Marker v
\\StyleType Character
\\Marker p
\\StyleType Paragraph
\\Marker b
\\StyleType Paragraph
\\Marker q1
\\StyleType Paragraph
\\Marker q2
\\StyleType Paragraph
\\Marker li1
\\StyleType Paragraph
\\Marker s1
\\StyleType Paragraph
\\Marker w
\\Endmarker w*
\\StyleType Character
\\Marker fig
\\Endmarker fig*
\\StyleType Character
\\Marker f
\\Endmarker f*
\\StyleType Note
\\Marker fr
\\Endmarker fr*
\\StyleType Character
\\Marker ft
\\Endmarker ft*
\\StyleType Character
";

fn check(rt: &impl Abort, alloc: Global, width: usize, text: &str, want: &str) -> Result<(), Fail> {
    let sheet = Sheet::read(alloc, SHEET)?;
    let made = part_text(alloc, &sheet, text, Part::Whole, &[], width)?;
    assert_eq!(rt; str::from_utf8(&made).unwrap_or("no text"), want);
    Ok(())
}

// The book's names, headings, prose, poetry of two levels, a line of which is wrapped, an empty
// line, an item, and the notes of two chapters.
#[test]
fn paragraphs_are_set_by_their_kinds(rt: HostRuntime) -> Result<(), Fail> {
    check(
        &rt,
        rt.alloc(),
        30,
        "\\id PSA\n\\h Psalms\n\\c 1\n\\s1 Of two ways\n\\p\n\\v 1 Happy\\f + \\fr 1.1: \\ft Or: \
         blessed\\f* is one who does not walk\n\\q1\n\\v 2 but whose delight is there,\n\\q2 day \
         and night\n\\b\n\\li1 one\n\\c 2\n\\q1\n\\v 1-2 Why\\f - \\ft So\\f*?",
        "PSA\n\
         Psalms\n\
         \n\
         1\n\
         \n\
         Of two ways\n\
         \n\
         \x20 1 Happy[1] is one who does\n\
         not walk\n\
         \x20   2 but whose delight is\n\
         \x20       there,\n\
         \x20     day and night\n\
         \n\
         \x20 one\n\
         \n\
         [1] 1.1: Or: blessed\n\
         \n\
         2\n\
         \n\
         \x20   1-2 Why[1]?\n\
         \n\
         [1] So\n",
    )
}

// Attributes are not written; a caption stands apart; an unknown mark stands as it is; a word that
// is wider than a line stands alone; combining marks take no column, and wide characters two.
#[test]
fn words_are_written_as_they_stand(rt: HostRuntime) -> Result<(), Fail> {
    let alloc = rt.alloc();
    check(
        &rt,
        alloc,
        20,
        "\\p \\w grace|lemma=\"x\"\\w*,\\fig At once.|src=\"a.jpg\"\\fig*so \\zz it",
        "  grace, At once. so\n\\zz it\n",
    )?;
    check(
        &rt,
        alloc,
        8,
        "\\p aa incomprehensible bb",
        "  aa\nincomprehensible\nbb\n",
    )?;
    let points =
        "\\p \u{5d1}\u{5b0}\u{5bc}\u{5e8}\u{5b5}\u{5d0}\u{5e9}\u{5b4}\u{5c1}\u{5d9}\u{5ea} a";
    let want =
        "  \u{5d1}\u{5b0}\u{5bc}\u{5e8}\u{5b5}\u{5d0}\u{5e9}\u{5b4}\u{5c1}\u{5d9}\u{5ea} a\n";
    check(&rt, alloc, 10, points, want)?;
    check(
        &rt,
        alloc,
        8,
        "\\p \u{795e}\u{611b} \u{4e16}",
        "  \u{795e}\u{611b}\n\u{4e16}\n",
    )
}

fn at(chapter: u16, place: Place) -> Option<Segment> {
    Some(Segment {
        book: Book::read("MAT").ok()?,
        key: Key::new(chapter, place)?,
    })
}

const TWO: &str = "\\id MAT\n\\c 1\n\\p\n\\v 1 a\n\\v 2 b\n\\c 2\n\\p\n\\v 1 c\n";

fn check_part(rt: &impl Abort, alloc: Global, part: Part, want: &str) -> Result<(), Fail> {
    let sheet = Sheet::read(alloc, SHEET)?;
    let verse = Place::Verse {
        number: 2,
        letter: None,
    };
    let (Some(one), Some(two)) = (at(1, verse), at(2, Place::Head)) else {
        panic!(rt; "no key");
    };
    let conflicts = [one, two];
    let made = part_text(alloc, &sheet, TWO, part, &conflicts, 72)?;
    assert_eq!(rt; str::from_utf8(&made).unwrap_or("no text"), want);
    Ok(())
}

// Of a chapter and of a verse it is what their segments have, and those in conflict are marked.
#[test]
fn conflicts_are_marked(rt: HostRuntime) -> Result<(), Fail> {
    let alloc = rt.alloc();
    let whole = "MAT\n\n1\n\n  1 a [conflict] 2 b\n\n[conflict] 2\n\n  1 c\n";
    check_part(&rt, alloc, Part::Whole, whole)?;
    let first = "1\n\n  1 a [conflict] 2 b\n";
    check_part(&rt, alloc, Part::OneChapter(1), first)?;
    let second = "[conflict] 2\n\n  1 c\n";
    check_part(&rt, alloc, Part::OneChapter(2), second)?;
    check_part(&rt, alloc, Part::OneChapter(3), "")?;
    let verse = Place::Verse {
        number: 2,
        letter: None,
    };
    let Some(key) = Key::new(1, verse) else {
        panic!(&rt; "no key");
    };
    check_part(&rt, alloc, Part::OneKey(key), "  [conflict] 2 b\n")
}
