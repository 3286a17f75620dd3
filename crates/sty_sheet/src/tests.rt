use super::*;
use std::process::Abort;
use std::test::Fail;

// That a text has this fault.
fn check_fault(rt: &impl Abort, read: Result<Sheet<'_>, SheetFault>, fault: SheetFault) {
    match read {
        Ok(_) => panic!(rt; "no fault, and it has to be {fault}"),
        Err(told) => assert_eq!(rt; told, fault),
    }
}

#[test]
fn tells_faults(rt: HostRuntime) {
    let rows = [
        ("\\Endmarker nd*", SheetFault::FieldBeforeMarker { line: 1 }),
        (
            "\\Marker nd\n\\StyleType Foo",
            SheetFault::BadStyleType { line: 2 },
        ),
        ("\\Marker\n", SheetFault::EmptyMarker { line: 1 }),
        ("\\Marker #a", SheetFault::EmptyMarker { line: 1 }),
        (
            "\n\\StyleType Foo\n",
            SheetFault::FieldBeforeMarker { line: 2 },
        ),
        (
            "\\Marker f\r\n\\StyleType Note x\r\n\\StyleType Note\r\n",
            SheetFault::BadStyleType { line: 2 },
        ),
        (
            "\\Marker f\n\\StyleType\n",
            SheetFault::BadStyleType { line: 2 },
        ),
    ];
    for (text, fault) in rows {
        check_fault(&rt, Sheet::read(rt.alloc(), text), fault);
    }
}

// That the sheet has records of these markers and names, in this order.
fn check_records(rt: &impl Abort, sheet: &Sheet<'_>, records: &[(&str, &str)]) {
    let mut styles = sheet.iter();
    for (marker, name) in records {
        match styles.next() {
            None => panic!(rt; "no record of {marker}"),
            Some(style) => {
                assert_eq!(rt; style.marker(), *marker);
                assert_eq!(rt; style.name(), *name);
            }
        }
    }
    assert!(rt; styles.next().is_none());
}

#[test]
fn reads_records(rt: HostRuntime) -> Result<(), SheetFault> {
    let alloc = rt.alloc();
    let twice = "\\Marker a\n\\Name one\n\\Marker b\n\\Marker a\n";
    check_records(&rt, &Sheet::read(alloc, twice)?, &[("a", ""), ("b", "")]);
    let banged = "#!\\Marker a\n# \\Marker b\n#!\\Name one\n";
    check_records(&rt, &Sheet::read(alloc, banged)?, &[("a", "one")]);
    let one_bang = "#!#!\\Marker a\n\u{feff}\\Marker b\n";
    check_records(&rt, &Sheet::read(alloc, one_bang)?, &[]);
    let marked = "\u{feff} \t\\marker  a b\n\\NAME one # two\n\\name two#three \r\n\\Other\n";
    check_records(&rt, &Sheet::read(alloc, marked)?, &[("a", "two#three")]);
    Ok(())
}

// That the field OccursUnder of a style has these words, in this order.
fn check_words(rt: &impl Abort, style: &Style<'_>, words: &[&str]) {
    let mut under = style.under_words();
    for word in words {
        assert_eq!(rt; under.next(), Some(*word));
    }
    assert!(rt; under.next().is_none());
}

#[test]
fn reads_fields(rt: HostRuntime) -> Result<(), SheetFault> {
    let text = "\
        \\Marker add\n\\Endmarker a* b\n\\OccursUnder p  q1\tNEST\n\
        \\StyleType character\n\\TextType versetext\n\\Marker x\n\\Endmarker *\n\
        \\TextType Verse";
    let sheet = Sheet::read(rt.alloc(), text)?;
    let mut styles = sheet.iter();
    if let (Some(add), Some(x)) = (styles.next(), styles.next()) {
        assert_eq!(rt; add.closer(), Some("a* b"));
        assert_eq!(rt; add.kind(), Some(StyleKind::Character));
        assert!(rt; add.verse_text());
        assert_eq!(rt; add.under(0), Some("p"));
        assert_eq!(rt; add.under(2), Some("NEST"));
        assert_eq!(rt; add.under(3), None);
        check_words(&rt, add, &["p", "q1", "NEST"]);
        assert_eq!(rt; x.closer(), None);
        assert_eq!(rt; x.kind(), None);
        assert!(rt; !x.verse_text());
        assert_eq!(rt; x.under(0), None);
        check_words(&rt, x, &[]);
    } else {
        panic!(rt; "two records");
    }
    Ok(())
}

// Words of OccursUnder that are few, none, and enough to be kept in a set; those of the mark
// that ends a milestone.
#[test]
fn looks_words_up(rt: HostRuntime) -> Result<(), Fail> {
    let alloc = rt.alloc();
    let mut text = String::new(alloc);
    text.push_str(
        "\\Marker few\n\\OccursUnder p NEST\n\\Marker none\n\\Marker ms\n\\Endmarker me\n",
    )?;
    text.push_str("\\StyleType Milestone\n\\OccursUnder q\n\\Marker many\n\\OccursUnder ")?;
    for _ in 0..400u16 {
        text.push_str(" w1 w2 ")?;
    }
    text.push_str("NEST\n")?;
    let sheet = Sheet::read(alloc, &text)?;
    for (name, word, wanted) in [
        ("few", "p", true),
        ("few", "NEST", true),
        ("few", "nest", false),
        ("few", "", false),
        ("none", "p", false),
        ("unknown", "p", false),
        ("me", "q", true),
        ("many", "w1", true),
        ("many", "w2", true),
        ("many", "NEST", true),
        ("many", "w", false),
        ("many", "", false),
    ] {
        assert_eq!(rt; sheet.has_under(name, word), wanted, "{word} under {name}");
    }
    for (name, wanted) in [("few", true), ("none", false), ("many", true)] {
        let style = sheet.style(name).ok_or("no style")?;
        assert_eq!(rt; style.has_under_words(), wanted, "{name}");
    }
    Ok(())
}

// The marker of the style of a mark.
fn style_marker<'s>(sheet: &Sheet<'s>, name: &str) -> Option<&'s str> {
    sheet.style_of(name).map(|style| style.marker())
}

#[test]
fn finds_styles(rt: HostRuntime) -> Result<(), SheetFault> {
    let text = "\
        \\Marker qt-s\n\\Endmarker qt-e\n\\StyleType Milestone\n\\Marker nd\n\
        \\Endmarker nd*\n\\StyleType Character\n\\Marker qs\n\\StyleType Milestone\n\
        \\Endmarker nd\n";
    let sheet = Sheet::read(rt.alloc(), text)?;
    assert_eq!(rt; style_marker(&sheet, "qt-e"), Some("qt-s"));
    assert_eq!(rt; style_marker(&sheet, "nd"), Some("nd"));
    assert_eq!(rt; style_marker(&sheet, ""), None);
    assert_eq!(rt; style_marker(&sheet, "Nd"), None);
    assert!(rt; sheet.style("qt-e").is_none());
    assert!(rt; sheet.style("qt-s").is_some());
    Ok(())
}

#[test]
fn finds_the_first_milestone(rt: HostRuntime) -> Result<(), SheetFault> {
    let text = "\
        \\Marker a\n\\Endmarker z\n\\StyleType Milestone\n\\Marker b\n\\Endmarker z*\n\
        \\StyleType Milestone\n\\Marker a\n";
    let (both, _) = text.split_at(text.len() - 10);
    let sheet = Sheet::read(rt.alloc(), both)?;
    assert_eq!(rt; style_marker(&sheet, "z"), Some("a"));
    let replaced = Sheet::read(rt.alloc(), text)?;
    assert_eq!(rt; style_marker(&replaced, "z"), Some("b"));
    Ok(())
}
