use super::*;
use std::alloc::Global;
use std::process::Abort;
use std::test::Fail;
use sty_sheet::Sheet;

const SHEET: &str = "\\Marker id
\\StyleType Paragraph
\\Marker c
\\StyleType Paragraph
\\Marker v
\\StyleType Character
\\Marker p
\\StyleType Paragraph
\\Marker q2
\\StyleType Paragraph
\\Marker s1
\\StyleType Paragraph
\\Marker nd
\\Endmarker nd*
\\StyleType Character
\\Marker w
\\Endmarker w*
\\StyleType Character
\\Marker fig
\\Endmarker fig*
\\StyleType Character
\\Marker f
\\Endmarker f*
\\StyleType Note
\\Marker fr
\\Endmarker fr*
\\StyleType Character
\\Marker fk
\\Endmarker fk*
\\StyleType Character
\\Marker ft
\\Endmarker ft*
\\StyleType Character
\\Marker qt-s
\\Endmarker qt-e
\\StyleType Milestone
";

// A run as it is wanted: what it is seen as, its style, the number of its note or 0, and its bytes.
type Want<'a> = (Sort, &'a str, usize, &'a str);

fn check(rt: &impl Abort, alloc: Global, text: &str, want: &[Want<'_>]) -> Result<(), Fail> {
    let sheet = Sheet::read(alloc, SHEET)?;
    let reading = read(alloc, &sheet, text)?;
    let mut wanted = want.iter();
    for run in reading.runs() {
        let Some((sort, style, note, text)) = wanted.next() else {
            panic!(rt; "{run:?} is one more");
        };
        assert_eq!(rt; run.sort, *sort, "{run:?}");
        assert_eq!(rt; run.style, *style, "{run:?}");
        assert_eq!(rt; run.note.unwrap_or(0), *note, "{run:?}");
        assert_eq!(rt; run.text, *text, "{run:?}");
    }
    assert!(rt; wanted.next().is_none());
    Ok(())
}

// Genesis 3:20 of the documentation of footnotes.
#[test]
fn notes_are_numbered_at_their_callers(rt: HostRuntime) -> Result<(), Fail> {
    check(
        &rt,
        rt.alloc(),
        "\\p\n\\v 20 Adam\\f + \\fr 3.20: \\fk Adam: \\ft This name.\\f* named,\\f - \\ft So\\f*",
        &[
            (Sort::Paragraph(BlockKind::Prose), "", 0, "\\p"),
            (Sort::Markup, "", 0, "\n"),
            (Sort::Markup, "", 0, "\\v"),
            (Sort::Markup, "", 0, " "),
            (Sort::Verse, "", 0, "20"),
            (Sort::Markup, "", 0, " "),
            (Sort::Words, "", 0, "Adam"),
            (Sort::Caller, "", 1, "\\f"),
            (Sort::Markup, "", 1, " + "),
            (Sort::Markup, "fr", 1, "\\fr"),
            (Sort::Markup, "fr", 1, " "),
            (Sort::Words, "fr", 1, "3.20: "),
            (Sort::Markup, "fk", 1, "\\fk"),
            (Sort::Markup, "fk", 1, " "),
            (Sort::Words, "fk", 1, "Adam: "),
            (Sort::Markup, "ft", 1, "\\ft"),
            (Sort::Markup, "ft", 1, " "),
            (Sort::Words, "ft", 1, "This name."),
            (Sort::Markup, "", 1, "\\f*"),
            (Sort::Words, "", 0, " named,"),
            (Sort::Caller, "", 2, "\\f"),
            (Sort::Markup, "", 2, " - "),
            (Sort::Markup, "ft", 2, "\\ft"),
            (Sort::Markup, "ft", 2, " "),
            (Sort::Words, "ft", 2, "So"),
            (Sort::Markup, "", 2, "\\f*"),
        ],
    )
}

// Attributes of words, of a figure and of a milestone; and what stands after a bar elsewhere.
#[test]
fn attributes_are_not_seen(rt: HostRuntime) -> Result<(), Fail> {
    check(
        &rt,
        rt.alloc(),
        "\\w grace|lemma=\"grace\"\\w*|\\fig At once.|src=\"a.jpg\"\\fig*\\qt-s |sid=\"1\"\\*",
        &[
            (Sort::Markup, "w", 0, "\\w"),
            (Sort::Markup, "w", 0, " "),
            (Sort::Words, "w", 0, "grace"),
            (Sort::Markup, "w", 0, "|lemma=\"grace\""),
            (Sort::Markup, "w", 0, "\\w*"),
            (Sort::Words, "", 0, "|"),
            (Sort::Markup, "fig", 0, "\\fig"),
            (Sort::Markup, "fig", 0, " "),
            (Sort::Caption, "fig", 0, "At once."),
            (Sort::Markup, "fig", 0, "|src=\"a.jpg\""),
            (Sort::Markup, "fig", 0, "\\fig*"),
            (Sort::Markup, "", 0, "\\qt-s"),
            (Sort::Markup, "", 0, " "),
            (Sort::Markup, "", 0, "|sid=\"1\""),
            (Sort::Markup, "", 0, "\\*"),
        ],
    )
}

// A mark that the sheet does not know, a closing mark that closes nothing, a verse without a
// number, and a chapter.
#[test]
fn unknown_marks_are_seen(rt: HostRuntime) -> Result<(), Fail> {
    check(
        &rt,
        rt.alloc(),
        "\\c 3\n\\q2\n\\v In \\zz the\\nd*",
        &[
            (Sort::Paragraph(BlockKind::Chapter), "", 0, "\\c"),
            (Sort::Markup, "", 0, " "),
            (Sort::Chapter, "", 0, "3"),
            (Sort::Markup, "", 0, "\n"),
            (Sort::Paragraph(BlockKind::Poetry(2)), "", 0, "\\q2"),
            (Sort::Markup, "", 0, "\n"),
            (Sort::Markup, "", 0, "\\v"),
            (Sort::Markup, "", 0, " "),
            (Sort::Words, "", 0, "In "),
            (Sort::Unknown, "", 0, "\\zz"),
            (Sort::Words, "", 0, " the"),
            (Sort::Unknown, "", 0, "\\nd*"),
        ],
    )
}

// What a chapter is wanted to have: the kinds of its blocks with the numbers of their runs, and the
// number of its note and the words of that, if it has one.
type WantChapter<'a> = (&'a [(Option<BlockKind>, usize)], Option<(usize, &'a str)>);

fn check_chapter(rt: &impl Abort, chapter: Chapter<'_, '_>, want: WantChapter<'_>) {
    let mut blocks = chapter.blocks();
    for (kind, count) in want.0 {
        match blocks.next() {
            None => panic!(rt; "no block"),
            Some(block) => {
                assert_eq!(rt; block.kind, *kind);
                assert_eq!(rt; block.runs.len(), *count);
            }
        }
    }
    assert!(rt; blocks.next().is_none());
    let mut notes = chapter.notes();
    if let Some((number, words)) = want.1 {
        match notes.next() {
            None => panic!(rt; "no note"),
            Some(note) => {
                assert_eq!(rt; note.number, Some(number));
                assert_eq!(rt; note.runs.len(), 6);
                assert_eq!(rt; note.runs[4].text, words);
            }
        }
    }
    assert!(rt; notes.next().is_none());
}

// What comes before all paragraphs is a block, and before all chapters a chapter; the notes of each
// chapter are numbered from 1.
#[test]
fn chapters_have_blocks_and_notes(rt: HostRuntime) -> Result<(), Fail> {
    let sheet = Sheet::read(rt.alloc(), SHEET)?;
    let text = "a\\id MAT\n\\c 1\n\\s1 Of\\f + \\ft b\\f*\n\\c 2\n\\p\n\\v 1 c\\f + \\ft d\\f*";
    let reading = read(rt.alloc(), &sheet, text)?;
    let mut chapters = reading.chapters();
    let wanted: [WantChapter<'_>; 3] = [
        (&[(None, 1), (Some(BlockKind::About), 3)], None),
        (
            &[
                (Some(BlockKind::Chapter), 4),
                (Some(BlockKind::Heading(1)), 10),
            ],
            Some((1, "b")),
        ),
        (
            &[(Some(BlockKind::Chapter), 4), (Some(BlockKind::Prose), 13)],
            Some((1, "d")),
        ),
    ];
    for want in wanted {
        match chapters.next() {
            None => panic!(rt; "no chapter"),
            Some(chapter) => check_chapter(&rt, chapter, want),
        }
    }
    assert!(rt; chapters.next().is_none());
    Ok(())
}

// A mark that names a level, and marks that begin as those of other kinds.
#[test]
fn kinds_go_by_names(rt: HostRuntime) {
    assert_eq!(rt; block_kind("mt3"), BlockKind::Heading(3));
    assert_eq!(rt; block_kind("qa"), BlockKind::Heading(1));
    assert_eq!(rt; block_kind("q"), BlockKind::Poetry(1));
    assert_eq!(rt; block_kind("lim2"), BlockKind::Item(2));
    assert_eq!(rt; block_kind("toc1"), BlockKind::About);
    assert_eq!(rt; block_kind("pi1"), BlockKind::Prose);
    assert_eq!(rt; block_kind(""), BlockKind::Prose);
}
