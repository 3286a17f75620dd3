// A style sheet, texts and fronts of files, beside the bundles and summaries.
pub(crate) use crate::bytes::{
    AFTER, ALL_BUT_2_ANA, ALL_THREE, B1, CLASHING, FIRST, FOURTH, JOINED, NOTHING, S1,
    THREE_THINNED, UNNAMED, V2, VERSE_THINNED, Y, Z,
};

pub(crate) const SHEET: &str = "# sheet of the worked rows
\\Marker id
\\StyleType Paragraph
\\Marker c
\\StyleType Paragraph
\\Marker v
\\StyleType Character
\\Marker p
\\StyleType Paragraph
\\TextType VerseText
\\Marker add
\\Endmarker add*
\\OccursUnder p NEST
\\StyleType Character
\\Marker nd
\\Endmarker nd*
\\OccursUnder p NEST
\\StyleType Character
\\Marker wj
\\Endmarker wj*
\\OccursUnder p NEST
\\StyleType Character
\\Marker w
\\Endmarker w*
\\OccursUnder p NEST
\\StyleType Character
\\Marker f
\\Endmarker f*
\\OccursUnder p
\\StyleType Note
\\Marker ft
\\Endmarker ft*
\\OccursUnder f
\\StyleType Character
\\Marker qt-s
\\Endmarker qt-e
\\StyleType Milestone
";

pub(crate) const NESTED: &str =
    "\\p\\add a \\+nd b\\+nd* c\\add*\\wj d\\f + \\ft e\\f* g\\wj*\\nd*\n";

pub(crate) const TWO_VERSES: &str = "\\id MAT\n\\c 1\n\\v 3 x\n\\v 4 y\n";

pub(crate) const GNATS: &str =
    "\\id MAT\n\\c 1\n\\p\n\\v 1 In \\w gnat|lemma=\"gnat\"\\w* the gnat\\f + \\ft gnat\\f*\n";

// How many bytes of a bundle come before its operations.
const FRONT: usize = 16;

// How the file of ana's project begins, and the bundles of three and of four operations.
pub(crate) const BEGUN: &[u8] = b"USFMPJ1\n\x03ana";

pub(crate) const COUNT_3: &[u8] = b"USFMSR1\n\0\0\0\0\0\0\0\x03";

pub(crate) const COUNT_4: &[u8] = b"USFMSR1\n\0\0\0\0\0\0\0\x04";

// The report of two texts side by side.
pub(crate) const CONFLICT: &[u8] =
    b"conflict MAT 1:1 2\ntext 3 ben 8\n\\v 1 At\n\ntext 3 ana 8\n\\v 1 To\n\n";

/// The operations of a bundle, without its front.
pub(crate) fn operations(bundle: &'static [u8]) -> &'static [u8] {
    bundle.get(FRONT..).unwrap_or_default()
}
