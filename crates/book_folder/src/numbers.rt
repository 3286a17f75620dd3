// The numbers of books in names of files.
ghost use Rattle.std.specs.Prelude.{◌≡◌, map, option_map};
ghost use Rattle.book_folder.specs.Naming as naming;

use usfm_ref::Book;

// A number in the names of files, and the code of its book.
pub(crate) type Numbered = (&'static str, &'static str);

// The books that have a number, as USFM 3.0's table of book identifiers has them. Paratext writes
// the number before the code in the name of a book's file.
pub(crate) static NUMBERS: [Numbered; 109] = [
    ("01", "GEN"),
    ("02", "EXO"),
    ("03", "LEV"),
    ("04", "NUM"),
    ("05", "DEU"),
    ("06", "JOS"),
    ("07", "JDG"),
    ("08", "RUT"),
    ("09", "1SA"),
    ("10", "2SA"),
    ("11", "1KI"),
    ("12", "2KI"),
    ("13", "1CH"),
    ("14", "2CH"),
    ("15", "EZR"),
    ("16", "NEH"),
    ("17", "EST"),
    ("18", "JOB"),
    ("19", "PSA"),
    ("20", "PRO"),
    ("21", "ECC"),
    ("22", "SNG"),
    ("23", "ISA"),
    ("24", "JER"),
    ("25", "LAM"),
    ("26", "EZK"),
    ("27", "DAN"),
    ("28", "HOS"),
    ("29", "JOL"),
    ("30", "AMO"),
    ("31", "OBA"),
    ("32", "JON"),
    ("33", "MIC"),
    ("34", "NAM"),
    ("35", "HAB"),
    ("36", "ZEP"),
    ("37", "HAG"),
    ("38", "ZEC"),
    ("39", "MAL"),
    ("41", "MAT"),
    ("42", "MRK"),
    ("43", "LUK"),
    ("44", "JHN"),
    ("45", "ACT"),
    ("46", "ROM"),
    ("47", "1CO"),
    ("48", "2CO"),
    ("49", "GAL"),
    ("50", "EPH"),
    ("51", "PHP"),
    ("52", "COL"),
    ("53", "1TH"),
    ("54", "2TH"),
    ("55", "1TI"),
    ("56", "2TI"),
    ("57", "TIT"),
    ("58", "PHM"),
    ("59", "HEB"),
    ("60", "JAS"),
    ("61", "1PE"),
    ("62", "2PE"),
    ("63", "1JN"),
    ("64", "2JN"),
    ("65", "3JN"),
    ("66", "JUD"),
    ("67", "REV"),
    ("68", "TOB"),
    ("69", "JDT"),
    ("70", "ESG"),
    ("71", "WIS"),
    ("72", "SIR"),
    ("73", "BAR"),
    ("74", "LJE"),
    ("75", "S3Y"),
    ("76", "SUS"),
    ("77", "BEL"),
    ("78", "1MA"),
    ("79", "2MA"),
    ("80", "3MA"),
    ("81", "4MA"),
    ("82", "1ES"),
    ("83", "2ES"),
    ("84", "MAN"),
    ("85", "PS2"),
    ("86", "ODA"),
    ("87", "PSS"),
    ("A0", "FRT"),
    ("A1", "BAK"),
    ("A2", "OTH"),
    ("A4", "EZA"),
    ("A5", "5EZ"),
    ("A6", "6EZ"),
    ("A7", "INT"),
    ("A8", "CNC"),
    ("A9", "GLO"),
    ("B0", "TDX"),
    ("B1", "NDX"),
    ("B2", "DAG"),
    ("B3", "PS3"),
    ("B4", "2BA"),
    ("B5", "LBA"),
    ("B6", "JUB"),
    ("B7", "ENO"),
    ("B8", "1MQ"),
    ("B9", "2MQ"),
    ("C0", "3MQ"),
    ("C1", "REP"),
    ("C2", "4BA"),
    ("C3", "LAO"),
];

// The number of a book, if it has one.
pub(crate) fn number_of(book: Book) -> Option<&'static str>
    ensures { option_map (λ n. n.now) result ≡ naming.number_of book }
{
    number_in(&NUMBERS, book)
}

// The number that a table has of a book, if it has one.
fn number_in(table: &[Numbered], book: Book) -> Option<&'static str>
    ensures { option_map (λ n. n.now) result
        ≡ naming.number_in (map naming.numbered_view table.now) book }
{
    let own = book.code();
    let mut left = table;
    'numbers: while let [(number, code), later @ ..] = left {
        if code.as_bytes() == own.as_slice() {
            return Some(number);
        }
        left = later;
    }
    None
}
