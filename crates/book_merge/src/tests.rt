// Merges worked by hand.
use crate::{MergeFault, MergedFile, merge, same_wording};
use conflict_report::report_text;
use std::alloc::Global;
use std::test::Fail;
use usfm_export::book_text;
use verse_cut::BookFault;

const BASE: &str = "\\id MAT\n\\c 1\n\\v 1 a\n\\v 2 b\n\\v 3 c\n";

#[test]
fn a_conflict_has_ours(rt: HostRuntime) -> Result<(), Fail> {
    let alloc = rt.alloc();
    // OURS has fewer edits, and yet the greatest number.
    let ours = "\\id MAT\n\\c 1\n\\v 1 a\n\\v 2 b\n\\v 3 one\n";
    let theirs = "\\id MAT x\n\\c 1\n\\v 1 A\n\\v 2 B\n\\v 3 many\n";
    let text = "\\id MAT x\n\\c 1\n\\v 1 A\n\\v 2 B\n\\v 3 one\n";
    let told = "conflict MAT 1:3 2\ntext 10 ours 9\n\\v 3 one\n\ntext 9 theirs 10\n\\v 3 many\n\n";
    let m = merge(alloc, BASE, ours, theirs)?;
    assert_eq!(rt;
        book_text(alloc, &m.replica, m.book)?.as_slice(),
        text.as_bytes()
    );
    assert_eq!(rt; report_text(alloc, &m.replica)?.as_slice(), told.as_bytes());
    Ok(())
}

#[test]
fn blanks_give_way(rt: HostRuntime) -> Result<(), Fail> {
    let alloc = rt.alloc();
    // OURS has other line ends, a mark at the front, and blanks at the ends of lines.
    let ours = "\u{FEFF}\\id MAT\r\n\\c 1\r\n\\v 1 a  \r\n\\v 2 b\t\r\n\\v 3 c";
    let theirs = "\\id MAT\n\\c 1\n\\v 1 A\n\\v 2 b\n\\v 3 C\n";
    let text = "\u{FEFF}\\id MAT\r\n\\c 1\r\n\\v 1 A\n\\v 2 b\t\r\n\\v 3 C\n";
    let m = merge(alloc, BASE, ours, theirs)?;
    assert_eq!(rt;
        book_text(alloc, &m.replica, m.book)?.as_slice(),
        text.as_bytes()
    );
    assert!(rt; report_text(alloc, &m.replica)?.is_empty());
    Ok(())
}

fn fault(alloc: Global, base: &str, ours: &str, theirs: &str) -> Option<MergeFault> {
    merge(alloc, base, ours, theirs).err()
}

#[test]
fn what_is_refused(rt: HostRuntime) -> Result<(), Fail> {
    let alloc = rt.alloc();
    let no_id = BookFault::NoId;
    let base = Some(MergeFault::BadFile(MergedFile::Base, no_id));
    let ours = Some(MergeFault::BadFile(MergedFile::Ours, no_id));
    let theirs = Some(MergeFault::BadFile(MergedFile::Theirs, BookFault::BadBook));
    assert!(rt; fault(alloc, "", "", "") == base);
    assert!(rt; fault(alloc, BASE, "\\c 1\n", "") == ours);
    assert!(rt; fault(alloc, BASE, "\\id MRK\n", "\\id mrk\n") == theirs);
    let other = Some(MergeFault::OtherBook(MergedFile::Ours));
    assert!(rt; fault(alloc, BASE, "\\id MRK\n", "\\id LUK\n") == other);
    let other = Some(MergeFault::OtherBook(MergedFile::Theirs));
    assert!(rt; fault(alloc, BASE, BASE, "\\id LUK\n") == other);
    assert!(rt; fault(alloc, BASE, BASE, BASE).is_none());
    Ok(())
}

#[test]
fn wordings(rt: HostRuntime) -> Result<(), Fail> {
    let alloc = rt.alloc();
    let one = "\\v 1 a b\n\\p c\n";
    assert!(rt; same_wording(alloc, one, "\u{FEFF}\\v 1 a b \t\r\n\\p c")?);
    assert!(rt; same_wording(alloc, one, "\\v 1 a b\n\\p c \n\n \n")?);
    assert!(rt; !same_wording(alloc, one, "\\v 1 a  b\n\\p c\n")?);
    assert!(rt; !same_wording(alloc, one, "\\v 1 a b\n\n\\p c\n")?);
    assert!(rt; !same_wording(alloc, one, "\\v 1 a b\n \\p c\n")?);
    assert!(rt; !same_wording(alloc, one, "\\v 1 a b\n\\p c\u{FEFF}\n")?);
    assert!(rt; same_wording(alloc, " \r\n", "")?);
    Ok(())
}
