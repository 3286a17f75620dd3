// Files of merges, worked by hand.
use crate::{Marking, merged_file};
use book_merge::merge;
use std::test::Fail;

const BASE: &str = "\\id MAT\n\\c 1\n\\v 1 a\n\\v 2 b\n\\v 3 c\n";

#[test]
fn in_the_manner_of_ours(rt: HostRuntime) -> Result<(), Fail> {
    let alloc = rt.alloc();
    let words = "\\id MAT\n\\c 1\n\\v 1 A\n\\v 2 b\n\\v 3 c\n";
    let ends = "\u{FEFF}\\id MAT\r\n\\c 1\r\n\\v 1 a\r\n\\v 2 b\r\n\\v 3 C\r\n";
    let both = "\u{FEFF}\\id MAT\r\n\\c 1\r\n\\v 1 A\r\n\\v 2 b\r\n\\v 3 C\r\n";
    let merged = merge(alloc, BASE, ends, words)?;
    let file = merged_file(alloc, &merged, ends, Marking::Plain)?;
    assert_eq!(rt; file.as_bytes(), both.as_bytes());
    let both = "\\id MAT\n\\c 1\n\\v 1 A\n\\v 2 b\n\\v 3 C\n";
    let merged = merge(alloc, BASE, words, ends)?;
    let file = merged_file(alloc, &merged, words, Marking::Remarked)?;
    assert_eq!(rt; file.as_bytes(), both.as_bytes());
    Ok(())
}

#[test]
fn remarks_of_a_conflict(rt: HostRuntime) -> Result<(), Fail> {
    let alloc = rt.alloc();
    let ours = "\\id MAT\n\\c 1\n\\v 1 A\n\\v 2 b\n\\v 3 x";
    let theirs = "\\id MAT\n\\c 1\n\\v 1 a\n\\v 3 y\n\\q z \\nd w\\nd*\n";
    let marked =
        "\\id MAT\n\\c 1\n\\v 1 A\n\\v 3 x\n\\rem conflict MAT 1:3 theirs: /v 3 y\n\\rem conflict MAT 1:3 theirs: /q z /nd w/nd*\n";
    let merged = merge(alloc, BASE, ours, theirs)?;
    let file = merged_file(alloc, &merged, ours, Marking::Remarked)?;
    assert_eq!(rt; file.as_bytes(), marked.as_bytes());
    Ok(())
}
