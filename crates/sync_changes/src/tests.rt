// What syncs say, worked out by hand.
use crate::{FileEdits, SyncChanges, push_changes, sync_changes};
use bundle_codec::{Summary, decode, join_bundles};
use op_core::ReplicaName;
use std::alloc::Global;
use std::process::Abort;
use std::test::Fail;
use usfm_ref::{Segment, read_ref};

// No operation.
const NONE: &[u8] = b"USFMSR1\n\0\0\0\0\0\0\0\0";

// 1 ana on MAT 0.
const HEAD: [u8; 62] =
    *b"USFMSR1\n\0\0\0\0\0\0\0\x01\0\0\0\0\0\0\0\x01\x03anaMAT\0\0\0\0\0\0\0\0\0\0\0\0\0\0\x01\0\0\0\0\0\0\0\x08\\id MAT\n";

// The same, and 2 ana on MAT 1:1; neither names anything.
const TWO: [u8; 108] =
    *b"USFMSR1\n\0\0\0\0\0\0\0\x02\0\0\0\0\0\0\0\x01\x03anaMAT\0\0\0\0\0\0\0\0\0\0\0\0\0\0\x01\0\0\0\0\0\0\0\x08\\id MAT\n\0\0\0\0\0\0\0\x02\x03anaMAT\0\x01\x01\0\x01\0\0\0\0\0\0\0\0\0\x01\0\0\0\0\0\0\0\x08\\v 1 In\n";

// 3 ben on MAT 1:1, naming 2 ana.
const AT: [u8; 74] =
    *b"USFMSR1\n\0\0\0\0\0\0\0\x01\0\0\0\0\0\0\0\x03\x03benMAT\0\x01\x01\0\x01\0\0\0\0\0\0\0\0\x01\0\0\0\0\0\0\0\x02\x03ana\x01\0\0\0\0\0\0\0\x08\\v 1 At\n";

// The same with no text.
const GONE: [u8; 66] =
    *b"USFMSR1\n\0\0\0\0\0\0\0\x01\0\0\0\0\0\0\0\x03\x03benMAT\0\x01\x01\0\x01\0\0\0\0\0\0\0\0\x01\0\0\0\0\0\0\0\x02\x03ana\x01\0\0\0\0\0\0\0\0";

// 3 ana on MAT 1:1, naming 2 ana, with its text.
const AGAIN: [u8; 74] =
    *b"USFMSR1\n\0\0\0\0\0\0\0\x01\0\0\0\0\0\0\0\x03\x03anaMAT\0\x01\x01\0\x01\0\0\0\0\0\0\0\0\x01\0\0\0\0\0\0\0\x02\x03ana\x01\0\0\0\0\0\0\0\x08\\v 1 In\n";

// What a sync says of the project that it leaves, where the files of `ben` made the edits that are
// numbered above a number, and the files were written from a base.
fn assert_told(
    rt: &impl Abort,
    alloc: Global,
    after: &[u8],
    before: &[u8],
    above: u64,
    base: &[u8],
    older: &[u8],
    text: &[u8],
) -> Result<(), Fail> {
    let files = FileEdits {
        name: ReplicaName::read("ben")?,
        above,
    };
    let (before, _) = decode(alloc, before)?;
    let known = Summary::of_bundle(alloc, &before)?;
    let (after, _) = decode(alloc, after)?;
    let (base, _) = decode(alloc, base)?;
    let (older, _) = decode(alloc, older)?;
    let told = sync_changes(alloc, &after, &known, &files, &base, &[older])?;
    let mut lines = Vec::new(alloc);
    push_changes(alloc, &told, &mut lines)?;
    assert_eq!(rt; lines.as_slice(), text);
    Ok(())
}

#[test]
fn what_came_in(rt: HostRuntime) -> Result<(), Fail> {
    let alloc = rt.alloc();
    // 3 ben came in, made by another copy's files: none of the numbers is above 9.
    let all = join_bundles(alloc, &TWO, &AT)?;
    assert_told(
        &rt,
        alloc,
        &all,
        &TWO,
        9,
        &TWO,
        &HEAD,
        b"came MAT 1:1 ben\n",
    )?;
    // 3 ana shows the same text as 2 ana.
    let same = join_bundles(alloc, &TWO, &AGAIN)?;
    assert_told(&rt, alloc, &same, &TWO, 9, &TWO, &HEAD, b"")?;
    // Nothing was known.
    let first = b"came MAT 0 ana\ncame MAT 1:1 ana\n";
    assert_told(&rt, alloc, &TWO, NONE, 9, NONE, NONE, first)
}

#[test]
fn what_the_files_did(rt: HostRuntime) -> Result<(), Fail> {
    let alloc = rt.alloc();
    let all = join_bundles(alloc, &TWO, &AT)?;
    // The older base has MAT, and not yet 2 ana; one without MAT says nothing.
    let told = b"replaced MAT 1:1 ana\n";
    assert_told(&rt, alloc, &all, &TWO, 2, &TWO, &HEAD, told)?;
    assert_told(&rt, alloc, &all, &TWO, 2, &TWO, NONE, b"")?;
    assert_told(&rt, alloc, &all, &TWO, 2, &TWO, &TWO, b"")?;
    // The files took a text away.
    let gone = join_bundles(alloc, &TWO, &GONE)?;
    assert_told(&rt, alloc, &gone, &TWO, 2, &TWO, &TWO, b"removed MAT 1:1\n")
}

#[test]
fn twenty_lines_and_how_many_more(rt: HostRuntime) -> Result<(), Fail> {
    let alloc = rt.alloc();
    let (book, key) = read_ref("MAT 1:1")?;
    let mut told = SyncChanges {
        came: Vec::new(alloc),
        removed: Vec::new(alloc),
        replaced: Vec::new(alloc),
    };
    let mut wanted = Vec::new(alloc);
    for _ in 0..20 {
        told.removed.push(Segment { book, key })?;
        wanted.extend_from_slice(b"removed MAT 1:1\n")?;
    }
    let mut lines = Vec::new(alloc);
    push_changes(alloc, &told, &mut lines)?;
    assert_eq!(rt; lines.as_slice(), wanted.as_slice());
    told.removed.push(Segment { book, key })?;
    wanted.extend_from_slice(b".. and 1 more\n")?;
    lines.clear();
    push_changes(alloc, &told, &mut lines)?;
    assert_eq!(rt; lines.as_slice(), wanted.as_slice());
    Ok(())
}
