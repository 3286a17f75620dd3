// The worked rows of histories.
use crate::{
    LeftOut, Named, RestoreFault, RestoredText, changes, changes_in, changes_text, has_books,
    history_text, left_out, named_segments, restored_id, restored_since,
};
use bundle_codec::{Summary, decode, join_bundles};
use op_core::OpId;
use std::alloc::Global;
use std::process::Abort;
use std::test::Fail;
use usfm_ref::{Book, Segment, read_ref};

// 1 ana on MAT 0, and 2 ana on MAT 1:1; neither names anything.
const B1: [u8; 108] =
    *b"USFMSR1\n\0\0\0\0\0\0\0\x02\0\0\0\0\0\0\0\x01\x03anaMAT\0\0\0\0\0\0\0\0\0\0\0\0\0\0\x01\0\0\0\0\0\0\0\x08\\id MAT\n\0\0\0\0\0\0\0\x02\x03anaMAT\0\x01\x01\0\x01\0\0\0\0\0\0\0\0\0\x01\0\0\0\0\0\0\0\x08\\v 1 In\n";

// 3 ben on MAT 1:1, naming 2 ana.
const Y: [u8; 74] =
    *b"USFMSR1\n\0\0\0\0\0\0\0\x01\0\0\0\0\0\0\0\x03\x03benMAT\0\x01\x01\0\x01\0\0\0\0\0\0\0\0\x01\0\0\0\0\0\0\0\x02\x03ana\x01\0\0\0\0\0\0\0\x08\\v 1 At\n";

// 3 ana on MAT 1:1, naming 2 ana.
const Z: [u8; 74] =
    *b"USFMSR1\n\0\0\0\0\0\0\0\x01\0\0\0\0\0\0\0\x03\x03anaMAT\0\x01\x01\0\x01\0\0\0\0\0\0\0\0\x01\0\0\0\0\0\0\0\x02\x03ana\x01\0\0\0\0\0\0\0\x08\\v 1 To\n";

// 2 ana on MAT 1:1, thinned, and 3 ben on it as in Y.
const V2: [u8; 104] =
    *b"USFMSR2\n\0\0\0\0\0\0\0\x02\0\0\0\0\0\0\0\x02\x03anaMAT\0\x01\x01\0\x01\0\0\0\0\0\0\0\0\0\0\0\0\0\0\0\0\0\x03\x03benMAT\0\x01\x01\0\x01\0\0\0\0\0\0\0\0\x01\0\0\0\0\0\0\0\x02\x03ana\x01\0\0\0\0\0\0\0\x08\\v 1 At\n";

// 4 ana on MAT 1:1, naming 3 ben.
const W: [u8; 74] =
    *b"USFMSR1\n\0\0\0\0\0\0\0\x01\0\0\0\0\0\0\0\x04\x03anaMAT\0\x01\x01\0\x01\0\0\0\0\0\0\0\0\x01\0\0\0\0\0\0\0\x03\x03ben\x01\0\0\0\0\0\0\0\x08\\v 1 To\n";

// No operation.
const NONE: &[u8] = b"USFMSR1\n\0\0\0\0\0\0\0\0";

fn assert_history(rt: &impl Abort, alloc: Global, bundle: &[u8], text: &[u8]) -> Result<(), Fail> {
    let (bundle, _) = decode(alloc, bundle)?;
    let (book, key) = read_ref("MAT 1:1")?;
    let told = history_text(alloc, &bundle, &[Segment { book, key }])?;
    assert_eq!(rt; told.as_slice(), text);
    Ok(())
}

#[test]
fn two_replace_one(rt: HostRuntime) -> Result<(), Fail> {
    let alloc = rt.alloc();
    let both = join_bundles(alloc, &Y, &Z)?;
    let all = join_bundles(alloc, &B1, &both)?;
    assert_history(
        &rt,
        alloc,
        &all,
        b"history MAT 1:1 3\nop 3 ben 8 shown\n\\v 1 At\n\nop 3 ana 8 shown\n\\v 1 To\n\nop 2 ana 8 replaced 3:ana 3:ben\n\\v 1 In\n\n",
    )
}

#[test]
fn awaited_and_thinned(rt: HostRuntime) -> Result<(), Fail> {
    let alloc = rt.alloc();
    assert_history(
        &rt,
        alloc,
        &Y,
        b"history MAT 1:1 2\nop 3 ben 8 shown\n\\v 1 At\n\nawaited 2 ana replaced 3:ben\n",
    )?;
    assert_history(
        &rt,
        alloc,
        &V2,
        b"history MAT 1:1 2\nop 3 ben 8 shown\n\\v 1 At\n\nop 2 ana thinned 3:ben\n",
    )
}

#[test]
fn nothing_is_held(rt: HostRuntime) -> Result<(), Fail> {
    let alloc = rt.alloc();
    assert_history(&rt, alloc, NONE, b"history MAT 1:1 0\n")
}

fn assert_changes(
    rt: &impl Abort,
    alloc: Global,
    bundle: &[u8],
    before: &[u8],
    text: &[u8],
) -> Result<(), Fail> {
    let (before, _) = decode(alloc, before)?;
    let known = Summary::of_bundle(alloc, &before)?;
    let (bundle, _) = decode(alloc, bundle)?;
    let told = changes_text(alloc, &changes(alloc, &bundle, &known)?, true)?;
    assert_eq!(rt; told.as_slice(), text);
    Ok(())
}

#[test]
fn two_came(rt: HostRuntime) -> Result<(), Fail> {
    let alloc = rt.alloc();
    let both = join_bundles(alloc, &Y, &Z)?;
    let all = join_bundles(alloc, &B1, &both)?;
    assert_changes(
        &rt,
        alloc,
        &all,
        &B1,
        b"changed MAT 1:1 ana ben\nwas 2 ana 8\n\\v 1 In\n\nis 3 ben 8\n\\v 1 At\n\nis 3 ana 8\n\\v 1 To\n\n",
    )?;
    assert_changes(&rt, alloc, &all, &all, b"")?;
    assert_changes(
        &rt,
        alloc,
        &B1,
        NONE,
        b"changed MAT 0 ana\nis 1 ana 8\n\\id MAT\n\nchanged MAT 1:1 ana\nis 2 ana 8\n\\v 1 In\n\n",
    )?;
    assert_changes(
        &rt,
        alloc,
        &V2,
        &B1,
        b"changed MAT 1:1 ben\nwas 2 ana thinned\nis 3 ben 8\n\\v 1 At\n\n",
    )
}

// Whether these are edits that give a text in the place of one operation.
fn gives(edits: &[RestoredText<'_>], text: &str) -> bool {
    match edits {
        [edit] => edit.text.as_bytes() == text.as_bytes() && edit.ids.len() == 1,
        _ => false,
    }
}

#[test]
fn a_text_is_had_back(rt: HostRuntime) -> Result<(), Fail> {
    let alloc = rt.alloc();
    let all = join_bundles(alloc, &B1, &Y)?;
    let (before, _) = decode(alloc, &B1)?;
    let known = Summary::of_bundle(alloc, &before)?;
    let (bundle, _) = decode(alloc, &all)?;
    let (book, key) = read_ref("MAT 1:1")?;
    let segments = [Segment { book, key }];
    let edits = restored_since(alloc, &bundle, &known, &segments)?;
    assert!(rt; gives(&edits, "\\v 1 In\n"));
    let own = Summary::of_bundle(alloc, &bundle)?;
    assert_eq!(rt; restored_since(alloc, &bundle, &own, &segments)?.len(), 0);
    let (thinned, _) = decode(alloc, &V2)?;
    let refused = restored_since(alloc, &thinned, &known, &segments);
    assert!(rt; matches!(refused, Err(RestoreFault::LeftOut(_))));
    Ok(())
}

#[test]
fn a_text_is_had_back_by_its_id(rt: HostRuntime) -> Result<(), Fail> {
    let alloc = rt.alloc();
    let all = join_bundles(alloc, &B1, &Y)?;
    let (bundle, _) = decode(alloc, &all)?;
    let edits = restored_id(alloc, &bundle, OpId::read("2:ana")?)?;
    assert!(rt; gives(&edits, "\\v 1 In\n"));
    assert_eq!(rt; restored_id(alloc, &bundle, OpId::read("3:ben")?)?.len(), 0);
    let unheld = restored_id(alloc, &bundle, OpId::read("3:ana")?);
    assert!(rt; matches!(unheld, Err(RestoreFault::NotHeld(_))));
    let (thinned, _) = decode(alloc, &V2)?;
    let left_out = restored_id(alloc, &thinned, OpId::read("2:ana")?);
    assert!(rt; matches!(left_out, Err(RestoreFault::LeftOut(_))));
    Ok(())
}

#[test]
fn segments_are_named(rt: HostRuntime) -> Result<(), Fail> {
    let alloc = rt.alloc();
    let (bundle, _) = decode(alloc, &B1)?;
    let book = Book::read("MAT")?;
    let (_, key) = read_ref("MAT 1:2")?;
    let other = Book::read("MRK")?;
    let names = [Named::Chapter(book, 1), Named::One(Segment { book, key })];
    assert_eq!(rt; named_segments(alloc, &bundle, &names)?.len(), 2);
    assert_eq!(rt;
        named_segments(alloc, &bundle, &[Named::Whole(book)])?.len(),
        2
    );
    assert_eq!(rt;
        named_segments(alloc, &bundle, &[Named::Whole(other)])?.len(),
        0
    );
    assert!(rt; has_books(&bundle, &names));
    assert!(rt; !has_books(&bundle, &[Named::Whole(other)]));
    let (none, _) = decode(alloc, NONE)?;
    let known = Summary::of_bundle(alloc, &none)?;
    let changed = changes_in(alloc, &bundle, &known, &[Named::Chapter(book, 0)])?;
    let text = changes_text(alloc, &changed, false)?;
    assert_eq!(rt; text.as_slice(), b"changed MAT 0 ana\n".as_slice());
    Ok(())
}

#[test]
fn what_thinning_leaves_out(rt: HostRuntime) -> Result<(), Fail> {
    let alloc = rt.alloc();
    // 2 ana and 3 ben, both of MAT 1:1.
    let three = join_bundles(alloc, &B1, &Y)?;
    let all = join_bundles(alloc, &three, &W)?;
    assert_left_out(&rt, alloc, &all, 2, 1)?;
    // The text of 2 ana is left out already.
    assert_left_out(&rt, alloc, &V2, 0, 0)?;
    assert_left_out(&rt, alloc, &B1, 0, 0)?;
    assert_left_out(&rt, alloc, NONE, 0, 0)
}

// How many texts thinning leaves out, and of how many segments.
fn assert_left_out(
    rt: &impl Abort,
    alloc: Global,
    bundle: &[u8],
    texts: usize,
    segments: usize,
) -> Result<(), Fail> {
    let (bundle, _) = decode(alloc, bundle)?;
    assert_eq!(rt; left_out(alloc, &bundle)?, LeftOut { texts, segments });
    Ok(())
}
