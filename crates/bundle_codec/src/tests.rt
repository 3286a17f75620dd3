mod joining;
mod summaries;
mod thinned;

use super::*;
use op_core::{Op, OpId, OpSet};
use std::alloc::{AllocError, Global};
use std::test::Fail;
use usfm_ref::{Key, Place};

// 1 ana on MAT 0, and 2 ana on MAT 1:1; neither names anything.
const B1: &[u8; 108] =
    b"USFMSR1\n\0\0\0\0\0\0\0\x02\0\0\0\0\0\0\0\x01\x03anaMAT\0\0\0\0\0\0\0\0\0\0\0\0\0\0\x01\0\0\0\0\0\0\0\x08\\id MAT\n\0\0\0\0\0\0\0\x02\x03anaMAT\0\x01\x01\0\x01\0\0\0\0\0\0\0\0\0\x01\0\0\0\0\0\0\0\x08\\v 1 In\n";

// 3 ben on MAT 1:1, naming 2 ana.
const Y: &[u8; 74] =
    b"USFMSR1\n\0\0\0\0\0\0\0\x01\0\0\0\0\0\0\0\x03\x03benMAT\0\x01\x01\0\x01\0\0\0\0\0\0\0\0\x01\0\0\0\0\0\0\0\x02\x03ana\x01\0\0\0\0\0\0\0\x08\\v 1 At\n";

// 3 ana on MAT 1:1, naming 2 ana.
const Z: &[u8; 74] =
    b"USFMSR1\n\0\0\0\0\0\0\0\x01\0\0\0\0\0\0\0\x03\x03anaMAT\0\x01\x01\0\x01\0\0\0\0\0\0\0\0\x01\0\0\0\0\0\0\0\x02\x03ana\x01\0\0\0\0\0\0\0\x08\\v 1 To\n";

// 2 ana on MAT 1:1, thinned, and 3 ben as in Y.
const V2: &[u8; 104] =
    b"USFMSR2\n\0\0\0\0\0\0\0\x02\0\0\0\0\0\0\0\x02\x03anaMAT\0\x01\x01\0\x01\0\0\0\0\0\0\0\0\0\0\0\0\0\0\0\0\0\x03\x03benMAT\0\x01\x01\0\x01\0\0\0\0\0\0\0\0\x01\0\0\0\0\0\0\0\x02\x03ana\x01\0\0\0\0\0\0\0\x08\\v 1 At\n";

const VERSE: Place = Place::Verse {
    number: 1,
    letter: None,
};

type Id<'a> = (u64, &'a str);

// The parts of an operation on MAT: its id, chapter, place, replaced ids and text, if it has one.
type Parts<'a> = (Id<'a>, u16, Place, Option<Id<'a>>, Option<&'a str>);

const ID: Parts<'static> = ((1, "ana"), 0, Place::Head, None, Some("\\id MAT\n"));

const IN: Parts<'static> = ((2, "ana"), 1, VERSE, None, Some("\\v 1 In\n"));

// What V2 has in its place.
const THINNED: Parts<'static> = ((2, "ana"), 1, VERSE, None, None);

const AT: Parts<'static> = ((3, "ben"), 1, VERSE, Some((2, "ana")), Some("\\v 1 At\n"));

const TO: Parts<'static> = ((3, "ana"), 1, VERSE, Some((2, "ana")), Some("\\v 1 To\n"));

fn is_id(id: OpId, want: Id<'_>) -> bool {
    id.number == want.0 && id.name.text() == want.1
}

// Whether the ids are the one that is expected, or none where none is.
fn are_named(mut named: ReplacedIds<'_>, want: Option<Id<'_>>) -> bool {
    match (named.next(), want) {
        (None, None) => true,
        (Some(id), Some(want)) => is_id(id, want) && named.next().is_none(),
        _ => false,
    }
}

fn is_view(view: &OpView<'_>, want: &Parts<'_>) -> bool {
    let (id, chapter, place, replaced, text) = *want;
    is_id(view.id(), id)
        && view.book().code() == *b"MAT"
        && Some(view.key()) == Key::new(chapter, place)
        && are_named(view.replaced(), replaced)
        && view.text() == text
}

fn is_op(op: &Op, want: &Parts<'_>) -> bool {
    let (id, chapter, place, replaced, text) = *want;
    is_id(op.id(), id)
        && op.book().code() == *b"MAT"
        && Some(op.key()) == Key::new(chapter, place)
        && op.replaced().len() == if replaced.is_some() { 1 } else { 0 }
        && op.text() == text
}

// The bytes with others written over them from a place on.
fn changed(alloc: Global, bytes: &[u8], at: usize, with: &[u8]) -> Result<Vec<u8>, AllocError> {
    let mut made = Vec::new(alloc);
    for (i, byte) in bytes.iter().enumerate() {
        let new = i.checked_sub(at).and_then(|k| with.get(k));
        made.push(*new.unwrap_or(byte))?;
    }
    Ok(made)
}

// Y, with these ids named.
fn naming(alloc: Global, named: &[Id<'_>]) -> Result<Vec<u8>, AllocError> {
    let mut made = Y[..37].to_vec(alloc)?;
    made.extend_from_slice(&(named.len() as u64).to_be_bytes())?;
    for (number, name) in named {
        made.extend_from_slice(&number.to_be_bytes())?;
        made.push((name.len() & 255) as u8)?;
        made.extend_from_slice(name.as_bytes())?;
    }
    made.extend_from_slice(Y.split_at(57).1)?;
    Ok(made)
}

// Whether the bundle of these bytes, whatever follows them, has these operations.
fn is_bundle(alloc: Global, bytes: &[u8], want: &[Parts<'_>]) -> Result<bool, Fail> {
    let mut longer = bytes.to_vec(alloc)?;
    longer.push(0)?;
    let (bundle, read) = decode(alloc, &longer)?;
    let mut same = read == bytes.len()
        && bundle.len() == want.len() as u64
        && bundle.is_empty() == want.is_empty();
    for (view, parts) in bundle.ops().zip(want) {
        same = same && is_view(&view, parts) && is_op(&view.to_op(alloc)?, parts);
    }
    Ok(same)
}

// What a view lends outlives the view and the bundle.
fn first_text(alloc: Global, bytes: &[u8]) -> Result<&str, Fail> {
    let (bundle, _) = decode(alloc, bytes)?;
    let view = bundle.ops().next().ok_or("no operation")?;
    Ok(view.text().ok_or("no text")?)
}

fn fault_of(alloc: Global, bytes: &[u8]) -> Option<BundleFault> {
    decode(alloc, bytes).err()
}

const VECTORS: &[(&[u8], &[Parts<'static>])] = &[
    (B1, &[ID, IN]),
    (Y, &[AT]),
    (Z, &[TO]),
    (V2, &[THINNED, AT]),
    (b"USFMSR1\n\0\0\0\0\0\0\0\0", &[]),
];

#[test]
fn vectors(rt: HostRuntime) -> Result<(), Fail> {
    for (bytes, ops) in VECTORS {
        assert!(rt; is_bundle(rt.alloc(), bytes, ops)?, "{} bytes", bytes.len());
    }
    assert_eq!(rt; decode(rt.alloc(), B1)?.1, 108);
    assert_eq!(rt; first_text(rt.alloc(), Y)?, "\\v 1 At\n");
    Ok(())
}

// The front of a bundle, and what each of its views says that it is spelled by.
fn spelled_again(alloc: Global, bytes: &[u8]) -> Result<Vec<u8>, Fail> {
    let (bundle, _) = decode(alloc, bytes)?;
    let Some(front) = bytes.get(..16) else {
        return Err(Fail::from("a bundle has a front"));
    };
    let mut spelled = front.to_vec(alloc)?;
    for view in bundle.ops() {
        spelled.extend_from_slice(view.spelled())?;
    }
    Ok(spelled)
}

#[test]
fn spelled_bytes(rt: HostRuntime) -> Result<(), Fail> {
    assert!(rt; spelled_again(rt.alloc(), B1)?.as_slice() == B1.as_slice());
    assert!(rt; spelled_again(rt.alloc(), V2)?.as_slice() == V2.as_slice());
    Ok(())
}

fn is_set(set: &OpSet, want: &[Parts<'_>]) -> bool {
    for (op, parts) in set.iter().zip(want) {
        if !is_op(op, parts) {
            return false;
        }
    }
    set.len() == want.len()
}

#[test]
fn set(rt: HostRuntime) -> Result<(), Fail> {
    let (bundle, _) = decode(rt.alloc(), B1)?;
    let set = bundle.to_set(rt.alloc())?;
    assert!(rt; is_set(&set, &[ID, IN]));
    let (bundle, _) = decode(rt.alloc(), V2)?;
    let set = bundle.to_set(rt.alloc())?;
    assert!(rt; is_set(&set, &[THINNED, AT]));
    Ok(())
}

const FRONTS: &[(&[u8], BundleFault)] = &[
    (b"USFMSR", BundleFault::Truncated),
    (b"USFMSR1", BundleFault::Truncated),
    (b"USFMX", BundleFault::Magic),
    (b"USFMSR2", BundleFault::Truncated),
    (b"USFMSR2\n", BundleFault::Truncated),
    (b"USFMSR3", BundleFault::Magic),
    (b"USFMSR2\r", BundleFault::Magic),
];

#[test]
fn every_front_is_cut(rt: HostRuntime) {
    for n in 0..108usize {
        let fault = fault_of(rt.alloc(), &B1[..n]);
        assert!(rt; fault == Some(BundleFault::Truncated), "{n}");
    }
    for n in 0..104usize {
        let fault = fault_of(rt.alloc(), &V2[..n]);
        assert!(rt; fault == Some(BundleFault::Truncated), "{n} of V2");
    }
    for (bytes, fault) in FRONTS {
        assert!(rt;
            fault_of(rt.alloc(), bytes) == Some(*fault),
            "{} bytes",
            bytes.len()
        );
    }
}

// What is written over B1 from a place on, and how many bytes are read of it then, or the fault.
const CHANGES: &[(usize, &[u8], Result<usize, BundleFault>)] = &[
    (0, &[0x54], Err(BundleFault::Magic)),
    (8, &[0xff; 8], Err(BundleFault::Truncated)),
    (15, &[3], Err(BundleFault::Truncated)),
    (15, &[1], Ok(62)),
    (23, &[0], Err(BundleFault::BadId(1))),
    (24, &[0], Err(BundleFault::BadId(1))),
    (24, &[0x21], Err(BundleFault::BadId(1))),
    (25, &[0x41], Err(BundleFault::BadId(1))),
    (28, &[0x6d], Err(BundleFault::BadKey(1))),
    (33, &[2], Err(BundleFault::BadKey(1))),
    (35, &[1], Err(BundleFault::BadKey(1))),
    (36, b"a", Err(BundleFault::BadKey(1))),
    (37, &[0x7f], Err(BundleFault::BadReplaced(1))),
    (45, &[2], Err(BundleFault::BadTag(1))),
    (45, &[0], Err(BundleFault::BadTag(1))),
    (46, &[0xff], Err(BundleFault::Truncated)),
    (53, &[9], Err(BundleFault::BadId(2))),
    (54, &[0xff], Err(BundleFault::NotUtf8(1))),
    (69, &[1], Err(BundleFault::NotRising(2))),
    // 10^15, and one more
    (62, &[0, 3, 0x8d, 0x7e, 0xa4, 0xc6, 0x80, 0], Ok(108)),
    (
        62,
        &[0, 3, 0x8d, 0x7e, 0xa4, 0xc6, 0x80, 1],
        Err(BundleFault::BadId(2)),
    ),
    // 999 and 1000
    (77, &[3, 0xe7], Ok(108)),
    (77, &[3, 0xe8], Err(BundleFault::BadKey(2))),
    (80, &[3, 0xe7], Err(BundleFault::BadText(2))),
    (80, &[3, 0xe8], Err(BundleFault::BadKey(2))),
    (82, b"z", Err(BundleFault::BadText(2))),
    (82, &[0x41], Err(BundleFault::BadKey(2))),
    (82, b"{", Err(BundleFault::BadKey(2))),
    (99, &[9], Err(BundleFault::Truncated)),
    (58, b"X", Err(BundleFault::BadText(1))),
    (103, b"2", Err(BundleFault::BadText(2))),
    (103, &[0xff], Err(BundleFault::NotUtf8(2))),
];

#[test]
fn bytes_are_changed(rt: HostRuntime) -> Result<(), Fail> {
    for (at, with, want) in CHANGES {
        let bytes = changed(rt.alloc(), B1, *at, with)?;
        let read = decode(rt.alloc(), &bytes).map(|found| found.1);
        assert!(rt; read == *want, "{at}");
    }
    Ok(())
}

const BAD: Option<BundleFault> = Some(BundleFault::BadReplaced(1));

const NAMED: &[(&[Id<'static>], Option<BundleFault>)] = &[
    (&[(1, "ben"), (2, "ana"), (2, "ben")], None),
    (&[(2, "ana"), (1, "ana")], BAD),
    (&[(2, "ben"), (2, "ana")], BAD),
    (&[(2, "ana"), (2, "ana")], BAD),
    (&[(3, "ana")], BAD),
    (&[(3, "ben")], BAD),
    (&[(0, "ana")], BAD),
    (&[(2, "Ana")], BAD),
    (&[(2, "")], BAD),
];

#[test]
fn named_ids(rt: HostRuntime) -> Result<(), Fail> {
    for (row, (named, want)) in NAMED.iter().enumerate() {
        let bytes = naming(rt.alloc(), named)?;
        assert!(rt; fault_of(rt.alloc(), &bytes) == *want, "row {row}");
    }
    Ok(())
}

// An operation that names its own number is refused once the name was read.
#[test]
fn own_number_is_named(rt: HostRuntime) {
    let mut own = *Y;
    own[52] = 3;
    let cut = fault_of(rt.alloc(), &own[..56]);
    assert!(rt; cut == Some(BundleFault::Truncated));
    assert!(rt; fault_of(rt.alloc(), &own[..57]) == BAD);
}
