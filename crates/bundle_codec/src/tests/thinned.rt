// Bundles with thinned operations: read, joined, and what lies outside a summary.
use super::{B1, V2, Y, Z, changed};
use crate::{
    BundleFault, JoinFault, Summary, WholeFault, decode, decode_whole, encode, encode_outside,
    join_bundles,
};
use op_core::OpId;
use std::alloc::{AllocError, Global};
use std::test::Fail;

// 2 ana on MAT 1:1 with another text than in B1.
const OTHER_TEXT: &[u8] =
    b"USFMSR1\n\0\0\0\0\0\0\0\x01\0\0\0\0\0\0\0\x02\x03anaMAT\0\x01\x01\0\x01\0\0\0\0\0\0\0\0\0\x01\0\0\0\0\0\0\0\x08\\v 1 Xx\n";

// 2 ana on MAT 1:3.
const OTHER_KEY: &[u8] =
    b"USFMSR1\n\0\0\0\0\0\0\0\x01\0\0\0\0\0\0\0\x02\x03anaMAT\0\x01\x01\0\x03\0\0\0\0\0\0\0\0\0\x01\0\0\0\0\0\0\0\x07\\v 3 x\n";

// ana, 1 to 3 and 5.
const S1: &[u8] =
    b"USFMSS1\n\0\0\0\0\0\0\0\x01\x03ana\0\0\0\0\0\0\0\x02\0\0\0\0\0\0\0\x01\0\0\0\0\0\0\0\x03\0\0\0\0\0\0\0\x05\0\0\0\0\0\0\0\x05";

// ana, 1 and 3; ben, 3.
const WITHOUT_2_ANA: &[u8] =
    b"USFMSS1\n\0\0\0\0\0\0\0\x02\x03ana\0\0\0\0\0\0\0\x02\0\0\0\0\0\0\0\x01\0\0\0\0\0\0\0\x01\0\0\0\0\0\0\0\x03\0\0\0\0\0\0\0\x03\x03ben\0\0\0\0\0\0\0\x01\0\0\0\0\0\0\0\x03\0\0\0\0\0\0\0\x03";

// ana, 1 to 2; ben, 3.
const WITHOUT_3_ANA: &[u8] =
    b"USFMSS1\n\0\0\0\0\0\0\0\x02\x03ana\0\0\0\0\0\0\0\x01\0\0\0\0\0\0\0\x01\0\0\0\0\0\0\0\x02\x03ben\0\0\0\0\0\0\0\x01\0\0\0\0\0\0\0\x03\0\0\0\0\0\0\0\x03";

fn joined(alloc: Global, parts: &[&[u8]]) -> Result<Vec<u8>, AllocError> {
    let mut bytes = Vec::new(alloc);
    for part in parts {
        bytes.extend_from_slice(part)?;
    }
    Ok(bytes)
}

// V2 without 3 ben.
fn unnamed(alloc: Global) -> Result<Vec<u8>, AllocError> {
    changed(alloc, &V2[..46], 15, &[1])
}

fn fault_of(alloc: Global, bytes: &[u8]) -> Option<BundleFault> {
    decode(alloc, bytes).err()
}

#[test]
fn nothing_names_it(rt: HostRuntime) -> Result<(), Fail> {
    let alloc = rt.alloc();
    let mut alone = unnamed(alloc)?;
    assert!(rt; fault_of(alloc, &alone) == Some(BundleFault::Unsupported(1)));
    alone.push(0)?;
    let whole = decode_whole(alloc, &alone).err();
    assert!(rt; whole == Some(WholeFault::Bundle(BundleFault::Unsupported(1))));
    // 3 ben on MAT 1:2
    let elsewhere = changed(alloc, &V2[..103], 65, &[2])?;
    let elsewhere = changed(alloc, &elsewhere, 95, b"\x07\\v 2 b\n")?;
    assert!(rt; fault_of(alloc, &elsewhere) == Some(BundleFault::Unsupported(1)));
    Ok(())
}

// What is written over V2 from a place on, and the fault.
const CHANGES: &[(usize, &[u8], BundleFault)] = &[
    (6, b"1", BundleFault::BadTag(1)),
    (45, &[2], BundleFault::BadTag(1)),
    // Nothing names 2 ana on MAT 1:1, and the text of 3 ben does not fit MAT 1:2.
    (65, &[2], BundleFault::BadText(2)),
];

#[test]
fn formats_are_told_apart(rt: HostRuntime) -> Result<(), Fail> {
    let alloc = rt.alloc();
    for (at, with, fault) in CHANGES {
        let bytes = changed(alloc, V2, *at, with)?;
        assert!(rt; fault_of(alloc, &bytes) == Some(*fault), "{at}");
    }
    let full = changed(alloc, B1, 6, b"2")?;
    assert!(rt; fault_of(alloc, &full) == Some(BundleFault::Unsupported(0)));
    Ok(())
}

// Whether both join to these bytes, whichever comes first.
fn join_to(alloc: Global, first: &[u8], second: &[u8], want: &[u8]) -> Result<bool, Fail> {
    let one = join_bundles(alloc, first, second)?;
    let other = join_bundles(alloc, second, first)?;
    Ok(one.as_slice() == want && other.as_slice() == want)
}

#[test]
fn full_and_thinned_are_joined(rt: HostRuntime) -> Result<(), Fail> {
    let alloc = rt.alloc();
    let (full, thinned) = (B1.as_slice(), V2.as_slice());
    let both = joined(
        alloc,
        &[&thinned[..15], &[3], &full[16..62], &thinned[16..]],
    )?;
    assert_eq!(rt; both.len(), 150);
    assert!(rt; join_to(alloc, B1, V2, &both)?);
    assert!(rt; join_to(alloc, V2, V2, V2)?);
    assert!(rt; join_to(alloc, OTHER_TEXT, V2, V2)?);
    let summary = Summary::of_bundle(alloc, &decode_whole(alloc, &both)?)?;
    assert!(rt; summary.write(alloc)?.as_slice() == WITHOUT_3_ANA);
    Ok(())
}

#[test]
fn thinned_clashes_at_another_key(rt: HostRuntime) -> Result<(), Fail> {
    let clash = Some(JoinFault::Clash(OpId::read("2:ana")?));
    assert!(rt; join_bundles(rt.alloc(), OTHER_KEY, V2).err() == clash);
    assert!(rt; join_bundles(rt.alloc(), V2, OTHER_KEY).err() == clash);
    let alone = unnamed(rt.alloc())?;
    let fault = WholeFault::Bundle(BundleFault::Unsupported(1));
    assert!(rt; join_bundles(rt.alloc(), B1, &alone).err() == Some(JoinFault::Bundle(fault)));
    Ok(())
}

// The project of B1, Y and Z, thinned: 1 ana, 2 ana without its text, 3 ana and 3 ben.
fn of_three_texts(alloc: Global) -> Result<Vec<u8>, AllocError> {
    let (full, thinned, last) = (B1.as_slice(), V2.as_slice(), Z.as_slice());
    joined(
        alloc,
        &[
            &thinned[..15],
            &[4],
            &full[16..62],
            &thinned[16..46],
            &last[16..],
            &thinned[46..],
        ],
    )
}

fn is_outside(alloc: Global, summary: &[u8], want: &[u8]) -> Result<bool, Fail> {
    let bytes = of_three_texts(alloc)?;
    let bundle = decode_whole(alloc, &bytes)?;
    let set = bundle.to_set(alloc)?;
    let summary = Summary::read(alloc, summary)?;
    let same = encode(alloc, &set)?.as_slice() == bytes.as_slice();
    let of_set = encode_outside(alloc, &set, &summary)?;
    let of_bundle = bundle.outside(alloc, &summary)?;
    Ok(same && of_set.as_slice() == want && of_bundle.as_slice() == want)
}

#[test]
fn thinned_lie_outside(rt: HostRuntime) -> Result<(), Fail> {
    let alloc = rt.alloc();
    assert_eq!(rt; of_three_texts(alloc)?.len(), 208);
    let (thinned, last) = (V2.as_slice(), Z.as_slice());
    let parts: &[&[u8]] = &[
        &thinned[..15],
        &[3],
        &thinned[16..46],
        &last[16..],
        &thinned[46..],
    ];
    let segment = joined(alloc, parts)?;
    assert_eq!(rt; segment.len(), 162);
    assert!(rt; is_outside(alloc, WITHOUT_2_ANA, &segment)?);
    assert!(rt; is_outside(alloc, S1, Y)?);
    assert!(rt; is_outside(alloc, WITHOUT_3_ANA, Z)?);
    Ok(())
}

const NO_OPERATION: &[u8] = b"USFMSR1\n\0\0\0\0\0\0\0\0";

// The project of B1, Y and Z, with all texts.
fn with_three_texts(alloc: Global) -> Result<Vec<u8>, AllocError> {
    let (full, last, other) = (B1.as_slice(), Z.as_slice(), Y.as_slice());
    joined(
        alloc,
        &[&full[..15], &[4], &full[16..], &last[16..], &other[16..]],
    )
}

// B1, and 3 ben on MAT 1:2, naming 2 ana.
fn named_elsewhere(alloc: Global) -> Result<Vec<u8>, AllocError> {
    let (full, other) = (B1.as_slice(), Y.as_slice());
    joined(
        alloc,
        &[
            &full[..15],
            &[3],
            &full[16..],
            &other[16..35],
            &[2],
            &other[36..66],
            b"\\v 2 At\n",
        ],
    )
}

// Whether the bundle is thinned to this one, after other bytes, and leaves this many texts out.
fn thins_to(alloc: Global, bytes: &[u8], want: &[u8], count: u64) -> Result<bool, Fail> {
    let front = b"front".to_vec(alloc)?;
    let (made, left_out) = decode_whole(alloc, bytes)?.thin_after(alloc, front)?;
    Ok(made.as_slice() == joined(alloc, &[b"front", want])?.as_slice() && left_out == count)
}

#[test]
fn bundles_are_thinned(rt: HostRuntime) -> Result<(), Fail> {
    let alloc = rt.alloc();
    let thinned = of_three_texts(alloc)?;
    assert!(rt; thins_to(alloc, &with_three_texts(alloc)?, &thinned, 1)?);
    assert!(rt; thins_to(alloc, &thinned, &thinned, 0)?);
    let elsewhere = named_elsewhere(alloc)?;
    assert!(rt; thins_to(alloc, &elsewhere, &elsewhere, 0)?);
    assert!(rt; thins_to(alloc, B1, B1, 0)?);
    assert!(rt; thins_to(alloc, NO_OPERATION, NO_OPERATION, 0)?);
    Ok(())
}
