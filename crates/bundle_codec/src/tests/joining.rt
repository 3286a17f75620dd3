// Whole bundles, sets written as bundles, and bundles joined.
use super::{B1, Y, changed};
use crate::{BundleFault, JoinFault, WholeFault, decode, decode_whole, encode, join_bundles};
use op_core::OpId;
use std::alloc::Global;
use std::test::Fail;

// 1 cy on MAT 1, 1 dan on MAT 1:2, and 2 ana on MAT 1:1 with another text than in B1.
const CLASHING: &[u8] =
    b"USFMSR1\n\0\0\0\0\0\0\0\x03\0\0\0\0\0\0\0\x01\x02cyMAT\0\x01\0\0\0\0\0\0\0\0\0\0\0\0\x01\0\0\0\0\0\0\0\x05\\c 1\n\0\0\0\0\0\0\0\x01\x03danMAT\0\x01\x01\0\x02\0\0\0\0\0\0\0\0\0\x01\0\0\0\0\0\0\0\x07\\v 2 b\n\0\0\0\0\0\0\0\x02\x03anaMAT\0\x01\x01\0\x01\0\0\0\0\0\0\0\0\0\x01\0\0\0\0\0\0\0\x08\\v 1 Xx\n";

// The bundle of no operation.
const EMPTY: &[u8] = b"USFMSR1\n\0\0\0\0\0\0\0\0";

const CUT: JoinFault = JoinFault::Bundle(WholeFault::Bundle(BundleFault::Truncated));

const TRAILING: JoinFault = JoinFault::Bundle(WholeFault::Trailing);

const SETS: &[&[u8]] = &[B1, Y, CLASHING, EMPTY];

#[test]
fn sets_are_written(rt: HostRuntime) -> Result<(), Fail> {
    for bytes in SETS {
        let set = decode_whole(rt.alloc(), bytes)?.to_set(rt.alloc())?;
        assert!(rt; encode(rt.alloc(), &set)?.as_slice() == *bytes);
    }
    Ok(())
}

#[test]
fn something_follows(rt: HostRuntime) -> Result<(), Fail> {
    let longer = with_nought(rt.alloc())?;
    assert_eq!(rt; decode(rt.alloc(), &longer)?.1, 108);
    let whole = decode_whole(rt.alloc(), &longer);
    assert!(rt; whole.err() == Some(WholeFault::Trailing));
    let cut = decode_whole(rt.alloc(), &B1[..50]);
    assert!(rt; cut.err() == Some(WholeFault::Bundle(BundleFault::Truncated)));
    Ok(())
}

// Whether the first two of each row join to the third.
fn all_join(alloc: Global, rows: &[[&[u8]; 3]]) -> Result<bool, Fail> {
    for row in rows {
        let joined = join_bundles(alloc, row[0], row[1])?;
        if joined.as_slice() != row[2] {
            return Ok(false);
        }
    }
    Ok(true)
}

// B1 and Y in one bundle.
fn b1_and_y(alloc: Global) -> Result<Vec<u8>, Fail> {
    let mut both = changed(alloc, B1, 15, &[3])?;
    both.extend_from_slice(Y.split_at(16).1)?;
    Ok(both)
}

#[test]
fn bundles_are_joined(rt: HostRuntime) -> Result<(), Fail> {
    let alloc = rt.alloc();
    let both = b1_and_y(alloc)?;
    assert_eq!(rt; both.len(), 166);
    let rows = [
        [B1.as_slice(), B1, B1],
        [B1, Y, &both],
        [Y, B1, &both],
        [&both, Y, &both],
        [EMPTY, EMPTY, EMPTY],
    ];
    assert!(rt; all_join(alloc, &rows)?);
    Ok(())
}

#[test]
fn bundles_are_joined_after_bytes(rt: HostRuntime) -> Result<(), Fail> {
    let alloc = rt.alloc();
    let (left, right) = (decode_whole(alloc, B1)?, decode_whole(alloc, Y)?);
    let (bytes, count) = left.join_after(&right, b"front".to_vec(alloc)?)?;
    assert_eq!(rt; count, 3);
    let mut wanted = b"front".to_vec(alloc)?;
    wanted.extend_from_slice(&b1_and_y(alloc)?)?;
    assert!(rt; bytes == wanted);
    let clashing = decode_whole(alloc, CLASHING)?;
    let clash = Some(JoinFault::Clash(OpId::read("2:ana")?));
    assert!(rt; left.join_after(&clashing, bytes).err() == clash);
    Ok(())
}

fn fault_of(alloc: Global, first: &[u8], second: &[u8]) -> Option<JoinFault> {
    join_bundles(alloc, first, second).err()
}

#[test]
fn joining_clashes(rt: HostRuntime) -> Result<(), Fail> {
    let clash = JoinFault::Clash(OpId::read("2:ana")?);
    assert!(rt; fault_of(rt.alloc(), B1, CLASHING) == Some(clash));
    assert!(rt; fault_of(rt.alloc(), CLASHING, B1) == Some(clash));
    Ok(())
}

#[test]
fn joining_is_refused(rt: HostRuntime) -> Result<(), Fail> {
    let alloc = rt.alloc();
    let longer = with_nought(alloc)?;
    assert!(rt; fault_of(alloc, &B1[..50], &longer) == Some(CUT));
    assert!(rt; fault_of(alloc, &longer, &B1[..50]) == Some(TRAILING));
    assert!(rt; fault_of(alloc, B1, &B1[..50]) == Some(CUT));
    assert!(rt; fault_of(alloc, &CLASHING[..50], B1) == Some(CUT));
    Ok(())
}

// B1 and one zero byte.
fn with_nought(alloc: Global) -> Result<Vec<u8>, Fail> {
    let mut longer = B1.to_vec(alloc)?;
    longer.push(0)?;
    Ok(longer)
}
