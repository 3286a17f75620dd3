// Summaries read and written, made of sets, and what lies outside one.
use super::changed;
use crate::{Summary, SummaryFault, decode_whole, encode, encode_outside};
use op_core::OpSet;
use std::alloc::{AllocError, Global};
use std::test::Fail;

// ana, 1 to 3 and 5.
const S1: &[u8; 60] =
    b"USFMSS1\n\0\0\0\0\0\0\0\x01\x03ana\0\0\0\0\0\0\0\x02\0\0\0\0\0\0\0\x01\0\0\0\0\0\0\0\x03\0\0\0\0\0\0\0\x05\0\0\0\0\0\0\0\x05";

// ana, 1 to 5.
const S5: &[u8; 44] =
    b"USFMSS1\n\0\0\0\0\0\0\0\x01\x03ana\0\0\0\0\0\0\0\x01\0\0\0\0\0\0\0\x01\0\0\0\0\0\0\0\x05";

// ana, 4 alone.
const S4: &[u8] =
    b"USFMSS1\n\0\0\0\0\0\0\0\x01\x03ana\0\0\0\0\0\0\0\x01\0\0\0\0\0\0\0\x04\0\0\0\0\0\0\0\x04";

const NO_NAMES: &[u8] = b"USFMSS1\n\0\0\0\0\0\0\0\0";

const NO_OPERATION: &[u8] = b"USFMSR1\n\0\0\0\0\0\0\0\0";

// 4 ana on MAT 1:2.
const FOURTH: &[u8] =
    b"USFMSR1\n\0\0\0\0\0\0\0\x01\0\0\0\0\0\0\0\x04\x03anaMAT\0\x01\x01\0\x02\0\0\0\0\0\0\0\0\0\x01\0\0\0\0\0\0\0\x07\\v 2 b\n";

// A book of three verses: 1 to 5 ana on MAT, each with the key's bytes and the text.
const VERSES: [(&[u8], &[u8]); 5] = [
    (b"\0\0\0\0\0\0", b"\\id MAT\n"),
    (b"\0\x01\0\0\0\0", b"\\c 1\n"),
    (b"\0\x01\x01\0\x01\0", b"\\v 1 a\n"),
    (b"\0\x01\x01\0\x02\0", b"\\v 2 b\n"),
    (b"\0\x01\x01\0\x03\0", b"\\v 3 c\n"),
];

fn push_verse(bytes: &mut Vec<u8>, number: u8, key: &[u8], text: &[u8]) -> Result<(), Fail> {
    bytes.extend_from_slice(&[0, 0, 0, 0, 0, 0, 0, number])?;
    bytes.extend_from_slice(b"\x03anaMAT")?;
    bytes.extend_from_slice(key)?;
    bytes.extend_from_slice(b"\0\0\0\0\0\0\0\0\x01")?;
    bytes.extend_from_slice(&(text.len() as u64).to_be_bytes())?;
    bytes.extend_from_slice(text)?;
    Ok(())
}

fn verses(alloc: Global) -> Result<OpSet, Fail> {
    let mut bytes = b"USFMSR1\n\0\0\0\0\0\0\0\x05".to_vec(alloc)?;
    let mut number = 0u8;
    for (key, text) in &VERSES {
        number = number.wrapping_add(1);
        push_verse(&mut bytes, number, key, text)?;
    }
    Ok(decode_whole(alloc, &bytes)?.to_set(alloc)?)
}

const ONE: [u8; 8] = [0, 0, 0, 0, 0, 0, 0, 1];

// The names one after another, each with one range from 1 to 1.
fn named(alloc: Global, names: &[&str]) -> Result<Vec<u8>, AllocError> {
    let mut made = b"USFMSS1\n".to_vec(alloc)?;
    made.extend_from_slice(&(names.len() as u64).to_be_bytes())?;
    for name in names {
        made.push((name.len() & 255) as u8)?;
        made.extend_from_slice(name.as_bytes())?;
        made.extend_from_slice(&ONE)?;
        made.extend_from_slice(&ONE)?;
        made.extend_from_slice(&ONE)?;
    }
    Ok(made)
}

const SUMMARIES: &[&[u8]] = &[S1, S5, NO_NAMES];

fn is_read_and_written(alloc: Global, bytes: &[u8]) -> Result<bool, Fail> {
    let summary = Summary::read(alloc, bytes)?;
    Ok(summary.write(alloc)?.as_slice() == bytes)
}

#[test]
fn summaries_are_read_and_written(rt: HostRuntime) -> Result<(), Fail> {
    for bytes in SUMMARIES {
        assert!(rt;
            is_read_and_written(rt.alloc(), bytes)?,
            "{} bytes",
            bytes.len()
        );
    }
    let several = named(rt.alloc(), &["-", "a", "a-", "a0", "ana", "b"])?;
    assert!(rt; is_read_and_written(rt.alloc(), &several)?);
    Ok(())
}

fn is_bad(alloc: Global, bytes: &[u8]) -> bool {
    Summary::read(alloc, bytes).err() == Some(SummaryFault::BadSummary)
}

#[test]
fn fronts_are_no_summaries(rt: HostRuntime) -> Result<(), Fail> {
    for n in 0..60usize {
        assert!(rt; is_bad(rt.alloc(), &S1[..n]), "{n}");
    }
    let mut longer = S1.to_vec(rt.alloc())?;
    longer.push(0)?;
    assert!(rt; is_bad(rt.alloc(), &longer));
    Ok(())
}

// What is written over S1 from a place on, to make it no summary.
const CHANGES: &[(usize, &[u8])] = &[
    // another magic
    (6, b"2"),
    // a huge count of names
    (8, &[0xff]),
    // a name with an upper-case letter
    (17, b"A"),
    // no range, and yet two after that count
    (27, &[0]),
    // a first number of 0
    (35, &[0]),
    // 1 to 3 and 4 to 5, which touch
    (51, &[4]),
    // 1 to 3 and 3 to 5, which overlap
    (51, &[3]),
    // 5 to 4, which ends before it begins
    (59, &[4]),
    // a last number of 10^15 and one more, and of the greatest that the bytes can have
    (52, &[0, 3, 0x8d, 0x7e, 0xa4, 0xc6, 0x80, 1]),
    (52, &[0xff; 8]),
];

#[test]
fn no_summary(rt: HostRuntime) -> Result<(), Fail> {
    let alloc = rt.alloc();
    for (at, with) in CHANGES {
        let bytes = changed(alloc, S1, *at, with)?;
        assert!(rt; is_bad(alloc, &bytes), "{at}");
    }
    // A name without a range, and nothing after it.
    let bare = changed(alloc, &S1[..28], 27, &[0])?;
    assert!(rt; is_bad(alloc, &bare));
    // 10^15 itself is a last number.
    let greatest = changed(alloc, S1, 52, &[0, 3, 0x8d, 0x7e, 0xa4, 0xc6, 0x80, 0])?;
    assert!(rt; is_read_and_written(alloc, &greatest)?);
    Ok(())
}

// Names that do not rise by their bytes: one twice, a longer one that is less, and `-` after `0`.
const NOT_RISING: &[&[&str]] = &[&["a", "a"], &["b", "aa"], &["a0", "a-"]];

#[test]
fn names_that_do_not_rise(rt: HostRuntime) -> Result<(), Fail> {
    for (row, names) in NOT_RISING.iter().enumerate() {
        let bytes = named(rt.alloc(), names)?;
        assert!(rt; is_bad(rt.alloc(), &bytes), "row {row}");
    }
    Ok(())
}

// Whether this is the summary of the set, and of its bundle.
fn has_summary(alloc: Global, set: &OpSet, wanted: &[u8]) -> Result<bool, Fail> {
    let of_set = Summary::of(alloc, set)?.write(alloc)?;
    let bytes = encode(alloc, set)?;
    let of_bundle = Summary::of_bundle(alloc, &decode_whole(alloc, &bytes)?)?.write(alloc)?;
    Ok(of_set.as_slice() == wanted && of_bundle.as_slice() == wanted)
}

#[test]
fn summaries_of_sets(rt: HostRuntime) -> Result<(), Fail> {
    let alloc = rt.alloc();
    assert!(rt; has_summary(alloc, &verses(alloc)?, S5)?);
    assert!(rt; has_summary(alloc, &OpSet::new(alloc), NO_NAMES)?);
    let fourth = decode_whole(alloc, FOURTH)?.to_set(alloc)?;
    assert!(rt; has_summary(alloc, &fourth, S4)?);
    Ok(())
}

// Whether this lies outside of the verses, as a set and as a bundle.
fn is_outside(alloc: Global, summary: &Summary, wanted: &[u8]) -> Result<bool, Fail> {
    let set = verses(alloc)?;
    let of_set = encode_outside(alloc, &set, summary)?;
    let bytes = encode(alloc, &set)?;
    let of_bundle = decode_whole(alloc, &bytes)?.outside(alloc, summary)?;
    Ok(of_set.as_slice() == wanted && of_bundle.as_slice() == wanted)
}

#[test]
fn what_lies_outside(rt: HostRuntime) -> Result<(), Fail> {
    let summary = Summary::read(rt.alloc(), S1)?;
    assert!(rt; is_outside(rt.alloc(), &summary, FOURTH)?);
    Ok(())
}

fn covers_all(summary: &Summary, set: &OpSet) -> bool {
    for op in set.iter() {
        if !summary.covers(&op.id()) {
            return false;
        }
    }
    true
}

#[test]
fn nothing_lies_outside_its_own(rt: HostRuntime) -> Result<(), Fail> {
    let set = verses(rt.alloc())?;
    let own = Summary::of(rt.alloc(), &set)?;
    assert!(rt; covers_all(&own, &set));
    assert!(rt; is_outside(rt.alloc(), &own, NO_OPERATION)?);
    Ok(())
}
