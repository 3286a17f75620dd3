// Sealed bundles, whose digests are those of Python's hashlib.
ghost use Rattle.std.specs.Prelude.{◌<◌};

use crate::{SealFault, is_sealed, open, open_first, seal, unseal, unsealed};
use std::alloc::AllocError;

// The bundle of no operation.
const NOTHING: [u8; 16] = *b"USFMSR1\n\0\0\0\0\0\0\0\0";

// The same, sealed.
const SEALED: [u8; 64] =
    *b"USFMSB1\n\0\0\0\0\0\0\0\x10\xc0\x88\xb5\xea\xf7\xdb*\xedH\xd0\xfd\xb8\n\xd9\xa7\xd2\xff\xa4*\xfb\x84jk\xfa\xd6\xc3cx\x1az\xff\xd7USFMSR1\n\0\0\0\0\0\0\0\0";

// No byte, sealed.
const EMPTY: [u8; 48] =
    *b"USFMSB1\n\0\0\0\0\0\0\0\0\xe3\xb0\xc4B\x98\xfc\x1c\x14\x9a\xfb\xf4\xc8\x99o\xb9$'\xaeA\xe4d\x9b\x93L\xa4\x95\x99\x1bxR\xb8U";

// What stands before a thousand of the letter a.
const HEADER: [u8; 48] =
    *b"USFMSB1\n\0\0\0\0\0\0\x03\xe8A\xed\xec\xe4-c\xe8\xd9\xbfQZ\x9b\xa6\x93.\x1c \xcb\xc9\xf5\xa5\xd14dZ\xdb]\xb1\xb9s~\xa3";

#[test]
fn seals_and_opens(rt: HostRuntime) -> Result<(), AllocError> {
    let alloc = rt.alloc();
    assert_eq!(rt; seal(alloc, &NOTHING)?.as_slice(), SEALED.as_slice());
    assert_eq!(rt; open(&SEALED), Ok(NOTHING.as_slice()));
    assert_eq!(rt; seal(alloc, b"")?.as_slice(), EMPTY.as_slice());
    assert_eq!(rt; open(&EMPTY), Ok(b"".as_slice()));
    let long = [b'a'; 1000];
    let sealed = seal(alloc, &long)?;
    assert!(rt; sealed.as_slice().starts_with(&HEADER));
    assert_eq!(rt; open(sealed.as_slice()), Ok(long.as_slice()));
    Ok(())
}

#[test]
fn is_sealed_by_its_magic(rt: HostRuntime) {
    assert!(rt; is_sealed(&SEALED));
    assert!(rt; is_sealed(b"USFMSB1\n"));
    assert!(rt; !is_sealed(b"USFMSB1"));
    assert!(rt; !is_sealed(b"USFMSB1\r\n"));
    assert!(rt; !is_sealed(&NOTHING));
}

#[test]
fn refuses_what_is_not_sealed(rt: HostRuntime) {
    assert_eq!(rt; open(&NOTHING), Err(SealFault::NotSealed));
    assert_eq!(rt; open(b"USFMSB2\n"), Err(SealFault::NotSealed));
    assert_eq!(rt; open(b"USFMSR"), Err(SealFault::NotSealed));
}

#[test]
fn refuses_what_is_cut(rt: HostRuntime) {
    for length in 0..64 {
        assert_eq!(rt; open(&SEALED[..length]), Err(SealFault::Truncated));
    }
}

#[test]
fn refuses_what_something_follows(rt: HostRuntime) -> Result<(), AllocError> {
    let mut more = SEALED.to_vec(rt.alloc())?;
    more.push(0)?;
    assert_eq!(rt; open(more.as_slice()), Err(SealFault::Trailing));
    Ok(())
}

// The fault of the sealed bundle with another byte at a place.
fn fault_with(place: usize, byte: u8) -> Option<SealFault>
    requires { place < 64 }
{
    let mut bytes = SEALED;
    bytes[place] = byte;
    open(&bytes).err()
}

#[test]
fn refuses_changed_bytes(rt: HostRuntime) {
    assert_eq!(rt; fault_with(0, b'u'), Some(SealFault::NotSealed));
    assert_eq!(rt; fault_with(15, 15), Some(SealFault::Trailing));
    assert_eq!(rt; fault_with(15, 17), Some(SealFault::Truncated));
    assert_eq!(rt; fault_with(8, 128), Some(SealFault::Truncated));
    assert_eq!(rt; fault_with(47, 0xd6), Some(SealFault::Damaged));
    assert_eq!(rt; fault_with(63, 1), Some(SealFault::Damaged));
    assert_eq!(rt; fault_with(63, 0), None);
    for place in 0..64 {
        assert!(rt; fault_with(place, !SEALED[place]).is_some());
    }
}

#[test]
fn takes_off_a_seal_where_there_is_one(rt: HostRuntime) -> Result<(), AllocError> {
    assert_eq!(rt; unsealed(&SEALED), Ok(NOTHING.as_slice()));
    assert_eq!(rt; unsealed(&NOTHING), Ok(NOTHING.as_slice()));
    assert_eq!(rt; unsealed(b""), Ok(b"".as_slice()));
    assert_eq!(rt; unsealed(b"USFMSB1"), Ok(b"USFMSB1".as_slice()));
    assert_eq!(rt; unsealed(b"USFMSB1\n"), Err(SealFault::Truncated));
    let alloc = rt.alloc();
    let owned = |bytes: &[u8]| bytes.to_vec(alloc);
    assert!(rt;
        matches!(unseal(owned(&SEALED)?), Ok(found) if found.as_slice() == NOTHING.as_slice())
    );
    assert!(rt;
        matches!(unseal(owned(&NOTHING)?), Ok(found) if found.as_slice() == NOTHING.as_slice())
    );
    assert!(rt; matches!(unseal(owned(&EMPTY)?), Ok(found) if found.is_empty()));
    assert!(rt; matches!(unseal(owned(&SEALED[..63])?), Err(SealFault::Truncated)));
    Ok(())
}

#[test]
fn opens_the_first_of_several(rt: HostRuntime) -> Result<(), AllocError> {
    let mut two = SEALED.to_vec(rt.alloc())?;
    two.extend_from_slice(&EMPTY)?;
    assert_eq!(rt;
        open_first(&two),
        Ok((NOTHING.as_slice(), EMPTY.as_slice()))
    );
    assert_eq!(rt;
        open_first(&SEALED),
        Ok((NOTHING.as_slice(), b"".as_slice()))
    );
    assert_eq!(rt; open_first(&SEALED[..63]), Err(SealFault::Truncated));
    assert_eq!(rt; open_first(&NOTHING), Err(SealFault::NotSealed));
    two.as_mut_slice()[63] = 1;
    assert_eq!(rt; open_first(&two), Err(SealFault::Damaged));
    Ok(())
}
