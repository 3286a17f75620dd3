// Streams of the bundle of no operation, sealed and bare, in any mixture.
use crate::{StreamFault, unseal_stream};
use sealed_bundle::SealFault;
use std::alloc::AllocError;

// The bundle of no operation.
const NOTHING: [u8; 16] = *b"USFMSR1\n\0\0\0\0\0\0\0\0";

// The same, sealed, with the digest that Python's hashlib gives.
const SEALED: [u8; 64] =
    *b"USFMSB1\n\0\0\0\0\0\0\0\x10\xc0\x88\xb5\xea\xf7\xdb*\xedH\xd0\xfd\xb8\n\xd9\xa7\xd2\xff\xa4*\xfb\x84jk\xfa\xd6\xc3cx\x1az\xff\xd7USFMSR1\n\0\0\0\0\0\0\0\0";

#[test]
fn takes_off_each_seal(rt: HostRuntime) -> Result<(), AllocError> {
    let alloc = rt.alloc();
    let wanted = [NOTHING.as_slice(), &NOTHING, &NOTHING, b"end"];
    let given = [SEALED.as_slice(), &NOTHING, &SEALED, b"end"];
    let mut stream = Vec::new(alloc);
    let mut bare = Vec::new(alloc);
    for (part, left) in given.iter().zip(&wanted) {
        stream.extend_from_slice(*part)?;
        bare.extend_from_slice(*left)?;
    }
    assert!(rt; matches!(unseal_stream(alloc, stream), Ok(found) if found == bare));
    Ok(())
}

#[test]
fn leaves_what_has_no_seal(rt: HostRuntime) -> Result<(), AllocError> {
    let alloc = rt.alloc();
    for bytes in [b"".as_slice(), &NOTHING, b"USFMSB1", b"no bundle"] {
        let stream = bytes.to_vec(alloc)?;
        assert!(rt; matches!(unseal_stream(alloc, stream), Ok(found) if found.as_slice() == bytes));
    }
    Ok(())
}

#[test]
fn refuses_the_first_that_was_damaged(rt: HostRuntime) -> Result<(), AllocError> {
    let alloc = rt.alloc();
    let cut = Err(StreamFault::Seal(SealFault::Truncated));
    let damaged = Err(StreamFault::Seal(SealFault::Damaged));
    let mut other = SEALED;
    other[54] = 1;
    let mut stream = NOTHING.to_vec(alloc)?;
    stream.extend_from_slice(&other)?;
    stream.extend_from_slice(b"USFMSB1\n")?;
    assert!(rt; unseal_stream(alloc, stream) == damaged);
    let mut stream = SEALED.to_vec(alloc)?;
    stream.extend_from_slice(b"USFMSB1\n")?;
    stream.extend_from_slice(&other)?;
    assert!(rt; unseal_stream(alloc, stream) == cut);
    Ok(())
}
