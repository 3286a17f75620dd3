//! `decode FILE ROUNDS`: judges the bundle that a file begins with. It tells how many operations
//! and bytes the bundle has.
use crate::rounds::Given;
use anyhow::Result;
use bundle_codec::decode;

pub(crate) fn told(given: &Given<'_>) -> Result<String> {
    let alloc = given.rt.alloc();
    let bytes = given.bytes(1, "a file")?;
    let rounds = given.rounds(2)?;
    let (least, (bundle, length)) = rounds.least(|| Ok(decode(alloc, &bytes)?))?;
    let nanos = least.as_nanos();
    Ok(format!(in alloc; "{nanos} {} {length}", bundle.len())?)
}
