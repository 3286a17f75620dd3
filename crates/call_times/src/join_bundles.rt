//! `join_bundles FIRST SECOND ROUNDS`: joins two bundles. It tells the length and a sum of the
//! joined bytes.
use crate::rounds::Given;
use crate::sums::sum_of;
use anyhow::Result;
use bundle_codec::join_bundles;

pub(crate) fn told(given: &Given<'_>) -> Result<String> {
    let alloc = given.rt.alloc();
    let first = given.bytes(1, "a file")?;
    let second = given.bytes(2, "a second file")?;
    let rounds = given.rounds(3)?;
    let (least, joined) = rounds.least(|| Ok(join_bundles(alloc, &first, &second)?))?;
    let nanos = least.as_nanos();
    Ok(format!(in alloc; "{nanos} {} {}", joined.len(), sum_of(&joined))?)
}
