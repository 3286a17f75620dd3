//! `summary BUNDLES ROUNDS`: makes the summary of a replica that took in bundles, one after the
//! other. It tells the length and a sum of the summary's bytes.
use crate::received::holding;
use crate::rounds::Given;
use crate::sums::sum_of;
use anyhow::Result;

pub(crate) fn told(given: &Given<'_>) -> Result<String> {
    let alloc = given.rt.alloc();
    let bundles = given.bytes(1, "bundles")?;
    let rounds = given.rounds(2)?;
    let replica = holding(alloc, "ana", &bundles)?;
    let (least, summary) = rounds.least(|| Ok(replica.summary(alloc)?))?;
    let nanos = least.as_nanos();
    let bytes = summary.write(alloc)?;
    Ok(format!(in alloc; "{nanos} {} {}", bytes.len(), sum_of(&bytes))?)
}
