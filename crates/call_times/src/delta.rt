//! `delta PROJECT EDITS JOB ROUNDS`: two replicas of a project, one of which has a bundle of edits
//! more. The job `delta` writes what the second replica lacks, the job `receive` takes that in. It
//! tells the length and a sum of the delta, and how many operations were new.
use crate::received::{holding, receive};
use crate::rounds::{Given, Rounds};
use crate::sums::sum_of;
use anyhow::{Result, bail};
use std::alloc::Global;
use std::time::Duration;

pub(crate) fn told(given: &Given<'_>) -> Result<String> {
    let alloc = given.rt.alloc();
    let project = given.bytes(1, "a project")?;
    let edits = given.bytes(2, "edits")?;
    let job = given.word(3, "a job")?;
    let rounds = given.rounds(4)?;
    let mut ana = holding(alloc, "ana", &project)?;
    receive(alloc, &mut ana, &edits)?;
    let summary = holding(alloc, "ben", &project)?.summary(alloc)?;
    let delta = ana.delta(alloc, &summary)?;
    let (least, new) = match job {
        "delta" => {
            let (least, _) = rounds.least(|| Ok(ana.delta(alloc, &summary)?))?;
            (least, 0)
        }
        "receive" => receive_time(alloc, rounds, &project, &delta)?,
        other => bail!("there is no job {other} of a delta"),
    };
    let nanos = least.as_nanos();
    Ok(format!(in alloc; "{nanos} {} {} {new}", delta.len(), sum_of(&delta))?)
}

// The least time in which a replica of the project takes a delta in, and how many operations are
// new.
fn receive_time(
    alloc: Global,
    rounds: Rounds,
    project: &[u8],
    delta: &[u8],
) -> Result<(Duration, u64)> {
    let mut least = Duration::MAX;
    let mut new = 0;
    for _ in 0..rounds.count() {
        let mut ben = holding(alloc, "ben", project)?;
        let start = rounds.start()?;
        let (taken, _) = receive(alloc, &mut ben, delta)?;
        least = least.min(rounds.since(start)?);
        new = taken;
    }
    Ok((least, new))
}
