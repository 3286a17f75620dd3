// Replicas that take in bundles.
use anyhow::{Context, Result};
use bundle_codec::decode;
use op_core::ReplicaName;
use replica_state::Replica;
use std::alloc::Global;

/// A replica of this name that took in bundles, one after the other.
pub(crate) fn holding(alloc: Global, name: &str, bundles: &[u8]) -> Result<Replica> {
    let mut replica = Replica::new(alloc, ReplicaName::read(name)?);
    let mut rest = bundles;
    for _ in 0..bundles.len() {
        if rest.is_empty() {
            break;
        }
        let (_, length) = receive(alloc, &mut replica, rest)?;
        rest = rest.get(length..).context("a bundle")?;
    }
    Ok(replica)
}

/// Takes in the bundle at the front, and answers how many of its operations are new and how many
/// bytes it has.
pub(crate) fn receive(alloc: Global, replica: &mut Replica, bytes: &[u8]) -> Result<(u64, usize)> {
    let (bundle, length) = decode(alloc, bytes)?;
    Ok((replica.receive(&bundle)?, length))
}
