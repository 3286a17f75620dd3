// The one bundle of several.
ghost use Rattle.std.specs.Prelude.{◌≡◌, [], Ok, IfOk, IfErr};
ghost use Rattle.usfm_cli.specs.Combining as combining;
ghost use Rattle.usfm_cli.specs.Loops.Gathered.{held_in};

use crate::fold::gather_all;
use crate::gathered::Gathered;
use crate::turns::TurnFault;
use bundle_codec::decode_whole;
use command_faults::Fault;
use std::alloc::Global;

/// The one bundle of the operations of some bundles, each the whole of its bytes. Each bundle is
/// joined before the next one is read, so the first that is refused is answered. What it costs
/// depends on what the bundles have, in whatever order they come.
///
/// So joining can be done as a tree, by many programs: the bundle of some bundles stands for them.
///
/// # Errors
/// `Turn` with the number of the bundles before the first that is refused, and why it is:
/// - `Bundle` (60 to 69) and `Trailing` (70) where its bytes are not one bundle.
/// - `Clash` (51) where it has an operation that does not agree with one of a bundle before under
///   the same id, with the least such id.
/// - `Memory` (1) where an allocation failed.
///
/// `Project` with `Memory` where an allocation failed once all of them were joined.
pub fn combine_bundles(alloc: Global, bundles: &[Vec<u8>]) -> Result<Vec<u8>, TurnFault>
    ensures combined { IfOk result (λ bytes.
        combining.combined (combining.bytes_of bundles.now) ≡ Ok bytes.items) }
    ensures refused { IfErr result
        (combining.RefusesBundles (combining.bytes_of bundles.now)) }
{
    let gathered = gather_each(alloc, bundles)?;
    Ok(gathered.bundle(alloc)?)
}

/// The one bundle of the operations of the bundles that the bytes spell, one after another, as
/// `combine_bundles` makes it of bundles by themselves.
///
/// # Errors
/// - `Bundle` (60 to 69) where the bytes are no bundle; `Clash` (51) as of `combine_bundles`: the
///   first refusal in the order of the bytes.
/// - `Memory` (1) where an allocation failed.
pub fn combine_stream(alloc: Global, input: &[u8]) -> Result<Vec<u8>, Fault>
    ensures combined { IfOk result (λ bytes.
        combining.combined_stream input.now ≡ Ok bytes.items) }
    ensures refused { IfErr result (combining.RefusesCombining input.now) }
{
    let gathered = gather_all(alloc, input)?;
    Ok(gathered.bundle(alloc)?)
}

// The operations of bundles, each taken in before the next is read.
fn gather_each(alloc: Global, bundles: &[Vec<u8>]) -> Result<Gathered<'_>, TurnFault>
    ensures ok { IfOk result (λ gathered.
        combining.union_of 0 [] (combining.bytes_of bundles.now) ≡ Ok (held_in gathered)) }
    ensures refused { IfErr result
        (combining.RefusesBundles (combining.bytes_of bundles.now)) }
{
    let mut gathered = Gathered::Nothing;
    let mut at = 0;
    let mut left = bundles;
    'bundles: while let [bytes, later @ ..] = left {
        let bundle = match decode_whole(alloc, bytes) {
            Ok(bundle) => bundle,
            Err(fault) => return Err(TurnFault::Turn(at, Fault::from(fault))),
        };
        gathered = match gathered.receive(alloc, bundle) {
            Ok(more) => more,
            Err(fault) => return Err(TurnFault::Turn(at, Fault::from(fault))),
        };
        at += 1;
        left = later;
    }
    Ok(gathered)
}
