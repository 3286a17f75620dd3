// Which bundles of a box come in: one that cannot be taken in keeps nobody from the others.
ghost use Rattle.std.specs.Prelude.{◌≡◌, IfOk, Ok, OnErr, false, map, true};
ghost use Rattle.book_folder.specs.Begun as begins;
ghost use Rattle.book_folder.specs.Refusals.{AnswersBy, AnswersStep, AnswersStepBy};
ghost use Rattle.book_folder.specs.Sifting as sifts;
ghost use Rattle.book_folder.specs.Wanted.{seen_view, wishes_view};

use crate::begun::{begin, is_strange, judge, receive_if_alike};
use crate::coming::receive_bundles;
use crate::refusal::{FolderFault, Place, Refusal};
use crate::seen::{Seen, Wishes};
use bundle_codec::Bundle;
use project_file::{load, save};
use replica_state::Replica;
use std::alloc::{AllocError, Global};

// A place for refusals of which the place is not told.
const ANY: Place = Place::Bundle(0);

/// What becomes of a bundle of a box.
#[derive(Clone, Copy, Debug, PartialEq, Eq)]
pub enum Sifted {
    /// It comes in.
    Comes,
    /// It is passed over, since it would be refused so: `Bundle` or `Clash`, or `Unlike`, where it is
    /// of another project.
    Refused(FolderFault),
}

/// What becomes of each bundle of a box, in their order, each after those before it that come in,
/// once what the folder's files were written from came in, and the bundles of `seen`, which are
/// those that the line names. A bundle of another project comes in where that is wished.
///
/// So a plan is refused for none of the bundles that come in, as `laws::sifted_bundles_come_in`
/// says.
///
/// # Errors
/// As `make_plan` answers what comes in before them.
pub fn sift_box(
    alloc: Global,
    seen: &Seen<'_>,
    wishes: &Wishes,
    bundles: &[Vec<u8>],
) -> Result<Vec<Sifted>, Refusal>
    ensures { AnswersBy (λ made. made.items) (sifts.sifted_box (seen_view seen.now)
        (wishes_view wishes.now) (map (λ b. b.items) bundles.now)) result }
{
    let mut replica = begin(alloc, seen, wishes)?.replica;
    receive_bundles(alloc, &mut replica, seen.bundles, wishes)?;
    sift_all(alloc, &mut replica, bundles, wishes)
}

// What becomes of each bundle, in their order.
fn sift_all(
    alloc: Global,
    replica: &mut Replica,
    bundles: &[Vec<u8>],
    wishes: &Wishes,
) -> Result<Vec<Sifted>, Refusal>
    ensures { let asked = wishes.now.joined in
        let sifted = sifts.sifted asked replica.old (map (λ b. b.items) bundles.now) in
        AnswersStepBy (λ made. made.items) (Ok sifted) replica.new result }
{
    let mut made = Vec::new(alloc);
    let mut left = bundles;
    'bundles: while let [bytes, later @ ..] = left {
        made.push(sift_bytes(alloc, replica, bytes, wishes)?)?;
        left = later;
    }
    Ok(made)
}

// What becomes of one bundle.
fn sift_bytes(
    alloc: Global,
    replica: &mut Replica,
    bytes: &[u8],
    wishes: &Wishes,
) -> Result<Sifted, Refusal>
    ensures { AnswersStep (Ok (sifts.sift_bytes wishes.now.joined replica.old bytes.now))
        replica.new result }
{
    match judge(alloc, ANY, bytes) {
        Ok(bundle) => sift_bundle(alloc, replica, &bundle, wishes),
        Err(refusal) => passed_over(refusal),
    }
}

fn sift_bundle(
    alloc: Global,
    replica: &mut Replica,
    bundle: &Bundle<'_>,
    wishes: &Wishes,
) -> Result<Sifted, Refusal>
    ensures { AnswersStep (Ok (sifts.sift_ops wishes.now.joined replica.old bundle.now))
        replica.new result }
{
    match receive_or_keep(alloc, replica, bundle, wishes) {
        Ok(_) => Ok(Sifted::Comes),
        Err(refusal) => passed_over(refusal),
    }
}

// Receives a bundle, or leaves the replica as it is.
fn receive_or_keep(
    alloc: Global,
    replica: &mut Replica,
    bundle: &Bundle<'_>,
    wishes: &Wishes,
) -> Result<u64, Refusal>
    ensures step { let asked = wishes.now.joined in
        AnswersStep (begins.received_if_alike asked ANY replica.old bundle.now) replica.new result }
    ensures kept { OnErr result (replica.new ≡ replica.old) }
{
    if wishes.joined || !is_strange(alloc, replica, bundle)? {
        return receive_alike(replica, bundle);
    }
    refuse_strange(alloc, replica, bundle, wishes)
}

// Receives a bundle of the project, or leaves the replica as it is.
fn receive_alike(replica: &mut Replica, bundle: &Bundle<'_>) -> Result<u64, Refusal>
    ensures step { AnswersStep (begins.received ANY replica.old bundle.now) replica.new result }
    ensures kept { OnErr result (replica.new ≡ replica.old) }
{
    match replica.receive(bundle) {
        Ok(new) => Ok(new),
        Err(fault) => Err(Refusal::of_receiving(ANY, fault)),
    }
}

// Refuses a bundle of another project, which a copy of the replica takes in for that.
fn refuse_strange(
    alloc: Global,
    replica: &Replica,
    bundle: &Bundle<'_>,
    wishes: &Wishes,
) -> Result<u64, Refusal>
    requires strange { begins.is_strange replica.now.held bundle.now ≡ true }
    requires asked { wishes.now.joined ≡ false }
    ensures { let asked = wishes.now.joined in
        AnswersStep (begins.received_if_alike asked ANY replica.now bundle.now) replica.now result }
{
    let mut copy = copy_of(alloc, replica)?;
    receive_if_alike(alloc, &mut copy, ANY, bundle, wishes)
}

// A replica that is as another one: what was saved of that one is loaded as it was.
fn copy_of(alloc: Global, replica: &Replica) -> Result<Replica, AllocError>
    ensures { IfOk result (λ copy. copy ≡ replica.now) }
{
    match load(alloc, &save(alloc, replica)?) {
        Ok(copy) => Ok(copy),
        Err(_) => Err(AllocError),
    }
}

// A bundle that would be refused is passed over.
fn passed_over(refusal: Refusal) -> Result<Sifted, Refusal>
    ensures { result ≡ sifts.answered refusal }
{
    match refusal {
        Refusal::Memory => Err(Refusal::Memory),
        Refusal::Of(_, fault) => Ok(Sifted::Refused(fault)),
    }
}
