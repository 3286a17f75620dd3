// What a folder begins with: the project with what its files were written from.
ghost use Rattle.std.specs.Prelude.{◌≡◌, ◌++◌, IfOk, OnOk, codes, map};
ghost use Rattle.std.specs.List.{list_any};
ghost use Rattle.project_file.specs.Projects.{project_at};
ghost use Rattle.book_folder.specs.Begun as begins;
ghost use Rattle.book_folder.specs.Refusals.{Answers, AnswersAfter, AnswersBy, AnswersStep};
ghost use Rattle.book_folder.specs.Wanted.{seen_view, wishes_view};

use crate::by_book::SomeBooks;
use crate::conflicts::conflicts;
use crate::refusal::{FolderFault, Place, Refusal};
use crate::seen::{Seen, Wishes};
use bundle_codec::{Bundle, OpView, decode_whole, encode_ops, join_bundles};
use op_core::{Op, OpSet, ReplicaName};
use project_file::load;
use replica_state::Replica;
use std::alloc::{AllocError, Global};
use usfm_ref::Book;

// The project with the base in it, what the files were written from, and how many operations the
// project held without it.
#[derive(Debug, Drop)]
pub(crate) struct Begun {
    pub(crate) replica: Replica,
    pub(crate) base: Replica,
    pub(crate) held: usize,
}

// Receives what the files were written from. Where a command was cut short while the base was
// written, the base is settled.
pub(crate) fn begin(alloc: Global, seen: &Seen<'_>, wishes: &Wishes) -> Result<Begun, Refusal>
    ensures { AnswersBy begins.begun_view
        (begins.begun_with (seen_view seen.now) (wishes_view wishes.now)) result }
{
    let mut begun = begin_alone(alloc, project_of(alloc, seen.project)?);
    receive_bases(alloc, &mut begun, seen.bases, wishes)?;
    settle_next(alloc, begun, seen)
}

// The project that a file has.
pub(crate) fn project_of(alloc: Global, bytes: &[u8]) -> Result<Replica, Refusal>
    ensures { Answers (begins.project_or (project_at bytes.now)) result }
{
    match load(alloc, bytes) {
        Ok(replica) => Ok(replica),
        Err(fault) => Err(Refusal::of_loading(fault)),
    }
}

// A project with nothing of a folder.
fn begin_alone(alloc: Global, replica: Replica) -> Begun
    ensures { begins.begun_view result ≡ begins.begun_alone replica }
{
    let base = Replica::new(alloc, replica.name());
    let held = replica.set().len();
    Begun {
        replica,
        base,
        held,
    }
}

fn receive_bases(
    alloc: Global,
    begun: &mut Begun,
    bases: &[Vec<u8>],
    wishes: &Wishes,
) -> Result<(), Refusal>
    ensures { let wanted = begins.with_bases (wishes_view wishes.now) 0
        (begins.begun_view begun.old) (map (λ b. b.items) bases.now) in
        AnswersAfter wanted (begins.begun_view begun.new) result }
{
    let mut at = 0;
    let mut left = bases;
    'bases: while let [bytes, later @ ..] = left {
        let place = Place::Base(at);
        let bundle = judge(alloc, place, bytes)?;
        receive_if_alike(alloc, &mut begun.replica, place, &bundle, wishes)?;
        receive(&mut begun.base, place, &bundle)?;
        at += 1;
        left = later;
    }
    Ok(())
}

// Settles the base, where a next one stands.
fn settle_next(alloc: Global, mut begun: Begun, seen: &Seen<'_>) -> Result<Begun, Refusal>
    ensures { let view = seen_view seen.now in
        AnswersBy begins.begun_view
        (begins.with_next view.unplaced (begins.begun_view begun) view.next) result }
{
    let name = begun.base.name();
    let Some(next) = seen.next else {
        return Ok(begun);
    };
    let place = Place::Next;
    let bundle = judge(alloc, place, next)?;
    let base = settled_base(alloc, &begun.base, &bundle, seen.unplaced)?;
    receive(&mut begun.replica, place, &bundle)?;
    begun.base = replica_of(alloc, name, place, &base)?;
    Ok(begun)
}

pub(crate) fn judge<'a>(alloc: Global, place: Place, bytes: &'a [u8]) -> Result<Bundle<'a>, Refusal>
    ensures { Answers (begins.judged place bytes.now) result }
{
    match decode_whole(alloc, bytes) {
        Ok(bundle) => Ok(bundle),
        Err(fault) => Err(Refusal::of_bundle(place, fault)),
    }
}

pub(crate) fn receive(
    replica: &mut Replica,
    place: Place,
    bundle: &Bundle<'_>,
) -> Result<u64, Refusal>
    ensures { AnswersStep (begins.received place replica.old bundle.now) replica.new result }
{
    match replica.receive(bundle) {
        Ok(new) => Ok(new),
        Err(fault) => Err(Refusal::of_receiving(place, fault)),
    }
}

// Receives a bundle; but one that has something and shares no operation with a project that has
// something, only where that is wished: it is of another project.
pub(crate) fn receive_if_alike(
    alloc: Global,
    replica: &mut Replica,
    place: Place,
    bundle: &Bundle<'_>,
    wishes: &Wishes,
) -> Result<u64, Refusal>
    ensures { let asked = wishes.now.joined in
        AnswersStep (begins.received_if_alike asked place replica.old bundle.now)
        replica.new result }
{
    if wishes.joined || !is_strange(alloc, replica, bundle)? {
        return receive(replica, place, bundle);
    }
    let before = conflicts(alloc, replica)?.len();
    receive(replica, place, bundle)?;
    let more = conflicts(alloc, replica)?.len().saturating_sub(before);
    Err(Refusal::Of(place, FolderFault::Unlike(more)))
}

// Whether a bundle has something and a replica too, and the two have nothing in common.
pub(crate) fn is_strange(
    alloc: Global,
    replica: &Replica,
    bundle: &Bundle<'_>,
) -> Result<bool, AllocError>
    ensures { IfOk result (λ is_strange.
        is_strange ≡ begins.is_strange replica.now.held bundle.now) }
{
    if replica.set().is_empty() || bundle.is_empty() {
        return Ok(false);
    }
    Ok(!shares_an_id(alloc, replica, bundle)?)
}

// Whether a replica holds an operation of a bundle, one that an operation of the bundle replaces,
// or one that replaces an operation of the bundle. In a bundle no operation is found by its id, so
// it is copied to look for the last, and only where neither of the others is there.
fn shares_an_id(alloc: Global, replica: &Replica, bundle: &Bundle<'_>) -> Result<bool, AllocError>
    ensures { IfOk result (λ shares. shares ≡ begins.shares_an_id replica.now.held bundle.now) }
{
    if has_any_of(replica, bundle) {
        return Ok(true);
    }
    let set = bundle.to_set(alloc)?;
    Ok(any_replaces(replica.set(), &set))
}

// Whether a replica holds an operation of a bundle, or one that an operation of the bundle
// replaces.
fn has_any_of(replica: &Replica, bundle: &Bundle<'_>) -> bool
    ensures { result ≡ list_any (begins.is_of replica.now.held) bundle.now }
{
    for view in bundle.ops() {
        if is_of(replica, &view) {
            return true;
        }
    }
    false
}

// Whether an operation of a set replaces one of another set.
fn any_replaces(set: &OpSet, other: &OpSet) -> bool
    ensures { result ≡ list_any (begins.replaces_held other.now) set.now }
{
    for op in set.iter() {
        if replaces_one_of(other, op) {
            return true;
        }
    }
    false
}

// Whether an operation replaces one of a set.
fn replaces_one_of(set: &OpSet, op: &Op) -> bool
    ensures { result ≡ begins.replaces_held set.now op.now }
{
    op.replaced().iter().any(|id| set.get(id).is_some())
}

// Whether a replica holds an operation, or one that it replaces.
fn is_of(replica: &Replica, view: &OpView<'_>) -> bool
    ensures { result ≡ begins.is_of replica.now.held view.now }
{
    replica.set().get(&view.id()).is_some() || replaces_held(replica, view)
}

// Whether a replica holds an operation that another one replaces.
fn replaces_held(replica: &Replica, view: &OpView<'_>) -> bool
    ensures { result ≡ begins.replaces_held replica.now.held view.now }
{
    for id in view.replaced() {
        if replica.set().get(&id).is_some() {
            return true;
        }
    }
    false
}

// A replica of a name that holds what a bundle has.
pub(crate) fn replica_of(
    alloc: Global,
    name: ReplicaName,
    place: Place,
    bytes: &[u8],
) -> Result<Replica, Refusal>
    ensures { Answers (begins.replica_at name place bytes.now) result }
{
    let bundle = judge(alloc, place, bytes)?;
    let mut replica = Replica::new(alloc, name);
    receive(&mut replica, place, &bundle)?;
    Ok(replica)
}

/// The base after the books' files were put in their places: of each book what the next base has,
/// but of a book of which a new file still stands in the program's folder, and so was not put in
/// its place, what the bases have.
///
/// # Errors
/// - `Of` a base or the next one, where it is no bundle, or two of them clash.
/// - `Memory` where an allocation failed.
pub fn settled(
    alloc: Global,
    bases: &[Vec<u8>],
    next: &[u8],
    unplaced: &[Book],
) -> Result<Vec<u8>, Refusal>
    ensures { AnswersBy (λ made. made.items)
        (begins.settled (map (λ b. b.items) bases.now) next.now unplaced.now) result }
{
    let base = union_of(alloc, bases)?;
    let bundle = judge(alloc, Place::Next, next)?;
    settled_base(alloc, &base, &bundle, unplaced)
}

// What the bundles of the base have together.
fn union_of(alloc: Global, bases: &[Vec<u8>]) -> Result<Replica, Refusal>
    ensures { Answers (begins.union_of (map (λ b. b.items) bases.now)) result }
{
    let mut base = Replica::new(alloc, any_name());
    let mut at = 0;
    let mut left = bases;
    'bases: while let [bytes, later @ ..] = left {
        let place = Place::Base(at);
        let bundle = judge(alloc, place, bytes)?;
        receive(&mut base, place, &bundle)?;
        at += 1;
        left = later;
    }
    Ok(base)
}

// What the files of a folder were written from, as a replica.
pub(crate) fn base_of(alloc: Global, seen: &Seen<'_>) -> Result<Replica, Refusal>
    ensures { Answers (begins.base_of (seen_view seen.now)) result }
{
    let base = union_of(alloc, seen.bases)?;
    let Some(next) = seen.next else {
        return Ok(base);
    };
    let bundle = judge(alloc, Place::Next, next)?;
    let settled = settled_base(alloc, &base, &bundle, seen.unplaced)?;
    replica_of(alloc, base.name(), Place::Next, &settled)
}

// The name of a replica that makes no operation, and so is never seen.
fn any_name() -> ReplicaName
    ensures { result ≡ codes "base" }
{
    ReplicaName::read("base").unwrap()
}

fn settled_base(
    alloc: Global,
    base: &Replica,
    next: &Bundle<'_>,
    unplaced: &[Book],
) -> Result<Vec<u8>, Refusal>
    ensures { AnswersBy (λ made. made.items)
        (begins.settled_base unplaced.now base.now.held next.now) result }
{
    let next = next.to_set(alloc)?;
    let left = ops_of(alloc, base.set(), unplaced, true)?;
    let put = ops_of(alloc, &next, unplaced, false)?;
    join(alloc, Place::Next, &left, &put)
}

// The bundle of the union of two lists of operations that rise by id.
pub(crate) fn join(
    alloc: Global,
    place: Place,
    left: &[&Op],
    right: &[&Op],
) -> Result<Vec<u8>, Refusal>
    ensures { AnswersBy (λ made. made.items)
        (begins.joined_at place (map (λ op. op.now) left.now) (map (λ op. op.now) right.now))
        result }
{
    let left = encode_ops(alloc, left)?;
    let right = encode_ops(alloc, right)?;
    match join_bundles(alloc, &left, &right) {
        Ok(bytes) => Ok(bytes),
        Err(fault) => Err(Refusal::of_joining(place, fault)),
    }
}

// The operations of a set that are of one of some books, or of none of them.
pub(crate) fn ops_of<'a>(
    alloc: Global,
    set: &'a OpSet,
    books: &[Book],
    is_among: bool,
) -> Result<Vec<&'a Op>, AllocError>
    ensures { IfOk result (λ ops. map (λ op. op.now) ops.items
        ≡ begins.ops_by is_among books.now set.now) }
{
    let among = SomeBooks::new(alloc, books)?;
    let mut ops = Vec::new(alloc);
    for op in set.iter() {
        if among.has(op.book()) == is_among {
            ops.push(op)?;
        }
    }
    Ok(ops)
}
