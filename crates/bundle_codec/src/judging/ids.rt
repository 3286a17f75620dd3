// Ids, lent from the bytes that spell them.
ghost use Rattle.std.specs.Prelude.{◌≡◌, None, Ok, Err, IsOk, IsTrue, option_map};
ghost use Rattle.std.specs.List.{list_all};
ghost use Rattle.std.specs.Iterator.{YieldsFirst, item_count};
ghost use Rattle.op_core.specs.Names.{is_name, is_name_char};
ghost use Rattle.std.specs.Cmp.Lexicographic.{pointwise};
ghost use Rattle.op_core.specs.Ids.{id_cmp, is_id, same_id};
ghost use Rattle.bundle_codec.specs.Reading.{Gives, id_at, comes_after, named_at, after_id};
ghost use Rattle.bundle_codec.specs.Reading.{many_at, replaced_at, ahead};
ghost use Rattle.bundle_codec.specs.Views.{id_view, each_id_at, ids_at, ids_view};

use super::fields::{block_in, block_of, u8_at, u8_in, u64_at, u64_in};
use crate::fault::BundleFault;
use op_core::{OpId, ReplicaName, is_number};
use std::cmp::Ordering;
use std::marker::Model;

// An id whose name lies in the bytes.
#[derive(Clone, Copy, Debug)]
pub(crate) struct IdView<'a> {
    pub(crate) number: u64,
    pub(crate) name: &'a [u8],
}

// This many ids, which the bytes begin with.
#[derive(Clone, Copy, Debug)]
pub(crate) struct IdList<'a> {
    pub(crate) count: u64,
    pub(crate) bytes: &'a [u8],
}

/// The ids that an operation names as replaced, in ascending order. Made by `OpView::replaced`; it
/// does not allocate.
#[derive(Debug, Drop)]
pub struct ReplacedIds<'a> {
    left: u64,
    bytes: &'a [u8],
}

impl<'a> Model for ReplacedIds<'a> {
    ghost use Rattle.std.specs.Prelude.{List, IsOk};
    ghost use Rattle.op_core.specs.Ids.{Id};
    ghost use Rattle.bundle_codec.specs.Views.{each_id_at, found};

    ghost Value = { List Id };

    ghost view = { λ s. found (each_id_at s.left s.bytes.now) };

    ghost invariant = { λ s. IsOk (each_id_at s.left s.bytes.now) };
}

impl<'a> ReplacedIds<'a> {
    pub(crate) fn new(list: IdList<'a>) -> ReplacedIds<'a>
        requires { IsOk (each_id_at list.count list.bytes.now) }
        ensures { result ≡ ids_view list.entry }
    {
        ReplacedIds {
            left: list.count,
            bytes: list.bytes,
        }
    }
}

impl<'a> Iterator for ReplacedIds<'a> {
    type Item = OpId;

    ghost next_gives = { YieldsFirst (λ s. s) };

    ghost remaining = { item_count (λ s. s) };

    fn next(&mut self) -> Option<OpId> {
        if self.left == 0 {
            return None;
        }
        let (id, rest) = id_in(self.bytes);
        self.left -= 1;
        self.bytes = rest;
        Some(made(&id))
    }
}

fn is_name_byte(c: u8) -> bool
    ensures { result ≡ is_name_char c }
{
    c.is_ascii_lowercase() || c.is_ascii_digit() || c == b'-'
}

fn all_name_bytes(bytes: &[u8]) -> bool
    ensures { result ≡ list_all is_name_char bytes.now }
{
    bytes.iter().all(|c| is_name_byte(*c))
}

pub(crate) fn is_name(bytes: &[u8]) -> bool
    ensures { result ≡ is_name bytes.now }
{
    let all = all_name_bytes(bytes);
    matches!(bytes.len(), 1..=32) && all
}

// Judges the id at the front, field by field.
#[tactic(auto, unfolding(crate::specs::Reading::id_at))]
pub(crate) fn id_of(bad: BundleFault, bytes: &[u8]) -> Result<(IdView<'_>, &[u8]), BundleFault>
    ensures { Gives (λ x. (id_view x.0, x.1.now)) result (id_at bad bytes.now) }
{
    let (number, rest) = u64_at(bytes)?;
    if !is_number(number) {
        return Err(bad);
    }
    let (len, rest) = u8_at(rest)?;
    if !matches!(len, 1..=32) {
        return Err(bad);
    }
    let (name, rest) = block_of(len as u64, rest)?;
    if !is_name(name) {
        return Err(bad);
    }
    Ok((IdView { number, name }, rest))
}

// The id at the front of bytes that were judged.
pub(crate) fn id_in(bytes: &[u8]) -> (IdView<'_>, &[u8])
    requires { IsOk (id_at BundleFault.Truncated bytes.now) }
    ensures value { id_at BundleFault.Truncated bytes.now ≡ Ok (id_view result.0, result.1.now) }
    ensures valid { IsTrue (is_id (id_view result.0)) }
{
    let (number, rest) = u64_in(bytes);
    let (len, rest) = u8_in(rest);
    let (name, rest) = block_in(len as u64, rest);
    (IdView { number, name }, rest)
}

// The id as a value, without the bytes.
pub(crate) fn made(id: &IdView<'_>) -> OpId
    requires { IsTrue (is_id (id_view id.now)) }
    ensures { result ≡ id_view id.now }
{
    OpId {
        number: id.number,
        name: made_name(id.name),
    }
}

// The name of these bytes as a value, without the bytes.
pub(crate) fn made_name(bytes: &[u8]) -> ReplicaName
    requires { IsTrue (is_name bytes.now) }
    ensures { result ≡ bytes.now }
{
    ReplicaName::of_bytes(bytes).unwrap()
}

// How one id compares to another.
pub(crate) fn compared(a: &IdView<'_>, b: &IdView<'_>) -> Ordering
    ensures { result ≡ id_cmp (id_view a.now) (id_view b.now) }
{
    match a.number.cmp(&b.number) {
        Ordering::Equal => a.name.cmp(b.name),
        order => order,
    }
}

pub(crate) fn comes_after(before: &Option<IdView<'_>>, id: &IdView<'_>) -> bool
    ensures { result ≡ comes_after (option_map id_view before.now) (id_view id.now) }
{
    match before {
        None => true,
        Some(before) => compared(before, id).is_lt(),
    }
}

// An id that may be named as replaced by the operation of the id `own`, after the one before it.
#[tactic(auto, unfolding(crate::specs::Reading::named_at))]
fn named_of<'a>(
    bad: BundleFault,
    own: &IdView<'_>,
    before: &Option<IdView<'_>>,
    bytes: &'a [u8],
) -> Result<(IdView<'a>, &'a [u8]), BundleFault>
    ensures { Gives (λ x. (id_view x.0, x.1.now)) result
        (named_at bad (id_view own.now) (option_map id_view before.now) bytes.now) }
{
    let (id, rest) = id_of(bad, bytes)?;
    if !comes_after(before, &id) || id.number >= own.number {
        return Err(bad);
    }
    Ok((id, rest))
}

// Judges this many replaced ids, and gives the bytes after them.
fn after_ids<'a>(
    bad: BundleFault,
    own: &IdView<'_>,
    count: u64,
    bytes: &'a [u8],
) -> Result<&'a [u8], BundleFault>
    ensures { Gives (λ r. r.now) result
        (ahead (many_at (named_at bad (id_view own.now)) after_id count None bytes.now)) }
{
    let mut before = None;
    let mut rest = bytes;
    for _ in 0..count {
        let (id, left) = named_of(bad, own, &before, rest)?;
        before = Some(id);
        rest = left;
    }
    Ok(rest)
}

// Whether the ids are those of the walk.
pub(crate) fn same_ids(ids: &[OpId], mut walk: ReplacedIds<'_>) -> bool
    ensures { result ≡ pointwise same_id ids.now walk.entry }
{
    for id in ids {
        match walk.next() {
            Some(other) if *id == other => {}
            _ => return false,
        }
    }
    walk.next().is_none()
}

// Judges the replaced ids of the operation of the id `own`.
#[tactic(auto, unfolding(crate::specs::Reading::replaced_at))]
pub(crate) fn replaced_of<'a>(
    bad: BundleFault,
    own: &IdView<'_>,
    bytes: &'a [u8],
) -> Result<(IdList<'a>, &'a [u8]), BundleFault>
    ensures { Gives (λ x. (ids_view x.0, x.1.now)) result
        (replaced_at bad (id_view own.now) bytes.now) }
{
    let (count, ids) = u64_at(bytes)?;
    let rest = after_ids(bad, own, count, ids)?;
    Ok((IdList { count, bytes: ids }, rest))
}

// The bytes after this many ids that were judged.
fn after_ids_in(count: u64, bytes: &[u8]) -> &[u8]
    requires { IsOk (each_id_at count bytes.now) }
    ensures { ahead (each_id_at count bytes.now) ≡ Ok result.now }
{
    let mut rest = bytes;
    for _ in 0..count {
        let (_, left) = id_in(rest);
        rest = left;
    }
    rest
}

// The replaced ids at the front of bytes that were judged.
pub(crate) fn replaced_in(bytes: &[u8]) -> (IdList<'_>, &[u8])
    requires { IsOk (ids_at bytes.now) }
    ensures value { ids_at bytes.now ≡ Ok (ids_view result.0, result.1.now) }
    ensures readable { IsOk (each_id_at result.0.count result.0.bytes.now) }
{
    let (count, ids) = u64_in(bytes);
    let rest = after_ids_in(count, ids);
    (IdList { count, bytes: ids }, rest)
}
