// Two rising lists of operations, walked side by side.
ghost use Rattle.std.specs.Prelude.{◌≡◌, ◌<◌, ◌+◌, ◌≤◌, OnOk, IfOk, [], ◌++◌, IsTrue, is_none};
ghost use Rattle.std.specs.Prelude.{length};
ghost use Rattle.std.specs.Prelude.{filter, take, drop, reverse, vec_len, vec_capacity};
ghost use Rattle.std.specs.List.{AllByRecursion, list_any};
ghost use Rattle.op_core.specs.Ops.{IsOperation};
ghost use Rattle.op_core.specs.Sets as sets;
ghost use Rattle.op_core.specs.Loops.Index.{AreApart, IsBefore};

use super::place::{find_near, place_last};
use crate::ids::op_id::OpId;
use crate::ids::search::Search;
use crate::operations::op::Op;
use std::alloc::{AllocError, Global};
use std::cmp::Ordering;

// The least id under which two rising lists have operations that do not agree.
pub(crate) fn clash(held: &[Op], other: &[Op], search: &mut Search) -> Option<OpId>
    requires held { IsTrue (sets.rises held.now) }
    requires other { IsTrue (sets.rises other.now) }
    ensures { result ≡ sets.clash held.now other.now }
{
    let mut left = held;
    let mut right = other;
    'pairs: while let Some((x, later)) = left.split_first() {
        let Some((y, others)) = right.split_first() else {
            return None;
        };
        search.count();
        match x.id().cmp(&y.id()) {
            Ordering::Less => left = later,
            Ordering::Greater => right = others,
            Ordering::Equal => {
                if !x.agrees(y) {
                    return Some(x.id());
                }
                left = later;
                right = others;
            }
        }
    }
    None
}

// Whether one of the operations has an id that is not held.
pub(crate) fn has_new(held: &[Op], new: &[Op], search: &mut Search) -> bool
    requires { IsTrue (sets.rises held.now) }
    ensures { result ≡ list_any (λ o. is_none (sets.get held.now o.id)) new.now }
{
    for op in new {
        if find_near(held, op.id(), search).is_none() {
            return true;
        }
    }
    false
}

// Takes out of a rising list the operations whose ids are held.
pub(crate) fn remove_held(new: &mut Vec<Op>, held: &[Op], search: &mut Search)
    requires { IsTrue (sets.rises held.now) }
    ensures { new.new.items ≡ filter (λ o. is_none (sets.get held.now o.id)) new.old.items }
{
    let mut kept = 0;
    for i in 0..new.len() {
        if find_near(held, new[i].id(), search).is_none() {
            new.swap(kept, i);
            kept += 1;
        }
    }
    new.truncate(kept);
}

// How many held operations are before the first of the new ones.
pub(crate) fn place_first(held: &[Op], new: &[Op], search: &mut Search) -> usize
    requires held { IsTrue (sets.rises held.now) }
    requires new { IsTrue (sets.rises new.now) }
    ensures within { result ≤ length held.now }
    ensures before { IsBefore result held.now new.now }
{
    match new.split_first() {
        None => held.len(),
        Some((op, _)) => place_last(held, op.id(), search),
    }
}

// Looks at each operation, which shows that it is within its ranges. Nothing of it is left in the
// program.
pub(crate) fn look_at_each(new: &[Op])
    ensures { AllByRecursion IsOperation new.now }
{
    for op in new {
        let _ = op.id();
    }
}

// Makes room for this many operations more. An empty list needs none: the list of the new ones
// takes its place.
pub(crate) fn reserve_ops(ops: &mut Vec<Op>, count: usize) -> Result<(), AllocError>
    ensures items { ops.new.items ≡ ops.old.items }
    ensures len { vec_len ops.new ≡ vec_len ops.old }
    ensures room { OnOk result
        (0 < vec_len ops.old → vec_len ops.old + count ≤ vec_capacity ops.new) }
{
    if ops.is_empty() {
        return Ok(());
    }
    ops.reserve(count)
}

// An empty list with room for this many new operations and what is after the first of them. Where
// nothing is after it, none is needed.
pub(crate) fn tail_of(
    alloc: Global,
    len: usize,
    from: usize,
    count: usize,
) -> Result<Vec<Op>, AllocError>
    ensures items { IfOk result (λ tail. tail.items ≡ []) }
    ensures room { IfOk result (λ tail. from < len → len + count ≤ vec_capacity tail + from) }
{
    if from >= len {
        return Ok(Vec::new(alloc));
    }
    let room = (len - from).checked_add(count).ok_or(AllocError)?;
    Vec::with_capacity(alloc, room)
}

// Merges new operations, none of whose ids is held, into a rising list. There is room for them, and
// in `tail` for them and for what is after the first of them.
pub(crate) fn merge(
    ops: &mut Vec<Op>,
    mut new: Vec<Op>,
    tail: Vec<Op>,
    from: usize,
    search: &mut Search,
)
    requires ops { IsTrue (sets.rises ops.old.items) }
    requires new { IsTrue (sets.rises new.items) }
    requires apart { AreApart ops.old.items new.items }
    requires before { IsBefore from ops.old.items new.items }
    requires tail { tail.items ≡ [] }
    requires room { 0 < vec_len ops.old → vec_len ops.old + vec_len new ≤ vec_capacity ops.old }
    requires room_after { from < vec_len ops.old
        → vec_len ops.old + vec_len new ≤ vec_capacity tail + from }
    ensures { ops.new.items ≡ sets.join ops.old.items new.items }
{
    if ops.is_empty() {
        *ops = new;
    } else if from >= ops.len() {
        ops.append(&mut new).unwrap();
    } else {
        interleave(ops, new, tail, from, search);
    }
}

// Merges new operations into a rising list from the back: what is after each of them goes to the
// tail, the last first, and at last from there to the end of the list.
fn interleave(
    ops: &mut Vec<Op>,
    mut new: Vec<Op>,
    mut tail: Vec<Op>,
    from: usize,
    search: &mut Search,
)
    requires ops { IsTrue (sets.rises ops.old.items) }
    requires new { IsTrue (sets.rises new.items) }
    requires apart { AreApart ops.old.items new.items }
    requires before { IsBefore from ops.old.items new.items }
    requires tail { tail.items ≡ [] }
    requires room { vec_len ops.old + vec_len new ≤ vec_capacity ops.old }
    requires room_after { vec_len ops.old + vec_len new ≤ vec_capacity tail + from }
    ensures { ops.new.items ≡ sets.join ops.old.items new.items }
{
    'merging: while let Some(op) = new.pop() {
        let at = place_last(ops, op.id(), search);
        move_after(ops, at, &mut tail);
        tail.push(op).unwrap();
    }
    move_after(&mut tail, 0, ops);
}

// Moves what is from a place on to the end of another list, the last first. There is room for it.
pub(crate) fn move_after<T: Drop>(list: &mut Vec<T>, at: usize, to: &mut Vec<T>)
    requires at { at ≤ vec_len list.old }
    requires room { vec_len to.old + vec_len list.old ≤ vec_capacity to.old + at }
    ensures left { list.new.items ≡ take at list.old.items }
    ensures moved { to.new.items ≡ to.old.items ++ reverse (drop at list.old.items) }
    ensures left_len { vec_len list.new ≡ at }
    ensures moved_len { vec_len to.new + at ≡ vec_len to.old + vec_len list.old }
    ensures left_room { vec_capacity list.new ≡ vec_capacity list.old }
    ensures moved_room { vec_capacity to.old ≤ vec_capacity to.new }
{
    'moving: while list.len() > at {
        let Some(item) = list.pop() else {
            return;
        };
        to.push(item).unwrap();
    }
}
