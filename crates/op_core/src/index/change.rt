// What new operations change of what a segment shows and misses: four sets of ids, which follow
// from the ids that arrive, those that are named, and what the segment showed and missed before.
ghost use Rattle.std.specs.Prelude.{◌≡◌, ◌&&◌, not, IsTrue, IfOk};
ghost use Rattle.usfm_ref.specs.Segments.{segment};
ghost use Rattle.op_core.specs.Ids.{Id, ids_rise};
ghost use Rattle.op_core.specs.Sets as sets;
ghost use Rattle.op_core.specs.NextIds.{is_among};
ghost use Rattle.op_core.specs.Loops.Index.{IsChangeOf, IsRisingChange, is_in};

use super::register::Register;
use crate::ids::op_id::OpId;
use crate::ids::search::Search;
use crate::ids::{common_ids, part_ids, remove_ids};
use crate::lists::place::is_in;
use crate::operations::op::Op;
use std::alloc::{AllocError, Global};
use usfm_ref::{Book, Key, Segment};

/// What changes at a segment: which ids it comes to show and no longer shows, and which it comes to
/// miss and no longer misses. Each list rises.
#[derive(Debug, Drop)]
pub(crate) struct Change {
    pub(crate) book: Book,
    pub(crate) key: Key,
    pub(crate) arrived: Vec<OpId>,
    pub(crate) leaving: Vec<OpId>,
    pub(crate) lacking: Vec<OpId>,
    pub(crate) found: Vec<OpId>,
}

/// Lists that changes are reckoned in, one segment after the other: the ids that arrive and those
/// that are named, and what of each is not in the other.
#[derive(Debug, Drop)]
pub(crate) struct Aside {
    pub(crate) arrived: Vec<OpId>,
    pub(crate) named: Vec<OpId>,
    pub(crate) fresh: Vec<OpId>,
    pub(crate) absent: Vec<OpId>,
}

impl Aside {
    // Lists that take no memory yet.
    pub(crate) fn new(alloc: Global) -> Aside {
        Aside {
            arrived: Vec::new(alloc),
            named: Vec::new(alloc),
            fresh: Vec::new(alloc),
            absent: Vec::new(alloc),
        }
    }
}

// What changes at a register's segment as the arrived ids of `aside` come there, whose operations
// name the named ids of `aside`. What arrives is shown if it is neither named nor was missed; what
// is named and is of no operation there is missed. The lists that a register may keep take no more
// than they need.
pub(crate) fn change_of(
    alloc: Global,
    held: &[Op],
    book: Book,
    register: &Register,
    aside: &mut Aside,
    search: &mut Search,
) -> Result<Change, AllocError>
    requires held { IsTrue (sets.rises held.now) }
    requires shown { IsTrue (ids_rise register.now.shown.items) }
    requires missing { IsTrue (ids_rise register.now.missing.items) }
    requires arrived { IsTrue (ids_rise aside.old.arrived.items) }
    requires named { IsTrue (ids_rise aside.old.named.items) }
    ensures change { IfOk result (λ c. IsChangeOf held.now (segment book register.now.key)
        (is_among aside.old.arrived.items) (is_among aside.old.named.items)
        register.now.shown.items register.now.missing.items c) }
    ensures rising { IfOk result IsRisingChange }
{
    let segment = Segment {
        book,
        key: register.key,
    };
    let leaving = common_ids(alloc, &aside.named, &register.shown, search)?;
    let found = common_ids(alloc, &aside.arrived, &register.missing, search)?;
    part_ids(
        &mut aside.fresh,
        &mut aside.absent,
        &aside.arrived,
        &aside.named,
        search,
    )?;
    remove_ids(&mut aside.fresh, &found, search);
    remove_ids(&mut aside.absent, &leaving, search);
    remove_ids(&mut aside.absent, &register.missing, search);
    remove_held_ids(&mut aside.absent, held, &segment, search);
    let arrived = Vec::from_slice(alloc, &aside.fresh)?;
    let lacking = Vec::from_slice(alloc, &aside.absent)?;
    Ok(Change {
        book,
        key: register.key,
        arrived,
        leaving,
        lacking,
        found,
    })
}

// Takes out of a list the ids of operations of a segment.
fn remove_held_ids(ids: &mut Vec<OpId>, held: &[Op], segment: &Segment, search: &mut Search)
    requires held { IsTrue (sets.rises held.now) }
    requires rising { IsTrue (ids_rise ids.old.items) }
    ensures rising { IsTrue (ids_rise ids.new.items) }
    ensures members { (q : Id) → is_among ids.new.items q
        ≡ (is_among ids.old.items q && not (is_in held.now segment.now q)) }
{
    let mut kept = 0;
    for i in 0..ids.len() {
        if !is_in(held, segment, ids[i], search) {
            ids.swap(kept, i);
            kept += 1;
        }
    }
    ids.truncate(kept);
}
