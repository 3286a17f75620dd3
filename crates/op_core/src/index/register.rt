ghost use Rattle.std.specs.Prelude.{◌≡◌, ◌<◌, ◌≤◌, ◌+◌, IsTrue, [], OnOk, IfOk, vec_len};
ghost use Rattle.std.specs.Prelude.{vec_capacity};
ghost use Rattle.usfm_ref.specs.Keys.{key_cmp};
ghost use Rattle.usfm_ref.specs.Segments.{segment};
ghost use Rattle.op_core.specs.Ids.{ids_rise};
ghost use Rattle.op_core.specs.Sets as sets;
ghost use Rattle.op_core.specs.NextIds.{is_among};
ghost use Rattle.op_core.specs.Loops.Index.{HasRoom, IsSameBut, IsChangeOf, IsRisingChange, Takes};

use super::change::{Aside, Change, change_of};
use crate::ids::op_id::OpId;
use crate::ids::search::Search;
use crate::ids::{remove_ids, reserve_ids, unite_ids};
use crate::operations::op::Op;
use std::alloc::{AllocError, Global};
use std::cmp::Ordering;
use usfm_ref::{Book, Key};

/// What a set keeps of a segment: the ids that it shows, and the ids that it misses, which its
/// operations name and none of them has. Both rise.
#[derive(Debug, Drop)]
pub struct Register {
    pub(crate) key: Key,
    pub(crate) shown: Vec<OpId>,
    pub(crate) missing: Vec<OpId>,
}

impl Register {
    // The register of a segment without operations. It does not allocate.
    pub(crate) fn new(alloc: Global, key: Key) -> Register
        ensures key { result.key ≡ key }
        ensures shown { result.shown.items ≡ [] }
        ensures missing { result.missing.items ≡ [] }
    {
        Register {
            key,
            shown: Vec::new(alloc),
            missing: Vec::new(alloc),
        }
    }

    // How the register stands to the one of this key.
    pub(crate) fn order(&self, key: Key) -> Ordering
        ensures { result ≡ key_cmp self.now.key key }
    {
        self.key.cmp(&key)
    }

    // What changes in it as the arrived ids of `aside` come to its segment, whose operations name
    // the named ids of `aside`. It gets the room for that.
    pub(crate) fn ready(
        &mut self,
        alloc: Global,
        held: &[Op],
        book: Book,
        aside: &mut Aside,
        search: &mut Search,
    ) -> Result<Change, AllocError>
        requires held { IsTrue (sets.rises held.now) }
        requires shown { IsTrue (ids_rise self.old.shown.items) }
        requires missing { IsTrue (ids_rise self.old.missing.items) }
        requires arrived { IsTrue (ids_rise aside.old.arrived.items) }
        requires named { IsTrue (ids_rise aside.old.named.items) }
        ensures same { IsSameBut self.old self.new }
        ensures change { IfOk result (λ c. IsChangeOf held.now (segment book self.old.key)
            (is_among aside.old.arrived.items) (is_among aside.old.named.items)
            self.old.shown.items self.old.missing.items c) }
        ensures rising { IfOk result IsRisingChange }
        ensures room { IfOk result (λ c. HasRoom c self.new) }
    {
        let change = change_of(alloc, held, book, self, aside, search)?;
        make_room(&mut self.shown, change.arrived.len())?;
        make_room(&mut self.missing, change.lacking.len())?;
        Ok(change)
    }

    // Makes a change, for which it has room.
    pub(crate) fn take(&mut self, change: Change, search: &mut Search)
        requires shown { IsTrue (ids_rise self.old.shown.items) }
        requires missing { IsTrue (ids_rise self.old.missing.items) }
        requires rising { IsRisingChange change }
        requires room { HasRoom change self.old }
        ensures { Takes change self.old self.new }
    {
        remove_ids(&mut self.shown, &change.leaving, search);
        unite_ids(&mut self.shown, change.arrived, search);
        remove_ids(&mut self.missing, &change.found, search);
        unite_ids(&mut self.missing, change.lacking, search);
    }
}

// Makes room for this many ids more. A list that is empty needs none: other ids come as a list of
// their own.
fn make_room(ids: &mut Vec<OpId>, more: usize) -> Result<(), AllocError>
    ensures items { ids.new.items ≡ ids.old.items }
    ensures len { vec_len ids.new ≡ vec_len ids.old }
    ensures ok { OnOk result (0 < vec_len ids.new → vec_len ids.new + more ≤ vec_capacity ids.new) }
    ensures capacity { vec_capacity ids.old ≤ vec_capacity ids.new }
{
    if ids.is_empty() {
        return Ok(());
    }
    reserve_ids(ids, more)
}
