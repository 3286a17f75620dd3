// Texts of a set that are left out.
ghost use Rattle.std.specs.Prelude.{◌≡◌, length, filter, IfOk};
ghost use Rattle.op_core.specs.Ids.{Id, same_id};
ghost use Rattle.op_core.specs.Sets as sets;
ghost use Rattle.op_core.specs.Thinned as thinned;
ghost use Rattle.op_core.specs.NextIds as next_ids;

use super::OpSet;
use crate::ids::op_id::OpId;
use crate::index::leave_past;
use crate::lists::place::{leave_text_at, place_last};
use crate::operations::op::Op;
use std::alloc::{AllocError, Global};

impl OpSet {
    /// Leaves out the text of a held operation that a held operation of its segment names, and says
    /// whether it had one. It does not allocate.
    pub fn thin_id(&mut self, id: &OpId) -> bool
        requires past { thinned.ArePast (same_id id.now) self.old }
        ensures thin { self.new ≡ thinned.thin_where (same_id id.now) self.old }
        ensures was { result ≡ thinned.has_text (sets.get self.old id.now) }
    {
        let at = place_last(&self.ops, *id, &mut self.search);
        leave_text_at(&mut self.ops, at, *id, &mut self.search)
    }

    /// Leaves out the text of every operation that a held operation of its segment names, and says
    /// how many had one. It does not allocate.
    pub fn thin(&mut self) -> u64
        ensures thin { self.new ≡ thinned.thin self.old }
        ensures count { result ≡ length (filter (thinned.is_left_out self.old) self.old) }
    {
        leave_past(&mut self.ops, &self.chapters, &mut self.search)
    }

    // Leaves out the texts of the held operations that others, agreeing with them, have thinned.
    pub(super) fn leave_thinned(&mut self, others: &[Op])
        requires past { thinned.ArePast (thinned.is_thinned_in others.now) self.old }
        ensures { self.new ≡ thinned.thin_where (thinned.is_thinned_in others.now) self.old }
    {
        for op in others {
            if op.text().is_none() {
                self.thin_id(&op.id());
            }
        }
    }

    // Leaves out the texts of the operations of some ids, each of which a held operation of its
    // segment names.
    pub(super) fn leave_texts(&mut self, ids: &[OpId])
        requires past { thinned.ArePast (next_ids.is_among ids.now) self.old }
        ensures { self.new ≡ thinned.thin_where (next_ids.is_among ids.now) self.old }
    {
        for id in ids {
            self.thin_id(id);
        }
    }
}

// The ids of the operations whose texts are left out.
pub(super) fn ids(alloc: Global, ops: &[Op]) -> Result<Vec<OpId>, AllocError>
    ensures { IfOk result
        (λ ids. (q : Id) → next_ids.is_among ids.items q ≡ thinned.is_thinned_in ops.now q) }
{
    let mut ids = Vec::new(alloc);
    for op in ops {
        if op.text().is_none() {
            ids.push(op.id())?;
        }
    }
    Ok(ids)
}
