// The index of operations where none is held. It is made aside, one segment after the other, and no
// register is looked for in it, since none is there before its segment's turns come.
ghost use Rattle.std.specs.Prelude.{◌≡◌, IsTrue, IfOk, Some};
ghost use Rattle.op_core.specs.Sets as sets;
ghost use Rattle.op_core.specs.Loops.Index.{IsIndex};
ghost use Rattle.op_core.specs.Loops.Turns.{AreTurnsOf, comes, is_called};
ghost use Rattle.op_core.specs.Loops.Changes.{IsBegun};

use super::change::Aside;
use super::chapter::Chapter;
use super::put_in;
use super::register::Register;
use super::turns::{Turn, gather_arrived, gather_named, run_len};
use crate::ids::part_ids;
use crate::ids::search::Search;
use crate::operations::op::Op;
use std::alloc::{AllocError, Global};
use usfm_ref::Key;

// The index of operations, by their turns.
pub(crate) fn begin_index(
    alloc: Global,
    new: &[Op],
    turns: &[Turn],
    search: &mut Search,
) -> Result<Vec<Chapter>, AllocError>
    requires new { IsTrue (sets.rises new.now) }
    requires turns { AreTurnsOf new.now turns.now }
    ensures { IfOk result (λ chapters. IsIndex new.now chapters.items) }
{
    let mut chapters = Vec::new(alloc);
    let mut aside = Aside::new(alloc);
    let mut rest = turns;
    'runs: while let Some((first, others)) = rest.split_first() {
        let len = 1 + run_len(first, others, search);
        let (own, later) = rest.split_at(len);
        let register = begin_register(alloc, new, first.segment.key, own, &mut aside, search)?;
        put_in(&mut chapters, alloc, first.segment.book, register, search)?;
        rest = later;
    }
    Ok(chapters)
}

// The register of a segment, by its turns.
fn begin_register(
    alloc: Global,
    new: &[Op],
    key: Key,
    own: &[Turn],
    aside: &mut Aside,
    search: &mut Search,
) -> Result<Register, AllocError>
    ensures key { IfOk result (λ r. r.key ≡ key) }
    ensures begun { IfOk result (λ r.
        IsBegun (comes new.now own.now) (is_called new.now own.now) (Some r)) }
{
    gather_arrived(&mut aside.arrived, new, own, search)?;
    gather_named(&mut aside.named, new, own, search)?;
    part_ids(
        &mut aside.fresh,
        &mut aside.absent,
        &aside.arrived,
        &aside.named,
        search,
    )?;
    let shown = Vec::from_slice(alloc, &aside.fresh)?;
    let missing = Vec::from_slice(alloc, &aside.absent)?;
    Ok(Register {
        key,
        shown,
        missing,
    })
}
