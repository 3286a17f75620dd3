// The ids that registers miss and no operation has. One that is missed in a segment may be held in
// another.
ghost use Rattle.std.specs.Prelude.{◌≡◌, ◌&&◌, ◌||◌, not, IsTrue, OnOk, OnErr};
ghost use Rattle.std.specs.List.{list_any};
ghost use Rattle.op_core.specs.Ids.{Id, same_id};
ghost use Rattle.op_core.specs.Sets as sets;
ghost use Rattle.op_core.specs.Lists as lists;
ghost use Rattle.op_core.specs.Loops.Index.{is_missed, is_missed_in};

use super::chapter::Chapter;
use super::register::Register;
use crate::ids::op_id::OpId;
use crate::ids::search::Search;
use crate::lists::place::find_op;
use crate::operations::op::Op;
use std::alloc::AllocError;

// Adds what the chapters' registers miss and no operation has. Where that fails, there is one.
pub(crate) fn push_awaited(
    chapters: &[Chapter],
    held: &[Op],
    ids: &mut Vec<OpId>,
) -> Result<(), AllocError>
    requires held { IsTrue (sets.rises held.now) }
    ensures ids { OnOk result ((q : Id) → list_any (same_id q) ids.new.items
        ≡ (list_any (same_id q) ids.old.items
        || (is_missed_in chapters.now q && not (lists.is_held held.now q)))) }
    ensures one { OnErr result ((q : Id)
        × IsTrue (is_missed_in chapters.now q && not (lists.is_held held.now q))) }
{
    for chapter in chapters {
        push_missing_in(&chapter.registers, held, ids)?;
    }
    Ok(())
}

fn push_missing_in(
    registers: &[Register],
    held: &[Op],
    ids: &mut Vec<OpId>,
) -> Result<(), AllocError>
    requires held { IsTrue (sets.rises held.now) }
    ensures ids { OnOk result ((q : Id) → list_any (same_id q) ids.new.items
        ≡ (list_any (same_id q) ids.old.items
        || (is_missed registers.now q && not (lists.is_held held.now q)))) }
    ensures one { OnErr result ((q : Id)
        × IsTrue (is_missed registers.now q && not (lists.is_held held.now q))) }
{
    for register in registers {
        push_unheld(&register.missing, held, ids)?;
    }
    Ok(())
}

fn push_unheld(missing: &[OpId], held: &[Op], ids: &mut Vec<OpId>) -> Result<(), AllocError>
    requires held { IsTrue (sets.rises held.now) }
    ensures ids { OnOk result ((q : Id) → list_any (same_id q) ids.new.items
        ≡ (list_any (same_id q) ids.old.items
        || (list_any (same_id q) missing.now && not (lists.is_held held.now q)))) }
    ensures one { OnErr result ((q : Id)
        × IsTrue (list_any (same_id q) missing.now && not (lists.is_held held.now q))) }
{
    for id in missing {
        if find_op(held, *id, &mut Search::default()).is_none() {
            ids.push(*id)?;
        }
    }
    Ok(())
}
