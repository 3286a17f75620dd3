// The index of a set, chapter by chapter.
ghost use Rattle.std.specs.Prelude.{◌≡◌, None, IsTrue, OnOk, OnErr, not, length, filter};
ghost use Rattle.std.specs.List.{list_any};
ghost use Rattle.usfm_ref.specs.Segments.{segment};
ghost use Rattle.op_core.specs.Ids.{ids_rise, same_id};
ghost use Rattle.op_core.specs.Thinned as thinned;
ghost use Rattle.op_core.specs.Sets as sets;
ghost use Rattle.op_core.specs.Sets.{IsOpSet};
ghost use Rattle.op_core.specs.Loops.Index.{register_of, shown_in, IsOrderly, IsIndex, AreApart};
ghost use Rattle.op_core.specs.Loops.Index.{Changes, Same};

mod awaited;
mod begin;
pub(crate) mod books;
mod change;
pub(crate) mod chapter;
pub(crate) mod keys;
mod lay;
pub(crate) mod place;
mod ready;
mod register;
mod settle;
mod turns;

pub(crate) use self::awaited::push_awaited;
use self::begin::begin_index;
use self::chapter::{Chapter, put_register};
use self::lay::lay_out;
use self::place::{place_chapter, shown_of};
use self::ready::ready_all;
use self::register::Register;
use self::settle::settle_all;
use self::turns::turns_of;
use crate::ids::has_id;
use crate::ids::search::Search;
use crate::operations::op::Op;
use std::alloc::{AllocError, Global};
use usfm_ref::{Book, Segment};

// Takes in operations that rise and of which none is held. What they change at each segment is
// reckoned aside, with the room for it, before the first change is made. Where nothing is held, the
// whole index is made aside.
pub(crate) fn enroll(
    chapters: &mut Vec<Chapter>,
    alloc: Global,
    held: &[Op],
    new: &[Op],
    search: &mut Search,
) -> Result<(), AllocError>
    requires held { IsOpSet held.now }
    requires new { IsOpSet new.now }
    requires apart { AreApart held.now new.now }
    requires index { IsIndex held.now chapters.old.items }
    ensures ok { OnOk result (IsIndex (sets.join held.now new.now) chapters.new.items) }
    ensures err { OnErr result (IsIndex held.now chapters.new.items) }
{
    let turns = turns_of(alloc, new, search)?;
    if held.is_empty() {
        *chapters = begin_index(alloc, new, &turns, search)?;
        return Ok(());
    }
    lay_out(chapters, alloc, &turns, search)?;
    let changes = ready_all(chapters, alloc, held, new, &turns, search)?;
    settle_all(chapters, changes, search);
    Ok(())
}

// Puts in a register, whose segment has none.
pub(crate) fn put_in(
    chapters: &mut Vec<Chapter>,
    alloc: Global,
    book: Book,
    register: Register,
    search: &mut Search,
) -> Result<(), AllocError>
    requires orderly { IsOrderly chapters.old.items }
    requires absent { register_of (segment book register.key) chapters.old.items ≡ None }
    ensures ok { OnOk result
        (Changes (segment book register.key) register chapters.old.items chapters.new.items) }
    ensures err { OnErr result (Same chapters.old.items chapters.new.items) }
{
    let segment = Segment {
        book,
        key: register.key,
    };
    let at = place_chapter(chapters, &segment, search);
    if at < chapters.len() {
        let chapter = &mut chapters[at];
        search.count();
        if chapter.order(&segment).is_eq() {
            return put_register(&mut chapter.registers, register, search);
        }
    }
    chapters.reserve(1)?;
    let mut chapter = Chapter::new(alloc, &segment);
    put_register(&mut chapter.registers, register, search)?;
    chapters.insert(at, chapter).unwrap();
    Ok(())
}

// Leaves out the text of each operation that one of its segment names, and says how many had one.
pub(crate) fn leave_past(ops: &mut [Op], chapters: &[Chapter], search: &mut Search) -> u64
    requires set { IsOpSet ops.old }
    requires index { IsIndex ops.old chapters.now }
    ensures thin { ops.new ≡ thinned.thin ops.old }
    ensures count { result ≡ length (filter (thinned.is_left_out ops.old) ops.old) }
{
    let mut count: u64 = 0;
    for i in 0..ops.len() {
        if is_past(chapters, &ops[i], search) && ops[i].leave_text() {
            count += 1;
        }
    }
    count
}

// Whether the operation's segment does not show it.
fn is_past(chapters: &[Chapter], op: &Op, search: &mut Search) -> bool
    requires orderly { IsOrderly chapters.now }
    requires rising { IsTrue (ids_rise (shown_in (register_of op.now.segment chapters.now))) }
    ensures { result
        ≡ not (list_any (same_id op.now.id) (shown_in (register_of op.now.segment chapters.now))) }
{
    let shown = shown_of(chapters, &op.segment(), search);
    !has_id(shown, op.id(), search)
}
