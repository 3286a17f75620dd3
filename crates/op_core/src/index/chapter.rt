ghost use Rattle.std.specs.Prelude.{◌≡◌, ◌<◌, [], IsTrue, None, IfOk, OnOk, OnErr};
ghost use Rattle.std.specs.Prelude.{vec_len, vec_capacity};
ghost use Rattle.std.specs.Option.{is_some};
ghost use Rattle.usfm_ref.specs.Segments.{segment_cmp};
ghost use Rattle.usfm_ref.specs.Keys.{key_cmp};
ghost use Rattle.usfm_ref.specs.Rising.{rises_by};
ghost use Rattle.op_core.specs.Ids.{ids_rise};
ghost use Rattle.op_core.specs.Sets as sets;
ghost use Rattle.op_core.specs.NextIds.{is_among};
ghost use Rattle.op_core.specs.Loops.Index.{home_of, chapter_of, register_at, shown_in, missing_in};
ghost use Rattle.op_core.specs.Loops.Index.{ChangesKey, IsAtKey, IsSameBut, IsChangeOf};
ghost use Rattle.op_core.specs.Loops.Index.{IsRisingChange, HasRoomIn, Takes};

use super::change::{Aside, Change};
use super::place::place_register;
use super::register::Register;
use crate::ids::search::Search;
use crate::operations::op::Op;
use std::alloc::{AllocError, Global};
use std::cmp::Ordering;
use usfm_ref::{Book, Key, Segment};

/// A chapter of a book, by its head, and the registers of its segments, in ascending order of
/// keys.
#[derive(Debug, Drop)]
pub struct Chapter {
    pub(crate) book: Book,
    pub(crate) head: Key,
    pub(crate) registers: Vec<Register>,
}

impl Chapter {
    // The chapter of a segment, without registers yet. It does not allocate.
    pub(crate) fn new(alloc: Global, segment: &Segment) -> Chapter
        ensures home { home_of result ≡ chapter_of segment.now }
        ensures registers { result.registers.items ≡ [] }
    {
        Chapter {
            book: segment.book,
            head: segment.key.head(),
            registers: Vec::new(alloc),
        }
    }

    // How the chapter stands to the one of this segment.
    pub(crate) fn order(&self, segment: &Segment) -> Ordering
        ensures { result ≡ segment_cmp (home_of self.now) (chapter_of segment.now) }
    {
        let head = segment.key.head();
        self.book.cmp(&segment.book).then(self.head.cmp(&head))
    }
}

// Puts in a register, whose key has none.
pub(crate) fn put_register(
    registers: &mut Vec<Register>,
    register: Register,
    search: &mut Search,
) -> Result<(), AllocError>
    requires rising { IsTrue (rises_by key_cmp (λ r. r.key) registers.old.items) }
    requires absent { register_at register.key registers.old.items ≡ None }
    ensures ok { OnOk result
        (ChangesKey register.key register registers.old.items registers.new.items) }
    ensures err { OnErr result (registers.new.items ≡ registers.old.items) }
{
    reserve_register(registers)?;
    let at = place_register(registers, register.key, search);
    registers.insert(at, register).unwrap();
    Ok(())
}

// Makes room for one register more. A list that is full grows by a quarter, since a set's registers
// take nearly as much as its operations beside their texts, and half of that would be empty room.
fn reserve_register(registers: &mut Vec<Register>) -> Result<(), AllocError>
    ensures items { registers.new.items ≡ registers.old.items }
    ensures room { OnOk result (vec_len registers.new < vec_capacity registers.new) }
{
    if registers.len() < registers.capacity() {
        return Ok(());
    }
    registers.reserve_exact(1 + registers.len() / 4)
}

// What changes in the register of a key as the arrived ids of `aside` come there, and the room for
// that.
pub(crate) fn ready_at_key(
    registers: &mut Vec<Register>,
    alloc: Global,
    held: &[Op],
    segment: &Segment,
    aside: &mut Aside,
    search: &mut Search,
) -> Result<Change, AllocError>
    requires held { IsTrue (sets.rises held.now) }
    requires rising { IsTrue (rises_by key_cmp (λ r. r.key) registers.old.items) }
    requires there { IsTrue (is_some (register_at segment.now.key registers.old.items)) }
    requires shown { IsTrue
        (ids_rise (shown_in (register_at segment.now.key registers.old.items))) }
    requires missing { IsTrue
        (ids_rise (missing_in (register_at segment.now.key registers.old.items))) }
    requires arrived { IsTrue (ids_rise aside.old.arrived.items) }
    requires named { IsTrue (ids_rise aside.old.named.items) }
    ensures same { IsAtKey IsSameBut segment.now.key registers.old.items registers.new.items }
    ensures change { IfOk result (λ c. IsChangeOf held.now segment.now
        (is_among aside.old.arrived.items) (is_among aside.old.named.items)
        (shown_in (register_at segment.now.key registers.old.items))
        (missing_in (register_at segment.now.key registers.old.items)) c) }
    ensures rising { IfOk result IsRisingChange }
    ensures room { IfOk result
        (λ c. HasRoomIn c (register_at segment.now.key registers.new.items)) }
{
    let at = place_register(registers, segment.key, search);
    registers[at].ready(alloc, held, segment.book, aside, search)
}

// Makes a change in the register of its key.
pub(crate) fn take_at_key(registers: &mut Vec<Register>, change: Change, search: &mut Search)
    requires rising { IsTrue (rises_by key_cmp (λ r. r.key) registers.old.items) }
    requires shown { IsTrue (ids_rise (shown_in (register_at change.key registers.old.items))) }
    requires missing { IsTrue (ids_rise (missing_in (register_at change.key registers.old.items))) }
    requires change { IsRisingChange change }
    requires room { HasRoomIn change (register_at change.key registers.old.items) }
    ensures { IsAtKey (Takes change) change.key registers.old.items registers.new.items }
{
    let at = place_register(registers, change.key, search);
    registers[at].take(change, search);
}
