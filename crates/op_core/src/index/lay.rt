// New chapters and registers, put into their lists before anything changes in them. A list is gone
// over once for all that is new in it, from the back, so that no order of operations moves a list
// once for each of them.
ghost use Rattle.std.specs.Prelude.{◌≡◌, ◌<◌, ◌≤◌, [], IsTrue, length, reverse, vec_len};
ghost use Rattle.std.specs.Prelude.{vec_capacity, true, OnOk};
ghost use Rattle.usfm_ref.specs.Keys as keys;
ghost use Rattle.usfm_ref.specs.Keys.{key_cmp, same_key};
ghost use Rattle.usfm_ref.specs.Segments.{segment_cmp};
ghost use Rattle.usfm_ref.specs.Rising.{rises_by};
ghost use Rattle.op_core.specs.Loops.Index.{home_of, chapter_of, is_there};
ghost use Rattle.op_core.specs.Loops.Index.{IsOrderly, begins_above};
ghost use Rattle.op_core.specs.Loops.Index.{Lays, LaysKeys, Readies};

use super::chapter::Chapter;
use super::place::{place_chapter, place_register, register_at, registers_of};
use super::put_in;
use super::register::Register;
use super::turns::Turn;
use crate::ids::search::Search;
use crate::lists::merge::move_after;
use std::alloc::{AllocError, Global};
use usfm_ref::{Key, Segment};

// Fewer new segments are put in where they come: going over the lists would cost more.
const FEW: usize = 16;

// Puts in registers, and chapters for them, at the segments of the turns, where many have none.
// What the index keeps stays, also where an allocation failed.
#[tactic(auto, using(crate::proofs::Indexed::Laid::lays_same, crate::proofs::Indexed::Laid::lays_more))]
pub(crate) fn lay_out(
    chapters: &mut Vec<Chapter>,
    alloc: Global,
    turns: &[Turn],
    search: &mut Search,
) -> Result<(), AllocError>
    requires { IsOrderly chapters.old.items }
    ensures { Lays chapters.old.items chapters.new.items }
{
    if turns.len() < FEW {
        return Ok(());
    }
    let segments = segments_of(chapters, alloc, turns, search)?;
    if segments.len() < FEW {
        return Ok(());
    }
    lay_chapters(chapters, alloc, &segments, search)?;
    lay_registers(chapters, alloc, &segments, search)
}

// The segments of the turns that have no register, in the turns' order, each once.
fn segments_of(
    chapters: &[Chapter],
    alloc: Global,
    turns: &[Turn],
    search: &mut Search,
) -> Result<Vec<Segment>, AllocError>
    requires { IsOrderly chapters.now }
{
    let mut segments = Vec::new(alloc);
    for at in 0..turns.len() {
        let segment = turns[at].segment;
        if !is_again(turns, at, search) && !is_laid(chapters, &segment, search) {
            segments.push(segment)?;
        }
    }
    Ok(segments)
}

// Whether a turn is of the segment of the one before it.
fn is_again(turns: &[Turn], at: usize, search: &mut Search) -> bool
    requires { at < length turns.now }
{
    if at == 0 {
        return false;
    }
    search.count();
    turns[at].order(&turns[at - 1]).is_eq()
}

// Whether a segment has a register.
fn is_laid(chapters: &[Chapter], segment: &Segment, search: &mut Search) -> bool
    requires { IsOrderly chapters.now }
    ensures { result ≡ is_there segment.now chapters.now }
{
    let registers = registers_of(chapters, segment, search);
    register_at(registers, segment.key, search).is_some()
}

// Puts in a register at a segment that has none.
pub(crate) fn lay(
    chapters: &mut Vec<Chapter>,
    alloc: Global,
    segment: &Segment,
    search: &mut Search,
) -> Result<(), AllocError>
    requires { IsOrderly chapters.old.items }
    ensures same { Readies chapters.old.items chapters.new.items }
    ensures there { OnOk result (is_there segment.now chapters.new.items ≡ true) }
{
    if is_laid(chapters, segment, search) {
        return Ok(());
    }
    let register = Register::new(alloc, segment.key);
    put_in(chapters, alloc, segment.book, register, search)
}

// Puts in the chapters of the segments that are not there.
#[tactic(auto, using(crate::proofs::Indexed::Laid::lays_same, crate::proofs::Indexed::Laid::lays_more))]
fn lay_chapters(
    chapters: &mut Vec<Chapter>,
    alloc: Global,
    segments: &[Segment],
    search: &mut Search,
) -> Result<(), AllocError>
    requires { IsOrderly chapters.old.items }
    ensures { Lays chapters.old.items chapters.new.items }
{
    let fresh = count_chapters(chapters, segments, search);
    if fresh == 0 {
        return Ok(());
    }
    chapters.reserve(fresh)?;
    let tail = Vec::with_capacity(alloc, chapters.capacity())?;
    merge_chapters(chapters, alloc, segments, tail, search);
    Ok(())
}

// Of how many chapters that are not there the segments are.
fn count_chapters(chapters: &[Chapter], segments: &[Segment], search: &mut Search) -> usize
    requires { IsOrderly chapters.now }
{
    let mut fresh: usize = 0;
    let mut rest = segments;
    'groups: while let Some((segment, _)) = rest.split_first() {
        let at = place_chapter(chapters, segment, search);
        if !is_at(chapters, at, segment, search) {
            fresh = fresh.saturating_add(1);
        }
        rest = &rest[chapter_len(rest, search)..];
    }
    fresh
}

// Whether the chapter of a segment is at this place.
fn is_at(chapters: &[Chapter], at: usize, segment: &Segment, search: &mut Search) -> bool {
    if at >= chapters.len() {
        return false;
    }
    search.count();
    chapters[at].order(segment).is_eq()
}

// Whether both segments are of one chapter.
fn is_beside(segment: &Segment, other: &Segment) -> bool {
    segment.key.chapter == other.key.chapter && segment.book == other.book
}

// How many segments at the front are of the first one's chapter.
fn chapter_len(segments: &[Segment], search: &mut Search) -> usize
    ensures some { 0 < length segments.now → 0 < result }
    ensures within { result ≤ length segments.now }
{
    for at in 1..segments.len() {
        search.count();
        if !is_beside(&segments[at], &segments[0]) {
            return at;
        }
    }
    segments.len()
}

// Puts in the chapters of the segments that are not there. Both lists have room for what is there:
// what is after each new chapter goes to the tail, the last first, and at last from there to the
// end of the list.
fn merge_chapters(
    chapters: &mut Vec<Chapter>,
    alloc: Global,
    segments: &[Segment],
    mut tail: Vec<Chapter>,
    search: &mut Search,
)
    requires orderly { IsOrderly chapters.old.items }
    requires tail { tail.items ≡ [] }
    requires room { vec_len chapters.old ≤ vec_capacity tail }
    ensures { Lays chapters.old.items chapters.new.items }
{
    let mut rest = segments;
    'laying: while let Some((segment, before)) = rest.split_last() {
        search.chapter = chapters.len();
        let at = place_chapter(chapters, segment, search);
        move_after(chapters, at, &mut tail);
        let len = chapters.len() + tail.len();
        if len < chapters.capacity() && len < tail.capacity() && is_under(&tail, segment, search) {
            tail.push(Chapter::new(alloc, segment)).unwrap();
        }
        rest = before;
    }
    move_after(&mut tail, 0, chapters);
}

// Whether the chapter of a segment is before the last of these, if there is one.
fn is_under(chapters: &[Chapter], segment: &Segment, search: &mut Search) -> bool
    ensures { result
        ≡ begins_above segment_cmp home_of (chapter_of segment.now) (reverse chapters.now) }
{
    let Some((last, _)) = chapters.split_last() else {
        return true;
    };
    search.count();
    last.order(segment).is_gt()
}

// Puts registers of the segments into their chapters, where these are there.
#[tactic(auto, using(crate::proofs::Indexed::Laid::lays_same, crate::proofs::Indexed::Laid::lays_more))]
fn lay_registers(
    chapters: &mut Vec<Chapter>,
    alloc: Global,
    segments: &[Segment],
    search: &mut Search,
) -> Result<(), AllocError>
    requires { IsOrderly chapters.old.items }
    ensures { Lays chapters.old.items chapters.new.items }
{
    let mut rest = segments;
    'groups: while let Some((segment, _)) = rest.split_first() {
        let (own, later) = rest.split_at(chapter_len(rest, search));
        lay_beside(chapters, alloc, segment, own, search)?;
        rest = later;
    }
    Ok(())
}

// Puts registers of the segments into the chapter of one of them, if it is there.
#[tactic(auto, using(crate::proofs::Indexed::Laid::lays_same, crate::proofs::Indexed::Laid::lays_more))]
fn lay_beside(
    chapters: &mut Vec<Chapter>,
    alloc: Global,
    segment: &Segment,
    own: &[Segment],
    search: &mut Search,
) -> Result<(), AllocError>
    requires { IsOrderly chapters.old.items }
    ensures { Lays chapters.old.items chapters.new.items }
{
    let at = place_chapter(chapters, segment, search);
    if at < chapters.len() {
        let chapter = &mut chapters[at];
        search.count();
        if chapter.order(segment).is_eq() {
            return lay_keys(
                &mut chapter.registers,
                alloc,
                segment.key.head(),
                own,
                search,
            );
        }
    }
    Ok(())
}

// Puts registers of the segments into their chapter, which has this head.
#[tactic(auto, using(crate::proofs::Indexed::Laid::keys_same))]
fn lay_keys(
    registers: &mut Vec<Register>,
    alloc: Global,
    head: Key,
    own: &[Segment],
    search: &mut Search,
) -> Result<(), AllocError>
    requires rising { IsTrue (rises_by key_cmp (λ r. r.key) registers.old.items) }
    ensures { LaysKeys head registers.old.items registers.new.items }
{
    registers.reserve_exact(own.len())?;
    let tail = Vec::with_capacity(alloc, registers.capacity())?;
    merge_registers(registers, alloc, head, own, tail, search);
    Ok(())
}

// The same, where there is room for what is there in both lists.
fn merge_registers(
    registers: &mut Vec<Register>,
    alloc: Global,
    head: Key,
    own: &[Segment],
    mut tail: Vec<Register>,
    search: &mut Search,
)
    requires rising { IsTrue (rises_by key_cmp (λ r. r.key) registers.old.items) }
    requires tail { tail.items ≡ [] }
    requires room { vec_len registers.old ≤ vec_capacity tail }
    ensures { LaysKeys head registers.old.items registers.new.items }
{
    let mut rest = own;
    'laying: while let Some((segment, before)) = rest.split_last() {
        search.register = registers.len();
        let at = place_register(registers, segment.key, search);
        move_after(registers, at, &mut tail);
        let len = registers.len() + tail.len();
        if len < registers.capacity()
            && len < tail.capacity()
            && is_of(segment.key, head)
            && is_key_under(&tail, segment.key, search)
        {
            tail.push(Register::new(alloc, segment.key)).unwrap();
        }
        rest = before;
    }
    move_after(&mut tail, 0, registers);
}

// Whether a key is of the chapter that has this head.
fn is_of(key: Key, head: Key) -> bool
    ensures { result ≡ same_key (keys.head_of key) head }
{
    key.head() == head
}

// Whether a key is before the last of these registers, if there is one.
fn is_key_under(registers: &[Register], key: Key, search: &mut Search) -> bool
    ensures { result ≡ begins_above key_cmp (λ r. r.key) key (reverse registers.now) }
{
    let Some((last, _)) = registers.split_last() else {
        return true;
    };
    search.count();
    last.order(key).is_gt()
}
