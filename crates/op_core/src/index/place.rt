// Searches among chapters and among their registers. Each comparison of two segments is counted.
ghost use Rattle.std.specs.Prelude.{◌≡◌, ◌≤◌, Bool, length, not, IsTrue};
ghost use Rattle.std.specs.List.{list_any, position_or_len};
ghost use Rattle.std.specs.Ordering.{is_lt};
ghost use Rattle.std.specs.Option.{option_copied};
ghost use Rattle.usfm_ref.specs.Keys.{KeyParts, key_cmp};
ghost use Rattle.usfm_ref.specs.Segments.{segment_cmp};
ghost use Rattle.usfm_ref.specs.Rising.{rises_by};
ghost use Rattle.op_core.specs.Loops.Index.{home_of, chapter_of, register_at, register_of};
ghost use Rattle.op_core.specs.Loops.Index.{registers_of, shown_in};
ghost use Rattle.op_core.specs.Loops.Index.{IsOrderly};
ghost use Rattle.op_core.specs.Loops.Searches.{AnswersAs, Counted};

use super::chapter::Chapter;
use super::register::Register;
use crate::ids::op_id::OpId;
use crate::ids::search::Search;
use crate::ids::steps::{Steps, place_by};
use usfm_ref::{Key, Segment};

// How many chapters at the front are before the one of a segment. The search begins where the last
// one ended.
pub(crate) fn place_chapter(chapters: &[Chapter], segment: &Segment, search: &mut Search) -> usize
    requires rising { IsTrue (rises_by segment_cmp home_of chapters.now) }
    ensures place { result ≡ position_or_len
        (λ c. not (is_lt (segment_cmp (home_of c) (chapter_of segment.now)))) chapters.now }
    ensures within { result ≤ length chapters.now }
    ensures counted { Counted (length chapters.now) search.old search.new }
{
    let at = place_by(
        chapters,
        |chapter| -> bool
            ensures { result
                ≡ is_lt (segment_cmp (home_of chapter.now) (chapter_of segment.entry.now)) }
        { chapter.order(segment).is_lt() },
        Steps::beside(search.chapter, chapters.len()),
        search,
    );
    search.chapter = at;
    at
}

// How many registers at the front are before this key. The search begins where the last one ended.
pub(crate) fn place_register(registers: &[Register], key: Key, search: &mut Search) -> usize
    requires rising { IsTrue (rises_by key_cmp (λ r. r.key) registers.now) }
    ensures place { result ≡ position_or_len (λ r. not (is_lt (key_cmp r.key key))) registers.now }
    ensures within { result ≤ length registers.now }
    ensures counted { Counted (length registers.now) search.old search.new }
{
    let at = place_by(
        registers,
        |register| -> bool
            ensures { result ≡ is_lt (key_cmp register.now.key key) }
        { register.order(key).is_lt() },
        Steps::beside(search.register, registers.len()),
        search,
    );
    search.register = at;
    at
}

// The registers of a segment's chapter.
pub(crate) fn registers_of<'a>(
    chapters: &'a [Chapter],
    segment: &Segment,
    search: &mut Search,
) -> &'a [Register]
    requires rising { IsTrue (rises_by segment_cmp home_of chapters.now) }
    ensures found { result.now ≡ registers_of segment.now chapters.now }
    ensures counted { Counted (length chapters.now) search.old search.new }
{
    let at = place_chapter(chapters, segment, search);
    if at < chapters.len() {
        let chapter = &chapters[at];
        search.count();
        if chapter.order(segment).is_eq() {
            return &chapter.registers;
        }
    }
    &[]
}

// Whether a test holds of one of the keys that have a register in a segment's chapter.
pub(crate) fn any_key_beside<P: Fn(&Key) -> bool>(
    chapters: &[Chapter],
    segment: &Segment,
    holds: P,
) -> bool
    requires rising { IsTrue (rises_by segment_cmp home_of chapters.now) }
    requires callable { P.IsAlwaysCallable holds }
    ensures { (p : KeyParts → Bool) → AnswersAs P.Fn p holds
        → result ≡ list_any (λ r. p r.key) (registers_of segment.now chapters.now) }
{
    let registers = registers_of(chapters, segment, &mut Search::default());
    for register in registers {
        if holds(&register.key) {
            return true;
        }
    }
    false
}

// The register of a key.
pub(crate) fn register_at<'a>(
    registers: &'a [Register],
    key: Key,
    search: &mut Search,
) -> Option<&'a Register>
    requires rising { IsTrue (rises_by key_cmp (λ r. r.key) registers.now) }
    ensures found { option_copied result ≡ register_at key registers.now }
    ensures counted { Counted (length registers.now) search.old search.new }
{
    let at = place_register(registers, key, search);
    if at < registers.len() {
        let register = &registers[at];
        search.count();
        if register.order(key).is_eq() {
            return Some(register);
        }
    }
    None
}

// The ids that a segment shows.
pub(crate) fn shown_of<'a>(
    chapters: &'a [Chapter],
    segment: &Segment,
    search: &mut Search,
) -> &'a [OpId]
    requires { IsOrderly chapters.now }
    ensures found { result.now ≡ shown_in (register_of segment.now chapters.now) }
    ensures counted { Counted (length chapters.now) search.old search.new }
{
    let registers = registers_of(chapters, segment, search);
    match register_at(registers, segment.key, search) {
        None => &[],
        Some(register) => &register.shown,
    }
}
