// Searches among operations that rise by id. Each comparison of two ids is counted.
ghost use Rattle.std.specs.Prelude.{◌≡◌, ◌≤◌, length, not, IsTrue};
ghost use Rattle.std.specs.List.{position_or_len};
ghost use Rattle.std.specs.Option.{option_copied};
ghost use Rattle.op_core.specs.Ids.{id_below, same_id};
ghost use Rattle.op_core.specs.Thinned as thinned;
ghost use Rattle.op_core.specs.Sets as sets;
ghost use Rattle.op_core.specs.Loops.Index.{is_in};
ghost use Rattle.op_core.specs.Loops.Searches.{Counted};

use crate::ids::is_below;
use crate::ids::op_id::OpId;
use crate::ids::search::Search;
use crate::ids::steps::{Steps, place_by};
use crate::operations::op::Op;
use usfm_ref::Segment;

// How many operations at the front have an id below this one.
fn place_op(ops: &[Op], id: OpId, steps: Steps, search: &mut Search) -> usize
    requires rising { IsTrue (sets.rises ops.now) }
    ensures place { result ≡ position_or_len (λ o. not (id_below o.id id)) ops.now }
    ensures within { result ≤ length ops.now }
    ensures counted { Counted (length ops.now) search.old search.new }
{
    place_by(
        ops,
        |o| -> bool
            ensures { result ≡ id_below o.now.id id }
        { is_below(o.id(), id) },
        steps,
        search,
    )
}

// The same, where the place is likely to be the end or near it.
pub(crate) fn place_last(ops: &[Op], id: OpId, search: &mut Search) -> usize
    requires rising { IsTrue (sets.rises ops.now) }
    ensures place { result ≡ position_or_len (λ o. not (id_below o.id id)) ops.now }
    ensures within { result ≤ length ops.now }
    ensures counted { Counted (length ops.now) search.old search.new }
{
    place_op(ops, id, Steps::near(ops.len(), ops.len()), search)
}

// The operation of an id.
pub(crate) fn find_op<'a>(ops: &'a [Op], id: OpId, search: &mut Search) -> Option<&'a Op>
    requires rising { IsTrue (sets.rises ops.now) }
    ensures found { option_copied result ≡ sets.get ops.now id }
    ensures counted { Counted (length ops.now) search.old search.new }
{
    let at = place_op(ops, id, Steps::halves(ops.len()), search);
    op_at(ops, at, id, search)
}

// The same, begun where the last search ended.
pub(crate) fn find_near<'a>(ops: &'a [Op], id: OpId, search: &mut Search) -> Option<&'a Op>
    requires rising { IsTrue (sets.rises ops.now) }
    ensures found { option_copied result ≡ sets.get ops.now id }
    ensures counted { Counted (length ops.now) search.old search.new }
{
    let at = place_op(ops, id, Steps::near(search.op, ops.len()), search);
    search.op = at;
    op_at(ops, at, id, search)
}

// The operation of an id, by how many at the front have an id below it.
pub(crate) fn op_at<'a>(ops: &'a [Op], at: usize, id: OpId, search: &mut Search) -> Option<&'a Op>
    requires rising { IsTrue (sets.rises ops.now) }
    requires place { at ≡ position_or_len (λ o. not (id_below o.id id)) ops.now }
    ensures found { option_copied result ≡ sets.get ops.now id }
    ensures counted { Counted 0 search.old search.new }
{
    if at < ops.len() {
        let op = &ops[at];
        search.count();
        if op.id() == id {
            return Some(op);
        }
    }
    None
}

// Leaves out the text of the operation of an id, if there is one, and says whether it had one.
pub(crate) fn leave_text_at(ops: &mut [Op], at: usize, id: OpId, search: &mut Search) -> bool
    requires rising { IsTrue (sets.rises ops.old) }
    requires place { at ≡ position_or_len (λ o. not (id_below o.id id)) ops.old }
    ensures thin { ops.new ≡ thinned.thin_where (same_id id) ops.old }
    ensures was { result ≡ thinned.has_text (sets.get ops.old id) }
{
    if at < ops.len() {
        search.count();
        if ops[at].id() == id {
            return ops[at].leave_text();
        }
    }
    false
}

// Whether an operation of the segment has the id.
pub(crate) fn is_in(ops: &[Op], segment: &Segment, id: OpId, search: &mut Search) -> bool
    requires rising { IsTrue (sets.rises ops.now) }
    ensures found { result ≡ is_in ops.now segment.now id }
    ensures counted { Counted (length ops.now) search.old search.new }
{
    match find_op(ops, id, search) {
        None => false,
        Some(op) => {
            search.count();
            op.in_segment(segment)
        }
    }
}
