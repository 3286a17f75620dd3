// Two walks side by side, which join the operations of two bundles one at a time.
ghost use Rattle.std.specs.Prelude.{◌≡◌, ◌++◌, ◌∷◌, List, [], MatchOption, IfOk, IfErr, IsTrue};
ghost use Rattle.std.specs.Prelude.{length};
ghost use Rattle.std.specs.List.{flat_map};
ghost use Rattle.op_core.specs.Ops.{Operation};
ghost use Rattle.op_core.specs.Sets as sets;
ghost use Rattle.op_core.specs.Thinned.{all_full};
ghost use Rattle.bundle_codec.specs.Joining.{RefusesUnion};
ghost use Rattle.bundle_codec.specs.Spelling.{operation};
ghost use Rattle.bundle_codec.specs.Loops.Merging as merging;

use crate::fault::JoinFault;
use crate::views::view::OpView;
use crate::views::walk::BundleOps;
use std::cmp::Ordering;
use std::marker::Model;

// A walk with its next operation at hand.
#[derive(Drop)]
struct Walk<'a> {
    next: Option<OpView<'a>>,
    rest: BundleOps<'a>,
}

impl<'a> Model for Walk<'a> {
    ghost use Rattle.std.specs.Prelude.{List};
    ghost use Rattle.op_core.specs.Ops.{Operation};
    ghost use Rattle.bundle_codec.specs.Loops.Merging.{at_hand};

    ghost Value = { List Operation };

    ghost view = { λ w. at_hand w.next w.rest };
}

impl<'a> Walk<'a> {
    fn new(mut rest: BundleOps<'a>) -> Walk<'a>
        ensures { result ≡ rest.entry }
    {
        let next = rest.next();
        Walk { next, rest }
    }

    // The next operation.
    fn first(&self) -> Option<&OpView<'a>>
        ensures { MatchOption result (self.now ≡ [])
            (λ o. (rest : List Operation) × (self.now ≡ o.now ∷ rest)) }
    {
        self.next.as_ref()
    }

    // Goes past the next operation, and gives it.
    fn pass(&mut self) -> Option<OpView<'a>>
        ensures { merging.GoesPast self.old self.new result }
    {
        let op = self.next.take()?;
        self.next = self.rest.next();
        Some(op)
    }
}

// Goes past the first operation of the union, and gives it.
fn pass_least<'a>(
    left: &mut Walk<'a>,
    right: &mut Walk<'a>,
) -> Result<Option<OpView<'a>>, JoinFault>
    requires left { IsTrue (sets.rises left.old) }
    requires right { IsTrue (sets.rises right.old) }
    ensures next { IfOk result (merging.TakesFirst left.old right.old left.new right.new) }
    ensures refused { IfErr result (RefusesUnion (sets.clash left.old right.old)) }
{
    match (left.first(), right.first()) {
        (None, _) => Ok(right.pass()),
        (_, None) => Ok(left.pass()),
        (Some(x), Some(y)) => match x.compare_id(y) {
            Ordering::Less => Ok(left.pass()),
            Ordering::Greater => Ok(right.pass()),
            Ordering::Equal => {
                if !x.agrees(y) {
                    let id = x.id();
                    return Err(JoinFault::Clash(id));
                }
                Ok(pass_both(left, right))
            }
        },
    }
}

// Goes past the first operations of both, which agree, and gives the thinned one where one is
// thinned.
fn pass_both<'a>(left: &mut Walk<'a>, right: &mut Walk<'a>) -> Option<OpView<'a>>
    ensures { merging.Meets left.old right.old left.new right.new result }
{
    let one = left.pass()?;
    let other = right.pass()?;
    if other.text().is_none() {
        Some(other)
    } else {
        Some(one)
    }
}

// Appends the operations of the union, each with the bytes that spell it, and says whether each has
// its text, and how many they are.
pub(crate) fn push_union<'a>(
    bytes: &mut Vec<u8>,
    left: BundleOps<'a>,
    right: BundleOps<'a>,
) -> Result<(bool, u64), JoinFault>
    requires left { IsTrue (sets.rises left) }
    requires right { IsTrue (sets.rises right) }
    ensures pushed { let union = sets.join left.entry right.entry in
        IfOk result (λ _. bytes.new.items ≡ bytes.old.items ++ flat_map operation union) }
    ensures full { IfOk result (λ r. r.0 ≡ all_full (sets.join left.entry right.entry)) }
    ensures count { IfOk result (λ r. r.1 ≡ length (sets.join left.entry right.entry)) }
    ensures agrees { IfOk result (λ _. sets.clash left.entry right.entry ≡ None) }
    ensures refused { IfErr result (RefusesUnion (sets.clash left.entry right.entry)) }
{
    let mut left = Walk::new(left);
    let mut right = Walk::new(right);
    let mut full = true;
    let mut count = 0;
    'union: while let Some(op) = pass_least(&mut left, &mut right)? {
        bytes.extend_from_slice(op.spelled())?;
        full = full && op.text().is_some();
        count += 1;
    }
    Ok((full, count))
}
