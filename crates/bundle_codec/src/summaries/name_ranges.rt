// A name with the ranges of its numbers.
ghost use Rattle.std.specs.Prelude.{◌≡◌, ◌≢◌, ◌<◌, [], length, option_map, IsTrue, IfSome};
ghost use Rattle.std.specs.List.{list_all, find};
ghost use Rattle.std.specs.Ordering.{is_eq};
ghost use Rattle.usfm_ref.specs.Rising.{rises_by};
ghost use Rattle.op_core.specs.Names.{name_cmp};
ghost use Rattle.bundle_codec.specs.Summaries.{AreNameRanges, is_range, are_apart};

use super::range::{NumberRange, look};
use op_core::ReplicaName;
use std::cmp::Ordering;
use std::marker::Model;

#[derive(Debug, Drop)]
pub(crate) struct NameRanges {
    name: ReplicaName,
    ranges: Vec<NumberRange>,
}

impl Model for NameRanges {
    ghost use Rattle.bundle_codec.specs.Summaries.{NameRanges, AreNameRanges};

    ghost Value = { NameRanges };

    ghost view = { λ k. record { name = k.name; ranges = k.ranges.items } };

    ghost invariant = { λ k. AreNameRanges (record { name = k.name; ranges = k.ranges.items }) };
}

impl NameRanges {
    pub(crate) fn new(name: ReplicaName, ranges: Vec<NumberRange>) -> NameRanges
        requires some { ranges.items ≢ [] }
        requires each { IsTrue (list_all is_range ranges.items) }
        requires apart { IsTrue (are_apart ranges.items) }
        ensures parts { result ≡ record { name = name; ranges = ranges.items } }
        ensures valid { AreNameRanges result }
    {
        // The name's text shows that it is within its rules.
        let _ = name.text();
        NameRanges { name, ranges }
    }

    // How its name compares to another one's bytes.
    fn order(&self, name: &[u8]) -> Ordering
        ensures { result ≡ name_cmp self.now.name name.now }
    {
        self.text().cmp(name)
    }

    pub(crate) fn name(&self) -> ReplicaName
        ensures name { result ≡ self.now.name }
        ensures valid { AreNameRanges self.now }
    {
        self.name
    }

    // The bytes of its name.
    pub(crate) fn text(&self) -> &[u8]
        ensures { result.now ≡ self.now.name }
    {
        self.name.text().as_bytes()
    }

    pub(crate) fn ranges(&self) -> &[NumberRange]
        ensures ranges { result.now ≡ self.now.ranges }
        ensures valid { AreNameRanges self.now }
    {
        &self.ranges
    }
}

// What is under a name, and its place, if there is one. The name at `near` is looked at first, and
// the one after it; then comes a binary search.
pub(crate) fn find_name<'a>(
    names: &'a [NameRanges],
    name: &[u8],
    near: usize,
) -> Option<(usize, &'a NameRanges)>
    requires rising { IsTrue (rises_by name_cmp (λ k. k.name) names.now) }
    ensures found { let wanted = find (λ k. is_eq (name_cmp name.now k.name)) names.now in
        option_map (λ p. p.1.now) result ≡ wanted }
    ensures within { IfSome result (λ p. p.0 < length names.now) }
{
    let mut low = 0;
    let mut high = names.len();
    'halves: while low < high {
        let middle = look(low, high, near);
        let name_ranges = &names[middle];
        match name_ranges.order(name) {
            Ordering::Less => low = middle + 1,
            Ordering::Equal => return Some((middle, name_ranges)),
            Ordering::Greater => high = middle,
        }
    }
    None
}
