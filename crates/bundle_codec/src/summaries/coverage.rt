// A search among the ids that a summary covers.
ghost use Rattle.std.specs.Prelude.{◌≡◌, IfOk};
ghost use Rattle.bundle_codec.specs.Summaries.{IsSummary, covers};

use super::name_ranges::{NameRanges, find_name};
use super::range::find_range;
use op_core::OpId;
use std::alloc::{AllocError, Global};
use std::marker::Model;

// Says which ids a summary covers. A search begins where the last one ended, since the ids of a set
// mostly are in runs of one name, and the numbers of a name rise.
#[derive(Drop)]
pub(crate) struct Coverage<'a> {
    names: &'a [NameRanges],
    // The place of the last name.
    near: usize,
    // For each name the place of the range that had its last covered number.
    ranges: Vec<usize>,
}

impl<'a> Model for Coverage<'a> {
    ghost use Rattle.std.specs.Prelude.{◌≡◌, List, length};
    ghost use Rattle.bundle_codec.specs.Summaries.{NameRanges, IsSummary};

    ghost Value = { List NameRanges };

    ghost view = { λ c. c.names.now };

    ghost invariant = { λ c. IsSummary c.names.now × (length c.ranges.items ≡ length c.names.now) };
}

impl<'a> Coverage<'a> {
    pub(crate) fn new(alloc: Global, names: &'a [NameRanges]) -> Result<Coverage<'a>, AllocError>
        requires { IsSummary names.now }
        ensures { IfOk result (λ coverage. coverage ≡ names.now) }
    {
        let ranges = vec![in alloc; 0usize; names.len()]?;
        Ok(Coverage {
            names,
            near: 0,
            ranges,
        })
    }

    // Whether an id's number lies in a range of its name.
    pub(crate) fn covers(&mut self, id: &OpId) -> bool
        ensures answer { result ≡ covers self.old id.now }
        ensures same { self.new ≡ self.old }
    {
        let name = id.name.text().as_bytes();
        let Some((near, name_ranges)) = find_name(self.names, name, self.near) else {
            return false;
        };
        self.near = near;
        let Some(range) = find_range(name_ranges.ranges(), id.number, self.ranges[near]) else {
            return false;
        };
        self.ranges[near] = range;
        true
    }
}
