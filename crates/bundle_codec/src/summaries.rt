// Summaries: which ids a copy holds, as ranges of numbers under names.
ghost use Rattle.std.specs.Prelude.{◌≡◌, ◌↔◌, [], List, Some, IsTrue, IfOk, IfErr};
ghost use Rattle.std.specs.List.{list_all};
ghost use Rattle.op_core.specs.Ids.{Id, ids_rise, is_id};
ghost use Rattle.op_core.specs.NextIds.{is_among};
ghost use Rattle.bundle_codec.specs.Summaries as sums;
ghost use Rattle.bundle_codec.specs.SummaryReading.{read_summary, ReadFails};

mod counting;
mod coverage;
mod ids;
mod lent;
mod making;
mod name_ranges;
mod outside;
mod range;
mod reading;
mod writing;

use crate::bundle::Bundle;
use crate::fault::SummaryFault;
use counting::ids_in;
use coverage::Coverage;
use ids::Ids;
use lent::LentOps;
use making::{held_ranges, listed};
use name_ranges::{NameRanges, find_name};
use op_core::{OpId, OpSet};
pub use outside::encode_outside;
use range::find_range;
use reading::summary_of;
use std::alloc::{AllocError, Global};
use std::marker::Model;
use writing::{push_front, push_name_ranges};

/// Which ids a copy holds: names, in ascending order of bytes, each with ranges of numbers, of
/// which no two touch.
#[derive(Debug, Drop)]
pub struct Summary {
    names: Vec<NameRanges>,
}

impl Model for Summary {
    ghost use Rattle.std.specs.Prelude.{List};
    ghost use Rattle.bundle_codec.specs.Summaries.{NameRanges, IsSummary};

    ghost Value = { List NameRanges };

    ghost view = { λ s. s.names.items };

    ghost invariant = { λ s. IsSummary s.names.items };
}

impl Summary {
    /// Reads a summary: the magic `USFMSS1` and a line feed, how many names, and for each name its
    /// length in one byte, the name, how many ranges, and for each range its first and its last
    /// number. Numbers are big-endian, of eight bytes.
    ///
    /// # Errors
    /// - `BadSummary` exactly where the bytes are anything else, or break a rule: names are 1 to 32
    ///   of a to z, 0 to 9 and `-`, rise by their bytes and have at least one range; a range is
    ///   from 1 to 10^15, its first no greater than its last, and begins more than one above the
    ///   end of the one before it; nothing follows.
    /// - `Memory` where the bytes are a summary, and an allocation failed.
    pub fn read(alloc: Global, bytes: &[u8]) -> Result<Summary, SummaryFault>
        ensures form { IfOk result sums.IsSummary }
        ensures spelled { IfOk result (λ s. bytes.now ≡ sums.summary s) }
        ensures refused { IfErr result (λ fault. sums.RefusesSummary bytes.now fault) }
        ensures exact { IfOk result (λ s. read_summary bytes.now ≡ Some s) }
        ensures none { IfErr result (λ fault. ReadFails (read_summary bytes.now) fault) }
    {
        let Ok((names, rest)) = summary_of(alloc, bytes) else {
            return Err(SummaryFault::BadSummary);
        };
        if !rest.is_empty() {
            return Err(SummaryFault::BadSummary);
        }
        match names {
            None => Err(SummaryFault::Memory),
            Some(names) => Ok(Summary { names }),
        }
    }

    /// The bytes that spell the summary, which `read` reads back.
    ///
    /// # Errors
    /// Out of memory alone.
    pub fn write(&self, alloc: Global) -> Result<Vec<u8>, AllocError>
        ensures spelled { IfOk result (λ bytes. bytes.items ≡ sums.summary self.now) }
        ensures form { sums.IsSummary self.now }
    {
        let mut bytes = Vec::new(alloc);
        let names = self.names.as_slice();
        push_front(&mut bytes, names.len() as u64)?;
        for name_ranges in names {
            push_name_ranges(&mut bytes, name_ranges)?;
        }
        Ok(bytes)
    }

    /// The summary of a set: for each name in an id of it, the longest ranges of held numbers. It
    /// is made by one walk over the ids.
    ///
    /// # Errors
    /// Out of memory alone.
    pub fn of(alloc: Global, set: &OpSet) -> Result<Summary, AllocError>
        ensures exact { IfOk result (λ s. sums.IsSummaryOf set.now s) }
        ensures value { IfOk result (λ s. s ≡ sums.summary_of set.now) }
    {
        Summary::of_ids(alloc, Ids::of(LentOps::of_set(set)))
    }

    /// The summary of the set that a bundle spells, as `of` makes it, by one walk over the ids in
    /// its bytes. No operation is copied.
    ///
    /// # Errors
    /// Out of memory alone.
    pub fn of_bundle(alloc: Global, bundle: &Bundle<'_>) -> Result<Summary, AllocError>
        ensures exact { IfOk result (λ s. sums.IsSummaryOf bundle.now s) }
        ensures value { IfOk result (λ s. s ≡ sums.summary_of bundle.now) }
    {
        Summary::of_ids(alloc, Ids::of(LentOps::of_bundle(bundle)))
    }

    // The summary of the ids of a walk.
    fn of_ids(alloc: Global, ids: Ids<'_>) -> Result<Summary, AllocError>
        requires rising { IsTrue (ids_rise ids) }
        requires each { IsTrue (list_all is_id ids) }
        ensures form { IfOk result sums.IsSummary }
        ensures exactly { IfOk result (λ s. (id : Id) → sums.covers s id ≡ is_among ids.entry id) }
    {
        let held = held_ranges(alloc, ids)?;
        let names = listed(alloc, held)?;
        Ok(Summary { names })
    }

    /// Whether an id's number lies in a range of its name. It looks up names and ranges by binary
    /// search, and does not allocate.
    pub fn covers(&self, id: &OpId) -> bool
        ensures { result ≡ sums.covers self.now id.now }
    {
        match find_name(&self.names, id.name.text().as_bytes(), 0) {
            None => false,
            Some((_, name_ranges)) => find_range(name_ranges.ranges(), id.number, 0).is_some(),
        }
    }

    /// How many ids it covers. It does not allocate.
    pub fn len(&self) -> u128
        ensures { result ≡ sums.ids_in self.now }
    {
        ids_in(&self.names)
    }

    /// Whether it covers none.
    pub fn is_empty(&self) -> bool
        ensures { IsTrue result ↔ (self.now ≡ []) }
    {
        self.names.is_empty()
    }

    // A search among the ids that it covers.
    fn coverage(&self, alloc: Global) -> Result<Coverage<'_>, AllocError>
        ensures { IfOk result (λ coverage. coverage ≡ self.now) }
    {
        Coverage::new(alloc, &self.names)
    }
}
