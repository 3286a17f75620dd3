// Bundles: whole sets of operations, judged and read where they are in the bytes.
ghost use Rattle.std.specs.Prelude.{◌≡◌, ℕ, false, List, [], ◌++◌, take, drop, length, Ok, Err};
ghost use Rattle.std.specs.Prelude.{IfOk, MatchResult, IsTrue, ◌↔◌};
ghost use Rattle.op_core.specs.Ops.{Operation};
ghost use Rattle.op_core.specs.Sets.{IsOpSet};
ghost use Rattle.op_core.specs.Thinned.{is_legal, all_full};
ghost use Rattle.bundle_codec.specs.Spelling.{bundle};
ghost use Rattle.bundle_codec.specs.Reading.{Gives, is_digit, magic_at, counted_operations_at};
ghost use Rattle.bundle_codec.specs.Reading.{fields_at, bundle_at, RefusesBundle};
ghost use Rattle.bundle_codec.specs.Views.{operations_in, SpellsSet};

mod thinning;
pub(crate) mod whole;

use self::thinning::judge_thinned;
use crate::fault::BundleFault;
use crate::judging::fields::{exactly_of, u8_at, u64_at};
use crate::judging::operation::after_operations;
use crate::views::walk::BundleOps;
use op_core::OpSet;
use std::alloc::{AllocError, Global};
use std::marker::Model;

/// A set of operations, lent from the bytes that spell it. Each thinned operation is named by one
/// of its segment. Made by `decode`.
#[derive(Debug, Drop)]
pub struct Bundle<'a> {
    full: bool,
    count: u64,
    pub(crate) bytes: &'a [u8],
}

impl<'a> Model for Bundle<'a> {
    ghost use Rattle.std.specs.Prelude.{List};
    ghost use Rattle.op_core.specs.Ops.{Operation};
    ghost use Rattle.bundle_codec.specs.Views.{operations_in, Spells};

    ghost Value = { List Operation };

    ghost view = { λ b. operations_in b.count b.bytes.now };

    ghost invariant = { λ b. Spells b.full b.count b.bytes.now };
}

impl<'a> Bundle<'a> {
    /// How many operations it has.
    pub fn len(&self) -> u64
        ensures { result ≡ length self.now }
    {
        self.count
    }

    /// Whether it has none.
    pub fn is_empty(&self) -> bool
        ensures { IsTrue result ↔ (self.now ≡ []) }
    {
        self.len() == 0
    }

    /// Whether each of its operations has its text. It is known from the format, with no walk.
    pub fn is_full(&self) -> bool
        ensures { result ≡ all_full self.now }
    {
        self.full
    }

    /// Its operations, in ascending order of ids, lent from the bytes. The walk does not
    /// allocate.
    pub fn ops(&self) -> BundleOps<'a>
        ensures items { result ≡ self.now }
        ensures set { IsOpSet self.now }
        ensures legal { IsTrue (is_legal self.now) }
    {
        BundleOps::new(self.count, self.bytes)
    }

    /// The set that it spells, each operation copied out of the bytes.
    ///
    /// # Errors
    /// Out of memory alone.
    pub fn to_set(&self, alloc: Global) -> Result<OpSet, AllocError>
        ensures { IfOk result (λ set. set ≡ self.now) }
    {
        let mut ops = Vec::new(alloc);
        for view in self.ops() {
            ops.push(view.to_op(alloc)?)?;
        }
        let mut set = OpSet::new(alloc);
        set.join_rising(ops)?;
        Ok(set)
    }
}

// The front of the magic that both formats have.
pub(crate) static MAGIC: [u8; 6] = *b"USFMSR";

// The end of the magic, after the digit of the format.
static LINE_END: [u8; 1] = *b"\n";

// What is read of a bundle before its thinned operations are judged.
#[derive(Clone, Copy, Debug)]
struct Fields<'a> {
    full: bool,
    count: u64,
    bytes: &'a [u8],
}

// Whether the byte is the digit of a format.
fn is_digit(byte: u8) -> bool
    ensures { result ≡ is_digit byte }
{
    byte == b'1' || byte == b'2'
}

// Whether the bundle is of format 1, and the bytes after the magic.
#[tactic(auto, unfolding(crate::specs::Reading::magic_at))]
fn after_magic(bytes: &[u8]) -> Result<(bool, &[u8]), BundleFault>
    ensures { Gives (λ x. (x.0, x.1.now)) result (magic_at bytes.now) }
{
    let rest = exactly_of(&MAGIC, BundleFault::Magic, bytes)?;
    let (digit, rest) = u8_at(rest)?;
    if !is_digit(digit) {
        return Err(BundleFault::Magic);
    }
    let rest = exactly_of(&LINE_END, BundleFault::Magic, rest)?;
    Ok((digit == b'1', rest))
}

// Judges the operations of a format after their count, each by itself, and gives the bytes after
// them too.
#[tactic(auto, unfolding(crate::specs::Reading::counted_operations_at))]
fn counted_operations_of(full: bool, bytes: &[u8]) -> Result<(Fields<'_>, &[u8]), BundleFault>
    ensures reads { Gives (λ x. (operations_in x.0.count x.0.bytes.now, x.1.now)) result
        (counted_operations_at full bytes.now) }
    ensures format { IfOk result (λ x. x.0.full ≡ full) }
    ensures spells { IfOk result (λ x. SpellsSet x.0.count x.0.bytes.now) }
{
    let (count, operations) = u64_at(bytes)?;
    let left = after_operations(full, count, operations)?;
    let (bytes, _) = operations.split_at(operations.len() - left.len());
    Ok((Fields { full, count, bytes }, left))
}

// Judges the fields of the bundle at the front, and gives the bytes after it too.
#[tactic(auto, unfolding(crate::specs::Reading::fields_at))]
fn bundle_fields_of(bytes: &[u8]) -> Result<(Fields<'_>, &[u8]), BundleFault>
    ensures reads { Gives (λ x. ((x.0.full, operations_in x.0.count x.0.bytes.now), x.1.now)) result
        (fields_at bytes.now) }
    ensures spells { IfOk result (λ x. SpellsSet x.0.count x.0.bytes.now) }
{
    let (full, operations) = after_magic(bytes)?;
    counted_operations_of(full, operations)
}

// Judges the bundle at the front, and gives the bytes after it too.
#[tactic(auto, unfolding(crate::specs::Reading::bundle_at))]
fn bundle_of(alloc: Global, bytes: &[u8]) -> Result<(Bundle<'_>, &[u8]), BundleFault>
    ensures { MatchResult result
        (λ x. bundle_at bytes.now ≡ Ok (x.0, x.1.now)) (RefusesBundle bytes.now) }
{
    let (fields, rest) = bundle_fields_of(bytes)?;
    let Fields { full, count, bytes } = fields;
    if !full {
        judge_thinned(alloc, count, bytes)?;
    }
    Ok((Bundle { full, count, bytes }, rest))
}

/// The bundle that the bytes begin with, and how many bytes it takes. What follows it is not read.
///
/// It allocates only for a bundle of format 2 of which each field is right, and only for its
/// thinned operations: to find out whether an operation of the same segment names each of them.
///
/// # Errors
/// The first field from left to right that is cut or breaks its rule, by `BundleFault`. A field is
/// judged once it is whole, before the next one is looked at. After them all comes, of format 2,
/// that no operation is thinned (`Unsupported(0)`), or the first thinned operation that none of its
/// segment names, and in the place of this one `Memory` where an allocation failed.
pub fn decode(alloc: Global, bytes: &[u8]) -> Result<(Bundle<'_>, usize), BundleFault>
    // What is read is a legal set of operations, and spelled so.
    ensures set { IfOk result (λ x. IsOpSet x.0) }
    ensures legal { IfOk result (λ x. IsTrue (is_legal x.0)) }
    ensures spelled { IfOk result (λ x. take x.1 bytes.now ≡ bundle x.0) }
    // What is spelled so is read, whatever follows. Only for a set with a thinned operation can
    // memory be refused.
    ensures only { (ops : List Operation) (rest : List ℕ) →
        IsOpSet ops → IsTrue (is_legal ops) → bytes.now ≡ bundle ops ++ rest
        → MatchResult result (λ x. x.0 ≡ ops)
        (λ fault. (fault ≡ BundleFault.Memory) × (all_full ops ≡ false)) }
    // How many bytes it takes.
    ensures length { IfOk result (λ x. x.1 ≡ length (bundle x.0)) }
    // Which fault it is, and what is not read.
    ensures exact { MatchResult result
        (λ x. bundle_at bytes.now ≡ Ok (x.0, drop x.1 bytes.now)) (RefusesBundle bytes.now) }
{
    let (bundle, rest) = bundle_of(alloc, bytes)?;
    Ok((bundle, bytes.len() - rest.len()))
}
