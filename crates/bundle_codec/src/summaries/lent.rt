// Operations that are lent from a set, or from the bytes of a bundle.
ghost use Rattle.std.specs.Prelude.{◌≡◌, ◌++◌, IfOk, IsTrue};
ghost use Rattle.std.specs.Iterator.{YieldsFirst, item_count};
ghost use Rattle.op_core.specs.Ops.{IsOperation, is_full};
ghost use Rattle.op_core.specs.Sets.{IsOpSet};
ghost use Rattle.op_core.specs.Thinned.{is_legal};
ghost use Rattle.bundle_codec.specs.Spelling as spelled;

use crate::bundle::Bundle;
use crate::views::view::OpView;
use crate::views::walk::BundleOps;
use crate::writing::push_operation;
use op_core::{Op, OpId, OpSet, Ops};
use std::alloc::AllocError;
use std::marker::Model;
use usfm_ref::{Book, Key};

// An operation of a set or of a bundle.
#[derive(Drop)]
pub(crate) struct Lent<'a> {
    op: One<'a>,
}

#[derive(Drop)]
enum One<'a> {
    OfSet(&'a Op),
    OfBundle(OpView<'a>),
}

impl<'a> Model for Lent<'a> {
    ghost use Rattle.op_core.specs.Ops.{Operation};
    ghost use Rattle.bundle_codec.specs.Loops.Lending.{one_op};

    ghost Value = { Operation };

    ghost view = { λ l. one_op l.op };
}

impl Lent<'_> {
    pub(crate) fn id(&self) -> OpId
        ensures id { result ≡ self.now.id }
        ensures valid { IsOperation self.now }
    {
        match &self.op {
            One::OfSet(op) => op.id(),
            One::OfBundle(op) => op.id(),
        }
    }

    pub(crate) fn book(&self) -> Book
        ensures { result ≡ self.now.segment.book }
    {
        match &self.op {
            One::OfSet(op) => op.book(),
            One::OfBundle(op) => op.book(),
        }
    }

    pub(crate) fn key(&self) -> Key
        ensures { result ≡ self.now.segment.key }
    {
        match &self.op {
            One::OfSet(op) => op.key(),
            One::OfBundle(op) => op.key(),
        }
    }

    // Whether it has its text.
    pub(crate) fn is_full(&self) -> bool
        ensures { result ≡ is_full self.now }
    {
        match &self.op {
            One::OfSet(op) => op.text().is_some(),
            One::OfBundle(op) => op.text().is_some(),
        }
    }

    // Appends the bytes that spell it.
    pub(crate) fn push_to(&self, bytes: &mut Vec<u8>) -> Result<(), AllocError>
        ensures { IfOk result (λ _.
            bytes.new.items ≡ bytes.old.items ++ spelled.operation self.now) }
    {
        match &self.op {
            One::OfSet(op) => push_operation(bytes, op),
            One::OfBundle(op) => bytes.extend_from_slice(op.spelled()),
        }
    }
}

// A walk over the operations, in ascending order of ids.
#[derive(Drop)]
pub(crate) struct LentOps<'a> {
    left: Left<'a>,
}

// What is left of a walk.
#[derive(Drop)]
enum Left<'a> {
    OfSet(Ops<'a>),
    OfBundle(BundleOps<'a>),
}

impl<'a> Model for LentOps<'a> {
    ghost use Rattle.std.specs.Prelude.{List};
    ghost use Rattle.op_core.specs.Ops.{Operation};
    ghost use Rattle.bundle_codec.specs.Loops.Lending.{ops_left};

    ghost Value = { List Operation };

    ghost view = { λ s. ops_left s.left };
}

impl<'a> LentOps<'a> {
    pub(crate) fn of_set(set: &'a OpSet) -> LentOps<'a>
        ensures ops { result ≡ set.now }
        ensures set { IsOpSet set.now }
        ensures legal { IsTrue (is_legal set.now) }
    {
        LentOps {
            left: Left::OfSet(set.iter()),
        }
    }

    pub(crate) fn of_bundle(bundle: &Bundle<'a>) -> LentOps<'a>
        ensures ops { result ≡ bundle.now }
        ensures set { IsOpSet bundle.now }
        ensures legal { IsTrue (is_legal bundle.now) }
    {
        LentOps {
            left: Left::OfBundle(bundle.ops()),
        }
    }
}

impl<'a> Iterator for LentOps<'a> {
    type Item = Lent<'a>;

    ghost next_gives = { YieldsFirst (λ s. s) };

    ghost remaining = { item_count (λ s. s) };

    fn next(&mut self) -> Option<Lent<'a>> {
        let op = match &mut self.left {
            Left::OfSet(ops) => One::OfSet(ops.next()?),
            Left::OfBundle(ops) => One::OfBundle(ops.next()?),
        };
        Some(Lent { op })
    }
}
