ghost use Rattle.std.specs.Prelude.{◌≡◌, ◌<◌, ◌^◌, length, IfOk};
ghost use Rattle.op_core.specs.Export.{of_book};
ghost use Rattle.op_core.specs.Ids.{id_cmp};
ghost use Rattle.op_core.specs.Ops.{IsOperation, in_segment, same_op, agree};
ghost use Rattle.op_core.specs.Ops as ops;
ghost use Rattle.bundle_codec.specs.Spelling.{operation, head};
ghost use Rattle.bundle_codec.specs.Views.{lent, op_view, SpellsOne};

use crate::judging::ids::{ReplacedIds, compared, made, same_ids};
use crate::judging::keys::book_in;
use crate::judging::operation::OpFields;
use op_core::{Op, OpId};
use std::alloc::{AllocError, Global};
use std::cmp::Ordering;
use std::marker::Model;
use usfm_ref::{Book, Key};

/// An operation, lent from the bytes of a bundle. What its calls lend lives as long as the bytes.
#[derive(Debug, Drop)]
pub struct OpView<'a> {
    fields: OpFields<'a>,
    bytes: &'a [u8],
}

impl<'a> Model for OpView<'a> {
    ghost use Rattle.op_core.specs.Ops.{Operation};
    ghost use Rattle.bundle_codec.specs.Views.{op_view, SpellsOne};

    ghost Value = { Operation };

    ghost view = { λ v. op_view v.fields };

    ghost invariant = { λ v. SpellsOne v.fields v.bytes.now };
}

impl<'a> OpView<'a> {
    // The operation of these fields, which the bytes spell.
    pub(crate) fn new(fields: OpFields<'a>, bytes: &'a [u8]) -> OpView<'a>
        requires { SpellsOne fields bytes.now }
        ensures { result ≡ op_view fields.entry }
    {
        OpView { fields, bytes }
    }

    /// The operation's id.
    pub fn id(&self) -> OpId
        ensures id { result ≡ self.now.id }
        ensures valid { IsOperation self.now }
    {
        made(&self.fields.id)
    }

    /// The book of its segment.
    pub fn book(&self) -> Book
        ensures { result ≡ self.now.segment.book }
    {
        book_in(self.fields.code)
    }

    /// Whether its segment is of the book.
    pub fn is_of_book(&self, book: Book) -> bool
        ensures { result ≡ of_book book self.now }
    {
        let code = book.code();
        self.fields.code == code.as_slice()
    }

    /// The key of its segment.
    pub fn key(&self) -> Key
        ensures { result ≡ self.now.segment.key }
    {
        Key {
            chapter: self.fields.key.chapter,
            place: self.fields.key.place,
        }
    }

    /// The ids that it names as replaced, in ascending order. The walk over them does not
    /// allocate.
    pub fn replaced(&self) -> ReplacedIds<'a>
        ensures { result ≡ self.now.replaced }
    {
        ReplacedIds::new(self.fields.replaced)
    }

    /// Its text, a slice of the bundle's bytes, and none exactly where it is thinned.
    pub fn text(&self) -> Option<&'a str>
        ensures { lent result ≡ self.now.text }
    {
        self.fields.text
    }

    /// The bytes that spell it in the bundle.
    pub fn spelled(&self) -> &'a [u8]
        ensures { result.now ≡ operation self.now }
    {
        self.bytes
    }

    // Whether it is of an operation's segment.
    fn is_beside(&self, op: &Op) -> bool
        ensures { result ≡ in_segment op.now.segment self.now }
    {
        self.book() == op.book() && self.key() == op.key()
    }

    // How its id compares to another's.
    pub(crate) fn compare_id(&self, other: &OpView<'_>) -> Ordering
        ensures { result ≡ id_cmp self.now.id other.now.id }
    {
        compared(&self.fields.id, &other.fields.id)
    }

    // The bytes before its tag, which spell all of it but its text.
    pub(crate) fn head(&self) -> &'a [u8]
        ensures bytes { result.now ≡ head self.now }
        ensures valid { IsOperation self.now }
        ensures short { length (operation self.now) < 2 ^ 64 }
    {
        // The tag, and before a text its length.
        let body = match self.text() {
            None => 1,
            Some(text) => text.len() + 9,
        };
        let own = self.bytes;
        let (head, _) = own.split_at(own.len() - body);
        head
    }

    // Whether the two are equal. An operation has one spelling.
    fn is_same(&self, other: &OpView<'_>) -> bool
        ensures { result ≡ same_op self.now other.now }
    {
        let own = self.bytes;
        own == other.bytes
    }

    /// Whether the two are equal, or at least one is thinned and they are equal but for their
    /// texts. It does not allocate.
    pub fn agrees(&self, other: &OpView<'_>) -> bool
        ensures { result ≡ agree self.now other.now }
    {
        match (self.text(), other.text()) {
            (Some(_), Some(_)) => self.is_same(other),
            _ => self.head() == other.head(),
        }
    }

    /// Whether it and an operation that is not lent from the bytes are equal, or at least one of
    /// them is thinned and they are equal but for their texts. It does not allocate.
    pub fn agrees_with(&self, op: &Op) -> bool
        ensures { result ≡ agree op.now self.now }
    {
        op.id() == self.id()
            && self.is_beside(op)
            && same_ids(op.replaced(), self.replaced())
            && texts_agree(op.text(), self.text())
    }

    /// The operation as a value of its own, copied out of the bytes.
    ///
    /// # Errors
    /// Out of memory alone.
    pub fn to_op(&self, alloc: Global) -> Result<Op, AllocError>
        ensures { IfOk result (λ op. op ≡ self.now) }
    {
        let replaced = self.replaced_ids(alloc)?;
        let (id, book, key) = (self.id(), self.book(), self.key());
        match self.text() {
            None => Ok(Op::thinned(id, book, key, replaced)),
            Some(text) => {
                let text = String::from_str(alloc, text)?;
                Ok(Op::new(id, book, key, replaced, text))
            }
        }
    }

    // The ids that it names, in a list that takes no more than they need.
    fn replaced_ids(&self, alloc: Global) -> Result<Vec<OpId>, AllocError>
        ensures { IfOk result (λ ids. ids.items ≡ self.now.replaced) }
    {
        let mut ids = Vec::with_capacity(alloc, self.fields.replaced.count as usize)?;
        for id in self.replaced() {
            ids.push(id)?;
        }
        Ok(ids)
    }
}

// Whether two texts are equal, or at least one is left out.
fn texts_agree(left: Option<&str>, right: Option<&str>) -> bool
    ensures { result ≡ ops.texts_agree (lent left.entry) (lent right.entry) }
{
    match (left, right) {
        (Some(left), Some(right)) => left.as_bytes() == right.as_bytes(),
        _ => true,
    }
}
