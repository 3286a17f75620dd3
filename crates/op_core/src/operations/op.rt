ghost use Rattle.std.specs.Prelude.{◌≡◌, IfOk, IsTrue, string_bytes, option_map, Some, None};
ghost use Rattle.std.specs.Cmp.{partial_equiv_from_equiv};
ghost use Rattle.std.specs.Cmp.Lexicographic.{pointwise};
ghost use Rattle.std.specs.List.{list_all};
ghost use Rattle.usfm_ref.specs.Segments.{segment};
ghost use Rattle.verse_cut.specs.Fits.{Fits};
ghost use Rattle.op_core.specs.Ids as ids;
ghost use Rattle.op_core.specs.Ops.{IsOperation, in_segment, bare, agree, same_bare};
ghost use Rattle.op_core.specs.Ops as ops;

use crate::ids::op_id::OpId;
use std::alloc::{AllocError, Global};
use std::marker::Model;
use usfm_ref::{Book, Key, Segment};

/// One text for one segment, with its id and the ids of the operations of that segment that it
/// replaces. The text fits the segment's book and key. A thinned operation is kept without it.
#[derive(Debug, Drop)]
pub struct Op {
    id: OpId,
    segment: Segment,
    replaced: Vec<OpId>,
    text: Option<String>,
}

impl Model for Op {
    ghost use Rattle.std.specs.Prelude.{string_bytes, option_map};
    ghost use Rattle.op_core.specs.Ops.{Operation, IsOperation};

    ghost Value = { Operation };

    ghost view = { λ a. record {
      id = a.id;
      segment = a.segment;
      replaced = a.replaced.items;
      text = option_map (λ t. string_bytes t) a.text;
    } };

    ghost invariant = { λ a. IsOperation
        (record {
          id = a.id;
          segment = a.segment;
          replaced = a.replaced.items;
          text =
              option_map (λ t. string_bytes t) a.text;
        }) };
}

impl Op {
    /// The operation of these parts. The replaced ids have to rise, each with a smaller number than
    /// the operation's, which `names_fall` tests, and the text has to fit the book and the key,
    /// which `verse_cut::fits` tests.
    pub fn new(id: OpId, book: Book, key: Key, replaced: Vec<OpId>, text: String) -> Op
        requires falls { IsTrue (ids.names_fall id replaced.items) }
        requires fits { Fits book key (string_bytes text) }
        ensures { result ≡ record {
          id = id;
          segment = segment book key;
          replaced = replaced.items;
          text = Some (string_bytes text);
        } }
    {
        look_at_parts(&id, &book, &key, &replaced);
        let _ = text.as_str();
        Op {
            id,
            segment: Segment { book, key },
            replaced,
            text: Some(text),
        }
    }

    /// The operation of these parts whose text is left out. The replaced ids have to rise, each
    /// with a smaller number than the operation's.
    pub fn thinned(id: OpId, book: Book, key: Key, replaced: Vec<OpId>) -> Op
        requires falls { IsTrue (ids.names_fall id replaced.items) }
        ensures { result ≡ record {
          id = id;
          segment = segment book key;
          replaced = replaced.items;
          text = None;
        } }
    {
        look_at_parts(&id, &book, &key, &replaced);
        let text = None;
        Op {
            id,
            segment: Segment { book, key },
            replaced,
            text,
        }
    }

    /// The operation's id.
    pub fn id(&self) -> OpId
        ensures id { result ≡ self.now.id }
        ensures valid { IsOperation self.now }
    {
        self.id
    }

    /// The book of its segment.
    pub fn book(&self) -> Book
        ensures { result ≡ self.now.segment.book }
    {
        self.segment.book
    }

    /// The key of its segment.
    pub fn key(&self) -> Key
        ensures { result ≡ self.now.segment.key }
    {
        self.segment.key
    }

    // The segment.
    pub(crate) fn segment(&self) -> Segment
        ensures { result ≡ self.now.segment }
    {
        self.segment
    }

    /// The ids that it names as replaced, in ascending order, lent from it.
    pub fn replaced(&self) -> &[OpId]
        ensures { result.now ≡ self.now.replaced }
    {
        &self.replaced
    }

    /// Its text, lent from it, and none exactly for a thinned one.
    pub fn text(&self) -> Option<&str>
        ensures { option_map (λ t. t.now) result ≡ self.now.text }
    {
        match &self.text {
            None => None,
            Some(text) => Some(text.as_str()),
        }
    }

    /// Its text, lent from it, and the empty text for a thinned one.
    pub fn text_or_empty(&self) -> &str
        ensures { result.now ≡ ops.own_text self.now }
    {
        match &self.text {
            None => "",
            Some(text) => text.as_str(),
        }
    }

    /// A copy: its named ids and its text are copied.
    ///
    /// # Errors
    /// Out of memory alone.
    pub fn copy(&self, alloc: Global) -> Result<Op, AllocError>
        ensures { IfOk result (λ copy. copy ≡ self.now) }
    {
        let replaced = self.replaced().to_vec(alloc)?;
        let (id, book, key) = (self.id(), self.book(), self.key());
        match self.text() {
            None => Ok(Op::thinned(id, book, key, replaced)),
            Some(text) => {
                let text = String::from_str(alloc, text)?;
                Ok(Op::new(id, book, key, replaced, text))
            }
        }
    }

    // Leaves its text out, and says whether it had one.
    pub(crate) fn leave_text(&mut self) -> bool
        ensures bare { self.new ≡ bare self.old }
        ensures was { result ≡ ops.is_full self.old }
    {
        let was = self.text.is_some();
        self.text = None;
        was
    }

    // Whether the two are equal, or at least one is thinned and they are equal but for their texts.
    pub(crate) fn agrees(&self, other: &Op) -> bool
        ensures { result ≡ agree self.now other.now }
    {
        self.same_parts(other) && texts_agree(self.text(), other.text())
    }

    // Whether the two are equal but for their texts.
    fn same_parts(&self, other: &Op) -> bool
        ensures { result ≡ same_bare self.now other.now }
    {
        self.id == other.id
            && other.in_segment(&self.segment)
            && same_ids(&self.replaced, &other.replaced)
    }

    // Whether the operation is of the segment.
    pub(crate) fn in_segment(&self, segment: &Segment) -> bool
        ensures { result ≡ in_segment segment.now self.now }
    {
        self.segment == *segment
    }
}

/// Operations are equal where all their parts are.
impl PartialEq for Op {
    ghost use Rattle.op_core.specs.Ops.{same_op};
    ghost use Rattle.op_core.specs.Equal.{same_op_equiv};

    ghost eq = { same_op };

    ghost laws = { partial_equiv_from_equiv same_op_equiv };

    fn eq(&self, other: &Op) -> bool {
        self.same_parts(other) && same_text(self.text(), other.text())
    }
}

fn same_text(left: Option<&str>, right: Option<&str>) -> bool
    ensures { result ≡ ops.same_text (option_map (λ t. t.now) left.entry)
        (option_map (λ t. t.now) right.entry) }
{
    match (left, right) {
        (None, None) => true,
        (Some(left), Some(right)) => left.as_bytes() == right.as_bytes(),
        _ => false,
    }
}

fn texts_agree(left: Option<&str>, right: Option<&str>) -> bool
    ensures { result ≡ ops.texts_agree (option_map (λ t. t.now) left.entry)
        (option_map (λ t. t.now) right.entry) }
{
    match (left, right) {
        (Some(left), Some(right)) => left.as_bytes() == right.as_bytes(),
        _ => true,
    }
}

fn same_ids(left: &[OpId], right: &[OpId]) -> bool
    ensures { result ≡ pointwise ids.same_id left.now right.now }
{
    left == right
}

// Looks at the parts of an operation: a proof knows that a value is within its ranges once it was
// looked at. Nothing of it is left in the program.
fn look_at_parts(id: &OpId, book: &Book, key: &Key, replaced: &[OpId])
    ensures id { IsTrue (ids.is_id id.now) }
    ensures segment { IsTrue (ops.is_segment (segment book.now key.now)) }
    ensures replaced { IsTrue (list_all ids.is_id replaced.now) }
{
    let _ = &id.number;
    let _ = book.code();
    let _ = &key.chapter;
    look_at_each(replaced);
}

// The same of each of these ids.
fn look_at_each(replaced: &[OpId])
    ensures { IsTrue (list_all ids.is_id replaced.now) }
{
    for id in replaced {
        let _ = &id.number;
    }
}
