ghost use Rattle.std.specs.Prelude.{◌≡◌, ◌++◌, [], map, Ok, IsOk, IfOk};
ghost use Rattle.usfm_ref.specs.Segments.{segment};
ghost use Rattle.op_core.specs.Lists as lists;
ghost use Rattle.op_core.specs.Shown as texts;
ghost use Rattle.bundle_codec.specs.Joining.{whole_at};
ghost use Rattle.bundle_codec.specs.Spelling.{bundle};
ghost use Rattle.bundle_codec.specs.Summaries.{IsSummaryOf, summary_of, outside};
ghost use Rattle.replica_state.specs.States.{IsState, begun};
ghost use Rattle.replica_state.specs.Steps.{step, Thin, Thinned};

use bundle_codec::{Summary, encode, encode_after, encode_outside};
use op_core::{Books, Keys, Op, OpId, OpSet, Picked, ReplicaName};
use std::alloc::{AllocError, Global};
use std::marker::Model;
use usfm_ref::{Book, Key};

/// A copy of a project that one person edits: the name that the replica's own operations get, and
/// the set of operations that it holds. It keeps the allocator that it was made with.
#[derive(Debug, Drop)]
pub struct Replica {
    pub(crate) alloc: Global,
    pub(crate) name: ReplicaName,
    pub(crate) set: OpSet,
}

impl Model for Replica {
    ghost use Rattle.replica_state.specs.States.{State, IsState};

    ghost Value = { State };

    ghost view = { λ r. record { name = r.name; held = r.set } };

    ghost invariant = { λ r. IsState (record { name = r.name; held = r.set }) };
}

impl Replica {
    /// A replica of this name that holds nothing. It does not allocate.
    pub fn new(alloc: Global, name: ReplicaName) -> Replica
        ensures { result ≡ begun name }
    {
        // The name's text and the set's operations show that both are within their rules.
        let _ = name.text();
        let set = OpSet::new(alloc);
        let _ = set.iter();
        Replica { alloc, name, set }
    }

    /// The replica's name.
    pub fn name(&self) -> ReplicaName
        ensures name { result ≡ self.now.name }
        ensures valid { IsState self.now }
    {
        self.name
    }

    /// The set of the operations that the replica holds, lent from it.
    pub fn set(&self) -> &OpSet
        ensures { result.now ≡ self.now.held }
    {
        &self.set
    }

    /// The books with an operation, in the order of books. The walk does not allocate.
    pub fn books(&self) -> Books<'_>
        ensures { result ≡ lists.books_of self.now.held }
    {
        self.set.books()
    }

    /// The keys of a book with an operation, in ascending order. The walk does not allocate.
    pub fn keys(&self, book: Book) -> Keys<'_>
        ensures { result ≡ lists.keys_of self.now.held book }
    {
        self.set.keys(book)
    }

    /// The ids that a held operation names and none has, in ascending order, each once. Where there
    /// is none, it never answers out of memory.
    ///
    /// # Errors
    /// Out of memory alone.
    pub fn awaited(&self, alloc: Global) -> Result<Vec<OpId>, AllocError>
        ensures ids { IfOk result (λ ids. ids.items ≡ lists.awaited self.now.held) }
        ensures none { lists.awaited self.now.held ≡ [] → IsOk result }
    {
        self.set.awaited(alloc)
    }

    /// What the segment shows: the operations of it whose ids no operation of it names as replaced,
    /// in ascending order, lent from the replica. Where it shows none, it never answers out of
    /// memory.
    ///
    /// # Errors
    /// Out of memory alone.
    pub fn shown(&self, alloc: Global, book: Book, key: Key) -> Result<Vec<&Op>, AllocError>
        ensures ops { IfOk result (λ v.
            map (λ op. op.now) v.items ≡ texts.shown self.now.held (segment book key)) }
        ensures none { texts.shown self.now.held (segment book key) ≡ [] → IsOk result }
    {
        self.set.shown(alloc, book, key)
    }

    /// What is picked for the segment's text in its book's export: the chapter's own line for a
    /// head from chapter 1 on whose text would be empty while some verse of the chapter has a text,
    /// else the shown operation with the greatest id, if there is one. It does not allocate.
    pub fn pick(&self, book: Book, key: Key) -> Picked<'_>
        ensures { texts.picked result ≡ texts.pick self.now.held (segment book key) }
    {
        self.set.pick(book, key)
    }

    /// The bundle of all operations that the replica holds.
    ///
    /// # Errors
    /// Out of memory alone.
    pub fn bundle(&self, alloc: Global) -> Result<Vec<u8>, AllocError>
        ensures spelled { IfOk result (λ bytes. bytes.items ≡ bundle self.now.held) }
        ensures again { IfOk result (λ bytes. whole_at bytes.items ≡ Ok self.now.held) }
    {
        encode(alloc, &self.set)
    }

    /// The bytes with the bundle of all operations that the replica holds after them, for a file
    /// that has it after something else. The bytes are taken, and dropped on an error.
    ///
    /// # Errors
    /// Out of memory alone.
    pub fn bundle_after(&self, bytes: Vec<u8>) -> Result<Vec<u8>, AllocError>
        ensures { IfOk result (λ whole. whole.items ≡ bytes.items ++ bundle self.now.held) }
    {
        encode_after(bytes, &self.set)
    }

    /// The summary of the ids that the replica holds.
    ///
    /// # Errors
    /// Out of memory alone.
    pub fn summary(&self, alloc: Global) -> Result<Summary, AllocError>
        ensures exact { IfOk result (λ s. IsSummaryOf self.now.held s) }
        ensures value { IfOk result (λ s. s ≡ summary_of self.now.held) }
    {
        Summary::of(alloc, &self.set)
    }

    /// The bundle of the held operations whose ids lie outside a summary: what the copy with that
    /// summary lacks. Where one of them is thinned, it also has all others that are held of its
    /// segment, so that one that names it goes along. They are lent and written one by one; no
    /// second set is made.
    ///
    /// # Errors
    /// Out of memory alone.
    pub fn delta(&self, alloc: Global, summary: &Summary) -> Result<Vec<u8>, AllocError>
        ensures spelled { IfOk result (λ bytes.
            bytes.items ≡ bundle (outside summary.now self.now.held)) }
        ensures again { IfOk result (λ bytes.
            whole_at bytes.items ≡ Ok (outside summary.now self.now.held)) }
    {
        encode_outside(alloc, &self.set, summary)
    }

    /// Leaves out the text of every operation that a held operation of its segment names as
    /// replaced, and says how many texts it left out. What is shown, picked, awaited and summed up
    /// stays. It does not allocate.
    pub fn thin(&mut self) -> u64
        ensures { step self.old Thin ≡ record { after = self.new; reply = Thinned result } }
    {
        let count = self.set.thin();
        // The set's operations show that they are within their rules.
        let _ = self.set.iter();
        count
    }

    /// How many comparisons the replica's set counted (`OpSet::compared`), up to `u64::MAX`. It is
    /// no part of the replica's state, and may rise in a refused call.
    pub fn compared(&self) -> u64 {
        self.set.compared()
    }
}
