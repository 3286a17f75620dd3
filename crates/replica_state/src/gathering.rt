// Bundles whose operations are gathered before a replica holds some of them.
ghost use Rattle.std.specs.Prelude.{◌≡◌, ◌≢◌, false, [], None, Err};
ghost use Rattle.std.specs.Prelude.{IsOk, IfOk, IfErr, OnOk, IsTrue};
ghost use Rattle.std.specs.BTreeMap.{values};
ghost use Rattle.op_core.specs.OneBook.{ops_of_book};
ghost use Rattle.op_core.specs.Ops.{IsOperation};
ghost use Rattle.op_core.specs.Sets as sets;
ghost use Rattle.op_core.specs.Thinned.{is_legal};
ghost use Rattle.bundle_codec.specs.Spelling.{bundle};
ghost use Rattle.replica_state.specs.Loops.Gathering.{by_id, RefusesOne};
ghost use Rattle.replica_state.specs.Receives as receives;

use crate::fault::ReceiveFault;
use crate::one_book::{copy_if_of_book, replica_of};
use crate::replica::Replica;
use bundle_codec::{Bundle, OpView, encode_views};
use op_core::{Op, OpId, ReplicaName};
use std::alloc::{AllocError, Global};
use std::collections::BTreeMap;
use std::marker::Model;
use usfm_ref::Book;

/// The operations of bundles that are taken in one after another, lent from the bundles' bytes.
/// What a bundle costs depends on what it has, and hardly on what was taken in before it, in
/// whatever order they come.
#[derive(Debug, Drop)]
pub struct Gathering<'a> {
    alloc: Global,
    ops: BTreeMap<OpId, OpView<'a>>,
}

impl<'a> Model for Gathering<'a> {
    ghost use Rattle.std.specs.Prelude.{◌≡◌, List, IsTrue};
    ghost use Rattle.std.specs.BTreeMap.{values};
    ghost use Rattle.op_core.specs.Ops.{Operation};
    ghost use Rattle.op_core.specs.Sets.{IsOpSet};
    ghost use Rattle.op_core.specs.Thinned.{is_legal};
    ghost use Rattle.replica_state.specs.Loops.Gathering.{by_id};

    ghost Value = { List Operation };

    ghost view = { λ s. values s.ops };

    ghost invariant = { λ s. (s.ops.entries ≡ by_id (values s.ops))
        × IsOpSet (values s.ops) × IsTrue (is_legal (values s.ops)) };
}

impl<'a> Gathering<'a> {
    /// No operations. It does not allocate.
    pub fn new(alloc: Global) -> Gathering<'a>
        ensures { result ≡ [] }
    {
        Gathering {
            alloc,
            ops: BTreeMap::new(alloc),
        }
    }

    /// Takes in the operations of a bundle. Nothing is copied out of its bytes. Where an operation
    /// was taken in before and the bundle has it too, the thinned one stays, if either is thinned.
    ///
    /// # Errors
    /// `Clash` with the least id under which it and the bundle have operations that do not agree:
    /// their segments or the ids that they name differ, or both have a text and these differ.
    /// `Memory` where an allocation failed. All operations are then dropped.
    pub fn receive(self, bundle: &Bundle<'a>) -> Result<Gathering<'a>, ReceiveFault>
        ensures ok { IfOk result (λ after. after ≡ sets.join self.entry bundle.now) }
        ensures agrees { OnOk result (sets.clash self.entry bundle.now ≡ None) }
        ensures refused { IfErr result
            (receives.RefusesReceive (sets.clash self.entry bundle.now)) }
        // A clash is not reported as out of memory where nothing new comes before it, nor is
        // anything where nothing is new.
        ensures clash { let before = receives.before_clash self.entry bundle.now in
            receives.lacked self.entry before ≡ [] → result ≢ Err ReceiveFault.Memory }
    {
        let alloc = self.alloc;
        let mut ops = self.ops;
        for view in bundle.ops() {
            hold(&mut ops, view)?;
        }
        Ok(Gathering { alloc, ops })
    }

    /// A replica of this name that holds those of the operations which are of one book. Only these
    /// are copied. Where there is none, it does not allocate. It is to be looked at alone, as that
    /// of `Replica::of_book`.
    ///
    /// # Errors
    /// Out of memory alone.
    pub fn of_book(&self, name: ReplicaName, book: Book) -> Result<Replica, AllocError>
        ensures held { IfOk result (λ replica.
            replica ≡ record { name = name; held = ops_of_book self.now book }) }
        ensures none { ops_of_book self.now book ≡ [] → IsOk result }
    {
        replica_of(self.alloc, name, self.copy_of_book(book)?)
    }

    /// The bundle of the operations, each copied with the bytes that spell it.
    ///
    /// # Errors
    /// Out of memory alone.
    pub fn bundle(&self) -> Result<Vec<u8>, AllocError>
        ensures { IfOk result (λ bytes. bytes.items ≡ bundle self.now) }
    {
        let mut views = Vec::new(self.alloc);
        for view in self.ops.values() {
            views.push(view)?;
        }
        encode_views(self.alloc, &views)
    }

    // The operations of a book, copied out of the bundles' bytes, rising. Nothing is allocated
    // before the first of them.
    fn copy_of_book(&self, book: Book) -> Result<Vec<Op>, AllocError>
        ensures set { sets.IsOpSet self.now }
        ensures legal { IsTrue (is_legal self.now) }
        ensures ops { IfOk result (λ ops. ops.items ≡ ops_of_book self.now book) }
        ensures none { ops_of_book self.now book ≡ [] → IsOk result }
    {
        let mut ops = Vec::new(self.alloc);
        for view in self.ops.values() {
            copy_if_of_book(self.alloc, &mut ops, view, book)?;
        }
        Ok(ops)
    }
}

// Takes an operation in. Where one of its id is held, which has to agree with it, the thinned one
// stays, if either is thinned.
fn hold<'a>(ops: &mut BTreeMap<OpId, OpView<'a>>, view: OpView<'a>) -> Result<(), ReceiveFault>
    requires entries { ops.old.entries ≡ by_id (values ops.old) }
    requires rising { IsTrue (sets.rises (values ops.old)) }
    ensures ok { OnOk result (ops.new.entries ≡ by_id (sets.put view.entry (values ops.old))) }
    ensures valid { IsOperation view.entry }
    ensures agrees { OnOk result
        (sets.differs (sets.get (values ops.old) view.entry.id) view.entry ≡ false) }
    ensures refused { IfErr result (RefusesOne (values ops.old) view.entry) }
{
    let id = view.id();
    if let Some(held) = ops.get(&id) {
        if !held.agrees(&view) {
            return Err(ReceiveFault::Clash(id));
        }
        if view.text().is_some() {
            return Ok(());
        }
    }
    match ops.insert(id, view) {
        Ok(_) => Ok(()),
        Err(_) => Err(ReceiveFault::Memory),
    }
}
