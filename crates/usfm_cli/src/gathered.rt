// The bundles of a stream, before the one book that is written is made of them.
ghost use Rattle.std.specs.Prelude.{◌≡◌, ℕ, suc, [], None, IsOk, IfOk, IfErr, OnOk};
ghost use Rattle.op_core.specs.OneBook.{ops_of_book};
ghost use Rattle.op_core.specs.Sets as sets;
ghost use Rattle.bundle_codec.specs.Spelling.{bundle};
ghost use Rattle.usfm_cli.specs.Loops.Gathered.{held_in, AreSoMany, RefusesNext};

use bundle_codec::Bundle;
use op_core::ReplicaName;
use replica_state::{Gathering, ReceiveFault, Replica};
use std::alloc::{AllocError, Global};
use usfm_ref::Book;

// The operations of the bundles that were read so far. One bundle is a set as it is, so they are
// gathered only when a second one comes.
#[derive(Debug, Drop)]
pub(crate) enum Gathered<'a> {
    Nothing,
    One(Bundle<'a>),
    Many(Gathering<'a>),
}

impl<'a> Gathered<'a> {
    // Takes in the operations of a bundle. The first does not allocate.
    pub(crate) fn receive(
        self,
        alloc: Global,
        bundle: Bundle<'a>,
    ) -> Result<Gathered<'a>, ReceiveFault>
        requires held { sets.IsOpSet (held_in self) }
        ensures ok { IfOk result (λ after.
            held_in after ≡ sets.join (held_in self.entry) bundle.entry) }
        ensures set { IfOk result (λ after. sets.IsOpSet (held_in after)) }
        ensures count { (before : ℕ) → AreSoMany before self.entry
            → IfOk result (AreSoMany (suc before)) }
        ensures agrees { OnOk result (sets.clash (held_in self.entry) bundle.entry ≡ None) }
        ensures refused { (before : ℕ) → AreSoMany before self.entry
            → IfErr result (RefusesNext before (held_in self.entry) bundle.entry) }
    {
        // The bundle's operations show that they rise.
        let _ = bundle.ops();
        match self {
            Gathered::Nothing => Ok(Gathered::One(bundle)),
            Gathered::One(first) => {
                let gathered = gather(alloc, &first)?;
                Ok(Gathered::Many(gathered.receive(&bundle)?))
            }
            Gathered::Many(gathered) => Ok(Gathered::Many(gathered.receive(&bundle)?)),
        }
    }

    // A replica of this name that holds those of the operations which are of one book. Where there
    // is none, it does not allocate.
    pub(crate) fn of_book(
        &self,
        alloc: Global,
        name: ReplicaName,
        book: Book,
    ) -> Result<Replica, AllocError>
        ensures held { IfOk result (λ replica.
            replica ≡ record { name = name; held = ops_of_book (held_in self.now) book }) }
        ensures none { ops_of_book (held_in self.now) book ≡ [] → IsOk result }
    {
        match self {
            Gathered::Nothing => Ok(Replica::new(alloc, name)),
            Gathered::One(bundle) => Replica::of_book(alloc, name, bundle, book),
            Gathered::Many(gathered) => gathered.of_book(name, book),
        }
    }

    // The bundle of the operations.
    pub(crate) fn bundle(&self, alloc: Global) -> Result<Vec<u8>, AllocError>
        ensures { IfOk result (λ bytes. bytes.items ≡ bundle (held_in self.now)) }
    {
        match self {
            Gathered::Nothing => Gathering::new(alloc).bundle(),
            Gathered::One(bundle) => gather(alloc, bundle)?.bundle(),
            Gathered::Many(gathered) => gathered.bundle(),
        }
    }
}

// The operations of a first bundle, gathered. Where there is none, it does not allocate.
fn gather<'a>(alloc: Global, first: &Bundle<'a>) -> Result<Gathering<'a>, AllocError>
    ensures ok { IfOk result (λ gathered. gathered ≡ first.now) }
    ensures none { first.now ≡ [] → IsOk result }
{
    // The bundle's operations show that they rise.
    let _ = first.ops();
    match Gathering::new(alloc).receive(first) {
        Ok(gathered) => Ok(gathered),
        Err(_) => Err(AllocError),
    }
}
