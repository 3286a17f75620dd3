ghost use Rattle.std.specs.Prelude.{◌≡◌, ◌≢◌, [], None, Ok, Err, IfOk, IfErr, IsTrue, OnOk, OnErr};
ghost use Rattle.op_core.specs.Sets as sets;
ghost use Rattle.op_core.specs.Thinned.{ArePast, is_legal, is_thinned_in, thin_where};
ghost use Rattle.replica_state.specs.Receives as receives;
ghost use Rattle.replica_state.specs.States.{IsState};
ghost use Rattle.replica_state.specs.Steps.{step, with_ops, Receive, Received};

use crate::fault::ReceiveFault;
use crate::replica::Replica;
use bundle_codec::Bundle;
use op_core::{Op, OpSet};

impl Replica {
    /// Takes in the operations of a bundle, and says how many are new. Only the new ones are
    /// copied; then the text of each held one is left out that the bundle has thinned. So a bundle
    /// whose operations are all held, alike or thinned on either side, is never refused as out of
    /// memory, nor is one whose new operations all come after a clash.
    ///
    /// # Errors
    /// `Clash` with the least id under which the replica and the bundle have operations that do not
    /// agree: their segments or the ids that they name differ, or both have a text and these
    /// differ. `Memory` where an allocation failed. The replica is then unchanged.
    pub fn receive(&mut self, bundle: &Bundle<'_>) -> Result<u64, ReceiveFault>
        ensures step { result ≢ Err ReceiveFault.Memory →
            step self.old (Receive bundle.now)
            ≡ record { after = self.new; reply = Received result } }
        ensures ok { OnOk result (self.new ≡ with_ops self.old bundle.now) }
        ensures agrees { OnOk result (sets.clash self.old.held bundle.now ≡ None) }
        ensures refused { IfErr result
            (receives.RefusesReceive (sets.clash self.old.held bundle.now)) }
        ensures nothing_new { receives.lacked self.old.held bundle.now ≡ [] →
            result ≢ Err ReceiveFault.Memory }
        // Nor is a clash reported as out of memory where nothing new comes before it.
        ensures clash { let before = receives.before_clash self.old.held bundle.now in
            receives.lacked self.old.held before ≡ [] → result ≢ Err ReceiveFault.Memory }
        ensures held { sets.AreHeld self.old.held bundle.now → result ≡ Ok 0 }
        ensures err { OnErr result (self.new ≡ self.old) }
    {
        let new = self.copy_lacked(bundle)?;
        let count = self.join_new(new)?;
        leave_texts(&mut self.set, bundle);
        // The set's operations show that they are within their rules.
        let _ = self.set.iter();
        Ok(count)
    }

    // The operations of a bundle that the replica lacks, copied out of the bundle's bytes, rising.
    // Nothing is allocated before the first of them.
    pub(crate) fn copy_lacked(&self, bundle: &Bundle<'_>) -> Result<Vec<Op>, ReceiveFault>
        ensures state { IsState self.now }
        ensures set { sets.IsOpSet bundle.now }
        ensures legal { IsTrue (is_legal bundle.now) }
        ensures ok { IfOk result (λ new. new.items ≡ receives.lacked self.now.held bundle.now) }
        ensures agrees { OnOk result (sets.clash self.now.held bundle.now ≡ None) }
        ensures refused { IfErr result
            (receives.RefusesReceive (sets.clash self.now.held bundle.now)) }
        ensures nothing_new { receives.lacked self.now.held bundle.now ≡ [] →
            result ≢ Err ReceiveFault.Memory }
        ensures clash { let before = receives.before_clash self.now.held bundle.now in
            receives.lacked self.now.held before ≡ [] → result ≢ Err ReceiveFault.Memory }
    {
        let mut cursor = self.set.cursor();
        let mut new = Vec::new(self.alloc);
        for view in bundle.ops() {
            let id = view.id();
            match cursor.find(&id) {
                None => new.push(view.to_op(self.alloc)?)?,
                Some(op) if view.agrees_with(op) => {}
                Some(_) => return Err(ReceiveFault::Clash(id)),
            }
        }
        Ok(new)
    }
}

// Leaves out the text of each held operation that the bundle has thinned. One of full operations is
// not walked over.
fn leave_texts(set: &mut OpSet, bundle: &Bundle<'_>)
    requires past { ArePast (is_thinned_in bundle.now) set.old }
    ensures { set.new ≡ thin_where (is_thinned_in bundle.now) set.old }
{
    if bundle.is_full() {
        return;
    }
    for view in bundle.ops() {
        if view.text().is_none() {
            set.thin_id(&view.id());
        }
    }
}
