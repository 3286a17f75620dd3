//! Laws of calls: each call that changes a replica, or makes bytes that travel, is an event of
//! every world that has the replica: a receiving where the bundle was made in that world; changes
//! made together, and an import since a base, are several. Each function makes the call that it is
//! named after, `read` that of `decode_whole`, and its contract says which event that is.
ghost use Rattle.std.specs.Prelude.{◌≡◌, ◌≢◌, ◌∷◌, Err, IfOk, OnErr, OnOk, length};
ghost use Rattle.usfm_ref.specs.Segments.{segment};
ghost use Rattle.op_core.specs.Lists.{is_held};
ghost use Rattle.bundle_codec.specs.Summaries.{outside};
ghost use Rattle.replica_state.specs.Changes.{changes_view};
ghost use Rattle.replica_state.specs.Steps.{Edited, Imported, Received, Thin, Thinned, step};
ghost use Rattle.replica_state.specs.World as world;
ghost use Rattle.replica_state.specs.World.Calls as calls;

use crate::change::Change;
use crate::fault::{EditFault, ImportFault, ReceiveFault, SinceFault};
use crate::replica::Replica;
use bundle_codec::{Bundle, Summary, WholeFault, decode_whole};
use op_core::{OpId, ReplicaName};
use std::alloc::{AllocError, Global};
use usfm_ref::{Book, Key};

/// A replica that was just made is the one of its name in the beginning.
pub fn new(alloc: Global, name: ReplicaName) -> Replica
    ensures { result ≡ world.replica world.beginning name }
{
    Replica::new(alloc, name)
}

/// A call of `edit` is the event of an edit; out of memory, that of a call that finds none.
///
/// # Errors
/// Those of `edit`.
pub fn edit(replica: &mut Replica, book: Book, key: Key, text: &str) -> Result<OpId, EditFault>
    ensures event { let e = world.Edits replica.old.name (segment book key) text.now in
        result ≢ Err EditFault.Memory → calls.IsEvent e replica.old replica.new }
    ensures reply { let e = world.Edits replica.old.name (segment book key) text.now in
        result ≢ Err EditFault.Memory → calls.IsReply e replica.old (Edited result) }
    ensures memory { let e = world.FindsNoMemory replica.old.name in
        result ≡ Err EditFault.Memory → calls.IsEvent e replica.old replica.new }
{
    replica.edit(book, key, text)
}

/// A call of `edit_over` is the event of an edit over given ids.
///
/// # Errors
/// Those of `edit_over`.
pub fn edit_over(
    replica: &mut Replica,
    book: Book,
    key: Key,
    text: &str,
    over: &[OpId],
) -> Result<OpId, EditFault>
    ensures event { let e = world.EditsOver replica.old.name (segment book key) text.now over.now in
        result ≢ Err EditFault.Memory → calls.IsEvent e replica.old replica.new }
    ensures reply { let e = world.EditsOver replica.old.name (segment book key) text.now over.now in
        result ≢ Err EditFault.Memory → calls.IsReply e replica.old (Edited result) }
    ensures memory { let e = world.FindsNoMemory replica.old.name in
        result ≡ Err EditFault.Memory → calls.IsEvent e replica.old replica.new }
{
    replica.edit_over(book, key, text, over)
}

/// A call of `import` is the event of an import.
///
/// # Errors
/// Those of `import`.
pub fn import(replica: &mut Replica, file: &str) -> Result<u64, ImportFault>
    ensures event { let e = world.Imports replica.old.name file.now in
        result ≢ Err ImportFault.Memory → calls.IsEvent e replica.old replica.new }
    ensures reply { let e = world.Imports replica.old.name file.now in
        result ≢ Err ImportFault.Memory → calls.IsReply e replica.old (Imported result) }
    ensures memory { let e = world.FindsNoMemory replica.old.name in
        result ≡ Err ImportFault.Memory → calls.IsEvent e replica.old replica.new }
{
    replica.import(file)
}

/// A call of `import_since` that is not refused is the event of the receiving of its base, and then
/// that of an edit over given ids for each key that was changed. It answers how many these are.
///
/// # Errors
/// Those of `import_since`.
pub fn import_since(replica: &mut Replica, base: &Bundle<'_>, file: &str) -> Result<u64, SinceFault>
    ensures events { OnOk result
        (calls.IsImportingSince base.now file.now replica.old replica.new) }
    ensures count { IfOk result (calls.CountsChanges base.now file.now replica.old) }
    ensures refused { let e = world.FindsNoMemory replica.old.name in
        OnErr result (calls.IsEvent e replica.old replica.new) }
{
    // The name and the operations show that the replica and the base are within their rules.
    let _ = replica.name();
    let _ = base.ops();
    replica.import_since(base, file)
}

/// A call of `change` that is not refused, with changes whose keys rise and of which the first
/// begins the book if it has no operation, is the event of an edit over given ids for each. It
/// answers how many these are.
///
/// # Errors
/// Those of `change`.
pub fn change(replica: &mut Replica, book: Book, changes: &[Change<'_>]) -> Result<u64, EditFault>
    ensures events { OnOk result
        (calls.AreChanges book (changes_view changes.now) replica.old replica.new) }
    ensures count { IfOk result (λ count. count ≡ length changes.now) }
    ensures refused { let e = world.FindsNoMemory replica.old.name in
        OnErr result (calls.IsEvent e replica.old replica.new) }
{
    // The name shows that the replica is within its rules.
    let _ = replica.name();
    replica.change(book, changes)
}

/// A call of `thin` is the event of a thinning.
pub fn thin(replica: &mut Replica) -> u64
    ensures event { calls.IsEvent (world.Thins replica.old.name) replica.old replica.new }
    ensures reply { (step replica.old Thin).reply ≡ Thinned result }
{
    replica.thin()
}

/// A call of `receive` with a bundle that was made is the event of its receiving, and is never
/// refused as a clash.
///
/// # Errors
/// Those of `receive`.
pub fn receive(replica: &mut Replica, bundle: &Bundle<'_>) -> Result<u64, ReceiveFault>
    ensures event { result ≢ Err ReceiveFault.Memory →
        calls.IsReceiving bundle.now replica.old replica.new (Received result) }
    ensures memory { let e = world.FindsNoMemory replica.old.name in
        result ≡ Err ReceiveFault.Memory → calls.IsEvent e replica.old replica.new }
    ensures never { calls.NeverClashes bundle.now replica.old result }
{
    replica.receive(bundle)
}

/// A call of `summary` is the event of a summary.
///
/// # Errors
/// Those of `summary`.
pub fn summary(replica: &Replica, alloc: Global) -> Result<Summary, AllocError>
    ensures { IfOk result (λ s. (w : world.World) → calls.IsIn w replica.now →
        (world.happens w (world.Summarizes replica.now.name)).summaries ≡ s ∷ w.summaries) }
{
    replica.summary(alloc)
}

/// A call of `bundle` is the event of a bundle of all that is held.
///
/// # Errors
/// Those of `bundle`.
pub fn bundle(replica: &Replica, alloc: Global) -> Result<Vec<u8>, AllocError>
    ensures { let held = replica.now.held in
        let e = world.Bundles replica.now.name (is_held held) in
        IfOk result (λ bytes. calls.IsSending e replica.now held bytes.items) }
{
    // The name shows that the replica is within its rules.
    let _ = replica.name();
    replica.bundle(alloc)
}

/// A call of `delta` is the event of a bundle of what a summary lacks.
///
/// # Errors
/// Those of `delta`.
pub fn delta(replica: &Replica, alloc: Global, summary: &Summary) -> Result<Vec<u8>, AllocError>
    ensures { let lacking = outside summary.now replica.now.held in
        let e = world.Bundles replica.now.name (is_held lacking) in
        IfOk result (λ bytes. calls.IsSending e replica.now lacking bytes.items) }
{
    // The name shows that the replica is within its rules.
    let _ = replica.name();
    replica.delta(alloc, summary)
}

/// Of the bytes of a bundle that was made `decode_whole` reads that bundle, and it refuses each
/// proper front of them as cut.
///
/// # Errors
/// Those of `decode_whole`.
pub fn read(alloc: Global, bytes: &[u8]) -> Result<Bundle<'_>, WholeFault>
    ensures whole { calls.ReadsWhole bytes.now result }
    ensures cut { calls.RefusesCut bytes.now result }
{
    decode_whole(alloc, bytes)
}
