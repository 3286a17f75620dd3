// Merges of three files of a book.
ghost use Rattle.std.specs.Prelude.{◌≡◌, ◌≢◌, Ok, Err, IfOk, IfErr, IsTrue, OnOk};
ghost use Rattle.op_core.specs.Names.{is_name};
ghost use Rattle.bundle_codec.specs.Joining.{whole_at};
ghost use Rattle.book_merge.specs.Merges as merges;

use crate::book::merged_book;
use crate::fault::MergeFault;
use crate::sides::{ours_read, theirs_read};
use bundle_codec::{Bundle, decode_whole};
use op_core::ReplicaName;
use replica_state::{ImportFault, Replica, SinceFault};
use std::alloc::Global;
use usfm_ref::Book;
use verse_cut::cut;

/// A merge: the book, and the replica that holds the union of both sides. `book_text` of it is the
/// merged book, and `report_text` tells the conflicts.
#[derive(Debug, Drop)]
pub struct Merged {
    /// The book of the files.
    pub book: Book,
    /// The replica `ours`, which holds the union.
    pub replica: Replica,
}

/// Merges two sides of a book, both written from BASE. In the union a segment that one side changed
/// shows that side's text, and one that both changed to different texts shows both: a conflict, of
/// which the text of OURS is picked. A change of line ends, or of blanks at the ends of lines,
/// gives way to a change of the same segment's wording (`same_wording`).
///
/// # Errors
/// - `BadFile` with the first file, of BASE, OURS and THEIRS, that does not begin with at most one
///   U+FEFF, `\id`, a blank, and a book's code that ends.
/// - `OtherBook` with the first side, of OURS and THEIRS, that begins with another book than BASE.
/// - `NumbersUsedUp` where an import's last edit would get a number above 10^15.
/// - `Memory` where an allocation failed.
///
/// The first of them is answered. The first two are never answered as out of memory.
pub fn merge(alloc: Global, base: &str, ours: &str, theirs: &str) -> Result<Merged, MergeFault>
    ensures merged { IfOk result (λ m.
        merges.merged base.now ours.now theirs.now ≡ Ok (merges.merged_view m)) }
    ensures fault { IfErr result (λ fault. fault ≢ MergeFault.Memory →
        merges.merged base.now ours.now theirs.now ≡ Err fault) }
    ensures refused { IfErr (merges.merged_book base.now ours.now theirs.now)
        (λ fault. result ≡ Err fault) }
{
    let book = merged_book(base, ours, theirs)?;
    let base_pieces = cut(alloc, base)?;
    let our_pieces = cut(alloc, ours)?;
    let their_pieces = cut(alloc, theirs)?;
    let theirs = theirs_read(alloc, &base_pieces, &our_pieces, &their_pieces)?;
    let ours = ours_read(alloc, &base_pieces, &our_pieces, &their_pieces)?;
    let replica = united(alloc, base, &ours, &theirs)?;
    Ok(Merged { book, replica })
}

// The union of BASE and of both sides as they are read.
fn united(alloc: Global, base: &str, ours: &str, theirs: &str) -> Result<Replica, MergeFault>
    ensures { merges.Answers (merges.united base.now ours.now theirs.now) result }
{
    let mut first = Replica::new(alloc, name(b"theirs"));
    import(&mut first, base)?;
    let made = first.bundle(alloc)?;
    let made = bundle_of(alloc, &made)?;
    import(&mut first, theirs)?;
    let held = first.bundle(alloc)?;
    let held = bundle_of(alloc, &held)?;
    import_ours(alloc, &made, &held, ours)
}

// Imports a file that begins with a book.
fn import(replica: &mut Replica, file: &str) -> Result<(), MergeFault>
    ensures ok { OnOk result (merges.imported replica.old file.now ≡ Ok replica.new) }
    ensures fault { IfErr result (λ fault. fault ≢ MergeFault.Memory →
        merges.imported replica.old file.now ≡ Err fault) }
{
    match replica.import(file) {
        Ok(_) => Ok(()),
        Err(ImportFault::Memory) => Err(MergeFault::Memory),
        Err(_) => Err(MergeFault::NumbersUsedUp),
    }
}

// A replica that received what another one holds, and imported OURS since BASE.
fn import_ours(
    alloc: Global,
    base: &Bundle<'_>,
    theirs: &Bundle<'_>,
    file: &str,
) -> Result<Replica, MergeFault>
    ensures { merges.Answers (merges.ours_imported base.now theirs.now file.now) result }
{
    let mut replica = Replica::new(alloc, name(b"ours"));
    // A replica that holds nothing clashes with none, so that only memory can be refused.
    if replica.receive(theirs).is_err() {
        return Err(MergeFault::Memory);
    }
    match replica.import_since(base, file) {
        Ok(_) => Ok(replica),
        Err(SinceFault::Memory) => Err(MergeFault::Memory),
        Err(_) => Err(MergeFault::NumbersUsedUp),
    }
}

// The bundle that the bytes are. They are one, so that only memory can be refused.
fn bundle_of(alloc: Global, bytes: &[u8]) -> Result<Bundle<'_>, MergeFault>
    ensures bundle { (ops : _) → whole_at bytes.now ≡ Ok ops
        → IfOk result (λ read. read ≡ ops) }
    ensures refused { IfErr result (λ fault. fault ≡ MergeFault.Memory) }
{
    match decode_whole(alloc, bytes) {
        Ok(bundle) => Ok(bundle),
        Err(_) => Err(MergeFault::Memory),
    }
}

// The name of a replica of a merge.
fn name(text: &[u8]) -> ReplicaName
    requires { IsTrue (is_name text.now) }
    ensures { result ≡ text.now }
{
    ReplicaName::of_bytes(text).unwrap()
}
