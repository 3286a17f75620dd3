// A box, in which each copy of a team leaves its bundle: which of its files come in.
ghost use Rattle.std.specs.Prelude.{◌≡◌, IfOk, IsOk, IsTrue, OnErr, option_map};
ghost use Rattle.bundle_codec.specs.Reading.{TakesMemory};
ghost use Rattle.book_folder.specs.Boxes as boxes;

use bundle_codec::{BundleFault, WholeFault, decode_whole};
use std::alloc::{AllocError, Global};

/// What becomes of a file of a box.
#[derive(Clone, Copy, Debug, PartialEq, Eq)]
pub enum BoxFile {
    /// It is a bundle, and comes in.
    Bundle,
    /// It is the copy's own, and what the project has: it does not come in again.
    Unchanged,
    /// It is no bundle, or only a part of one, or a bundle and something more: it is skipped.
    NoBundle,
}

/// What becomes of a file of a box, by its bytes. `own` is the bundle of all that the project has,
/// where the file is the copy's own: what a copy left there comes in too where the project has
/// something else. So a project that was set back has it again, and of two copies of one name
/// neither replaces the other's bundle unseen.
///
/// # Errors
/// Out of memory alone, and only where the file has a thinned operation.
pub fn box_file(alloc: Global, own: Option<&[u8]>, bytes: &[u8]) -> Result<BoxFile, AllocError>
    ensures file { IfOk result (λ file.
        file ≡ boxes.box_file (option_map (λ b. b.now) own.entry) bytes.now) }
    ensures own { IsTrue (boxes.is_own (option_map (λ b. b.now) own.entry) bytes.now)
        → IsOk result }
    ensures memory { OnErr result (TakesMemory bytes.now) }
{
    if is_own(own, bytes) {
        return Ok(BoxFile::Unchanged);
    }
    match decode_whole(alloc, bytes) {
        Ok(_) => Ok(BoxFile::Bundle),
        Err(WholeFault::Bundle(BundleFault::Memory)) => Err(AllocError),
        Err(_) => Ok(BoxFile::NoBundle),
    }
}

// Whether bytes are the copy's own bundle.
fn is_own(own: Option<&[u8]>, bytes: &[u8]) -> bool
    ensures { result ≡ boxes.is_own (option_map (λ b. b.now) own.entry) bytes.now }
{
    match own {
        Some(own) => bytes == own,
        None => false,
    }
}
