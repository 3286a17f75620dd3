// The names under which copies make operations.
ghost use Rattle.std.specs.Prelude.{◌≡◌, ◌&&◌, ◌++◌, IfOk, OnOk, map};
ghost use Rattle.std.specs.List.{list_any, filter_map};
ghost use Rattle.std.specs.Option.{option_to_list};
ghost use Rattle.folder_setup.specs.Names as names;

use bundle_codec::{Bundle, BundleFault, Summary, WholeFault, decode_whole};
use op_core::{OpId, ReplicaName};
use std::alloc::{AllocError, Global};

/// Whether bytes are a bundle that has an operation which was made under a name: then the name is
/// in use.
///
/// # Errors
/// Out of memory alone.
pub fn has_operation_of(alloc: Global, bytes: &[u8], name: &ReplicaName) -> Result<bool, AllocError>
    ensures { IfOk result (λ has. has ≡ names.has_operation_of name.now bytes.now) }
{
    match decode_whole(alloc, bytes) {
        Ok(bundle) => Ok(has_one_of(&bundle, name)),
        Err(WholeFault::Bundle(BundleFault::Memory)) => Err(AllocError),
        Err(_) => Ok(false),
    }
}

/// Whether bytes are a bundle that has an operation which was made under a name, and of whose id
/// none of the known bundles has one. What is no bundle has none.
///
/// # Errors
/// Out of memory alone.
pub fn has_unknown_of(
    alloc: Global,
    bytes: &[u8],
    name: &ReplicaName,
    known: &[&[u8]],
) -> Result<bool, AllocError>
    ensures { IfOk result (λ has. has
        ≡ names.has_unknown_of name.now (map (λ b. b.now) known.now) bytes.now) }
{
    let summaries = summaries_of(alloc, known)?;
    match decode_whole(alloc, bytes) {
        Ok(bundle) => Ok(has_unknown(&bundle, name, &summaries)),
        Err(WholeFault::Bundle(BundleFault::Memory)) => Err(AllocError),
        Err(_) => Ok(false),
    }
}

// Whether a bundle has an operation of a name.
fn has_one_of(bundle: &Bundle<'_>, name: &ReplicaName) -> bool
    ensures { result ≡ list_any (names.is_of name.now) bundle.now }
{
    for view in bundle.ops() {
        if view.id().name == *name {
            return true;
        }
    }
    false
}

// Whether a bundle has an operation of a name that none of some summaries has.
fn has_unknown(bundle: &Bundle<'_>, name: &ReplicaName, known: &[Summary]) -> bool
    ensures { result ≡ list_any (λ o. names.is_of name.now o && names.is_unknown known.now o)
        bundle.now }
{
    for view in bundle.ops() {
        let id = view.id();
        if id.name == *name && is_unknown(known, &id) {
            return true;
        }
    }
    false
}

// Whether none of some summaries has an id.
fn is_unknown(known: &[Summary], id: &OpId) -> bool
    ensures { result ≡ names.is_unknown_id known.now id.now }
{
    let mut left = known;
    'known: while let [summary, later @ ..] = left {
        if summary.covers(id) {
            return false;
        }
        left = later;
    }
    true
}

// The summaries of bundles; what is no bundle has none.
fn summaries_of(alloc: Global, known: &[&[u8]]) -> Result<Vec<Summary>, AllocError>
    ensures { IfOk result (λ made. made.items
        ≡ filter_map names.summary_in (map (λ b. b.now) known.now)) }
{
    let mut made = Vec::new(alloc);
    let mut left = known;
    'known: while let [bytes, later @ ..] = left {
        push_summary(&mut made, alloc, bytes)?;
        left = later;
    }
    Ok(made)
}

// Adds the summary of a bundle.
fn push_summary(made: &mut Vec<Summary>, alloc: Global, bytes: &[u8]) -> Result<(), AllocError>
    ensures { OnOk result (made.new.items
        ≡ made.old.items ++ option_to_list (names.summary_in bytes.now)) }
{
    match decode_whole(alloc, bytes) {
        Ok(bundle) => {
            made.push(Summary::of_bundle(alloc, &bundle)?)?;
            Ok(())
        }
        Err(WholeFault::Bundle(BundleFault::Memory)) => Err(AllocError),
        Err(_) => Ok(()),
    }
}
