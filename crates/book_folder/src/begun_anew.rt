// Whether a sync that was cut short is to be begun anew.
ghost use Rattle.std.specs.Prelude.{◌≡◌, map, option_map};
ghost use Rattle.book_folder.specs.BegunAnew as anew;
ghost use Rattle.book_folder.specs.Refusals.{Answers};
ghost use Rattle.book_folder.specs.Wanted.{seen_view};

use crate::begun::{judge, project_of};
use crate::refusal::{Place, Refusal};
use crate::seen::Seen;
use bundle_codec::{Bundle, OpView};
use replica_state::Replica;
use std::alloc::Global;

/// Whether a project lacks an operation of the bases or of the next one, or holds one under its id
/// that does not agree with it. As long as what stood before a base is kept, a sync that put the
/// base was then cut short before the project had what came in, and is begun anew from what stood
/// before: nothing was done yet that would not be done again.
///
/// # Errors
/// Of the project's file, and then of each base and of the next one where it is no bundle, up to
/// the first of which the project lacks something; and out of memory.
pub fn lacks_base(alloc: Global, seen: &Seen<'_>) -> Result<bool, Refusal>
    ensures { Answers (anew.lacks_base (seen_view seen.now)) result }
{
    let project = project_of(alloc, seen.project)?;
    lacks_one(alloc, &project, seen.bases, seen.next)
}

// Whether a project lacks an operation of the bases or of the next one.
fn lacks_one(
    alloc: Global,
    project: &Replica,
    bases: &[Vec<u8>],
    next: Option<&[u8]>,
) -> Result<bool, Refusal>
    ensures { let next_bytes = option_map (λ b. b.now) next.entry in
        Answers (anew.lacks_from project.now.held 0 (map (λ b. b.items) bases.now) next_bytes)
        result }
{
    let mut at = 0;
    let mut left = bases;
    'bases: while let [bytes, later @ ..] = left {
        let base = judge(alloc, Place::Base(at), bytes)?;
        if lacks(project, &base) {
            return Ok(true);
        }
        at += 1;
        left = later;
    }
    match next {
        Some(bytes) => Ok(lacks(project, &judge(alloc, Place::Next, bytes)?)),
        None => Ok(false),
    }
}

// Whether a project lacks an operation of a bundle.
fn lacks(project: &Replica, bundle: &Bundle<'_>) -> bool
    ensures { result ≡ anew.lacks project.now.held bundle.now }
{
    for view in bundle.ops() {
        if !has(project, &view) {
            return true;
        }
    }
    false
}

// Whether a project holds an operation, or one of its id that agrees with it.
fn has(project: &Replica, view: &OpView<'_>) -> bool
    ensures { result ≡ anew.has project.now.held view.now }
{
    match project.set().get(&view.id()) {
        Some(op) => view.agrees_with(op),
        None => false,
    }
}
