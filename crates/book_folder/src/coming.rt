// What comes into a project from a folder: what its files were written from, then bundles, then
// what was changed in the files.
ghost use Rattle.std.specs.Prelude.{◌≡◌, ◌++◌, [], IfOk, OnOk, map, option_map};
ghost use Rattle.book_folder.specs.Coming as comes;
ghost use Rattle.book_folder.specs.Files.{files_view};
ghost use Rattle.book_folder.specs.Refusals.{AnswersAfter, AnswersBy, AnswersStepBy};
ghost use Rattle.book_folder.specs.Taking.{stood_view};
ghost use Rattle.book_folder.specs.Begun.{begun_view};
ghost use Rattle.book_folder.specs.Wanted.{seen_view, wishes_view};

use crate::bases::other_than;
use crate::begun::{Begun, begin, judge, receive_if_alike, replica_of};
use crate::files::BookFile;
use crate::plan::Added;
use crate::refusal::{Place, Refusal};
use crate::seen::{Seen, Wishes};
use crate::stale::rebase_if_stale;
use crate::taking::{Beside, Stood, has_book, take_in};
use op_core::ReplicaName;
use project_file::save;
use replica_state::Replica;
use std::alloc::{AllocError, Global};

// A project into which all came in.
#[derive(Debug, Drop)]
pub(crate) struct CameIn {
    // The project's bytes after the bases were received, where they brought something.
    pub(crate) recovered: Option<Vec<u8>>,
    // How many operations the bases brought.
    pub(crate) new: usize,
    // What the files were written from.
    pub(crate) base: Replica,
    pub(crate) replica: Replica,
    pub(crate) bundles: Vec<u64>,
    pub(crate) added: Vec<Added>,
    pub(crate) stood: Vec<Stood>,
}

// All that comes in: what the files were written from, then the bundles, then what was changed in
// the files.
pub(crate) fn come_in(
    alloc: Global,
    seen: &Seen<'_>,
    wishes: &Wishes,
    files: &[BookFile<'_>],
) -> Result<CameIn, Refusal>
    ensures { AnswersBy comes.came_view (comes.comes_in (seen_view seen.now)
        (wishes_view wishes.now) (files_view files.now)) result }
{
    let begun = begin(alloc, seen, wishes)?;
    let older = older_bases(alloc, begun.base.name(), &earlier_bases(alloc, seen)?)?;
    let begun = rebase_if_stale(alloc, wishes, begun, &older, files)?;
    bundles_come_in(alloc, seen, wishes, &older, files, begun)
}

// The bundles come in, and then the files, in their turn.
fn bundles_come_in(
    alloc: Global,
    seen: &Seen<'_>,
    wishes: &Wishes,
    older: &[Replica],
    files: &[BookFile<'_>],
    begun: Begun,
) -> Result<CameIn, Refusal>
    ensures { let turns = comes.in_turn begun.base.held (files_view files.now) in
        AnswersBy comes.came_view (comes.bundles_come_in (seen_view seen.now)
        (wishes_view wishes.now) older.now turns (begun_view begun)) result }
{
    let recovered = recovered(alloc, seen, &begun)?;
    let new = begun.replica.set().len().saturating_sub(begun.held);
    let Begun {
        mut replica,
        base,
        ..
    } = begun;
    let bundles = receive_bundles(alloc, &mut replica, seen.bundles, wishes)?;
    let mut stood = Vec::new(alloc);
    let beside = Beside {
        base: &base,
        older,
        wishes,
    };
    let added = take_all(alloc, &mut replica, &beside, files, &mut stood)?;
    Ok(CameIn {
        recovered,
        new,
        base,
        replica,
        bundles,
        added,
        stood,
    })
}

// The bases from which files may have been written before the base.
pub(crate) fn earlier_bases<'a>(alloc: Global, seen: &Seen<'a>) -> Result<Vec<&'a [u8]>, AllocError>
    ensures { IfOk result (λ made.
        map (λ b. b.now) made.items ≡ comes.earlier_bases (seen_view seen.now)) }
{
    let mut made = Vec::new(alloc);
    if seen.next.is_some() {
        push_bases(&mut made, seen.bases)?;
    }
    push_bases(&mut made, seen.older)?;
    Ok(made)
}

fn push_bases<'a>(made: &mut Vec<&'a [u8]>, bases: &'a [Vec<u8>]) -> Result<(), AllocError>
    ensures { OnOk result (map (λ b. b.now) made.new.items
        ≡ map (λ b. b.now) made.old.items ++ map (λ b. b.items) bases.now) }
{
    let mut left = bases;
    'bases: while let [bytes, later @ ..] = left {
        made.push(bytes.as_slice())?;
        left = later;
    }
    Ok(())
}

// The older bases, as replicas of a name.
pub(crate) fn older_bases(
    alloc: Global,
    name: ReplicaName,
    older: &[&[u8]],
) -> Result<Vec<Replica>, Refusal>
    ensures { AnswersBy (λ made. made.items)
        (comes.older_from name 0 [] (map (λ b. b.now) older.now)) result }
{
    let mut made = Vec::new(alloc);
    let mut at = 0;
    let mut left = older;
    'older: while let [bytes, later @ ..] = left {
        made.push(replica_of(alloc, name, Place::Older(at), bytes)?)?;
        at += 1;
        left = later;
    }
    Ok(made)
}

// Receives bundles, and says how many operations each brought.
pub(crate) fn receive_bundles(
    alloc: Global,
    replica: &mut Replica,
    bundles: &[Vec<u8>],
    wishes: &Wishes,
) -> Result<Vec<u64>, Refusal>
    ensures { AnswersStepBy (λ made. made.items)
        (comes.bundles_begun wishes.now.joined replica.old (map (λ b. b.items) bundles.now))
        replica.new result }
{
    let mut made = Vec::new(alloc);
    let mut at = 0;
    let mut left = bundles;
    'bundles: while let [bytes, later @ ..] = left {
        let place = Place::Bundle(at);
        let bundle = judge(alloc, place, bytes)?;
        made.push(receive_if_alike(alloc, replica, place, &bundle, wishes)?)?;
        at += 1;
        left = later;
    }
    Ok(made)
}

// Takes in the files: first those of which it is known what they were written from, then the
// others. It says how many edits each made that was changed.
#[tactic(auto, using(crate::proofs::Turns::taken_all_append))]
fn take_all(
    alloc: Global,
    replica: &mut Replica,
    beside: &Beside<'_>,
    files: &[BookFile<'_>],
    stood: &mut Vec<Stood>,
) -> Result<Vec<Added>, Refusal>
    ensures { let begun = comes.none_taken replica.old (map stood_view stood.old.items) in
        let base = beside.now.base.now in
        comes.AnswersAll (comes.taken_all base beside.now.older.now
        (wishes_view beside.now.wishes.now) begun (comes.in_turn base.held (files_view files.now)))
        replica.new (map stood_view stood.new.items) result }
{
    let mut added = Vec::new(alloc);
    take_files(alloc, replica, beside, files, true, stood, &mut added)?;
    take_files(alloc, replica, beside, files, false, stood, &mut added)?;
    Ok(added)
}

// Takes in, in turn, the files of which it is known what they were written from, or those of which
// it is not.
fn take_files(
    alloc: Global,
    replica: &mut Replica,
    beside: &Beside<'_>,
    files: &[BookFile<'_>],
    is_known: bool,
    stood: &mut Vec<Stood>,
    added: &mut Vec<Added>,
) -> Result<(), Refusal>
    ensures { let begun = comes.all_taken replica.old (map stood_view stood.old.items)
        (map comes.added_view added.old.items) in
        let base = beside.now.base.now in
        let wanted = comes.taken_all base beside.now.older.now (wishes_view beside.now.wishes.now)
        begun (comes.files_by is_known base.held (files_view files.now)) in
        AnswersAfter wanted (comes.all_taken replica.new (map stood_view stood.new.items)
        (map comes.added_view added.new.items)) result }
{
    let mut left = files;
    'files: while let [file, later @ ..] = left {
        if has_book(beside.base, file.book) == is_known {
            let count = match take_in(alloc, replica, beside, file, stood) {
                Ok(count) => count,
                Err(refusal) => return Err(refusal),
            };
            if count > 0 {
                let book = file.book;
                added.push(Added { book, count })?;
            }
        }
        left = later;
    }
    Ok(())
}

// The project with what the bases have, where they brought something.
fn recovered(alloc: Global, seen: &Seen<'_>, begun: &Begun) -> Result<Option<Vec<u8>>, AllocError>
    ensures { IfOk result (λ bytes. option_map (λ b. b.items) bytes
        ≡ comes.recovered (seen_view seen.now) (begun_view begun.now)) }
{
    if begun.replica.set().len() == begun.held {
        return Ok(None);
    }
    Ok(other_than(seen.project, save(alloc, &begun.replica)?))
}
