// Project files made, loaded and saved.
ghost use Rattle.std.specs.Prelude.{◌≡◌, ◌≢◌, ◌++◌, ◌∷◌, [], Ok, Err, length, option_map};
ghost use Rattle.std.specs.Prelude.{IfOk, IfErr, IsOk, IsTrue, MatchResult};
ghost use Rattle.op_core.specs.Names.{is_name};
ghost use Rattle.op_core.specs.OneBook.{ops_of_book};
ghost use Rattle.op_core.specs.Sets.{clash};
ghost use Rattle.op_core.specs.Thinned.{all_full};
ghost use Rattle.bundle_codec.specs.Joining.{RefusesUnion, whole_at};
ghost use Rattle.bundle_codec.specs.Spelling as spelled;
ghost use Rattle.bundle_codec.specs.Summaries.{IsSummaryOf, outside, summary_of};
ghost use Rattle.replica_state.specs.OneBook.{for_edit, of_one_book};
ghost use Rattle.replica_state.specs.Receives.{lacked};
ghost use Rattle.replica_state.specs.States.{State, IsState, begun};
ghost use Rattle.replica_state.specs.Steps.{Thin, Thinned, step, with_ops};
ghost use Rattle.project_file.specs.Answers as answers;
ghost use Rattle.project_file.specs.Projects as projects;

use crate::fault::{CreateFault, LoadFault};
use bundle_codec::{Bundle, JoinFault, Summary, decode_whole};
use op_core::{OpSet, ReplicaName};
use replica_state::{ReceiveFault, Replica};
use std::alloc::{AllocError, Global};
use std::marker::Model;
use usfm_ref::Book;

static MAGIC: [u8; 8] = *b"USFMPJ1\n";

/// The project file of a replica of this name that holds nothing.
///
/// # Errors
/// - `BadName` (50) where the text is no replica's name.
/// - `Memory` (1) where an allocation failed.
pub fn create(alloc: Global, name: &str) -> Result<Vec<u8>, CreateFault>
    ensures spelled { IfOk result (λ bytes. bytes.items ≡ projects.project (begun name.now)) }
    ensures again { IfOk result (λ bytes. projects.project_at bytes.items ≡ Ok (begun name.now)) }
    ensures named { IfOk result (λ _. IsTrue (is_name name.now)) }
    ensures refused { IfErr result (answers.RefusesName name.now) }
{
    let Ok(name) = ReplicaName::read(name) else {
        return Err(CreateFault::BadName);
    };
    Ok(save(alloc, &Replica::new(alloc, name))?)
}

/// The replica whose project file the bytes are. It is a copy: nothing is lent from the bytes.
///
/// The name is judged before anything is allocated, and so is the bundle, but for whether each
/// thinned operation is named. Nothing goes by a count that the bytes state.
///
/// # Errors
/// - `BadProject` (110) where the magic or the name is cut or wrong.
/// - `Bundle` with the refusal of what follows the name, as `bundle_codec::decode_whole` answers
///   it: 60 to 69, and 70 where something follows the bundle.
/// - `Memory` (1) where an allocation failed. It may be in the place of 69 and 70 where each field
///   of the bundle is right and an operation is thinned, and of no other refusal. A replica that
///   holds nothing is loaded without allocating.
pub fn load(alloc: Global, bytes: &[u8]) -> Result<Replica, LoadFault>
    // What is loaded is a replica, and the bytes are its project file.
    ensures loaded { IfOk result (λ s. projects.project_at bytes.now ≡ Ok s) }
    ensures valid { IfOk result IsState }
    ensures spelled { IfOk result (λ s. bytes.now ≡ projects.project s) }
    // A project file is loaded, or out of memory is answered.
    ensures only { (s : State) → IsState s → bytes.now ≡ projects.project s
        → MatchResult result (λ loaded. loaded ≡ s) (λ fault. fault ≡ LoadFault.Memory) }
    // Which refusal it is.
    ensures refused { IfErr result (answers.RefusesLoad bytes.now) }
    // A replica that holds nothing is loaded without allocating.
    ensures nothing_held { (s : State) → projects.project_at bytes.now ≡ Ok s → s.held ≡ []
        → result ≢ Err LoadFault.Memory }
{
    let project = judge(alloc, bytes)?;
    let mut replica = Replica::new(alloc, project.name);
    match replica.receive(&project.bundle) {
        Ok(_) => Ok(replica),
        Err(ReceiveFault::Memory) => Err(LoadFault::Memory),
        Err(ReceiveFault::Clash(_)) => unreachable!(),
    }
}

/// The replica whose project file the bytes are, with the operations of one book alone. All of the
/// file is judged, as `load` does, but only what is of the book is copied. It is to be looked at
/// alone: an edit of it may give an id that the project has in another book.
///
/// # Errors
/// Those of `load`. `Memory` (1) is not answered where the book has no operation and none of any
/// book is thinned.
pub fn load_book(alloc: Global, bytes: &[u8], book: Book) -> Result<Replica, LoadFault>
    // The bytes are a project file, and of its replica what is of the book is loaded.
    ensures loaded { IfOk result (λ s. projects.book_at bytes.now book ≡ Ok s) }
    // Of a project file the book is loaded, or out of memory is answered.
    ensures only { (s : State) → IsState s → bytes.now ≡ projects.project s
        → MatchResult result (λ loaded. loaded ≡ of_one_book s book)
        (λ fault. fault ≡ LoadFault.Memory) }
    // Which refusal it is.
    ensures refused { IfErr result (answers.RefusesLoad bytes.now) }
    // Where nothing of the book is held, and nothing that is thinned, it is loaded without
    // allocating.
    ensures nothing_held { (s : State) → projects.project_at bytes.now ≡ Ok s
        → IsTrue (all_full s.held) → ops_of_book s.held book ≡ [] → result ≢ Err LoadFault.Memory }
{
    let project = judge(alloc, bytes)?;
    Ok(Replica::of_book(alloc, project.name, &project.bundle, book)?)
}

/// A project file, judged: a replica's name, and the bundle of what the replica holds, lent from
/// the bytes of the file. Made by `judge`.
#[derive(Debug, Drop)]
pub struct Project<'a> {
    name: ReplicaName,
    bundle: Bundle<'a>,
    // What spells the bundle.
    bytes: &'a [u8],
}

impl<'a> Model for Project<'a> {
    ghost use Rattle.replica_state.specs.States.{State};
    ghost use Rattle.project_file.specs.Projects.{IsJudged};

    ghost Value = { State };

    ghost view = { λ p. record { name = p.name; held = p.bundle } };

    ghost invariant = { λ p. IsJudged (record { name = p.name; held = p.bundle }) p.bytes.now };
}

impl<'a> Project<'a> {
    /// The replica's name.
    pub fn name(&self) -> ReplicaName
        ensures name { result ≡ self.now.name }
        ensures valid { IsState self.now }
    {
        self.name
    }

    /// The set of the operations that the replica holds, each copied out of the bytes of the file.
    ///
    /// # Errors
    /// Out of memory alone.
    pub fn to_set(&self, alloc: Global) -> Result<OpSet, AllocError>
        ensures { IfOk result (λ set. set ≡ self.now.held) }
    {
        self.bundle.to_set(alloc)
    }

    /// The operations that the replica holds, lent from the bytes of the file.
    pub fn held(&self) -> &Bundle<'a>
        ensures { result.now ≡ self.now.held }
    {
        &self.bundle
    }

    /// The bundle of all operations that the replica holds, as `Replica::bundle` writes it. It is
    /// lent from the bytes of the file, of which it is all that follows the name.
    pub fn bundle(&self) -> &'a [u8]
        ensures { result.now ≡ spelled.bundle self.now.held }
    {
        self.bytes
    }

    /// The project file of the replica after it took in the operations of a bundle, and how many of
    /// them are new, as `Replica::receive` says it. Each operation is copied with the bytes that
    /// spell it, out of one or the other; no replica is made.
    ///
    /// # Errors
    /// Those of `Bundle::join_after`: `Clash` (51) with the least id under which the replica and
    /// the bundle have operations that do not agree, and `Memory` (1) where an allocation failed.
    pub fn receive(&self, alloc: Global, bundle: &Bundle<'_>) -> Result<(Vec<u8>, u64), JoinFault>
        ensures spelled { IfOk result (λ made.
            made.0.items ≡ projects.project (with_ops self.now bundle.now)) }
        ensures again { IfOk result (λ made.
            projects.project_at made.0.items ≡ Ok (with_ops self.now bundle.now)) }
        ensures new { IfOk result (λ made.
            made.1 ≡ length (lacked self.now.held bundle.now)) }
        ensures agrees { IfOk result (λ _. clash self.now.held bundle.now ≡ None) }
        ensures refused { IfErr result (RefusesUnion (clash self.now.held bundle.now)) }
    {
        // The bundle's operations show that they rise.
        let _ = bundle.ops();
        let front = front_for(alloc, &self.name)?;
        let (file, count) = self.bundle.join_after(bundle, front)?;
        Ok((file, count - self.bundle.len()))
    }

    /// The project file of the replica after it took in all that another replica holds, as `receive`
    /// makes it.
    ///
    /// # Errors
    /// Those of `receive`.
    pub fn receive_all_of(&self, alloc: Global, other: &Replica) -> Result<Vec<u8>, JoinFault>
        ensures spelled { IfOk result (λ file.
            file.items ≡ projects.project (with_ops self.now other.now.held)) }
        ensures again { IfOk result (λ file.
            projects.project_at file.items ≡ Ok (with_ops self.now other.now.held)) }
        ensures agrees { IfOk result (λ _. clash self.now.held other.now.held ≡ None) }
        ensures refused { IfErr result (RefusesUnion (clash self.now.held other.now.held)) }
    {
        // The replica's name shows that what it holds is within its rules.
        let _ = other.name();
        let bytes = other.bundle(alloc)?;
        let bundle = decode_whole(alloc, &bytes)?;
        let (file, _) = self.receive(alloc, &bundle)?;
        Ok(file)
    }

    /// A replica that holds those operations alone which an edit of one book is made from, as
    /// `Replica::for_edit` says it, each copied out of the bytes of the file. What it makes of the
    /// book is what the project's replica makes, and `receive_all_of` puts it into the file.
    ///
    /// # Errors
    /// Out of memory alone; not of a project that holds nothing.
    pub fn for_edit(&self, alloc: Global, book: Book) -> Result<Replica, AllocError>
        ensures held { IfOk result (λ replica. replica ≡ for_edit self.now book) }
        ensures none { self.now.held ≡ [] → IsOk result }
    {
        Replica::for_edit(alloc, self.name, &self.bundle, book)
    }

    /// The bundle of the operations that the replica holds and whose ids lie outside a summary, as
    /// `Replica::delta` says it. The bytes of each are copied as they are; no replica is made.
    ///
    /// # Errors
    /// Out of memory alone.
    pub fn delta(&self, alloc: Global, summary: &Summary) -> Result<Vec<u8>, AllocError>
        ensures spelled { IfOk result (λ bytes.
            bytes.items ≡ spelled.bundle (outside summary.now self.now.held)) }
        ensures again { IfOk result (λ bytes.
            whole_at bytes.items ≡ Ok (outside summary.now self.now.held)) }
    {
        self.bundle.outside(alloc, summary)
    }

    /// The summary of the ids that the replica holds, as `Replica::summary` says it, by one walk over
    /// the bytes of the file. No replica is made.
    ///
    /// # Errors
    /// Out of memory alone.
    pub fn summary(&self, alloc: Global) -> Result<Summary, AllocError>
        ensures exact { IfOk result (λ s. IsSummaryOf self.now.held s) }
        ensures value { IfOk result (λ s. s ≡ summary_of self.now.held) }
    {
        Summary::of_bundle(alloc, &self.bundle)
    }

    /// The project file of the replica after it thinned, and how many texts it left out, as
    /// `Replica::thin` says it. Each operation is copied with the bytes that spell it, or without
    /// those of its text; no replica is made.
    ///
    /// # Errors
    /// Out of memory alone.
    pub fn thin(&self, alloc: Global) -> Result<(Vec<u8>, u64), AllocError>
        ensures spelled { IfOk result (λ made.
            made.0.items ≡ projects.project (step self.now Thin).after) }
        ensures again { IfOk result (λ made.
            projects.project_at made.0.items ≡ Ok (step self.now Thin).after) }
        ensures count { IfOk result (λ made. (step self.now Thin).reply ≡ Thinned made.1) }
    {
        self.bundle.thin_after(alloc, front_for(alloc, &self.name)?)
    }
}

/// The project file that the bytes are. What it holds stays lent from them.
///
/// The name is judged before anything is allocated, and so is the bundle, but for whether each
/// thinned operation is named. Nothing goes by a count that the bytes state.
///
/// # Errors
/// Those of `load`. `Memory` (1) is answered only where each field of the bundle is right and an
/// operation is thinned.
pub fn judge(alloc: Global, bytes: &[u8]) -> Result<Project<'_>, LoadFault>
    // What is read is a replica, and the bytes are its project file.
    ensures read { IfOk result (λ s. projects.project_at bytes.now ≡ Ok s) }
    ensures valid { IfOk result IsState }
    ensures spelled { IfOk result (λ s. bytes.now ≡ projects.project s) }
    // A project file is read, or out of memory is answered.
    ensures only { (s : State) → IsState s → bytes.now ≡ projects.project s
        → MatchResult result (λ read. read ≡ s) (λ fault. fault ≡ LoadFault.Memory) }
    // Which refusal it is.
    ensures refused { IfErr result (answers.RefusesLoad bytes.now) }
    // Where nothing that is held is thinned, it does not allocate.
    ensures full { (s : State) → projects.project_at bytes.now ≡ Ok s → IsTrue (all_full s.held)
        → result ≢ Err LoadFault.Memory }
{
    let Some(front) = front_of(bytes) else {
        return Err(LoadFault::BadProject);
    };
    let (name, rest) = front;
    let bundle = decode_whole(alloc, rest)?;
    Ok(Project {
        name,
        bundle,
        bytes: rest,
    })
}

/// The project file of a replica. There is one for each replica.
///
/// # Errors
/// Out of memory alone.
pub fn save(alloc: Global, replica: &Replica) -> Result<Vec<u8>, AllocError>
    ensures spelled { IfOk result (λ bytes. bytes.items ≡ projects.project replica.now) }
    ensures again { IfOk result (λ bytes. projects.project_at bytes.items ≡ Ok replica.now) }
{
    let bytes = front_for(alloc, &replica.name())?;
    replica.bundle_after(bytes)
}

// What a project file of a replica of this name begins with: the magic, and the name after its
// length.
fn front_for(alloc: Global, name: &ReplicaName) -> Result<Vec<u8>, AllocError>
    ensures { IfOk result (λ bytes.
        bytes.items ≡ projects.magic ++ (length name.now ∷ name.now)) }
{
    let name = name.text().as_bytes();
    let mut bytes = Vec::new(alloc);
    bytes.extend_from_slice(&MAGIC)?;
    bytes.extend_from_slice(&[name.len() as u8])?;
    bytes.extend_from_slice(name)?;
    Ok(bytes)
}

// The name after the magic, and the bytes after it.
#[tactic(auto, unfolding(crate::specs::Projects::front_at))]
fn front_of(bytes: &[u8]) -> Option<(ReplicaName, &[u8])>
    ensures { option_map (λ front. (front.0, front.1.now)) result ≡ projects.front_at bytes.now }
{
    name_at(after_magic(bytes)?)
}

// The bytes after the magic, where it is at the front.
#[tactic(auto, unfolding(crate::specs::Projects::magic))]
fn after_magic(bytes: &[u8]) -> Option<&[u8]>
    ensures { option_map (λ rest. rest.now) result ≡ projects.after_magic bytes.now }
{
    bytes.strip_prefix(&MAGIC)
}

// The name at the front, after its length, and the bytes after it.
fn name_at(bytes: &[u8]) -> Option<(ReplicaName, &[u8])>
    ensures { option_map (λ front. (front.0, front.1.now)) result ≡ projects.name_at bytes.now }
{
    let (length, rest) = bytes.split_first()?;
    let (name, rest) = rest.split_at_checked(*length as usize)?;
    Some((ReplicaName::of_bytes(name)?, rest))
}
