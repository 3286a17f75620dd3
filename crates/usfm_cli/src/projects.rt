// Commands over a project's file.
ghost use Rattle.std.specs.Prelude.{◌≡◌, ◌≢◌, [], Some, Ok, Err, IsTrue, IfOk, IfErr};
ghost use Rattle.op_core.specs.Thinned.{all_full};
ghost use Rattle.replica_state.specs.States.{State};
ghost use Rattle.project_file.specs.Answers.{RefusesLoad};
ghost use Rattle.project_file.specs.Projects.{project_at};
ghost use Rattle.bundle_codec.specs.Joining.{whole_at};
ghost use Rattle.bundle_codec.specs.SummaryReading.{read_summary};
ghost use Rattle.usfm_cli.specs.Commands.{outcome, only_tells, is_late, MayWantMemory};
ghost use Rattle.usfm_cli.specs.Commands.{is_late_in, no_fault, with_bundle};
ghost use Rattle.command_faults.specs.Faults.{of_loading};
ghost use Rattle.usfm_cli.specs.Projects.{RefusesFile, executed, received, delta_done, delta_made};
ghost use Rattle.usfm_cli.specs.Seen.{edited_book, looked_at, seen_of, IsSeen, ReadInPlace};
ghost use Rattle.usfm_cli.specs.Projects.{state_or};

use crate::command::Command;
use crate::steps::{count_line, obey};
use bundle_codec::{Summary, decode_whole};
use command_faults::Fault;
use project_file::{LoadFault, judge, load, load_book, save};
use replica_state::Replica;
use std::alloc::Global;
use std::marker::Model;
use usfm_ref::Book;

/// What a command made: the project's file after it, which is lent from the given one where that
/// stays, and what it writes. It also keeps the replica, if one was read, which nothing shows: a
/// program that ends after it need not free so much, and forgets it.
#[derive(Debug, Drop)]
pub struct Outcome<'a> {
    given: &'a [u8],
    // The file after the command, where it is written anew.
    made: Option<Vec<u8>>,
    output: Vec<u8>,
    replica: Option<Replica>,
}

impl<'a> Model for Outcome<'a> {
    ghost use Rattle.usfm_cli.specs.Projects.{Written, file_of};

    ghost Value = { Written };

    ghost view = { λ o. record { project = file_of o.given.now o.made; output = o.output.items } };
}

impl<'a> Outcome<'a> {
    // What a command made that leaves the file as it is.
    fn telling(given: &'a [u8], output: Vec<u8>, replica: Option<Replica>) -> Outcome<'a>
        ensures { result ≡ record { project = given.now; output = output.items } }
    {
        Outcome {
            given,
            made: None,
            output,
            replica,
        }
    }

    /// The project's file after the command.
    pub fn project(&self) -> &[u8]
        ensures { result.now ≡ self.now.project }
    {
        match &self.made {
            Some(made) => made,
            None => self.given,
        }
    }

    /// What the command writes.
    pub fn output(&self) -> &[u8]
        ensures { result.now ≡ self.now.output }
    {
        &self.output
    }
}

/// Does a command on a project, given as the bytes of its file: reads the project, does the
/// command's step, and answers the file of the project after it and what the command writes. A
/// command that only reports lends the project's bytes as they are. All of the file is judged; of
/// what it holds, a command that looks at one book or edits one copies what is of that book, and a
/// receive, a thinning, a send, a summary or a delta nothing but the bytes that it writes.
///
/// # Errors
/// First those of the project: `BadProject` (110) where the bytes do not begin as a project does,
/// and then those of its bundle, `Bundle` (60 to 69) and `Trailing` (70). Then those of the
/// command, in this order:
/// - `Import`: `NotText` (10), `NoId` (30), `Reference` (20), `NumbersUsedUp` (81).
/// - `ImportSince`: `NotText` (10), `Bundle` (60 to 69), `Trailing` (70), `NoId` (30), `Reference`
///   (20), `Clash` (51), `NumbersUsedUp` (81).
/// - `Edit`: `NotText` (10), `BadSegment` (80), `NoBook` (82), `NumbersUsedUp` (81).
/// - `EditOver`: the same, with `NotShown` (83) before `NumbersUsedUp`.
/// - `EditWith`: `NotShown` (83), first of the operation whose text it is, `NumbersUsedUp` (81).
/// - `Receive`: `Bundle` (60 to 69), `Trailing` (70), `Clash` (51).
/// - `Export`: `NoBook` (82).
/// - `Delta`: `BadSummary` (71).
/// - `Check` and `Words`: `NotText` (10) of the sheet, `FieldBeforeMarker` (40), `EmptyMarker` (41)
///   or `BadStyleType` (42), whichever its first faulty line has, `NoBook` (82).
/// - `Find`: the same, and then `EmptyNeedle` (100).
///
/// `Thin`, `Shown`, `Send`, `Summary` and `Report` refuse nothing.
///
/// `Memory` (1) where an allocation failed; of bytes that are no project only where an operation of
/// their bundle is thinned, since finding the other refusals does not allocate. Nor does finding
/// those of the command once the project was read, but for `NumbersUsedUp` of an import, `Clash`,
/// 69 and 70 of a bundle with a thinned operation, `NoId` and `Reference` of an `ImportSince` whose
/// base has one, those of an `EditWith`, and what is found after records of a sheet were kept. The
/// project is the bytes that were given, so that a refused command leaves it as it is.
pub fn exec<'a>(
    alloc: Global,
    project: &'a [u8],
    command: &Command<'_>,
) -> Result<Outcome<'a>, Fault>
    ensures answer { result ≢ Err Fault.Memory → executed project.now command.now ≡ result }
    // A file that is no project is refused for that, whatever memory there is; but for its bundle,
    // where an operation of it is thinned.
    ensures no_project { IfErr (project_at project.now) (λ fault.
        RefusesFile project.now (of_loading fault) result) }
    // Where the project is read without memory, out of memory is answered only where the command
    // may want some, and so in the place of no refusal that needs none.
    ensures memory { result ≡ Err Fault.Memory → (s : State) → project_at project.now ≡ Ok s
        → ReadInPlace command.now s → MayWantMemory (is_late command.now) (outcome s command.now) }
    // A command that only reports gives the file back as it is.
    ensures unchanged { IfOk result (λ made.
        IsTrue (only_tells command.now) → made.project ≡ project.now) }
    // The file after it is that of the replica after the command's step.
    ensures after { IfOk result (λ made. (s : State) → project_at project.now ≡ Ok s
        → project_at made.project ≡ Ok (state_or s (outcome s command.now))) }
{
    match *command {
        Command::Receive(bytes) => return receive_into(alloc, project, bytes),
        Command::Thin => return thin_in(alloc, project),
        Command::Send => return send_of(alloc, project),
        Command::Summary => return summary_of(alloc, project),
        Command::Delta(summary) => return delta_of(alloc, project, summary),
        _ => {}
    }
    if let Some(book) = command.edited_book() {
        return edit_in(alloc, project, command, book);
    }
    let mut replica = load_seen(alloc, project, command)?;
    let output = obey(alloc, &mut replica, command)?;
    if command.only_tells() {
        return Ok(Outcome::telling(project, output, Some(replica)));
    }
    let made = save(alloc, &replica)?;
    Ok(Outcome {
        given: project,
        made: Some(made),
        output,
        replica: Some(replica),
    })
}

// Takes a bundle in on the bytes of a project's file: both are judged, and the file of the union is
// written out of them.
fn receive_into<'a>(alloc: Global, project: &'a [u8], bytes: &[u8]) -> Result<Outcome<'a>, Fault>
    ensures answer { result ≢ Err Fault.Memory →
        received (project_at project.now) (whole_at bytes.now) ≡ result }
    ensures no_project { IfErr (project_at project.now) (λ fault.
        RefusesFile project.now (of_loading fault) result) }
    ensures memory { result ≡ Err Fault.Memory → (s : State) → project_at project.now ≡ Ok s
        → IsTrue (all_full s.held)
        → MayWantMemory (is_late_in bytes.now) (with_bundle s (whole_at bytes.now)) }
    ensures after { IfOk result (λ made. (s : State) → project_at project.now ≡ Ok s
        → project_at made.project ≡ Ok (state_or s (with_bundle s (whole_at bytes.now)))) }
{
    let given = judge(alloc, project)?;
    let bundle = decode_whole(alloc, bytes)?;
    let (made, new) = given.receive(alloc, &bundle)?;
    let output = count_line(alloc, "new", new)?;
    Ok(Outcome {
        given: project,
        made: Some(made),
        output,
        replica: None,
    })
}

// Does a command that edits one book on the bytes of a project's file: the file is judged, the
// command is done by a replica that holds what the edit is made from, and what it made is put into
// the file.
fn edit_in<'a>(
    alloc: Global,
    project: &'a [u8],
    command: &Command<'_>,
    book: Book,
) -> Result<Outcome<'a>, Fault>
    requires { edited_book command.now ≡ Some book }
    ensures answer { result ≢ Err Fault.Memory → executed project.now command.now ≡ result }
    ensures no_project { IfErr (project_at project.now) (λ fault.
        RefusesFile project.now (of_loading fault) result) }
    ensures memory { result ≡ Err Fault.Memory → (s : State) → project_at project.now ≡ Ok s
        → ReadInPlace command.now s → MayWantMemory (is_late command.now) (outcome s command.now) }
    ensures after { IfOk result (λ made. (s : State) → project_at project.now ≡ Ok s
        → project_at made.project ≡ Ok (state_or s (outcome s command.now))) }
{
    let whole = judge(alloc, project)?;
    let mut seen = whole.for_edit(alloc, book)?;
    let output = obey(alloc, &mut seen, command)?;
    let made = whole.receive_all_of(alloc, &seen)?;
    Ok(Outcome {
        given: project,
        made: Some(made),
        output,
        replica: Some(seen),
    })
}

// Leaves texts out on the bytes of a project's file, which is judged: the file of the thinned set
// is written out of them.
fn thin_in(alloc: Global, project: &[u8]) -> Result<Outcome<'_>, Fault>
    ensures answer { result ≢ Err Fault.Memory → executed project.now Command.Thin ≡ result }
    ensures no_project { IfErr (project_at project.now) (λ fault.
        RefusesFile project.now (of_loading fault) result) }
    ensures after { IfOk result (λ made. (s : State) → project_at project.now ≡ Ok s
        → project_at made.project ≡ Ok (state_or s (outcome s Command.Thin))) }
{
    let (made, left_out) = judge(alloc, project)?.thin(alloc)?;
    let output = count_line(alloc, "thinned", left_out)?;
    Ok(Outcome {
        given: project,
        made: Some(made),
        output,
        replica: None,
    })
}

// Copies the bundle of all operations out of the bytes of a project's file, which is judged. The
// file stays as it is.
fn send_of(alloc: Global, project: &[u8]) -> Result<Outcome<'_>, Fault>
    ensures answer { result ≢ Err Fault.Memory → executed project.now Command.Send ≡ result }
    ensures no_project { IfErr (project_at project.now) (λ fault.
        RefusesFile project.now (of_loading fault) result) }
    ensures unchanged { IfOk result (λ made. made.project ≡ project.now) }
{
    let output = judge(alloc, project)?.bundle().to_vec(alloc)?;
    Ok(Outcome::telling(project, output, None))
}

// Sums up the ids in the bytes of a project's file, which is judged. The file stays as it is.
fn summary_of(alloc: Global, project: &[u8]) -> Result<Outcome<'_>, Fault>
    ensures answer { result ≢ Err Fault.Memory → executed project.now Command.Summary ≡ result }
    ensures no_project { IfErr (project_at project.now) (λ fault.
        RefusesFile project.now (of_loading fault) result) }
    ensures unchanged { IfOk result (λ made. made.project ≡ project.now) }
{
    let output = judge(alloc, project)?.summary(alloc)?.write(alloc)?;
    Ok(Outcome::telling(project, output, None))
}

// Writes what a summary lacks of a project's file out of its bytes: the project and then the
// summary are judged. The file stays as it is.
fn delta_of<'a>(alloc: Global, project: &'a [u8], summary: &[u8]) -> Result<Outcome<'a>, Fault>
    ensures answer { result ≢ Err Fault.Memory →
        delta_made (project_at project.now) (read_summary summary.now) ≡ result }
    ensures no_project { IfErr (project_at project.now) (λ fault.
        RefusesFile project.now (of_loading fault) result) }
    ensures memory { result ≡ Err Fault.Memory → (s : State) → project_at project.now ≡ Ok s
        → IsTrue (all_full s.held)
        → MayWantMemory no_fault (delta_done s (read_summary summary.now)) }
    ensures unchanged { IfOk result (λ made. made.project ≡ project.now) }
{
    let judged = judge(alloc, project)?;
    let summary = Summary::read(alloc, summary)?;
    let output = judged.delta(alloc, &summary)?;
    Ok(Outcome::telling(project, output, None))
}

// What a command sees of the replica of a project's file: all of it, or what it holds of one book.
fn load_seen(alloc: Global, project: &[u8], command: &Command<'_>) -> Result<Replica, LoadFault>
    ensures seen { IfOk result (IsSeen project.now command.now) }
    ensures refused { IfErr result (RefusesLoad project.now) }
    ensures nothing_seen { (s : State) → project_at project.now ≡ Ok s → IsTrue (all_full s.held)
        → (seen_of (looked_at command.now) s).held ≡ [] → result ≢ Err LoadFault.Memory }
{
    match command.looked_at() {
        None => load(alloc, project),
        Some(book) => load_book(alloc, project, book),
    }
}
