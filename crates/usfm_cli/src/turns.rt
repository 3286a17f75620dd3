// Commands in turn on one replica.
ghost use Rattle.std.specs.Prelude.{◌≡◌, false, [], Ok, Err, IsOk, IfOk, IfErr};
ghost use Rattle.replica_state.specs.States.{State};
ghost use Rattle.project_file.specs.Projects.{project_at};
ghost use Rattle.usfm_cli.specs.Commands as commands;
ghost use Rattle.usfm_cli.specs.Projects.{state_after};
ghost use Rattle.command_faults.specs.Faults.{of_loading};
ghost use Rattle.usfm_cli.specs.Turns as turns;
ghost use Rattle.command_faults.specs.declared.fault.Fault.TheVariants.{Memory};
ghost use Rattle.usfm_cli.specs.declared.turns.TurnFault.TheVariants as refusals;

use crate::command::Command;
use crate::steps::obey;
use command_faults::Fault;
use project_file::{LoadFault, load, save};
use replica_state::Replica;
use std::alloc::{AllocError, AllocFailed, Global};
use std::marker::Model;
use thiserror::Error;

/// What commands in turn made: the project's file after the last, and what each writes. It also
/// keeps the replica, as `Outcome` does.
#[derive(Debug, Drop)]
pub struct Outcomes {
    project: Vec<u8>,
    outputs: Vec<Vec<u8>>,
    replica: Replica,
}

impl Model for Outcomes {
    ghost use Rattle.std.specs.Prelude.{List, ℕ};
    ghost use Rattle.usfm_cli.specs.Turns.{InTurn, bytes_of};

    ghost Value = { InTurn (List ℕ) };

    ghost view = { λ o. record { after = o.project.items; outputs = bytes_of o.outputs.items } };
}

impl Outcomes {
    /// The project's file after the last command.
    pub fn project(&self) -> &[u8]
        ensures { result.now ≡ self.now.after }
    {
        &self.project
    }

    /// What each command writes, in their order.
    pub fn outputs(&self) -> &[Vec<u8>]
        ensures { turns.bytes_of result.now ≡ self.now.outputs }
    {
        &self.outputs
    }
}

/// Why commands in turn were refused.
#[derive(Clone, Copy, Debug, PartialEq, Eq, Error)]
pub enum TurnFault {
    /// The project's bytes are refused; or memory ran out while the project was read or
    /// written.
    #[error("the project: {0}")]
    Project(Fault),
    /// The command after this many is refused in its turn.
    #[error("command {0}, counted from 0: {1}")]
    Turn(usize, Fault),
}

impl From<AllocError> for TurnFault {
    ghost from_gives = { λ _ fault. fault ≡ refusals.Project Memory };

    fn from(_: AllocError) -> Self {
        TurnFault::Project(Fault::Memory)
    }
}

impl<T: Drop> From<AllocFailed<T>> for TurnFault {
    ghost from_gives = { λ _ fault. fault ≡ refusals.Project Memory };

    fn from(_: AllocFailed<T>) -> Self {
        TurnFault::Project(Fault::Memory)
    }
}

impl From<Fault> for TurnFault {
    ghost from_gives = { λ from fault. fault ≡ refusals.Project from };

    fn from(fault: Fault) -> Self {
        TurnFault::Project(fault)
    }
}

impl From<LoadFault> for TurnFault {
    ghost from_gives = { λ from fault. fault ≡ refusals.Project (of_loading from) };

    fn from(fault: LoadFault) -> Self {
        TurnFault::Project(Fault::from(fault))
    }
}

/// Does commands in turn on a project, given as the bytes of its file: reads the project once, does
/// each command on what those before it made, and answers the file of the project after the last
/// and what each writes. It is all or nothing: the first that is refused refuses them all.
///
/// So it is what `exec` makes of the project by each of them, one after another, up to the first
/// that is refused.
///
/// # Errors
/// - `Project` with the fault of the project, as `exec` answers it: 110, 60 to 69, 70.
/// - `Turn` with the number of the commands before the first one that is refused, and its fault, as
///   `exec` answers it of the project after those.
///
/// `Memory` (1) where an allocation failed: of a `Turn`, where `exec` may answer it of that command
/// by itself; of the `Project`, where it is read or written, and of one that holds nothing only
/// where it is written. The project is the bytes that were given, so that a refusal leaves it as it
/// is.
pub fn exec_in_turn(
    alloc: Global,
    project: &[u8],
    commands: &[Command<'_>],
) -> Result<Outcomes, TurnFault>
    ensures answer { turns.is_out_of_memory result ≡ false →
        turns.executed_in_turn project.now commands.now ≡ result }
    // Which command is refused, and where memory may have run out.
    ensures turn { (s : State) → project_at project.now ≡ Ok s
        → turns.AnswersFile s commands.now result }
    // Reading a project that holds nothing does not allocate: then it runs out in no turn only
    // after all commands were accepted, where the project is written.
    ensures memory { result ≡ Err (refusals.Project Memory) → (s : State)
        → project_at project.now ≡ Ok s → s.held ≡ []
        → IsOk (turns.in_turn s commands.now) }
    // A file that is no project is refused for that, whatever memory there is; but for its bundle,
    // where an operation of it is thinned.
    ensures no_project { IfErr (project_at project.now) (λ fault.
        turns.RefusesProject project.now (of_loading fault) result) }
    // The file after them is that of the replica after their steps.
    ensures after { IfOk result (λ made. (s : State) → project_at project.now ≡ Ok s
        → project_at made.after ≡ Ok (state_after s commands.now)) }
{
    let mut replica = load(alloc, project)?;
    let outputs = obey_in_turn(alloc, &mut replica, commands)?;
    let project = save(alloc, &replica)?;
    Ok(Outcomes {
        project,
        outputs,
        replica,
    })
}

// Does what commands say, in turn, and answers what they write, or the first that is refused.
fn obey_in_turn(
    alloc: Global,
    replica: &mut Replica,
    commands: &[Command<'_>],
) -> Result<Vec<Vec<u8>>, TurnFault>
    ensures { turns.AnswersInTurn replica.old commands.now replica.new result }
{
    let mut outputs = Vec::new(alloc);
    for command in commands {
        if let Err(fault) = take_turn(alloc, replica, command, &mut outputs) {
            return Err(TurnFault::Turn(outputs.len(), fault));
        }
    }
    Ok(outputs)
}

// Does what a command says, and puts what it writes after the outputs of those before it.
fn take_turn(
    alloc: Global,
    replica: &mut Replica,
    command: &Command<'_>,
    outputs: &mut Vec<Vec<u8>>,
) -> Result<(), Fault>
    ensures { turns.AnswersTurn (commands.is_late command.now)
        (commands.outcome replica.old command.now) (turns.bytes_of outputs.old.items)
        replica.new (turns.bytes_of outputs.new.items) result }
{
    let output = obey(alloc, replica, command)?;
    outputs.push(output)?;
    Ok(())
}
