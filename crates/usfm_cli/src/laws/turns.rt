//! Laws of commands in turn, over the definitions alone. Each function does nothing: its contract
//! is the law.
ghost use Rattle.usfm_cli.specs.Turns as laws;

/// Commands in turn on a project make what the same commands make one after another, each on the
/// file of the one before, where each file on the way is read again as the replica that its steps
/// make: the same file and outputs, or the same first refusal of the same command.
pub fn in_turn_is_one_after_another()
    ensures { laws.InTurnIsOneAfterAnother }
{}

/// Where commands one after another are all accepted, the file after them is the one after any
/// commands of which a refused one leaves it as it is; so all laws over projects after commands
/// hold of it.
pub fn accepted_is_file_after()
    ensures { laws.AcceptedIsFileAfter }
{}
