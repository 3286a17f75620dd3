// What a file of answers is refused for, and what a person reads of that: `sentences` has the others.
ghost use Rattle.std.specs.Prelude.{◌≡◌};
ghost use Rattle.command_faults.specs.Faults as faults;

use crate::fault::Fault;
use conflict_answers::AnswersFault;

pub(crate) const BAD_ANSWERS: &str = "\
This line of the file of answers is none of its lines.
If the file was cut on its way, or changed by hand, get it again from whoever
answered. Before each text and each remark stands its length in bytes.";

impl From<AnswersFault> for Fault {
    ghost from_gives = { λ from fault. fault ≡ faults.of_answers from };

    fn from(fault: AnswersFault) -> Self {
        match fault {
            AnswersFault::Memory => Fault::Memory,
            AnswersFault::BadLine { line } => Fault::BadAnswers { line },
        }
    }
}
