// How a command ended that was not refused.
ghost use Rattle.std.specs.Prelude.{◌≡◌};
ghost use Rattle.command_line.specs.Endings as endings;

/// What a command that was not refused came to.
#[derive(Clone, Copy, Debug, PartialEq, Eq)]
pub enum Ending {
    /// All is well, or nobody asked.
    Plain,
    /// Somebody has to look at something: the command has a finding, or `find` has none.
    Finding,
    /// Something was skipped, and all else is done.
    Skipped,
}

impl Ending {
    /// A finding where there is one.
    pub fn of(has_finding: bool) -> Ending
        ensures { result ≡ endings.ending_of has_finding }
    {
        if has_finding {
            Ending::Finding
        } else {
            Ending::Plain
        }
    }

    /// The exit status: 0; or, where it is asked for, 3 of a finding, and 4 where something was
    /// skipped.
    pub fn status(self, is_asked: bool) -> u8
        ensures { result ≡ endings.status self is_asked }
    {
        match self {
            Ending::Finding if is_asked => 3,
            Ending::Skipped if is_asked => 4,
            _ => 0,
        }
    }
}
