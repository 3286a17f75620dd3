// A call that is made while an allocation fails, and then once more.
use crate::told::Told;
use command_faults::{Fault, fault_line};

/// A call, and what it stands on.
pub(crate) trait Play {
    /// Makes the call, and puts down what it gives.
    fn make(&mut self, told: &mut Told) -> Result<(), Fault>;

    /// Whether what the call may change is as it was before.
    fn is_as_before(&self) -> bool;
}

/// What came of it.
#[derive(Clone, Copy)]
pub(crate) enum Said {
    /// The allocation that failed was one that the call stands on.
    NotBegun,
    /// The call was refused, and answered when it was made again.
    Refused,
    /// It answered: no allocation of it failed, or it made do with less.
    Answered,
    Wrong,
}

impl Said {
    pub(crate) fn line(self) -> &'static str {
        match self {
            Said::NotBegun => "not begun\n",
            Said::Refused => "refused\n",
            Said::Answered => "answered\n",
            Said::Wrong => "wrong\n",
        }
    }
}

// Makes the call, and says whether it gives what is wanted, or the line of a fault that is; None
// where it is out of memory.
fn gives<P: Play>(play: &mut P, wanted: &[&[u8]]) -> Option<bool> {
    let mut told = Told::new();
    match play.make(&mut told) {
        Ok(()) => Some(told.is(wanted)),
        Err(_) if !told.is_empty() => Some(false),
        Err(Fault::Memory) => None,
        Err(fault) => {
            told.push(fault_line(&fault).bytes());
            Some(told.is(wanted))
        }
    }
}

/// Makes the call, and once more where it was refused. Wanted are pieces of what it gives.
pub(crate) fn said_of<P: Play + Drop>(begun: Result<P, Fault>, wanted: &[&[u8]]) -> Said {
    let Ok(mut play) = begun else {
        return Said::NotBegun;
    };
    match gives(&mut play, wanted) {
        Some(true) => Said::Answered,
        None if play.is_as_before() && gives(&mut play, wanted) == Some(true) => Said::Refused,
        _ => Said::Wrong,
    }
}
