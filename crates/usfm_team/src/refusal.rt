// Why a command was refused, and which file that is about.
use crate::files::read_file;
use command_faults::{Expected, Fault, Input, refused_input};
use usfm_cli::TurnFault;

// Why a line was refused: the fault, and the file that it is of.
#[derive(Debug, Drop)]
pub(crate) struct Refusal {
    pub(crate) fault: Fault,
    pub(crate) file: Option<RefusedFile>,
    // Whether standard output was closed by who read it: that is no fault that anybody is told of.
    pub(crate) is_unread: bool,
    // Lines that say more of it.
    pub(crate) lines: Option<Vec<u8>>,
}

// The file of a refusal.
#[derive(Debug, Drop)]
pub(crate) struct RefusedFile {
    pub(crate) name: String,
    // What it was to be.
    pub(crate) expected: Expected,
    // Whether the line names no other file that it could be: then it is said only with what the
    // fault means.
    pub(crate) is_alone: bool,
    // The other one of two files that cannot stand beside each other.
    pub(crate) beside: Option<String>,
}

impl From<Fault> for Refusal {
    fn from(fault: Fault) -> Self {
        Refusal {
            fault,
            file: None,
            is_unread: false,
            lines: None,
        }
    }
}

impl Refusal {
    // That nobody reads standard output any more.
    pub(crate) fn unread(fault: Fault) -> Refusal {
        Refusal {
            fault,
            file: None,
            is_unread: true,
            lines: None,
        }
    }

    // The refusal of a file, with what it was to be, where the line names several, or a folder.
    // Where out of memory keeps its name from being copied, the fault alone is said.
    pub(crate) fn expecting(
        rt: &HostRuntime,
        fault: Fault,
        file: &str,
        expected: Expected,
    ) -> Refusal {
        Refusal::made(rt, fault, file, expected, false)
    }

    // The same, by the file's own name, where it is not known what it was to be.
    pub(crate) fn of(fault: Fault, name: String) -> Refusal {
        Refusal::named(fault, name, Expected::Unknown)
    }

    // The same, with that.
    pub(crate) fn named(fault: Fault, name: String, expected: Expected) -> Refusal {
        let file = RefusedFile {
            name,
            expected,
            is_alone: false,
            beside: None,
        };
        Refusal::in_file(fault, Some(file))
    }

    // The refusal of the second of two files of a book, with the other one, if its name is known.
    pub(crate) fn of_two(fault: Fault, name: String, other: Option<String>) -> Refusal {
        let file = RefusedFile {
            name,
            expected: Expected::OneOfTwo,
            is_alone: false,
            beside: other,
        };
        Refusal::in_file(fault, Some(file))
    }

    // The same refusal, with lines that say more of it.
    pub(crate) fn with_lines(self, lines: Option<Vec<u8>>) -> Refusal {
        let Refusal {
            fault,
            file,
            is_unread,
            lines: _,
        } = self;
        Refusal {
            fault,
            file,
            is_unread,
            lines,
        }
    }

    // The same refusal, where the line does not name the file.
    pub(crate) fn beside_others(mut self) -> Refusal {
        if let Some(file) = &mut self.file {
            file.is_alone = false;
        }
        self
    }

    fn in_file(fault: Fault, file: Option<RefusedFile>) -> Refusal {
        Refusal {
            fault,
            file,
            is_unread: false,
            lines: None,
        }
    }

    // The refusal of the one file that the line names for this.
    pub(crate) fn alone(rt: &HostRuntime, fault: Fault, file: &str, expected: Expected) -> Refusal {
        Refusal::made(rt, fault, file, expected, true)
    }

    fn made(
        rt: &HostRuntime,
        fault: Fault,
        file: &str,
        expected: Expected,
        is_alone: bool,
    ) -> Refusal {
        let file = match String::from_str(rt.alloc(), file) {
            Ok(name) => Some(RefusedFile {
                name,
                expected,
                is_alone,
                beside: None,
            }),
            Err(_) => None,
        };
        Refusal::in_file(fault, file)
    }

    // The refusal of a file that could not be written, by its name, if that is known.
    pub(crate) fn unwritten<E: Drop>(
        fault: Fault,
        name: Result<String, E>,
        expected: Expected,
    ) -> Refusal {
        match name {
            Ok(name) => Refusal::named(fault, name, expected),
            Err(_) => Refusal::from(fault),
        }
    }

    // What a project's file was refused for. Other faults are of no file.
    pub(crate) fn of_project(rt: &HostRuntime, fault: Fault, path: &str) -> Refusal {
        match fault {
            Fault::ReadFailed
            | Fault::TooLong
            | Fault::FileFailed
            | Fault::BadProject
            | Fault::Bundle(_)
            | Fault::Trailing => Refusal::alone(rt, fault, path, Expected::Project),
            _ => Refusal::from(fault),
        }
    }

    // What a command on a project was refused for: its file, or the other one that the line names.
    pub(crate) fn of_inputs(
        rt: &HostRuntime,
        fault: Fault,
        project: &Given<'_>,
        other: Option<(&str, Expected)>,
    ) -> Refusal {
        match (refused_input(rt.alloc(), project.bytes, &fault), other) {
            (Input::Project, _) => Refusal::alone(rt, fault, project.path, Expected::Project),
            (Input::Given, Some((path, expected))) => Refusal::alone(rt, fault, path, expected),
            _ => Refusal::from(fault),
        }
    }

    // What one of several files was refused for, or the project.
    pub(crate) fn of_turn(
        rt: &HostRuntime,
        fault: TurnFault,
        project: &str,
        files: &[String],
        expected: Expected,
    ) -> Refusal {
        match fault {
            TurnFault::Project(fault) => Refusal::of_project(rt, fault, project),
            TurnFault::Turn(at, fault) => match files.get(at) {
                Some(file) => Refusal::made(rt, fault, file, expected, files.len() == 1),
                None => Refusal::from(fault),
            },
        }
    }
}

// A file that was read.
#[derive(Clone, Copy, Debug, Drop)]
pub(crate) struct Given<'a> {
    pub(crate) path: &'a str,
    pub(crate) bytes: &'a [u8],
}

impl<'a> Given<'a> {
    pub(crate) fn of(path: &'a str, bytes: &'a [u8]) -> Given<'a> {
        Given { path, bytes }
    }
}

// The bytes of a file that the line names, or the refusal of it.
pub(crate) fn read_named(
    rt: &HostRuntime,
    path: &str,
    expected: Expected,
) -> Result<Vec<u8>, Refusal> {
    read_file(rt, path).map_err(|fault| match fault {
        Fault::Memory => Refusal::from(fault),
        _ => Refusal::alone(rt, fault, path, expected),
    })
}
