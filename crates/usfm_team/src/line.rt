// What the command line asks for.
use crate::merging::NOT_MERGED;
use crate::telling::{are_find, with_tip};
use command_faults::Fault;
use command_line::{Line, LineFault, asks_for_exit_code, asks_for_words, read_words};
use std::io::ErrorKind;

// What the words of a line ask for beside its subcommand.
#[derive(Drop)]
pub(crate) struct Asked {
    // What a fault means.
    pub(crate) explains: bool,
    // An exit status that says what was found.
    pub(crate) exits: bool,
    // A text that is looked for.
    pub(crate) finds: bool,
    // The exit status of a refusal.
    pub(crate) refused: u8,
}

// The exit status of a refusal, unless it is one of `merge`.
pub(crate) const REFUSED: u8 = 1;

// What the words of the command line ask for. The first is the program's own name.
pub(crate) fn read_line(rt: &HostRuntime, asked: &mut Asked) -> Result<Line, LineFault> {
    let alloc = rt.alloc();
    match std::env::args(rt) {
        Ok(args) => {
            let words: Vec<String> = args.skip(1).collect(alloc)?;
            asked.explains |= asks_for_words(&words);
            asked.exits = asks_for_exit_code(&words);
            asked.finds = are_find(&words);
            asked.refused = refused_status(&words);
            let line = read_words(alloc, &words);
            if let Err(LineFault::Usage(text)) = line {
                return Err(LineFault::Usage(with_tip(text, &words, asked.explains)?));
            }
            line
        }
        Err(error) if error.kind() == ErrorKind::OutOfMemory => {
            Err(LineFault::Refused(Fault::Memory))
        }
        Err(_) => {
            let text = String::from_str(alloc, "error: an argument is not UTF-8\n")?;
            Err(LineFault::Usage(text))
        }
    }
}

// The exit status of a refusal of these words: git takes 1 of a merge for conflicts.
fn refused_status(words: &[String]) -> u8 {
    match words.first() {
        Some(word) if word.as_str() == "merge" => NOT_MERGED,
        _ => REFUSED,
    }
}
