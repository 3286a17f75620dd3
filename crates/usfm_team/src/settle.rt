// Settles conflicts with the person at standard input. Nothing is locked while that person thinks.
use crate::output::Output;
use crate::refusal::{Refusal, read_named};
use crate::telling::{names_heads, say_heads, unconflicted_heads};
use crate::typed::{MOST_TYPED, read_line};
use crate::{done, locked};
use byte_source::MOST_BYTES;
use command_faults::{Expected, Fault};
use line_editing::{line_answer, push_answered, split_line};
use op_core::OpId;
use plain_line::push_line;
use std::io::{BufRead, BufReader, IsTerminal};
use std::str;
use usfm_cli::{
    Answer, Asked, Command, Manner, Wanted, conflict_count, ends_text, exec, next_question,
    settling_edit,
};
use usfm_ref::Segment;

const UNCLEAR: &str = "Type one of the numbers, e, s or q.\n";

const DOES_NOT_FIT: &str = "\
Nothing was changed: that is no text of this segment. Begin it with the mark of
the segment, as the texts above, and leave out all later verses and chapters.
";

const NOT_TEXT: &str = "Nothing was changed: that text is not UTF-8.\n";

const EMPTY: &str = "Nothing was changed: no text was typed.\n";

const CUT: &str = "\
Nothing was changed: a terminal passes on no more than 4,095 bytes of a line.
Type the text in several lines.
";

const NOT_ENDED: &str = "\
Nothing was changed: a line with only a full stop ends a text.
";

const NOT_ALL: &str = "\
Nothing was changed: not every line was answered.
";

const EDIT_LINES: &str = "\
The lines of text 1: Return keeps one, - leaves it out, + TEXT adds one after it,
and any other text takes its place.
";

const TYPE_A_TEXT: &str = "\
Type the text with its mark; after it a line with only a full stop.
";

// What became of a question.
enum Turn {
    // An edit was made.
    Settled,
    // Something that was asked of is no longer shown, so nothing was made.
    Overtaken,
    // The segment stays as it is.
    Passed(Segment),
    // No more is asked.
    Stopped,
}

// What was typed for a text of one's own.
enum Typed {
    Text(Vec<u8>),
    // The lines are no text, for this reason.
    Refused(&'static str),
    // The input ended before the text did, so it may not be whole, for this reason.
    Ended(&'static str),
}

// Where the project is whose conflicts are asked.
#[derive(Drop)]
enum Held<'a> {
    // In a file, which the line names so.
    File(&'a str),
    // In memory alone, where nobody else changes it.
    Memory(Vec<u8>),
}

impl Held<'_> {
    // The bytes of the project by now.
    fn read(&self, rt: &HostRuntime) -> Result<Vec<u8>, Refusal> {
        match self {
            Held::File(path) => read_named(rt, path, Expected::Project),
            Held::Memory(bytes) => Ok(bytes.clone().map_err(Fault::from)?),
        }
    }

    // What the project was refused for.
    fn refusal(&self, rt: &HostRuntime, fault: Fault) -> Refusal {
        match self {
            Held::File(path) => Refusal::of_project(rt, fault, path),
            Held::Memory(_) => Refusal::from(fault),
        }
    }
}

// A conversation about the conflicts of a project.
#[derive(Drop)]
struct Talk<'a> {
    rt: &'a HostRuntime,
    project: Held<'a>,
    output: Output<'a>,
}

// Asks one conflict of a project's file after another, and makes the edits that are answered.
pub(crate) fn settle(
    rt: &HostRuntime,
    project: &str,
    wanted: &[Wanted],
    explains: bool,
) -> Result<(), Refusal> {
    let heads = if explains && names_heads(wanted) {
        unconflicted_heads(rt, &read_named(rt, project, Expected::Project)?, wanted)
    } else {
        Vec::new(rt.alloc())
    };
    let mut talk = Talk::about(rt, Held::File(project));
    talk.settle(wanted)?;
    say_heads(rt, &heads);
    Ok(())
}

// The same of all conflicts of a project that is in memory alone; the project then.
pub(crate) fn settle_in_memory(rt: &HostRuntime, project: Vec<u8>) -> Result<Vec<u8>, Refusal> {
    let mut talk = Talk::about(rt, Held::Memory(project));
    talk.settle(&[])?;
    talk.project.read(rt)
}

fn manner(rt: &HostRuntime) -> Manner {
    if rt.stdout().is_terminal() {
        Manner::Reverse
    } else {
        Manner::Brackets
    }
}

impl<'a> Talk<'a> {
    fn about(rt: &'a HostRuntime, project: Held<'a>) -> Talk<'a> {
        Talk {
            rt,
            project,
            output: Output::of(rt),
        }
    }

    // Asks one conflict after another, and makes the edits that are answered. What an edit leaves
    // in conflict is asked again.
    fn settle(&mut self, wanted: &[Wanted]) -> Result<(), Refusal> {
        let rt = self.rt;
        let manner = manner(rt);
        let mut input = BufReader::new(rt.alloc(), rt.reader()).map_err(|_| Fault::Memory)?;
        let mut passed = None;
        let mut settled: u64 = 0;
        for _ in 0..u64::MAX {
            let Some(asked) = self.next_question(wanted, passed, manner)? else {
                break;
            };
            // At a terminal it has no control character but those that set off what differs.
            self.output.write(asked.question())?;
            match self.ask(&asked, &mut input)? {
                Turn::Settled => settled = settled.saturating_add(1),
                Turn::Overtaken => {}
                Turn::Passed(segment) => passed = Some(segment),
                Turn::Stopped => break,
            }
        }
        let bytes = self.project.read(rt)?;
        let left = conflict_count(rt.alloc(), &bytes, wanted);
        let left = left.map_err(|fault| self.project.refusal(rt, fault))?;
        let counts = format!(in rt.alloc(); "settled {settled}\nconflicts {left}\n");
        self.say(&counts.map_err(Fault::from)?)
    }

    // The next conflict that is asked, of those that the project has by now.
    fn next_question(
        &self,
        wanted: &[Wanted],
        passed: Option<Segment>,
        manner: Manner,
    ) -> Result<Option<Asked>, Refusal> {
        let bytes = self.project.read(self.rt)?;
        let asked = next_question(self.rt.alloc(), &bytes, wanted, passed, manner);
        asked.map_err(|fault| self.project.refusal(self.rt, fault))
    }

    // Reads lines until one of them settles the question.
    fn ask<R: BufRead>(&mut self, asked: &Asked, input: &mut R) -> Result<Turn, Refusal> {
        for _ in 0..u64::MAX {
            let Some(line) = read_line(self.rt, input)? else {
                break;
            };
            // A line that is no text is no answer, as the empty line.
            let turn = match asked.answer(str::from_utf8(&line).unwrap_or("")) {
                Answer::Take(text) => self.make(asked, text.as_bytes())?,
                Answer::Own => match self.own_text(asked, input)? {
                    Typed::Text(text) => self.make(asked, &text)?,
                    Typed::Refused(why) => self.ask_again(why)?,
                    Typed::Ended(why) => {
                        self.say(why)?;
                        Some(Turn::Stopped)
                    }
                },
                Answer::Skip => Some(Turn::Passed(asked.segment())),
                Answer::Stop => Some(Turn::Stopped),
                Answer::Unclear => self.ask_again("")?,
            };
            if let Some(turn) = turn {
                return Ok(turn);
            }
        }
        Ok(Turn::Stopped)
    }

    // Makes the edit of an answer. None where the text is refused, and the question stands.
    fn make(&mut self, asked: &Asked, text: &[u8]) -> Result<Option<Turn>, Refusal> {
        let refusal = match self.change(&settling_edit(asked, text)) {
            Ok(()) => return Ok(Some(Turn::Settled)),
            Err(refusal) => refusal,
        };
        match &refusal.fault {
            Fault::NotShown(id) => {
                self.say_replaced(id)?;
                Ok(Some(Turn::Overtaken))
            }
            Fault::BadSegment => self.ask_again(DOES_NOT_FIT),
            Fault::NotText { .. } => self.ask_again(NOT_TEXT),
            _ => Err(refusal),
        }
    }

    // Makes an edit: in a file under the lock, and then its line is written.
    fn change(&mut self, edit: &Command<'_>) -> Result<(), Refusal> {
        match &mut self.project {
            Held::File(path) => {
                let path = *path;
                let (file, bytes) = locked(self.rt, path)?;
                let outcome = done(self.rt, path, file, &bytes, edit, None)?;
                self.output.write(outcome.output())
            }
            Held::Memory(bytes) => {
                *bytes = changed(self.rt, bytes.as_slice(), edit)?;
                Ok(())
            }
        }
    }

    // Says that an operation was replaced while a person thought.
    fn say_replaced(&mut self, id: &OpId) -> Result<(), Refusal> {
        let name = id.name.text();
        let number = id.number;
        let line = format!(in self.rt.alloc();
            "Nothing was changed: {number} {name} was replaced meanwhile. Read again.\n"
        );
        self.say(&line.map_err(Fault::from)?)
    }

    // Says why nothing was made, and what may be answered: the question stands.
    fn ask_again(&mut self, why: &str) -> Result<Option<Turn>, Refusal> {
        self.say(why)?;
        self.say(UNCLEAR)?;
        Ok(None)
    }

    // A text of one's own: the first text of the question, of which each line is asked; or what is
    // typed, where that text is empty.
    fn own_text<R: BufRead>(&mut self, asked: &Asked, input: &mut R) -> Result<Typed, Refusal> {
        match asked.answer("1") {
            Answer::Take(text) if !text.is_empty() => self.edit_lines(text, input),
            _ => self.read_text(input),
        }
    }

    // Asks what becomes of each line of a text.
    fn edit_lines<R: BufRead>(&mut self, text: &str, input: &mut R) -> Result<Typed, Refusal> {
        self.say(EDIT_LINES)?;
        let is_terminal = self.rt.stdin().is_terminal();
        let mut made = String::new(self.rt.alloc());
        let mut is_cut = false;
        let mut left = text;
        for _ in 0..u64::MAX {
            let Some((line, later)) = split_line(left) else {
                break;
            };
            self.show_line(line.body)?;
            let Some(typed) = read_line(self.rt, input)? else {
                return Ok(Typed::Ended(NOT_ALL));
            };
            if !typed.ends_with(b"\n") {
                // The input ended within it, so it may not be whole.
                return Ok(Typed::Ended(NOT_ALL));
            }
            is_cut = is_cut || is_terminal && typed.len() > MOST_TYPED;
            if typed.len() > MOST_BYTES - made.len().min(MOST_BYTES) {
                return Err(Refusal::from(Fault::TooLong));
            }
            let Ok(typed) = str::from_utf8(&typed) else {
                return Ok(Typed::Refused(NOT_TEXT));
            };
            let body = split_line(typed).map_or("", |(typed, _)| typed.body);
            push_answered(&mut made, line, line_answer(body)).map_err(Fault::from)?;
            left = later;
        }
        Ok(judge_typed(made.into_bytes(), is_cut))
    }

    // Shows a line that is asked about, in brackets.
    fn show_line(&mut self, body: &str) -> Result<(), Refusal> {
        let mut shown = String::new(self.rt.alloc());
        push_line(&mut shown, body).map_err(Fault::from)?;
        let shown = format!(in self.rt.alloc(); "[{shown}]\n").map_err(Fault::from)?;
        self.say(&shown)
    }

    // Reads the lines up to one with only a full stop. A terminal leaves out what is too long for a
    // line of it, and a text of which something is left out would be taken for the whole. So would
    // an empty one, by which a segment leaves the book.
    fn read_text<R: BufRead>(&mut self, input: &mut R) -> Result<Typed, Refusal> {
        self.say(TYPE_A_TEXT)?;
        let is_terminal = self.rt.stdin().is_terminal();
        let mut text = Vec::new(self.rt.alloc());
        let mut is_cut = false;
        for _ in 0..u64::MAX {
            let Some(line) = read_line(self.rt, input)? else {
                break;
            };
            if ends_text(&line) {
                return Ok(judge_typed(text, is_cut));
            }
            is_cut = is_cut || is_terminal && line.len() > MOST_TYPED;
            if line.len() > MOST_BYTES - text.len().min(MOST_BYTES) {
                return Err(Refusal::from(Fault::TooLong));
            }
            text.extend_from_slice(&line).map_err(Fault::from)?;
        }
        Ok(Typed::Ended(NOT_ENDED))
    }

    // Writes a line of the conversation, which has no text of others.
    fn say(&mut self, line: &str) -> Result<(), Refusal> {
        self.output.write(line.as_bytes())
    }
}

// The bytes of a project once an edit was made.
fn changed(rt: &HostRuntime, project: &[u8], edit: &Command<'_>) -> Result<Vec<u8>, Refusal> {
    let outcome = exec(rt.alloc(), project, edit)?;
    Ok(outcome.project().to_vec(rt.alloc()).map_err(Fault::from)?)
}

// What is done with the lines that were typed.
fn judge_typed(text: Vec<u8>, is_cut: bool) -> Typed {
    if is_cut {
        Typed::Refused(CUT)
    } else if text.is_empty() {
        Typed::Refused(EMPTY)
    } else {
        Typed::Text(text)
    }
}
