//! `usfm_team`: keeps the Scripture project of a team that works offline.
#![tactic(auto)]

mod answers;
mod base_settling;
mod before;
mod begin;
mod book_files;
mod by_verse;
mod changed;
mod days;
mod edits;
mod files;
mod history;
mod joining;
mod kept;
mod line;
mod looks;
mod merging;
mod missing;
mod output;
mod plan_refusal;
mod project;
mod questions;
mod reading;
mod refusal;
mod rights;
mod sealing;
mod settle;
mod setup;
mod since;
mod standing;
mod steps;
mod sync;
mod sync_lines;
mod system_disk;
mod team_box;
mod telling;
mod told;
mod turns;
mod typed;

use crate::answers::settle_answers;
use crate::begin::init;
use crate::book_files::look_at_files;
use crate::edits::{edit, edit_over, edit_with};
use crate::history::{changes, history, restore, restore_since, thin};
use crate::joining::join;
use crate::line::{Asked, REFUSED, read_line};
use crate::looks::{check, find, form_of, read, words};
use crate::merging::merge;
use crate::missing::missing;
use crate::output::{write_as_it_is, write_output};
use crate::project::{Project, lock_project};
use crate::refusal::{Given, Refusal, read_named};
use crate::sealing::{combine, delta, read_stream, send};
use crate::settle::settle;
use crate::standing::{page, progress, status};
use crate::sync::{export_into, sync};
use crate::telling::{SEVERAL_WORDS, refuse, say, tell_refused_word, tell_usage};
use crate::told::told_by;
use crate::turns::{import, receive};
use crate::typed::{GIVE_BUNDLES, say_at_terminal};
use command_faults::{Expected, Fault, list_faults};
use command_line::{Ending, Line, LineFault, NO_FOLDER};
use std::fs::File;
use std::io::IsTerminal;
use std::os::fd::AsRawFd;
use std::process::ExitCode;
use std::{io, mem};
use usfm_cli::{Command, Outcome, StdSink, exec, fold_bundles, remark};
use usfm_ref::Book;

// How many standard streams there are: input, output and error, of the numbers 0 to 2.
const STREAMS: i32 = 3;

fn main(rt: HostRuntime) -> ExitCode {
    let mut asked = Asked {
        explains: rt.stderr().is_terminal(),
        exits: false,
        finds: false,
        refused: REFUSED,
    };
    if hold_streams(&rt).is_err() {
        return refuse(
            &rt,
            &Refusal::from(Fault::ReadFailed),
            asked.explains,
            REFUSED,
        );
    }
    let line = read_line(&rt, &mut asked);
    let Asked {
        explains,
        exits,
        finds,
        refused,
    } = asked;
    match line {
        Ok(line) => match line.only_into_file() {
            Some(message) if rt.stdout().is_terminal() => tell_usage(&rt, message),
            _ => match run(&rt, line, explains, exits) {
                Ok(status) => status,
                Err(refusal) => refuse(&rt, &refusal, explains, REFUSED),
            },
        },
        Err(LineFault::Help(text)) => match write_output(&rt, text.as_bytes()) {
            Ok(()) => ExitCode::SUCCESS,
            Err(refusal) => refuse(&rt, &refusal, explains, REFUSED),
        },
        Err(LineFault::Usage(text)) => tell_usage(&rt, &text),
        Err(LineFault::Refused(fault)) => refuse(&rt, &Refusal::from(fault), explains, refused),
        Err(LineFault::RefusedWord(fault, word)) => {
            tell_refused_word(&rt, &fault, &word, explains);
            if explains && finds {
                say(&rt, SEVERAL_WORDS);
            }
            ExitCode::from(REFUSED)
        }
    }
}

// Has something open under each of the numbers of the standard streams, so that no file is opened
// under one of them, and a message written into it. A stream that was closed is a folder then,
// which gives no bytes and takes none.
fn hold_streams(rt: &HostRuntime) -> io::Result<()> {
    for _ in 0..STREAMS {
        let held = File::open(rt, "/").or_else(|_| File::open(rt, "."))?;
        if held.as_raw_fd() >= STREAMS {
            break;
        }
        mem::forget(held);
    }
    Ok(())
}

// Does what a line asks for, and gives the exit status. Files are read in the order of the words, and
// standard input last. An edit, an import and a receive read the project again when no other command
// can change it: who types a text holds up nobody.
fn run(rt: &HostRuntime, line: Line, explains: bool, exits: bool) -> Result<ExitCode, Refusal> {
    let done = match line {
        Line::Init { project, name } => init(rt, &project, &name, explains),
        Line::Import {
            project,
            files,
            since,
        } => import(rt, &project, files, since, explains),
        Line::Edit { project, book, key } => edit(rt, &project, book, key, explains),
        Line::EditOver {
            project,
            book,
            key,
            ids,
            text_of,
        } => match text_of {
            None => edit_over(rt, &project, book, key, &ids),
            Some(of) => edit_with(rt, &project, book, key, of, &ids),
        },
        Line::Settle { project, wanted } => settle(rt, &project, &wanted, explains),
        Line::SettleAnswers { project, files } => settle_answers(rt, &project, &files),
        Line::Receive { project, bundles } => receive(rt, &project, bundles, explains),
        Line::Shown { project, book, key } => {
            ask(rt, &project, &Command::Shown(book, key), explains)
        }
        Line::History { project, names } => history(rt, &project, &names),
        Line::Changes {
            project,
            since,
            names,
            with_texts,
        } => return ended(changes(rt, &project, &since, &names, with_texts), exits),
        Line::Restore {
            project,
            ids,
            is_try,
        } => restore(rt, &project, &ids, is_try, explains),
        Line::RestoreSince {
            project,
            since,
            names,
            is_try,
        } => restore_since(rt, &project, &since, &names, is_try, explains),
        Line::Send { project, sealed } => send(rt, &project, sealed),
        Line::Export { project, book } => ask(rt, &project, &Command::Export(book), explains),
        Line::ExportInto {
            project,
            folder,
            books,
        } => export_into(rt, &project, &folder, &books, explains),
        Line::Join(words) => return ended(join(rt, words, explains), exits),
        Line::Sync(words) => return match told_by(rt, words)? {
            Some(what) => ended(sync(rt, what, explains), exits),
            None => Ok(tell_usage(rt, NO_FOLDER)),
        },
        Line::Summary { project } => ask(rt, &project, &Command::Summary, explains),
        Line::Delta {
            project,
            summary,
            sealed,
        } => delta(rt, &project, &summary, sealed),
        Line::Thin { project } => thin(rt, &project),
        Line::Status { project, files } => return ended(
            status(rt, &project, &files, explains, exits),
            exits,
        ),
        Line::Missing {
            project,
            parts,
            versification,
            all,
        } => return ended(
            missing(rt, &project, &parts, versification, all, explains),
            exits,
        ),
        Line::Progress {
            project,
            book,
            versification,
        } => progress(rt, &project, book, versification),
        Line::Page {
            project,
            versification,
        } => page(rt, &project, versification),
        Line::Report { project } => return ended(report(rt, &project, explains), exits),
        Line::Check {
            project,
            book,
            sheet,
            with_text,
            by_lines,
        } => {
            let form = form_of(rt, with_text, by_lines);
            return ended(check(rt, &project, book, sheet, form, explains), exits);
        }
        Line::Find {
            project,
            book,
            sheet,
            needle,
            with_text,
            by_lines,
        } => {
            let form = form_of(rt, with_text, by_lines);
            return ended(
                find(rt, &project, book, sheet, &needle, form, explains),
                exits,
            );
        }
        Line::Words {
            project,
            book,
            sheet,
        } => words(rt, &project, book, sheet, explains),
        Line::Files(words) => return ended(look_at_files(rt, words, explains), exits),
        Line::Read {
            project,
            wanted,
            sheet,
            width,
        } => read(rt, &project, wanted, sheet, width, explains),
        Line::Fold(book) => fold(rt, book),
        Line::Combine { bundles, sealed } => combine(rt, &bundles, sealed),
        Line::Merge(words) => return Ok(merge(rt, &words, explains)),
        Line::Faults => faults(rt),
    };
    done?;
    Ok(ExitCode::SUCCESS)
}

// The exit status of a command that has an ending.
fn ended(done: Result<Ending, Refusal>, exits: bool) -> Result<ExitCode, Refusal> {
    Ok(ExitCode::from(done?.status(exits)))
}

// Writes the conflicts of a project, and what it awaits.
fn report(rt: &HostRuntime, project: &str, explains: bool) -> Result<Ending, Refusal> {
    let bytes = read_named(rt, project, Expected::Project)?;
    let project = Given::of(project, &bytes);
    let is_found = answer(rt, &project, &Command::Report, None, explains)?;
    Ok(Ending::of(is_found))
}

// Does a command on a project's file that it reads first.
fn ask(
    rt: &HostRuntime,
    project: &str,
    command: &Command<'_>,
    explains: bool,
) -> Result<(), Refusal> {
    let bytes = read_named(rt, project, Expected::Project)?;
    let project = Given::of(project, &bytes);
    answer(rt, &project, command, None, explains)?;
    Ok(())
}

// Does a command that changes nothing on the bytes of a project's file; answers whether it wrote
// something. What it made is not freed, since the program ends.
pub(crate) fn answer(
    rt: &HostRuntime,
    project: &Given<'_>,
    command: &Command<'_>,
    other: Option<(&str, Expected)>,
    explains: bool,
) -> Result<bool, Refusal> {
    let outcome = match exec(rt.alloc(), project.bytes, command) {
        Ok(outcome) => outcome,
        Err(fault) => return Err(Refusal::of_inputs(rt, fault, project, other)),
    };
    let written = write_output(rt, outcome.output());
    if explains {
        if let Some(line) = remark(rt.alloc(), command, outcome.output()) {
            say(rt, line);
        }
    }
    let is_something = !outcome.output().is_empty();
    mem::forget(outcome);
    written?;
    Ok(is_something)
}

// Does a command on a project's file while no other command changes it. Only then, when others may
// go on, the output is written.
pub(crate) fn change(
    rt: &HostRuntime,
    path: &str,
    command: &Command<'_>,
    other: Option<(&str, Expected)>,
) -> Result<(), Refusal> {
    let (project, bytes) = locked(rt, path)?;
    change_locked(rt, path, project, &bytes, command, other)
}

// The same on a project that is locked already. What a change writes has no text of others, and once
// the project was replaced nothing is allocated.
pub(crate) fn change_locked(
    rt: &HostRuntime,
    path: &str,
    project: Project,
    bytes: &[u8],
    command: &Command<'_>,
    other: Option<(&str, Expected)>,
) -> Result<(), Refusal> {
    let outcome = done(rt, path, project, bytes, command, other)?;
    let written = write_as_it_is(rt, outcome.output());
    mem::forget(outcome);
    written
}

// A project's file, which no other command changes from now on, and its bytes.
pub(crate) fn locked(rt: &HostRuntime, path: &str) -> Result<(Project, Vec<u8>), Refusal> {
    let of_project = |fault| Refusal::of_project(rt, fault, path);
    let mut project = lock_project(rt, path).map_err(of_project)?;
    let bytes = project.read(rt).map_err(of_project)?;
    Ok((project, bytes))
}

// What a command made that was done on the bytes of a project's file, which others may change after
// it. The file is replaced where its bytes are others.
fn done<'a>(
    rt: &HostRuntime,
    path: &str,
    mut project: Project,
    bytes: &'a [u8],
    command: &Command<'_>,
    other: Option<(&str, Expected)>,
) -> Result<Outcome<'a>, Refusal> {
    let outcome = match exec(rt.alloc(), bytes, command) {
        Ok(outcome) => outcome,
        Err(fault) => {
            return Err(Refusal::of_inputs(rt, fault, &Given::of(path, bytes), other));
        }
    };
    if outcome.project() != bytes {
        if let Err(fault) = project.replace(rt, outcome.project()) {
            return Err(Refusal::of_project(rt, fault, path));
        }
    }
    Ok(outcome)
}

// Folds the bundles of standard input into a book, which is written when it is whole.
fn fold(rt: &HostRuntime, book: Book) -> Result<(), Refusal> {
    say_at_terminal(rt, GIVE_BUNDLES);
    let stream = read_stream(rt)?;
    let mut text = Vec::new(rt.alloc());
    match fold_bundles(rt.alloc(), &stream, &mut StdSink::new(&mut text), book) {
        Ok(()) => write_output(rt, &text),
        // The book is gathered in memory, where a write fails only for want of memory.
        Err(Fault::WriteFailed { gone: _ }) => Err(Refusal::from(Fault::Memory)),
        Err(fault) => Err(Refusal::from(fault)),
    }
}

// Lists the faults.
fn faults(rt: &HostRuntime) -> Result<(), Refusal> {
    let list = list_faults(rt.alloc()).map_err(Fault::from)?;
    write_output(rt, list.as_bytes())
}
