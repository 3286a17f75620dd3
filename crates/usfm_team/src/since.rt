// Since when: the project and the folder that a line names, and what was known by the word of
// `--since`.
use crate::days::DAYS;
use crate::files::{Folder, is_folder};
use crate::kept::{OLDER, OWN};
use crate::reading::{own_refusal, read_plain};
use crate::refusal::Refusal;
use crate::sealing::read_named_bundle;
use crate::setup::{not_set_up, read_setup};
use crate::sync::{open_folder, tell};
use crate::telling::say_of;
use bundle_codec::Summary;
use command_faults::{Expected, Fault};
use kept_days::{Since, days_from, days_of, folder_of, since_what};
use std::io::Write;

// So many days are named where none answers.
const MOST_NAMED: usize = 20;

// A project as a line names it: its file, and the word that the line has.
#[derive(Drop)]
pub(crate) struct Whose {
    pub(crate) project: String,
    word: String,
    is_folder: bool,
}

impl Whose {
    // The project that a word names: its file, or the folder of books that remembers it.
    pub(crate) fn named(rt: &HostRuntime, word: &str) -> Result<Whose, Refusal> {
        let is_folder = is_folder(rt, word);
        let project = if is_folder {
            remembered_project(rt, word)?
        } else {
            String::from_str(rt.alloc(), word).map_err(Fault::from)?
        };
        Ok(Whose {
            project,
            word: String::from_str(rt.alloc(), word).map_err(Fault::from)?,
            is_folder,
        })
    }
}

fn remembered_project(rt: &HostRuntime, name: &str) -> Result<String, Refusal> {
    let folder = open_folder(rt, name)?;
    match read_setup(rt, &folder)? {
        Some(known) => Ok(known.project(rt, name)?),
        None => Err(not_set_up(rt, &folder)),
    }
}

// What was known since when something is asked: the bytes that say so, and the file that has them.
#[derive(Drop)]
pub(crate) struct Known {
    pub(crate) name: String,
    pub(crate) bytes: Vec<u8>,
}

// What the word of `--since` says was known.
pub(crate) fn known_since(rt: &HostRuntime, whose: &Whose, word: &str) -> Result<Known, Refusal> {
    match since_what(word, is_folder(rt, word)) {
        Since::Day => known_by_day(rt, whose, word),
        Since::Folder => known_by_folder(rt, word),
        Since::File => Ok(Known {
            name: String::from_str(rt.alloc(), word).map_err(Fault::from)?,
            bytes: read_named_bundle(rt, word)?,
        }),
    }
}

// What the files of a folder were written from before the last time.
fn known_by_folder(rt: &HostRuntime, name: &str) -> Result<Known, Refusal> {
    let folder = open_folder(rt, name)?;
    let before = OLDER[0];
    let own = match folder.inside(rt, OWN) {
        Ok(Some(own)) => own,
        Ok(None) => return Err(unread(rt, &folder, before, Expected::Older)),
        Err(fault) => return Err(own_refusal(rt, &folder, fault)),
    };
    match read_plain(rt, &own, before, 2, true)? {
        Some(bytes) => Ok(Known {
            name: own.name_of(rt, before)?,
            bytes,
        }),
        None => Err(unread(rt, &folder, before, Expected::Older)),
    }
}

// The refusal of what the program does not keep of a folder.
fn unread(rt: &HostRuntime, folder: &Folder, name: &str, expected: Expected) -> Refusal {
    match format!(in rt.alloc(); "{OWN}/{name}") {
        Ok(path) => Refusal::unwritten(Fault::ReadFailed, folder.name_of(rt, &path), expected),
        Err(_) => Refusal::from(Fault::Memory),
    }
}

// What a project was before a day, by the first day that its folder keeps from that one on. What is
// damaged is passed over, and said.
fn known_by_day(rt: &HostRuntime, whose: &Whose, asked: &str) -> Result<Known, Refusal> {
    let folder = day_folder(rt, whose)?;
    let days = match days_folder(rt, &folder)? {
        Some(days) => days,
        None => return Err(no_day(rt, &folder, asked, &[])),
    };
    let names = days.names(rt, true)?;
    let kept = days_of(rt.alloc(), &names).map_err(Fault::from)?;
    match first_known(rt, &days, days_from(&kept, asked), asked)? {
        Some(known) => Ok(known),
        None => Err(no_day(rt, &folder, asked, &kept)),
    }
}

// What a folder keeps of the first of some days of which it is whole. Where that is another day than
// the one that is asked for, it is said.
fn first_known(
    rt: &HostRuntime,
    folder: &Folder,
    days: &[&str],
    asked: &str,
) -> Result<Option<Known>, Refusal> {
    for day in days {
        if let Some(known) = known_of(rt, folder, day)? {
            if !is_same(day, asked) {
                say_of(rt, "the first day from then on that is kept: ", day, "");
            }
            return Ok(Some(known));
        }
    }
    Ok(None)
}

fn is_same(one: &str, other: &str) -> bool {
    one == other
}

// The folder whose days are asked for: it remembers the project, or nothing.
fn day_folder(rt: &HostRuntime, whose: &Whose) -> Result<Folder, Refusal> {
    let Some(name) = folder_of(&whose.word, whose.is_folder) else {
        return Err(no_folder(rt, whose));
    };
    if !is_folder(rt, name) {
        return Err(no_folder(rt, whose));
    }
    let folder = open_folder(rt, name)?;
    match read_setup(rt, &folder)? {
        Some(known) if !known.is_of(rt, name, &whose.project)? => Err(no_folder(rt, whose)),
        _ => Ok(folder),
    }
}

fn no_folder(rt: &HostRuntime, whose: &Whose) -> Refusal {
    Refusal::expecting(rt, Fault::ReadFailed, &whose.word, Expected::DayFolder)
}

fn days_folder(rt: &HostRuntime, folder: &Folder) -> Result<Option<Folder>, Refusal> {
    let own = match folder.inside(rt, OWN) {
        Ok(Some(own)) => own,
        Ok(None) => return Ok(None),
        Err(fault) => return Err(own_refusal(rt, folder, fault)),
    };
    match own.inside(rt, DAYS) {
        Ok(days) => Ok(days),
        Err(fault) => {
            let name = own.name_of(rt, DAYS);
            Err(Refusal::unwritten(fault, name, Expected::OwnFolder))
        }
    }
}

// The summary of a day. None where there is no whole one: that is said.
fn known_of(rt: &HostRuntime, days: &Folder, day: &str) -> Result<Option<Known>, Refusal> {
    let name = days.name_of(rt, day)?;
    let bytes = match read_plain(rt, days, day, 1, true) {
        Ok(Some(bytes)) => bytes,
        Ok(None) => {
            if is_folder(rt, &days.way_to(rt, day)?) {
                say_of(rt, "skipped ", &name, ": it is a folder");
            }
            return Ok(None);
        }
        Err(refusal) if matches!(refusal.fault, Fault::Memory) => return Err(refusal),
        Err(_) => {
            say_of(rt, "skipped ", &name, ": it cannot be read");
            return Ok(None);
        }
    };
    match Summary::read(rt.alloc(), &bytes) {
        Ok(_) => Ok(Some(Known { name, bytes })),
        Err(fault) => match Fault::from(fault) {
            Fault::Memory => Err(Refusal::from(Fault::Memory)),
            _ => {
                say_of(rt, "skipped ", &name, ": it is damaged");
                Ok(None)
            }
        },
    }
}

// That a folder keeps no day from the one on that is asked for, with the days that it keeps.
fn no_day(rt: &HostRuntime, folder: &Folder, asked: &str, kept: &[&str]) -> Refusal {
    match day_lines(rt, kept) {
        Ok(lines) => match format!(in rt.alloc(); "{DAYS}/{asked}") {
            Ok(path) => unread(rt, folder, &path, Expected::Day).with_lines(Some(lines)),
            Err(_) => Refusal::from(Fault::Memory),
        },
        Err(fault) => Refusal::from(fault),
    }
}

// A line for each of the newest days, after how many there are before them.
fn day_lines(rt: &HostRuntime, kept: &[&str]) -> Result<Vec<u8>, Fault> {
    let mut lines = Vec::new(rt.alloc());
    let more = kept.len().saturating_sub(MOST_NAMED);
    if more > 0 {
        tell(writeln!(lines, ".. and {more} earlier"))?;
    }
    for day in kept.iter().skip(more) {
        tell(writeln!(lines, "day {day}"))?;
    }
    Ok(lines)
}
