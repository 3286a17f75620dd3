// The days of a folder of books: on each day on which a sync changes the project, what it was before
// is kept as a summary. It is for `--since` alone; nothing else reads it.
use crate::files::{Folder, link_fault, make_private, remove_if_there, sync_file, write_made};
use crate::rights::keep_least_rights;
use crate::steps::{Disk, rename};
use crate::telling::say_of;
use book_folder::MADE_END;
use command_faults::Fault;
use jiff::Timestamp;
use jiff::civil::Date;
use jiff::tz::{SystemTimeZone, TimeZone, TimeZoneDatabase};
use kept_days::{days_of, days_to_go};
use std::fs;
use usfm_cli::{Command, exec};

// The folder in the program's own one that has the summaries, each under the name of its day.
pub(crate) const DAYS: &str = "days";

// Under this name, with another end, a summary is written before it gets that of its day.
const DAY: &str = "day";

// What is said where no summary is kept.
const NOT_KEPT: &str = " does not keep this day: `--since` cannot go back to it";

// Keeps the summary of a project as it is before a sync changes it, unless one of this day is kept.
// Where that fails, it is said, and keeps nobody from a sync.
pub(crate) fn keep_day(disk: Disk<'_>, own: &Folder) {
    if kept(disk, own).is_err() {
        if let Ok(days) = own.name_of(disk.rt, DAYS) {
            say_of(disk.rt, "", &days, NOT_KEPT);
        }
    }
}

fn kept(disk: Disk<'_>, own: &Folder) -> Result<(), Fault> {
    let rt = disk.rt;
    let today = today(rt)?;
    let days = days_folder(rt, own)?;
    let names = names_in(rt, &days)?;
    if names.iter().any(|name| name.as_str() == today.as_str()) {
        return Ok(());
    }
    put_day(disk, own, &days, &today)?;
    let names = names_in(rt, &days)?;
    let kept = days_of(rt.alloc(), &names)?;
    for day in days_to_go(&kept) {
        remove_if_there(rt, &days.way_to(rt, day)?)?;
    }
    Ok(())
}

fn names_in(rt: &HostRuntime, days: &Folder) -> Result<Vec<String>, Fault> {
    days.names(rt, false).map_err(|refusal| refusal.fault)
}

// The folder of the days, which is made where it is not there, and on the disk then.
fn days_folder(rt: &HostRuntime, own: &Folder) -> Result<Folder, Fault> {
    if let Some(days) = own.inside(rt, DAYS)? {
        return Ok(days);
    }
    fs::create_dir(rt, own.way_to(rt, DAYS)?.as_str()).map_err(link_fault)?;
    own.sync()?;
    match own.inside(rt, DAYS)? {
        Some(days) => Ok(days),
        None => Err(Fault::FileFailed),
    }
}

// Writes the summary of a day under another name, and gives it its own once it is on the disk.
fn put_day(disk: Disk<'_>, own: &Folder, days: &Folder, today: &str) -> Result<(), Fault> {
    let rt = disk.rt;
    let made_name = format!(in rt.alloc(); "{DAY}{MADE_END}")?;
    let (made, path) = (own.way_to(rt, &made_name)?, days.way_to(rt, today)?);
    let put = match write_day(disk, &made) {
        Ok(()) => rename(rt, &made, &path),
        Err(fault) => Err(fault),
    };
    if put.is_err() {
        let _ = remove_if_there(rt, &made);
    }
    put?;
    days.sync()
}

// Nobody may read it who may not read each book's file.
fn write_day(disk: Disk<'_>, path: &str) -> Result<(), Fault> {
    let outcome = exec(disk.rt.alloc(), disk.before, &Command::Summary)?;
    let made = make_private(disk.rt, path)?;
    write_made(&made, outcome.output())?;
    keep_least_rights(disk.rt, &disk.read.book_looks, &made)?;
    sync_file(&made)
}

// The name of this day, where the computer is: by its clock and its time zone, and where that is not
// known, by UTC.
fn today(rt: &HostRuntime) -> Result<String, Fault> {
    let now = Timestamp::now(rt).map_err(|_| Fault::ReadFailed)?;
    let date = day_at(rt, now);
    Ok(format!(in rt.alloc(); "{date}")?)
}

fn day_at(rt: &HostRuntime, now: Timestamp) -> Date {
    let none = TimeZoneDatabase::new(rt.alloc());
    if let Ok(system) = SystemTimeZone::read(rt) {
        if let Ok(zone) = system.time_zone(&none) {
            return zone.to_datetime(now).date();
        }
        if let Ok(all) = TimeZoneDatabase::from_env(rt) {
            if let Ok(zone) = system.time_zone(&all) {
                return zone.to_datetime(now).date();
            }
        }
    }
    TimeZone::UTC.to_datetime(now).date()
}
