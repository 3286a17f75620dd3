//! Makes a call of the libraries while one of its allocations fails, and then once more, with
//! memory.
//!
//! The first time it is refused as out of memory, with nothing written, and what it may change is
//! as it was; the second time it answers as the row says. Standard input is a line with a number
//! and a row's name: how many allocations are made before, so that the one that
//! `rt try --fail-alloc` makes fail lies in the row. The program prints whether the call was
//! refused. `tests/refused_growths/run` makes each allocation of each row fail.
#![tactic(auto)]

mod bundles;
mod bytes;
mod changes;
mod held;
mod play;
mod replicas;
mod texts;
mod told;
mod vectors;

use self::play::Said;
use std::alloc::Global;
use std::io::Read;
use std::process::ExitCode;

// The status where standard input is no such line.
const USAGE: u8 = 2;

fn main(rt: HostRuntime) -> ExitCode {
    let mut input = [0u8; 64];
    let Ok(length) = rt.reader().read(&mut input) else {
        return ExitCode::from(USAGE);
    };
    let Some((before, name)) = input.get(..length).and_then(read_line) else {
        return ExitCode::from(USAGE);
    };
    allocate(rt.alloc(), before);
    let Some(said) = said(rt.alloc(), name) else {
        return ExitCode::from(USAGE);
    };
    let _ = rt.print(said.line());
    ExitCode::SUCCESS
}

// How many allocations are made before, and the row's name.
fn read_line(input: &[u8]) -> Option<(u8, &str)> {
    let line = str::from_utf8(input).ok()?.strip_suffix('\n')?;
    let (before, name) = line.split_once(' ')?;
    Some((before.parse::<u8>().ok()?, name))
}

// Makes this many allocations.
fn allocate(alloc: Global, count: u8) {
    for _ in 0..count {
        let _ = Vec::<u8>::with_capacity(alloc, 1);
    }
}

// What comes of a row; None where there is no row of that name.
fn said(alloc: Global, name: &str) -> Option<Said> {
    if let Some(row) = texts::row_of(name) {
        Some(row.said(alloc))
    } else if let Some(row) = bundles::row_of(name) {
        Some(row.said(alloc))
    } else if let Some(row) = changes::row_of(name) {
        Some(row.said(alloc))
    } else if let Some(row) = replicas::row_of(name) {
        Some(row.said(alloc))
    } else {
        None
    }
}
