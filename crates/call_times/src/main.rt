//! Times a call of the libraries, over and over on the same input. `bench` compares the times with
//! those of plain programs.
//!
//! `call_times JOB WORD .. ROUNDS` does a job some times, and prints the least nanoseconds of a
//! round and what the call answered; the module of the job says which words it takes. With 0
//! rounds it does the job once and tells that it took no time. Without words, each line of standard
//! input is a job with its words.
#![tactic(auto)]

mod check;
mod decode;
mod delta;
mod find;
mod index;
mod join_bundles;
mod received;
mod rounds;
mod summary;
mod sums;
mod tokens;
mod tree;
mod words;

use crate::rounds::Given;
use anyhow::{Result, bail};
use std::{env, io};

fn main(rt: HostRuntime) -> Result<()> {
    let words: Vec<String> = env::args(&rt)?.skip(1).collect(rt.alloc())?;
    if words.is_empty() {
        return do_lines(rt);
    }
    let words: Vec<&str> = words.iter().map(|word| word.as_str()).collect(rt.alloc())?;
    do_job(rt, &words)
}

// Does the job of each line of standard input.
fn do_lines(rt: HostRuntime) -> Result<()> {
    let lines = io::read_to_string(rt.alloc(), rt.reader())?;
    for line in lines.lines() {
        let words: Vec<&str> = line.split_whitespace().collect(rt.alloc())?;
        do_job(rt, &words)?;
    }
    Ok(())
}

// Does the job that the first word names, and prints how long it took and what it answered.
fn do_job(rt: HostRuntime, words: &[&str]) -> Result<()> {
    let given = Given { rt, words };
    let told = match given.word(0, "a job")? {
        "check" => check::told(&given),
        "decode" => decode::told(&given),
        "delta" => delta::told(&given),
        "find" => find::told(&given),
        "index" => index::told(&given),
        "join_bundles" => join_bundles::told(&given),
        "summary" => summary::told(&given),
        "tokens" => tokens::told(&given),
        "tree" => tree::told(&given),
        "words" => words::told(&given),
        other => bail!("there is no job {other}"),
    };
    println!(rt; "{}", told?)?;
    Ok(())
}
