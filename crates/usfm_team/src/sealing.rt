// Bundles that may be sealed: they are read without their seals, and written with them where that is
// asked.
use crate::files::read_file;
use crate::output::write_output;
use crate::refusal::{Given, Refusal, read_named};
use crate::typed::{GIVE_BUNDLES, say_at_terminal};
use bare_stream::{StreamFault, unseal_stream};
use byte_source::{StdSource, read_to_end};
use command_faults::{Expected, Fault};
use sealed_bundle::{seal, unseal};
use std::mem;
use usfm_cli::{Command, TurnFault, combine_bundles, combine_stream, exec};

// The bytes of a file that the line names for a bundle, without their seal, or the refusal of it.
pub(crate) fn read_named_bundle(rt: &HostRuntime, path: &str) -> Result<Vec<u8>, Refusal> {
    let bytes = read_named(rt, path, Expected::Bundle)?;
    unseal(bytes).map_err(|fault| Refusal::alone(rt, Fault::from(fault), path, Expected::Bundle))
}

// The same of several files, or the first that is not read or not whole.
pub(crate) fn read_bundles(rt: &HostRuntime, names: &[String]) -> Result<Vec<Vec<u8>>, TurnFault> {
    let mut bundles = Vec::new(rt.alloc());
    for name in names {
        match read_bundle(rt, name) {
            Ok(bytes) => bundles.push(bytes)?,
            Err(fault) => return Err(TurnFault::Turn(bundles.len(), fault)),
        }
    }
    Ok(bundles)
}

fn read_bundle(rt: &HostRuntime, name: &str) -> Result<Vec<u8>, Fault> {
    Ok(unseal(read_file(rt, name)?)?)
}

// The bundles of standard input, one after another, without the seals that some of them may have.
pub(crate) fn read_stream(rt: &HostRuntime) -> Result<Vec<u8>, Fault> {
    let mut source = StdSource::new(rt.reader());
    let stream = read_to_end(rt.alloc(), &mut source)?;
    unseal_stream(rt.alloc(), stream).map_err(|fault| match fault {
        StreamFault::Memory => Fault::Memory,
        StreamFault::Seal(fault) => Fault::from(fault),
    })
}

// Writes the bundle of all that a project has.
pub(crate) fn send(rt: &HostRuntime, project: &str, sealed: bool) -> Result<(), Refusal> {
    let bytes = read_named(rt, project, Expected::Project)?;
    write_bundle(
        rt,
        &Given::of(project, &bytes),
        &Command::Send,
        None,
        sealed,
    )
}

// Writes what another project lacks by its summary.
pub(crate) fn delta(
    rt: &HostRuntime,
    project: &str,
    summary: &str,
    sealed: bool,
) -> Result<(), Refusal> {
    let bytes = read_named(rt, project, Expected::Project)?;
    let given = read_named(rt, summary, Expected::Summary)?;
    let other = Some((summary, Expected::Summary));
    write_bundle(
        rt,
        &Given::of(project, &bytes),
        &Command::Delta(&given),
        other,
        sealed,
    )
}

// Writes the one bundle of the bundles that the line names, or of those of standard input.
pub(crate) fn combine(rt: &HostRuntime, names: &[String], sealed: bool) -> Result<(), Refusal> {
    let bundle = if names.is_empty() {
        say_at_terminal(rt, GIVE_BUNDLES);
        combine_stream(rt.alloc(), &read_stream(rt)?)?
    } else {
        match combine_named(rt, names) {
            Ok(bundle) => bundle,
            Err(fault) => return Err(Refusal::of_turn(rt, fault, "", names, Expected::Bundle)),
        }
    };
    write_sealed(rt, &bundle, sealed)
}

fn combine_named(rt: &HostRuntime, names: &[String]) -> Result<Vec<u8>, TurnFault> {
    combine_bundles(rt.alloc(), &read_bundles(rt, names)?)
}

// Writes a bundle, sealed where that is asked.
fn write_sealed(rt: &HostRuntime, bundle: &[u8], sealed: bool) -> Result<(), Refusal> {
    if sealed {
        let bundle = seal(rt.alloc(), bundle).map_err(Fault::from)?;
        return write_output(rt, &bundle);
    }
    write_output(rt, bundle)
}

// Writes the bundle that a command makes. What it made is not freed, since the program ends.
fn write_bundle(
    rt: &HostRuntime,
    project: &Given<'_>,
    command: &Command<'_>,
    other: Option<(&str, Expected)>,
    sealed: bool,
) -> Result<(), Refusal> {
    let outcome = match exec(rt.alloc(), project.bytes, command) {
        Ok(outcome) => outcome,
        Err(fault) => return Err(Refusal::of_inputs(rt, fault, project, other)),
    };
    let written = write_sealed(rt, outcome.output(), sealed);
    mem::forget(outcome);
    written
}
