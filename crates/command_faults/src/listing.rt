// All faults with their sentences, as the program lists them.
ghost use Rattle.command_faults.specs.Listing.{AreAllFaults};

use crate::explanation::general_sentences;
use crate::fault::Fault;
use crate::fault_lines::fault_number;
use bundle_codec::BundleFault;
use op_core::{IdFault, OpId, ReplicaName};
use std::alloc::{AllocError, Global};
use std::fmt::Write;
use usfm_ref::RefFault;

// How many faults there are.
const FAULTS: usize = 42;

/// A list of the faults in the order of their numbers: for each a line with `fault`, its number
/// and words for its details, and its sentences in lines that begin with two spaces.
///
/// That each fault is listed, and once, is proved (`all_faults`); what the list says of it, tests
/// show.
///
/// # Errors
/// An allocation failed.
pub fn list_faults(alloc: Global) -> Result<String, AllocError> {
    let mut list = String::new(alloc);
    if let Some(id) = any_id() {
        for fault in &all_faults(id) {
            push_fault(&mut list, fault)?;
        }
    }
    Ok(list)
}

// An id, which a fault of an id has.
fn any_id() -> Option<OpId> {
    match ReplicaName::read("ana") {
        Ok(name) => OpId::new(1, name),
        Err(_) => None,
    }
}

// Each fault once, in the order of their numbers. Their details are of no meaning.
fn all_faults(id: OpId) -> [Fault; FAULTS]
    ensures { AreAllFaults result }
{
    [
        Fault::Memory,
        Fault::NotText { valid: 0 },
        Fault::Reference(RefFault::BadBook),
        Fault::Reference(RefFault::BadRef),
        Fault::NoId,
        Fault::FieldBeforeMarker { line: 1 },
        Fault::EmptyMarker { line: 1 },
        Fault::BadStyleType { line: 1 },
        Fault::BadVersification { line: 1 },
        Fault::Naming(IdFault::BadName),
        Fault::Clash(id),
        Fault::Naming(IdFault::BadOpId),
        Fault::Bundle(BundleFault::Magic),
        Fault::Bundle(BundleFault::Truncated),
        Fault::Bundle(BundleFault::NotRising(1)),
        Fault::Bundle(BundleFault::BadId(1)),
        Fault::Bundle(BundleFault::BadKey(1)),
        Fault::Bundle(BundleFault::BadReplaced(1)),
        Fault::Bundle(BundleFault::BadTag(1)),
        Fault::Bundle(BundleFault::NotUtf8(1)),
        Fault::Bundle(BundleFault::BadText(1)),
        Fault::Bundle(BundleFault::Unsupported(0)),
        Fault::Trailing,
        Fault::BadSummary,
        Fault::BadSeal,
        Fault::BadSegment,
        Fault::NumbersUsedUp,
        Fault::NoBook,
        Fault::NotShown(id),
        Fault::LeftOut(id),
        Fault::BadAnswers { line: 1 },
        Fault::WriteFailed { gone: 0 },
        Fault::EmptyNeedle,
        Fault::BadProject,
        Fault::ReadFailed,
        Fault::TooLong,
        Fault::FileFailed,
        Fault::FileChanged,
        Fault::Emptied { count: 1 },
        Fault::Undone { count: 1 },
        Fault::Unlike { count: 1 },
        Fault::SettledEarly,
    ]
}

fn push_fault(list: &mut String, fault: &Fault) -> Result<(), AllocError> {
    let number = fault_number(fault);
    let details = detail_words(fault);
    writeln!(list, "fault {number}{details}")?;
    for line in general_sentences(fault).lines() {
        writeln!(list, "  {line}")?;
    }
    Ok(())
}

// What the details of a fault are, each after one space.
fn detail_words(fault: &Fault) -> &'static str {
    match fault {
        Fault::NotText { valid: _ } | Fault::WriteFailed { gone: _ } => " BYTES",
        Fault::FieldBeforeMarker { line: _ }
        | Fault::EmptyMarker { line: _ }
        | Fault::BadStyleType { line: _ }
        | Fault::BadVersification { line: _ }
        | Fault::BadAnswers { line: _ } => " LINE",
        Fault::Clash(_) | Fault::NotShown(_) | Fault::LeftOut(_) => " NUMBER NAME",
        Fault::Bundle(BundleFault::Memory | BundleFault::Magic | BundleFault::Truncated) => "",
        Fault::Bundle(_) => " PLACE",
        Fault::Emptied { count: _ } | Fault::Undone { count: _ } | Fault::Unlike { count: _ } =>
            " COUNT",
        _ => "",
    }
}
