// The line that reports a fault.
ghost use Rattle.std.specs.Prelude.{◌≡◌, ◌<◌, ◌≤◌, ◌+◌, ◌++◌, ◌∷◌, [], length, codes};
ghost use Rattle.std.specs.List.{flat_map};
ghost use Rattle.std.specs.Fmt.{decimal};
ghost use Rattle.command_faults.specs.Lines as lines;

use crate::Fault;
use bundle_codec::BundleFault;
use op_core::{IdFault, OpId, ShortLine};
use usfm_ref::RefFault;

/// The line that reports a fault: `fault`, its number, its details, each after one space, and a
/// line feed. The details are an operation's id as its number and its name, the place of an
/// operation in its bundle or a line of a file, counted from 1, the bytes that were written, the
/// length of the longest front that is text, or how many segments a file or a bundle would change.
/// It does not allocate.
pub fn fault_line(fault: &Fault) -> ShortLine
    ensures { result ≡ lines.fault_text fault.now }
{
    let mut line = numbered(fault_number(fault));
    match fault {
        Fault::NotText { valid } => push_count(&mut line, *valid as u64),
        Fault::FieldBeforeMarker { line: at }
        | Fault::EmptyMarker { line: at }
        | Fault::BadStyleType { line: at }
        | Fault::BadVersification { line: at }
        | Fault::BadAnswers { line: at } => push_count(&mut line, *at as u64),
        Fault::Clash(id) => push_id(&mut line, id),
        Fault::NotShown(id) => push_id(&mut line, id),
        Fault::LeftOut(id) => push_id(&mut line, id),
        Fault::Bundle(fault) => push_place(&mut line, fault),
        Fault::WriteFailed { gone } => push_count(&mut line, *gone),
        Fault::Emptied { count } | Fault::Undone { count } | Fault::Unlike { count } => {
            push_count(&mut line, *count);
        }
        _ => {}
    }
    line.push_text("\n");
    line
}

// `fault`, a space and a number.
fn numbered(number: u64) -> ShortLine
    requires { number < 1000 }
    ensures text { result ≡ codes "fault " ++ decimal number }
    ensures len { length result ≡ 6 + length (decimal number) }
    ensures short { length result ≤ 9 }
{
    let mut line = ShortLine::new();
    line.push_text("fault ");
    line.push_number(number);
    line
}

// Appends a count as a detail.
fn push_count(line: &mut ShortLine, count: u64)
    requires { length line.old ≤ 9 }
    ensures text { line.new
        ≡ line.old ++ flat_map (λ detail. 32 ∷ detail) (decimal count ∷ []) }
    ensures short { length line.new ≤ 30 }
{
    line.push_text(" ");
    line.push_number(count);
}

// Appends an id as two details.
fn push_id(line: &mut ShortLine, id: &OpId)
    requires { length line.old ≤ 8 }
    ensures text { line.new
        ≡ line.old
        ++ flat_map (λ detail. 32 ∷ detail) (decimal id.now.number ∷ id.now.name ∷ []) }
    ensures short { length line.new ≤ 58 }
{
    line.push_text(" ");
    line.push_number(id.number);
    line.push_text(" ");
    line.push_text(id.name.text());
}

// Appends the place of an operation, where the fault has one.
fn push_place(line: &mut ShortLine, fault: &BundleFault)
    requires { length line.old ≤ 9 }
    ensures text { line.new
        ≡ line.old ++ flat_map (λ detail. 32 ∷ detail) (lines.bundle_details fault.now) }
    ensures short { length line.new ≤ 30 }
{
    match fault {
        BundleFault::Memory | BundleFault::Magic | BundleFault::Truncated => {}
        BundleFault::NotRising(at)
        | BundleFault::BadId(at)
        | BundleFault::BadKey(at)
        | BundleFault::BadReplaced(at)
        | BundleFault::BadTag(at)
        | BundleFault::NotUtf8(at)
        | BundleFault::BadText(at)
        | BundleFault::Unsupported(at) => push_count(line, *at),
    }
}

/// The number of a fault, below 1000.
pub fn fault_number(fault: &Fault) -> u64
    ensures number { result ≡ lines.fault_number fault.now }
    ensures short { result < 1000 }
{
    match fault {
        Fault::Memory => 1,
        Fault::NotText { valid: _ } => 10,
        Fault::Reference(RefFault::BadBook) => 20,
        Fault::Reference(RefFault::BadRef) => 21,
        Fault::NoId => 30,
        Fault::FieldBeforeMarker { line: _ } => 40,
        Fault::EmptyMarker { line: _ } => 41,
        Fault::BadStyleType { line: _ } => 42,
        Fault::BadVersification { line: _ } => 43,
        Fault::Naming(IdFault::BadName) => 50,
        Fault::Clash(_) => 51,
        Fault::Naming(IdFault::BadOpId) => 52,
        Fault::Bundle(fault) => bundle_number(fault),
        Fault::Trailing => 70,
        Fault::BadSummary => 71,
        Fault::BadSeal => 72,
        Fault::BadSegment => 80,
        Fault::NumbersUsedUp => 81,
        Fault::NoBook => 82,
        Fault::NotShown(_) => 83,
        Fault::LeftOut(_) => 84,
        Fault::BadAnswers { line: _ } => 85,
        Fault::WriteFailed { gone: _ } => 90,
        Fault::EmptyNeedle => 100,
        Fault::BadProject => 110,
        Fault::ReadFailed => 120,
        Fault::TooLong => 121,
        Fault::FileFailed => 130,
        Fault::FileChanged => 131,
        Fault::Emptied { count: _ } => 132,
        Fault::Undone { count: _ } => 133,
        Fault::Unlike { count: _ } => 134,
        Fault::SettledEarly => 135,
    }
}

fn bundle_number(fault: &BundleFault) -> u64
    ensures number { result ≡ lines.bundle_number fault.now }
    ensures short { result < 1000 }
{
    match fault {
        BundleFault::Memory => 1,
        BundleFault::Magic => 60,
        BundleFault::Truncated => 61,
        BundleFault::NotRising(_) => 62,
        BundleFault::BadId(_) => 63,
        BundleFault::BadKey(_) => 64,
        BundleFault::BadReplaced(_) => 65,
        BundleFault::BadTag(_) => 66,
        BundleFault::NotUtf8(_) => 67,
        BundleFault::BadText(_) => 68,
        BundleFault::Unsupported(_) => 69,
    }
}
