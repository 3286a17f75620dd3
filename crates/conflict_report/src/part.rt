// The parts that a report is written in.
ghost use Rattle.std.specs.Prelude.{◌≡◌, ◌++◌, ◌∷◌, [], OnOk, IfOk, IfErr, string_bytes};
ghost use Rattle.usfm_ref.specs.Segments.{segment};
ghost use Rattle.op_core.specs.Ops.{own_text};
ghost use Rattle.usfm_export.specs.Counts.{failures_after};
ghost use Rattle.usfm_export.specs.Writing.{TakesAll, TakesFront};
ghost use Rattle.conflict_report.specs.Loops.Parts.{part_bytes, bytes_of};
ghost use Rattle.conflict_report.specs.Reports as reports;
ghost use Rattle.std.specs.Io.KnownBytes.{Appends};

use op_core::{Op, OpId};
use std::alloc::{AllocError, Global};
use usfm_export::{ByteSink, WriteFault, write_more};
use usfm_ref::{Book, Key, write_ref};

// A part of a report: a line that was made for it, or a text that is lent from the replica, with a
// line feed after it.
#[derive(Drop)]
pub(crate) enum Part<'a> {
    Line(String),
    Text(&'a Op),
}

// The line of a segment that shows this many distinct texts.
pub(crate) fn conflict_line(
    alloc: Global,
    book: Book,
    key: Key,
    count: usize,
) -> Result<String, AllocError>
    ensures { IfOk result (λ line.
        string_bytes line ≡ reports.conflict_line (segment book key) count) }
{
    let reference = write_ref(alloc, book, key)?;
    format!(in alloc; "conflict {reference} {count}\n")
}

// The line before a text: the number and the name of its id, and its length.
pub(crate) fn text_line(alloc: Global, op: &Op) -> Result<String, AllocError>
    ensures { IfOk result (λ line. string_bytes line ≡ reports.text_line op.now) }
{
    let id = op.id();
    let number = id.number;
    let name = id.name.text();
    let bytes = op.text_or_empty().len();
    format!(in alloc; "text {number} {name} {bytes}\n")
}

// The line of an id that is awaited.
pub(crate) fn awaited_line(alloc: Global, id: OpId) -> Result<String, AllocError>
    ensures { IfOk result (λ line. string_bytes line ≡ reports.awaited_line id) }
{
    let number = id.number;
    let name = id.name.text();
    format!(in alloc; "awaited {number} {name}\n")
}

// Writes parts one after another. It does not allocate.
pub(crate) fn write_parts<W: ByteSink>(sink: &mut W, parts: &[Part<'_>]) -> Result<(), WriteFault>
    ensures all { OnOk result (Appends (W.taken sink.old) (W.taken sink.new) (bytes_of parts.now)) }
    ensures front { IfErr result (λ fault.
        TakesFront (W.taken sink.old) (W.taken sink.new) (bytes_of parts.now) 0 fault.gone) }
    ensures failed { W.failures sink.new ≡ failures_after result (W.failures sink.old) }
{
    let mut gone = 0;
    for part in parts {
        gone = write_part(sink, gone, part)?;
    }
    Ok(())
}

// Writes a part of a report of which `gone` bytes are written, and answers how many are then.
fn write_part<W: ByteSink>(sink: &mut W, gone: u64, part: &Part<'_>) -> Result<u64, WriteFault>
    ensures all { IfOk result (λ total.
        TakesAll (W.taken sink.old) (W.taken sink.new) (part_bytes part.now) gone total) }
    ensures front { IfErr result (λ fault.
        TakesFront (W.taken sink.old) (W.taken sink.new) (part_bytes part.now) gone fault.gone) }
    ensures failed { W.failures sink.new ≡ failures_after result (W.failures sink.old) }
{
    match part {
        Part::Line(line) => write_more(sink, gone, line.as_bytes()),
        Part::Text(op) => write_text(sink, gone, op),
    }
}

fn write_text<W: ByteSink>(sink: &mut W, gone: u64, op: &Op) -> Result<u64, WriteFault>
    ensures all { IfOk result (λ total.
        TakesAll (W.taken sink.old) (W.taken sink.new) (own_text op.now ++ 10 ∷ []) gone total) }
    ensures front { IfErr result (λ fault.
        TakesFront (W.taken sink.old) (W.taken sink.new) (own_text op.now ++ 10 ∷ [])
        gone fault.gone) }
    ensures failed { W.failures sink.new ≡ failures_after result (W.failures sink.old) }
{
    let with_text = write_more(sink, gone, op.text_or_empty().as_bytes())?;
    write_more(sink, with_text, b"\n")
}
