// The conflict report of a replica.
ghost use Rattle.std.specs.Prelude.{◌≡◌, Err, IfOk};
ghost use Rattle.conflict_report.specs.Answers.{AnswersReport, sink_failures};
ghost use Rattle.conflict_report.specs.Reports.{report};

use crate::ReportFault;
use crate::gather::parts_of;
use crate::part::write_parts;
use replica_state::Replica;
use std::alloc::{AllocError, Global};
use usfm_export::{ByteSink, StdSink};

/// The conflict report of a replica. For each segment that shows two or more distinct texts, in the
/// order of books and keys: the line `conflict REF n`, n how many they are; then for each, in
/// descending order of their greatest shown ids, the line `text NUMBER NAME LENGTH`, the text, and
/// a line feed. Then the line `awaited NUMBER NAME` for each id that a held operation names and
/// none has, in ascending order.
///
/// # Errors
/// Out of memory alone.
pub fn report_text(alloc: Global, replica: &Replica) -> Result<Vec<u8>, AllocError>
    ensures { IfOk result (λ text. text.items ≡ report replica.now.held) }
{
    let mut sink = StdSink::new(Vec::new(alloc));
    match write_report(alloc, replica, &mut sink) {
        Ok(()) => Ok(sink.into_inner()),
        Err(_) => Err(AllocError),
    }
}

/// Writes the conflict report of a replica to a sink, the bytes of `report_text`. All lists are
/// made before the first byte is written; the texts are lent from the replica.
///
/// # Errors
/// - `Memory` (1) where an allocation failed. Nothing was written.
/// - `WriteFailed` (90) where the sink answers an error, of whatever kind, or takes 0 bytes, with
///   the bytes that were written: they are the front of the report of that length. No write is
///   tried again.
pub fn write_report<W: ByteSink>(
    alloc: Global,
    replica: &Replica,
    sink: &mut W,
) -> Result<(), ReportFault>
    ensures answers { AnswersReport replica.now.held (W.taken sink.old) (W.taken sink.new) result }
    ensures untouched { result ≡ Err ReportFault.Memory → sink.new ≡ sink.old }
    ensures failed { W.failures sink.new ≡ sink_failures result (W.failures sink.old) }
{
    let parts = parts_of(alloc, replica)?;
    write_parts(sink, &parts)?;
    Ok(())
}
