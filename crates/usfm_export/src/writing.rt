// Writes texts to a sink, piece by piece.
ghost use Rattle.std.specs.Prelude.{◌≡◌, ◌<◌, take, length, OnOk, IfOk, IfErr};
ghost use Rattle.std.specs.Io.KnownBytes.{Appends};
ghost use Rattle.usfm_export.specs.Counts.{failures_after};
ghost use Rattle.usfm_export.specs.Writing.{TakesAll, TakesFront};

use crate::ByteSink;
use thiserror::Error;

/// The writer failed after it had taken this many bytes.
#[derive(Clone, Copy, Debug, PartialEq, Eq, Error)]
#[error("the writer failed after {gone} bytes")]
pub struct WriteFault {
    /// The bytes that were written. The count stays at `u64::MAX`.
    pub gone: u64,
}

/// Writes all of the piece. It does not allocate.
///
/// # Errors
/// The bytes that were written where the sink answers an error, of whatever kind, or takes 0 bytes.
/// No write is tried again.
pub fn write_all<W: ByteSink>(sink: &mut W, piece: &[u8]) -> Result<(), WriteFault>
    ensures all { OnOk result (Appends (W.taken sink.old) (W.taken sink.new) piece.now) }
    ensures front { IfErr result (λ fault.
        Appends (W.taken sink.old) (W.taken sink.new) (take fault.gone piece.now)) }
    ensures not_all { IfErr result (λ fault. fault.gone < length piece.now) }
    ensures failed { W.failures sink.new ≡ failures_after result (W.failures sink.old) }
{
    let mut gone = 0;
    while gone < piece.len() {
        match sink.write(&piece[gone..]) {
            Err(_) => return Err(WriteFault { gone: gone as u64 }),
            Ok(0) => return Err(WriteFault { gone: gone as u64 }),
            Ok(count) => gone += count,
        }
    }
    Ok(())
}

/// Writes all of one more piece of a text of which `gone` bytes are written, and answers how many
/// are written with it. The count stays at `u64::MAX`. It does not allocate.
///
/// A loop over the pieces of a text, which starts with 0 and hands the answer on, so knows at each
/// error how much of the whole text went out.
///
/// # Errors
/// The bytes of the text that were written where the sink answers an error, of whatever kind, or
/// takes 0 bytes. No write is tried again.
pub fn write_more<W: ByteSink>(sink: &mut W, gone: u64, piece: &[u8]) -> Result<u64, WriteFault>
    ensures all { IfOk result (λ total.
        TakesAll (W.taken sink.old) (W.taken sink.new) piece.now gone total) }
    ensures front { IfErr result (λ fault.
        TakesFront (W.taken sink.old) (W.taken sink.new) piece.now gone fault.gone) }
    ensures failed { W.failures sink.new ≡ failures_after result (W.failures sink.old) }
{
    match write_all(sink, piece) {
        Ok(()) => Ok(gone.saturating_add(piece.len() as u64)),
        Err(fault) => Err(WriteFault {
            gone: gone.saturating_add(fault.gone),
        }),
    }
}
