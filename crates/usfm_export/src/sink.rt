// Where bytes go: a writer by the bytes that it took and the count of its failures.
ghost use Rattle.std.specs.Prelude.{◌≡◌, ◌≤◌, ℕ, List, Option, length, IfOk};
ghost use Rattle.std.specs.Io.KnownBytes.{WriteAppends};
ghost use Rattle.usfm_export.specs.Counts.{failures_after_write};

use crate::told::within;
use std::io;
use std::io::Write;

/// What bytes are written to.
///
/// Contracts speak of the bytes taken, where they are known, and of the count of its failures,
/// which stays at `u64::MAX`.
pub trait ByteSink {
    /// The bytes taken so far, where they are known.
    ghost taken: { Self → Option (List ℕ) };

    /// How often a write answered an error, of whatever kind, or took 0 bytes of a piece that was
    /// not empty.
    ghost failures: { Self → ℕ };

    /// Takes some bytes of the front of the piece, and answers how many.
    ///
    /// # Errors
    /// Whatever error the sink meets. It has then taken no byte.
    fn write(&mut self, piece: &[u8]) -> io::Result<usize>
        ensures fits { IfOk result (λ count. count ≤ length piece.now) }
        ensures bytes { WriteAppends (taken self.old) (taken self.new) result piece.now }
        ensures failed { failures self.new
            ≡ failures_after_write result (length piece.now) (failures self.old) };
}

/// A writer of std as a sink.
///
/// A writer that reports more bytes than it was given has failed: the sink answers an error and
/// counts it.
#[derive(Drop)]
pub struct StdSink<W> {
    writer: W,
    failures: u64,
}

impl<W: Write> StdSink<W> {
    /// The sink to the writer, which has not failed yet.
    pub fn new(writer: W) -> Self
        ensures taken { ⟦<StdSink<W> as ByteSink>⟧.taken result ≡ W.contents writer }
        ensures failures { ⟦<StdSink<W> as ByteSink>⟧.failures result ≡ 0 }
    {
        StdSink {
            writer,
            failures: 0,
        }
    }

    /// How often a write failed. The count stays at `u64::MAX`.
    pub fn failures(&self) -> u64
        ensures { result ≡ ⟦<StdSink<W> as ByteSink>⟧.failures self.now }
    {
        self.failures
    }

    /// The writer, with what it took.
    pub fn into_inner(self) -> W
        ensures { W.contents result ≡ ⟦<StdSink<W> as ByteSink>⟧.taken self }
    {
        let StdSink {
            writer,
            failures: _,
        } = self;
        writer
    }
}

impl<W: Write> ByteSink for StdSink<W> {
    ghost taken = { λ sink. W.contents sink.writer };

    ghost failures = { λ sink. sink.failures };

    fn write(&mut self, piece: &[u8]) -> io::Result<usize> {
        let answer = within(self.writer.write(piece), piece.len());
        let failed = match &answer {
            Ok(count) => *count == 0 && !piece.is_empty(),
            Err(_) => true,
        };
        if failed {
            self.failures = self.failures.saturating_add(1);
        }
        answer
    }
}
