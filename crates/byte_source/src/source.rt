// Where bytes come from: a reader by the bytes that it has left and the counts of its reads and
// failures.
ghost use Rattle.std.specs.Prelude.{◌≡◌, ◌≤◌, ℕ, List, Option, length, IfOk};
ghost use Rattle.std.specs.Io.KnownBytes.{ReadConsumes};
ghost use Rattle.usfm_export.specs.Counts.{one_more, failures_after};

use std::io;
use std::io::Read;
use usfm_export::within;

/// What bytes are read from.
///
/// Contracts speak of the bytes to come, where they are known, and of the counts of its reads and
/// of its failures. Both counts stay at `u64::MAX`.
pub trait ByteSource {
    /// The bytes still to come, where they are known.
    ghost to_come: { Self → Option (List ℕ) };

    /// How often the source was read.
    ghost reads: { Self → ℕ };

    /// How often a read answered an error, of whatever kind.
    ghost failures: { Self → ℕ };

    /// Reads some of the bytes to come to the front of the buffer, and answers how many.
    ///
    /// 0 bytes into a buffer that is not empty are the end.
    ///
    /// # Errors
    /// Whatever error the source meets. It has then given no byte.
    fn read(&mut self, buffer: &mut [u8]) -> io::Result<usize>
        ensures fits { IfOk result (λ count. count ≤ length buffer.new) }
        ensures bytes { ReadConsumes (to_come self.old) (to_come self.new) result buffer.new }
        ensures counted { reads self.new ≡ one_more (reads self.old) }
        ensures failed { failures self.new ≡ failures_after result (failures self.old) };
}

/// A reader of std as a source.
///
/// A reader that reports more bytes than the buffer holds has failed: the source answers an error
/// and counts it.
#[derive(Drop)]
pub struct StdSource<R> {
    reader: R,
    reads: u64,
    failures: u64,
}

impl<R: Read> StdSource<R> {
    /// The source of what the reader has left, not yet read.
    pub fn new(reader: R) -> Self
        ensures to_come { ⟦<StdSource<R> as ByteSource>⟧.to_come result ≡ R.remaining reader }
        ensures reads { ⟦<StdSource<R> as ByteSource>⟧.reads result ≡ 0 }
        ensures failures { ⟦<StdSource<R> as ByteSource>⟧.failures result ≡ 0 }
    {
        StdSource {
            reader,
            reads: 0,
            failures: 0,
        }
    }

    /// How often the source was read. The count stays at `u64::MAX`.
    pub fn reads(&self) -> u64
        ensures { result ≡ ⟦<StdSource<R> as ByteSource>⟧.reads self.now }
    {
        self.reads
    }

    /// How often a read answered an error. The count stays at `u64::MAX`.
    pub fn failures(&self) -> u64
        ensures { result ≡ ⟦<StdSource<R> as ByteSource>⟧.failures self.now }
    {
        self.failures
    }

    /// The reader, with what it has left.
    pub fn into_inner(self) -> R
        ensures { R.remaining result ≡ ⟦<StdSource<R> as ByteSource>⟧.to_come self }
    {
        let StdSource {
            reader,
            reads: _,
            failures: _,
        } = self;
        reader
    }
}

impl<R: Read> ByteSource for StdSource<R> {
    ghost to_come = { λ source. R.remaining source.reader };

    ghost reads = { λ source. source.reads };

    ghost failures = { λ source. source.failures };

    fn read(&mut self, buffer: &mut [u8]) -> io::Result<usize> {
        self.reads = self.reads.saturating_add(1);
        let answer = within(self.reader.read(buffer), buffer.len());
        if answer.is_err() {
            self.failures = self.failures.saturating_add(1);
        }
        answer
    }
}
