// Reads a source to its end.
ghost use Rattle.std.specs.Prelude.{◌≡◌, ◌<◌, ◌^◌};
ghost use Rattle.byte_source.specs.Reading.{most_bytes, ReadsUpTo, failures_after_reading};
ghost use Rattle.byte_source.specs.declared.reading.ReadFault.TheVariants.{Memory};

use crate::ByteSource;
use std::alloc::{AllocError, Global};
use thiserror::Error;

/// The most bytes of an input, a file or a stream: this project's own limit.
pub const MOST_BYTES: usize = 268_435_456;

/// Why a source was not read to its end.
#[derive(Clone, Copy, Debug, PartialEq, Eq, Error)]
pub enum ReadFault {
    /// An allocation failed.
    #[error("out of memory")]
    Memory,
    /// The source answered an error, of whatever kind.
    #[error("the reader failed")]
    ReadFailed,
    /// The source has more than `MOST_BYTES` bytes.
    #[error("more than {most} bytes", most = MOST_BYTES)]
    TooLong,
}

impl From<AllocError> for ReadFault {
    ghost from_gives = { λ _ fault. fault ≡ Memory };

    fn from(_: AllocError) -> Self {
        ReadFault::Memory
    }
}

/// Reads all bytes that the source has still to give.
///
/// It reads at most once for each byte and once more, and never after the end or an error. What it
/// holds grows with the bytes that came.
///
/// # Errors
/// - `ReadFailed` at the first error of the source, of whatever kind. No read is tried again.
/// - `TooLong` at the first byte after `MOST_BYTES`.
/// - `Memory` where an allocation failed. For a source that gives no byte nothing is allocated.
pub fn read_to_end<R: ByteSource>(alloc: Global, source: &mut R) -> Result<Vec<u8>, ReadFault>
    ensures read { ReadsUpTo most_bytes (R.to_come source.old) (R.to_come source.new)
        (R.reads source.old) (R.reads source.new) result }
    ensures failed { R.failures source.new
        ≡ failures_after_reading result (R.failures source.old) }
{
    read_up_to(alloc, source, MOST_BYTES)
}

fn read_up_to<R: ByteSource>(
    alloc: Global,
    source: &mut R,
    limit: usize,
) -> Result<Vec<u8>, ReadFault>
    requires { limit < 2 ^ 63 }
    ensures read { ReadsUpTo limit (R.to_come source.old) (R.to_come source.new)
        (R.reads source.old) (R.reads source.new) result }
    ensures failed { R.failures source.new
        ≡ failures_after_reading result (R.failures source.old) }
{
    let mut bytes = Vec::new(alloc);
    let mut buffer = [0u8; 65536];
    loop {
        let room = (limit + 1 - bytes.len()).min(buffer.len());
        let piece = &mut buffer[..room];
        match source.read(piece) {
            Err(_) => return Err(ReadFault::ReadFailed),
            Ok(0) => return Ok(bytes),
            Ok(count) => {
                if count > limit - bytes.len() {
                    return Err(ReadFault::TooLong);
                }
                bytes.extend_from_slice(&piece[..count])?;
            }
        }
    }
}
