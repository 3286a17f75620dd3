// Readers and writers of std that count their calls: a source and a sink make one call of them for
// each of their own, none after the end, and none after an error, of whatever kind.
use byte_source::{ByteSource, ReadFault, StdSource, read_to_end};
use std::alloc::Global;
use std::io;
use std::io::{ErrorKind, Read, Write};
use std::test::Fail;
use usfm_cli::{StdSink, WriteFault, write_all};

/// A reader and writer of std that counts its calls, moves at most `step` bytes a call, and fails
/// at the call `fail_at`, counted from 1, alone.
#[derive(Drop)]
pub struct Counted<'a> {
    rest: &'a [u8],
    pub taken: Vec<u8>,
    step: usize,
    fail_at: u64,
    kind: ErrorKind,
    pub calls: u64,
    // The reads that answered the end.
    pub ends: u64,
}

impl<'a> Counted<'a> {
    pub fn new(alloc: Global, bytes: &'a [u8], step: usize) -> Self {
        Self::failing(alloc, bytes, step, 0, ErrorKind::Other)
    }

    pub fn failing(
        alloc: Global,
        bytes: &'a [u8],
        step: usize,
        fail_at: u64,
        kind: ErrorKind,
    ) -> Self {
        Counted {
            rest: bytes,
            taken: Vec::new(alloc),
            step,
            fail_at,
            kind,
            calls: 0,
            ends: 0,
        }
    }

    // Counts a call, and answers whether it fails.
    fn fails(&mut self) -> bool {
        self.calls = self.calls.saturating_add(1);
        self.calls == self.fail_at
    }
}

impl Read for Counted<'_> {
    fn read(&mut self, buffer: &mut [u8]) -> io::Result<usize> {
        if self.fails() {
            return Err(io::Error::from(self.kind));
        }
        let count = self.step.min(buffer.len()).min(self.rest.len());
        if count == 0 {
            self.ends = self.ends.saturating_add(1);
        }
        buffer[..count].copy_from_slice(&self.rest[..count]);
        self.rest = &self.rest[count..];
        Ok(count)
    }
}

impl Write for Counted<'_> {
    fn write(&mut self, piece: &[u8]) -> io::Result<usize> {
        if self.fails() {
            return Err(io::Error::from(self.kind));
        }
        let count = self.step.min(piece.len());
        match self.taken.extend_from_slice(&piece[..count]) {
            Ok(()) => Ok(count),
            Err(_) => Err(io::Error::from(ErrorKind::OutOfMemory)),
        }
    }

    fn flush(&mut self) -> io::Result<()> {
        Ok(())
    }
}

const TEXT: [u8; 8] = *b"abcdefgh";

// 10,000 bytes that are not all alike.
fn many_bytes(alloc: Global) -> Result<Vec<u8>, Fail> {
    let mut bytes = Vec::new(alloc);
    for _ in 0..1_250u16 {
        bytes.extend_from_slice(&TEXT)?;
    }
    Ok(bytes)
}

const KINDS: [ErrorKind; 3] = [
    ErrorKind::Other,
    ErrorKind::Interrupted,
    ErrorKind::WouldBlock,
];

// What came of reading to the end, the counts of the source, and those of the reader below it: its
// calls and its answers that are the end.
fn read_from(
    alloc: Global,
    reader: Counted<'_>,
) -> (Result<Vec<u8>, ReadFault>, (u64, u64), (u64, u64)) {
    let mut source = StdSource::new(reader);
    let answer = read_to_end(alloc, &mut source);
    let counts = (source.reads(), source.failures());
    let reader = source.into_inner();
    (answer, counts, (reader.calls, reader.ends))
}

// Each call of a source is one of its reader. None comes after the end, and none after an error, of
// whatever kind.
#[test]
fn readers_of_std(rt: HostRuntime) -> Result<(), Fail> {
    let alloc = rt.alloc();
    let bytes = many_bytes(alloc)?;
    let (answer, counts, calls) = read_from(alloc, Counted::new(alloc, &bytes, 3_000));
    assert!(rt; answer?.as_slice() == bytes.as_slice());
    assert!(rt; counts == (5, 0) && calls == (5, 1));
    for kind in KINDS {
        for at in 1..6u64 {
            let reader = Counted::failing(alloc, &bytes, 3_000, at, kind);
            let (answer, counts, calls) = read_from(alloc, reader);
            assert!(rt;
                answer.err() == Some(ReadFault::ReadFailed),
                "{kind:?} at {at}"
            );
            assert!(rt; counts == (at, 1) && calls == (at, 0), "{kind:?} at {at}");
        }
    }
    Ok(())
}

#[test]
fn forms_of_readers(rt: HostRuntime) -> Result<(), Fail> {
    let alloc = rt.alloc();
    let bytes = many_bytes(alloc)?;
    assert_eq!(rt; bytes.len(), 10_000);
    let mut source = StdSource::new(Counted::new(alloc, &bytes, 100_000));
    let mut buffer = [0; 9_000];
    assert_eq!(rt; source.read(&mut buffer)?, 9_000);
    assert!(rt; buffer.as_slice() == bytes.split_at(9_000).0);
    assert_eq!(rt; source.into_inner().calls, 1);
    let mut source = StdSource::new(TEXT.as_slice());
    assert!(rt; read_to_end(alloc, &mut source)?.as_slice() == TEXT.as_slice());
    assert!(rt; (source.reads(), source.failures()) == (2, 0));
    assert!(rt; source.into_inner().is_empty());
    Ok(())
}

// What came of writing all, the failures of the sink, and the writer below it.
fn write_to<'a>(writer: Counted<'a>, bytes: &[u8]) -> (Result<(), WriteFault>, u64, Counted<'a>) {
    let mut sink = StdSink::new(writer);
    let answer = write_all(&mut sink, bytes);
    let failures = sink.failures();
    (answer, failures, sink.into_inner())
}

// Each call of a sink is one of its writer, and none comes after an error, of whatever kind.
#[test]
fn writers_of_std(rt: HostRuntime) -> Result<(), Fail> {
    let alloc = rt.alloc();
    let bytes = many_bytes(alloc)?;
    assert_eq!(rt; bytes.len(), 10_000);
    for (step, calls) in [(3_000, 4), (100_000, 1)] {
        let (answer, failures, writer) = write_to(Counted::new(alloc, b"", step), &bytes);
        assert!(rt;
            answer.is_ok() && failures == 0 && writer.calls == calls,
            "by {step}"
        );
        assert!(rt; writer.taken.as_slice() == bytes.as_slice(), "by {step}");
    }
    for kind in KINDS {
        for (at, gone) in [(1, 0), (2, 3_000), (3, 6_000), (4, 9_000)] {
            let writer = Counted::failing(alloc, b"", 3_000, at, kind);
            let (answer, failures, writer) = write_to(writer, &bytes);
            let fault = WriteFault { gone: gone as u64 };
            assert!(rt; answer == Err(fault) && failures == 1, "{kind:?} at {at}");
            assert!(rt; writer.calls == at, "{kind:?} at {at}");
            assert!(rt;
                writer.taken.as_slice() == bytes.split_at(gone).0,
                "{kind:?} at {at}"
            );
        }
    }
    Ok(())
}

#[test]
fn forms_of_writers(rt: HostRuntime) -> Result<(), Fail> {
    let mut sink = StdSink::new(Vec::new(rt.alloc()));
    write_all(&mut sink, &TEXT)?;
    assert_eq!(rt; sink.failures(), 0);
    assert!(rt; sink.into_inner().as_slice() == TEXT.as_slice());
    let mut room = [0; 2];
    let mut full = StdSink::new(room.as_mut_slice());
    assert!(rt; write_all(&mut full, b"abc") == Err(WriteFault { gone: 2 }));
    assert_eq!(rt; full.failures(), 1);
    Ok(())
}
