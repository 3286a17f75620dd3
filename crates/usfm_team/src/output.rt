// Standard output, and texts as a terminal gets them.
use crate::refusal::Refusal;
use crate::telling::plain_lines;
use command_faults::Fault;
use std::io::{ErrorKind, IsTerminal, Write};
use std::{io, str};
use usfm_cli::{StdSink, write_more};

// Standard output, and how many bytes it took.
#[derive(Drop)]
pub(crate) struct Output<'a> {
    rt: &'a HostRuntime,
    gone: u64,
}

impl Output<'_> {
    pub(crate) fn of(rt: &HostRuntime) -> Output<'_> {
        Output { rt, gone: 0 }
    }

    // Writes bytes after those before them. It does not allocate, and has no buffer, so nothing is
    // left to flush.
    pub(crate) fn write(&mut self, bytes: &[u8]) -> Result<(), Refusal> {
        let watched = Watched {
            to: io::writer(self.rt),
            is_closed: false,
        };
        let mut sink = StdSink::new(watched);
        match write_more(&mut sink, self.gone, bytes) {
            Ok(gone) => {
                self.gone = gone;
                Ok(())
            }
            Err(fault) if sink.into_inner().is_closed => Err(Refusal::unread(Fault::from(fault))),
            Err(fault) => Err(Refusal::from(Fault::from(fault))),
        }
    }
}

// A writer, and whether a write to it said that nobody reads it any more.
#[derive(Drop)]
struct Watched<W> {
    to: W,
    is_closed: bool,
}

impl<W: Write> Write for Watched<W> {
    fn write(&mut self, buf: &[u8]) -> io::Result<usize> {
        let written = self.to.write(buf);
        if let Err(error) = &written {
            self.is_closed = error.kind() == ErrorKind::BrokenPipe;
        }
        written
    }

    fn flush(&mut self) -> io::Result<()> {
        self.to.flush()
    }
}

// Writes to standard output; to a terminal without the control characters of others' texts.
pub(crate) fn write_output(rt: &HostRuntime, bytes: &[u8]) -> Result<(), Refusal> {
    if rt.stdout().is_terminal() {
        if let Ok(text) = str::from_utf8(bytes) {
            let plain = plain_lines(rt, text).map_err(Fault::from)?;
            return write_as_it_is(rt, plain.as_bytes());
        }
    }
    write_as_it_is(rt, bytes)
}

// Writes to standard output what has no control characters but those that set something off at a
// terminal. It does not allocate.
pub(crate) fn write_as_it_is(rt: &HostRuntime, bytes: &[u8]) -> Result<(), Refusal> {
    Output::of(rt).write(bytes)
}
