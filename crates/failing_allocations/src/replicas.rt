// Calls that read a replica or make one.
use crate::held::{Held, NOTHING_YET, push_book, push_id};
use crate::play::{Play, Said, said_of};
use crate::told::Told;
use crate::vectors::{
    AFTER, ALL_THREE, B1, BEGUN, CLASHING, CONFLICT, FIRST, FOURTH, NOTHING, S1, THREE_THINNED, V2,
    Y, Z,
};
use bundle_codec::{Summary, decode};
use command_faults::Fault;
use conflict_report::{ReportFault, report_text, write_report};
use op_core::ReplicaName;
use project_file::{create, load, save};
use replica_state::{Gathering, Replica};
use std::alloc::Global;
use usfm_cli::StdSink;
use usfm_export::book_text;
use usfm_ref::{Book, read_ref};

#[derive(Clone, Copy)]
enum Call {
    Gather(&'static [&'static [u8]]),
    Shown(&'static str),
    Awaited,
    Bundle,
    Summary,
    Delta(&'static [u8]),
    BookText,
    ReportText,
    WriteReport,
    Create,
    Save,
    Load,
}

/// A call on a replica that received bundles, and what it gives.
#[derive(Clone, Copy)]
pub(crate) struct Row {
    call: Call,
    received: [&'static [u8]; 3],
    wanted: [&'static [u8]; 2],
}

pub(crate) fn row_of(name: &str) -> Option<Row> {
    let (call, received, wanted): (Call, [&'static [u8]; 3], [&'static [u8]; 2]) = match name {
        "gather" => (Call::Gather(&[B1, Y, V2]), NOTHING_YET, [AFTER, b""]),
        "gather clash" => (
            Call::Gather(&[B1, CLASHING]),
            NOTHING_YET,
            [b"fault 51 2 ana\n", b""],
        ),
        "shown" => (Call::Shown("MAT 1:1"), [B1, Y, Z], [b"3 ana|3 ben|", b""]),
        "awaited" => (Call::Awaited, [Y, b"", b""], [b"2 ana|", b""]),
        "bundle" => (Call::Bundle, [B1, b"", b""], [B1, b""]),
        "summary" => (Call::Summary, [B1, Y, Z], [ALL_THREE, b""]),
        "delta" => (Call::Delta(S1), [B1, Z, FOURTH], [FOURTH, b""]),
        "delta thinned" => (Call::Delta(S1), [THREE_THINNED, b"", b""], [Y, b""]),
        "book_text" => (Call::BookText, [B1, b"", b""], [FIRST, b""]),
        "report_text" => (Call::ReportText, [B1, Y, Z], [CONFLICT, b""]),
        "write_report" => (Call::WriteReport, [B1, Y, Z], [CONFLICT, b""]),
        "create" => (Call::Create, NOTHING_YET, [BEGUN, NOTHING]),
        "save" => (Call::Save, [B1, b"", b""], [BEGUN, B1]),
        "load" => (Call::Load, [B1, b"", b""], [FIRST, b""]),
        "load thinned" => (Call::Load, [THREE_THINNED, b"", b""], [AFTER, b""]),
        _ => return None,
    };
    Some(Row {
        call,
        received,
        wanted,
    })
}

impl Row {
    pub(crate) fn said(&self, alloc: Global) -> Said {
        said_of(Read::begin(alloc, *self), &self.wanted)
    }
}

// A call with the replica that it is for.
#[derive(Drop)]
struct Read {
    alloc: Global,
    call: Call,
    held: Held,
}

impl Read {
    fn begin(alloc: Global, row: Row) -> Result<Read, Fault> {
        let held = Held::begin(alloc, &row.received, "")?;
        Ok(Read {
            alloc,
            call: row.call,
            held,
        })
    }
}

impl Play for Read {
    fn make(&mut self, told: &mut Told) -> Result<(), Fault> {
        let alloc = self.alloc;
        let call = self.call;
        let replica = &self.held.replica;
        match call {
            Call::Gather(bundles) => push_gathered(alloc, bundles, told)?,
            Call::Shown(at) => {
                let (book, key) = read_ref(at)?;
                for op in &replica.shown(alloc, book, key)? {
                    push_id(told, &op.id());
                }
            }
            Call::Awaited => {
                for id in &replica.awaited(alloc)? {
                    push_id(told, id);
                }
            }
            Call::Bundle => told.push(&replica.bundle(alloc)?),
            Call::Summary => told.push(&replica.summary(alloc)?.write(alloc)?),
            Call::Delta(summary) => {
                let summary = Summary::read(alloc, summary)?;
                told.push(&replica.delta(alloc, &summary)?);
            }
            Call::BookText => told.push(&book_text(alloc, replica, Book::read("MAT")?)?),
            Call::ReportText => told.push(&report_text(alloc, replica)?),
            Call::WriteReport => push_report(alloc, replica, told)?,
            Call::Create => told.push(&create(alloc, "ana")?),
            Call::Save => told.push(&save(alloc, replica)?),
            Call::Load => push_book(told, &load(alloc, &self.held.file)?)?,
        }
        Ok(())
    }

    fn is_as_before(&self) -> bool {
        self.held.is_as_before(self.alloc)
    }
}

fn push_gathered(alloc: Global, bundles: &[&[u8]], told: &mut Told) -> Result<(), Fault> {
    let mut gathered = Gathering::new(alloc);
    for bytes in bundles {
        let (bundle, _) = decode(alloc, *bytes)?;
        gathered = gathered.receive(&bundle)?;
    }
    let name = ReplicaName::read("fold")?;
    push_book(told, &gathered.of_book(name, Book::read("MAT")?)?)
}

fn push_report(alloc: Global, replica: &Replica, told: &mut Told) -> Result<(), Fault> {
    let mut room = [0u8; 128];
    let mut sink = StdSink::new(room.as_mut_slice());
    let answer = write_report(alloc, replica, &mut sink);
    let left = sink.into_inner().len();
    let gone = room.len().saturating_sub(left);
    told.push(room.get(..gone).unwrap_or_default());
    match answer {
        Ok(()) => Ok(()),
        Err(ReportFault::Memory) => Err(Fault::Memory),
        Err(ReportFault::WriteFailed { gone }) => Err(Fault::WriteFailed { gone }),
    }
}
