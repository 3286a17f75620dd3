// Calls on bundles and summaries.
use crate::play::{Play, Said, said_of};
use crate::told::Told;
use crate::vectors::{
    ALL_BUT_2_ANA, ALL_THREE, B1, CLASHING, COUNT_3, COUNT_4, FOURTH, JOINED, S1, THREE_THINNED,
    UNNAMED, V2, VERSE_THINNED, Y, Z, operations,
};
use bundle_codec::{Summary, decode, decode_whole, encode, encode_outside, join_bundles};
use command_faults::Fault;
use op_core::{OpId, OpSet, ReplicaName, SetFault};
use std::alloc::Global;

#[derive(Clone, Copy)]
enum Call {
    Decode(&'static [u8]),
    DecodeWhole(&'static [u8]),
    ToSet(&'static [u8]),
    Join(&'static [u8], &'static [u8]),
    Encode,
    ReadSummary,
    WriteSummary,
    SummaryOf,
    SummaryOfBundle,
    EncodeOutside,
    ThinAfter,
}

/// A call, the bundles of its set and the bytes of its summary, and what it gives.
#[derive(Clone, Copy)]
pub(crate) struct Row {
    call: Call,
    held: [&'static [u8]; 3],
    summary: &'static [u8],
    wanted: [&'static [u8]; 4],
}

// Nothing is held.
const NO_SET: [&[u8]; 3] = [b"", b"", b""];

pub(crate) fn row_of(name: &str) -> Option<Row> {
    match on_bundles(name) {
        Some(row) => Some(row),
        None => on_set(name),
    }
}

fn on_bundles(name: &str) -> Option<Row> {
    let (call, wanted): (Call, [&'static [u8]; 4]) = match name {
        "decode" => (Call::Decode(V2), [b"2 104 ", b"", b"", b""]),
        "decode unnamed" => (Call::Decode(UNNAMED), [b"fault 69 1\n", b"", b"", b""]),
        "decode_whole" => (Call::DecodeWhole(V2), [b"2 ", b"", b"", b""]),
        "to_set" => (Call::ToSet(V2), [b"2 3 ", b"", b"", b""]),
        "join_bundles" => (
            Call::Join(B1, Y),
            [COUNT_3, operations(B1), operations(Y), b""],
        ),
        "join_bundles back" => (
            Call::Join(Y, B1),
            [COUNT_3, operations(B1), operations(Y), b""],
        ),
        "join_bundles thinned" => (Call::Join(B1, V2), [JOINED, b"", b"", b""]),
        "join_bundles thinned back" => (Call::Join(V2, B1), [JOINED, b"", b"", b""]),
        "join_bundles clash" => (
            Call::Join(B1, CLASHING),
            [b"fault 51 2 ana\n", b"", b"", b""],
        ),
        "summary read" => (Call::ReadSummary, [b"1 2 3 5 ", b"", b"", b""]),
        "summary write" => (Call::WriteSummary, [S1, b"", b"", b""]),
        _ => return None,
    };
    Some(Row {
        call,
        held: NO_SET,
        summary: S1,
        wanted,
    })
}

fn on_set(name: &str) -> Option<Row> {
    let (call, held, wanted): (Call, [&'static [u8]; 3], [&'static [u8]; 4]) = match name {
        "encode" => (
            Call::Encode,
            [B1, Y, Z],
            [COUNT_4, operations(B1), operations(Z), operations(Y)],
        ),
        "encode thinned" => (
            Call::Encode,
            [THREE_THINNED, b"", b""],
            [THREE_THINNED, b"", b"", b""],
        ),
        "summary of" => (Call::SummaryOf, [B1, Y, Z], [ALL_THREE, b"", b"", b""]),
        "summary of bundle" => (
            Call::SummaryOfBundle,
            [B1, Y, Z],
            [ALL_THREE, b"", b"", b""],
        ),
        "thin_after" => (
            Call::ThinAfter,
            [B1, Y, Z],
            [THREE_THINNED, b"1 ", b"", b""],
        ),
        "encode_outside" => (
            Call::EncodeOutside,
            [B1, Z, FOURTH],
            [FOURTH, b"", b"", b""],
        ),
        "encode_outside thinned" => (
            Call::EncodeOutside,
            [THREE_THINNED, b"", b""],
            [VERSE_THINNED, b"", b"", b""],
        ),
        _ => return None,
    };
    let summary = match name {
        "encode_outside thinned" => ALL_BUT_2_ANA,
        _ => S1,
    };
    Some(Row {
        call,
        held,
        summary,
        wanted,
    })
}

impl Row {
    pub(crate) fn said(&self, alloc: Global) -> Said {
        said_of(OnBytes::begin(alloc, *self), &self.wanted)
    }
}

// A call with the set, the bundle of it and the summary that it is for.
#[derive(Drop)]
struct OnBytes {
    alloc: Global,
    row: Row,
    set: OpSet,
    bundle: Vec<u8>,
    summary: Option<Summary>,
}

impl OnBytes {
    fn begin(alloc: Global, row: Row) -> Result<OnBytes, Fault> {
        let mut set = OpSet::new(alloc);
        for bytes in row.held {
            if bytes.is_empty() {
                continue;
            }
            let (bundle, _) = decode(alloc, bytes)?;
            set.join(bundle.to_set(alloc)?).map_err(fault_of)?;
        }
        let bundle = match row.call {
            Call::SummaryOfBundle | Call::ThinAfter => encode(alloc, &set)?,
            _ => Vec::new(alloc),
        };
        let summary = match row.call {
            Call::WriteSummary | Call::EncodeOutside => Some(Summary::read(alloc, row.summary)?),
            _ => None,
        };
        Ok(OnBytes {
            alloc,
            row,
            set,
            bundle,
            summary,
        })
    }

    fn summary_of_bundle(&self) -> Result<Vec<u8>, Fault> {
        let bundle = decode_whole(self.alloc, &self.bundle)?;
        Ok(Summary::of_bundle(self.alloc, &bundle)?.write(self.alloc)?)
    }

    fn thin_after(&self, told: &mut Told) -> Result<(), Fault> {
        let bundle = decode_whole(self.alloc, &self.bundle)?;
        let (bytes, left_out) = bundle.thin_after(self.alloc, Vec::new(self.alloc))?;
        told.push(&bytes);
        told.push_number(left_out);
        Ok(())
    }
}

impl Play for OnBytes {
    fn make(&mut self, told: &mut Told) -> Result<(), Fault> {
        let alloc = self.alloc;
        match (self.row.call, &self.summary) {
            (Call::Decode(bytes), _) => {
                let (bundle, length) = decode(alloc, bytes)?;
                told.push_number(bundle.len());
                told.push_number(length as u64);
            }
            (Call::DecodeWhole(bytes), _) => told.push_number(decode_whole(alloc, bytes)?.len()),
            (Call::ToSet(bytes), _) => {
                let (bundle, _) = decode(alloc, bytes)?;
                let set = bundle.to_set(alloc)?;
                for op in set.iter() {
                    told.push_number(op.id().number);
                }
            }
            (Call::Join(one, other), _) => told.push(&join_bundles(alloc, one, other)?),
            (Call::Encode, _) => told.push(&encode(alloc, &self.set)?),
            (Call::ReadSummary, _) => push_covered(told, &Summary::read(alloc, self.row.summary)?),
            (Call::SummaryOf, _) => told.push(&Summary::of(alloc, &self.set)?.write(alloc)?),
            (Call::SummaryOfBundle, _) => told.push(&self.summary_of_bundle()?),
            (Call::ThinAfter, _) => self.thin_after(told)?,
            (Call::WriteSummary, Some(summary)) => told.push(&summary.write(alloc)?),
            (Call::EncodeOutside, Some(summary)) => {
                told.push(&encode_outside(alloc, &self.set, summary)?);
            }
            _ => {}
        }
        Ok(())
    }

    fn is_as_before(&self) -> bool {
        true
    }
}

fn fault_of(fault: SetFault) -> Fault {
    match fault {
        SetFault::Memory => Fault::Memory,
        SetFault::Clash(id) => Fault::Clash(id),
    }
}

// The numbers of ana's ids that a summary covers.
fn push_covered(told: &mut Told, summary: &Summary) {
    let Ok(name) = ReplicaName::read("ana") else {
        return;
    };
    for number in 1..8u64 {
        if let Some(id) = OpId::new(number, name) {
            if summary.covers(&id) {
                told.push_number(number);
            }
        }
    }
}
