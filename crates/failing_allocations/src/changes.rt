// Calls that change a replica, which is as it was where they are refused.
use crate::held::{Held, NOTHING_YET, push_book, push_id};
use crate::play::{Play, Said, said_of};
use crate::told::Told;
use crate::vectors::{AFTER, B1, CLASHING, FIRST, TWO_VERSES, V2, Y, Z};
use bundle_codec::decode;
use command_faults::Fault;
use op_core::OpId;
use std::alloc::Global;
use usfm_ref::read_ref;

#[derive(Clone, Copy)]
enum Call {
    Receive(&'static [u8]),
    Edit(&'static str, &'static str),
    EditOver(&'static str, &'static str, &'static str),
    Import(&'static str),
    ImportSince(&'static [u8], &'static str),
    Thin,
}

/// A call on a replica that received bundles, or that imported a book, and what it gives.
#[derive(Clone, Copy)]
pub(crate) struct Row {
    call: Call,
    received: [&'static [u8]; 3],
    imported: &'static str,
    wanted: [&'static [u8]; 2],
}

const AS: &str = "\\v 1 As\n";

// The book of B1, and the same with another verse.
const IN: &str = "\\id MAT\n\\c 1\n\\v 1 In\n";

const ADDED: &str = "\\id MAT\n\\c 1\n\\v 1 In\n\\v 2 b\n";

pub(crate) fn row_of(name: &str) -> Option<Row> {
    received(name)
        .or(edited(name))
        .or(edited_over(name))
        .or(imported(name))
        .or(imported_since(name))
}

fn received(name: &str) -> Option<Row> {
    let (call, received, wanted): (Call, [&'static [u8]; 3], [&'static [u8]; 2]) = match name {
        "receive" => (Call::Receive(Z), [B1, Y, b""], [b"1 ", AFTER]),
        "receive first" => (Call::Receive(B1), NOTHING_YET, [b"2 ", FIRST]),
        "receive late" => (Call::Receive(B1), [Y, b"", b""], [b"2 ", AFTER]),
        "receive thinned" => (Call::Receive(V2), [B1, b"", b""], [b"1 ", AFTER]),
        "receive thinned first" => (
            Call::Receive(V2),
            NOTHING_YET,
            [b"2 ", b"\\c 1\n\\v 1 At\n"],
        ),
        "receive full" => (Call::Receive(B1), [V2, b"", b""], [b"1 ", AFTER]),
        "receive clash" => (
            Call::Receive(CLASHING),
            [B1, b"", b""],
            [b"fault 51 2 ana\n", b""],
        ),
        "receive held" => (Call::Receive(B1), [B1, b"", b""], [b"0 ", FIRST]),
        "thin" => (Call::Thin, [B1, Y, Z], [b"1 ", AFTER]),
        _ => return None,
    };
    Some(Row {
        call,
        received,
        imported: "",
        wanted,
    })
}

fn edited(name: &str) -> Option<Row> {
    let (call, received, imported, wanted): (Call, _, &str, [&'static [u8]; 2]) = match name {
        "edit" => (
            Call::Edit("MAT 1:1", AS),
            [B1, Y, Z],
            "",
            [b"4 ana|", b"\\id MAT\n\\c 1\n\\v 1 As\n"],
        ),
        "edit imported" => (
            Call::Edit("MAT 1:3", "\\v 3 z\n"),
            NOTHING_YET,
            TWO_VERSES,
            [b"5 ana|", b"\\id MAT\n\\c 1\n\\v 3 z\n\\v 4 y\n"],
        ),
        "edit elsewhere" => (
            Call::Edit("MAT 1:1", "\\v 2 b"),
            [B1, b"", b""],
            "",
            [b"fault 80\n", b""],
        ),
        _ => return None,
    };
    Some(Row {
        call,
        received,
        imported,
        wanted,
    })
}

fn edited_over(name: &str) -> Option<Row> {
    let (over, wanted): (&str, [&'static [u8]; 2]) = match name {
        "edit_over" => ("3:ana", [b"4 ana|", b"\\id MAT\n\\c 1\n\\v 1 As\n"]),
        "edit_over not shown" => ("2:ana", [b"fault 83 2 ana\n", b""]),
        _ => return None,
    };
    Some(Row {
        call: Call::EditOver("MAT 1:1", AS, over),
        received: [B1, Y, Z],
        imported: "",
        wanted,
    })
}

fn imported(name: &str) -> Option<Row> {
    let (call, received, wanted): (Call, [&'static [u8]; 3], [&'static [u8]; 2]) = match name {
        "import" => (
            Call::Import(TWO_VERSES),
            NOTHING_YET,
            [b"4 ", TWO_VERSES.as_bytes()],
        ),
        "import less" => (
            Call::Import("\\id MAT\n"),
            [B1, b"", b""],
            [b"2 ", b"\\id MAT\n"],
        ),
        "import same" => (Call::Import(IN), [B1, b"", b""], [b"0 ", FIRST]),
        "import nothing" => (Call::Import("\\c 1"), [B1, b"", b""], [b"fault 30\n", b""]),
        _ => return None,
    };
    Some(Row {
        call,
        received,
        imported: "",
        wanted,
    })
}

fn imported_since(name: &str) -> Option<Row> {
    let (call, received, wanted): (Call, [&'static [u8]; 3], [&'static [u8]; 2]) = match name {
        "import_since" => (
            Call::ImportSince(B1, ADDED),
            [B1, Y, b""],
            [b"1 ", b"\\id MAT\n\\c 1\n\\v 1 At\n\\v 2 b\n"],
        ),
        "import_since first" => (
            Call::ImportSince(B1, ADDED),
            NOTHING_YET,
            [b"1 ", ADDED.as_bytes()],
        ),
        "import_since same" => (Call::ImportSince(B1, IN), [B1, Y, b""], [b"0 ", AFTER]),
        "import_since clash" => (
            Call::ImportSince(CLASHING, ADDED),
            [B1, b"", b""],
            [b"fault 51 2 ana\n", b""],
        ),
        "import_since nothing" => (
            Call::ImportSince(B1, "\\c 1"),
            NOTHING_YET,
            [b"fault 30\n", b""],
        ),
        _ => return None,
    };
    Some(Row {
        call,
        received,
        imported: "",
        wanted,
    })
}

impl Row {
    pub(crate) fn said(&self, alloc: Global) -> Said {
        said_of(Changed::begin(alloc, *self), &self.wanted)
    }
}

// A call with the replica that it is for.
#[derive(Drop)]
struct Changed {
    alloc: Global,
    call: Call,
    held: Held,
}

impl Changed {
    fn begin(alloc: Global, row: Row) -> Result<Changed, Fault> {
        let held = Held::begin(alloc, &row.received, row.imported)?;
        Ok(Changed {
            alloc,
            call: row.call,
            held,
        })
    }

    fn edit(&mut self, at: &str, text: &str, over: Option<&str>) -> Result<OpId, Fault> {
        let (book, key) = read_ref(at)?;
        let replica = &mut self.held.replica;
        Ok(match over {
            None => replica.edit(book, key, text)?,
            Some(id) => replica.edit_over(book, key, text, &[OpId::read(id)?])?,
        })
    }
}

impl Play for Changed {
    fn make(&mut self, told: &mut Told) -> Result<(), Fault> {
        match self.call {
            Call::Receive(bytes) => {
                let (bundle, _) = decode(self.alloc, bytes)?;
                told.push_number(self.held.replica.receive(&bundle)?);
            }
            Call::Edit(at, text) => push_id(told, &self.edit(at, text, None)?),
            Call::EditOver(at, text, over) => push_id(told, &self.edit(at, text, Some(over))?),
            Call::Import(file) => told.push_number(self.held.replica.import(file)?),
            Call::ImportSince(base, file) => {
                let (base, _) = decode(self.alloc, base)?;
                told.push_number(self.held.replica.import_since(&base, file)?);
            }
            Call::Thin => told.push_number(self.held.replica.thin()),
        }
        push_book(told, &self.held.replica)
    }

    fn is_as_before(&self) -> bool {
        self.held.is_as_before(self.alloc)
    }
}
