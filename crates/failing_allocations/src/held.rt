// A replica that calls are made on, and what they make of it.
use crate::told::Told;
use bundle_codec::decode;
use command_faults::Fault;
use op_core::{OpId, Picked, ReplicaName};
use project_file::save;
use replica_state::Replica;
use std::alloc::Global;
use usfm_ref::{Book, Key, Place};

/// The bundles of a replica that received nothing.
pub(crate) const NOTHING_YET: [&[u8]; 3] = [b"", b"", b""];

/// A replica, and its file as it was before the call.
#[derive(Drop)]
pub(crate) struct Held {
    pub(crate) replica: Replica,
    pub(crate) file: Vec<u8>,
}

impl Held {
    /// The replica ana, which received these bundles and then imported this book. Empty ones are
    /// passed over.
    pub(crate) fn begin(alloc: Global, received: &[&[u8]], imported: &str) -> Result<Held, Fault> {
        let mut replica = Replica::new(alloc, ReplicaName::read("ana")?);
        for bytes in received {
            if bytes.is_empty() {
                continue;
            }
            let (bundle, _) = decode(alloc, *bytes)?;
            replica.receive(&bundle)?;
        }
        if !imported.is_empty() {
            replica.import(imported)?;
        }
        let file = save(alloc, &replica)?;
        Ok(Held { replica, file })
    }

    pub(crate) fn is_as_before(&self, alloc: Global) -> bool {
        match save(alloc, &self.replica) {
            Ok(file) => file == self.file,
            Err(_) => false,
        }
    }
}

pub(crate) fn push_id(told: &mut Told, id: &OpId) {
    told.push_number(id.number);
    told.push_text(id.name.text());
    told.push_text("|");
}

/// The text of MAT, without an allocation.
pub(crate) fn push_book(told: &mut Told, replica: &Replica) -> Result<(), Fault> {
    let book = Book::read("MAT")?;
    let mut chapter = 0;
    for key in replica.keys(book) {
        if key.chapter != chapter && key.place != Place::Head {
            push_line(told, replica, book, key.chapter);
        }
        chapter = key.chapter;
        push_picked(told, replica.pick(book, key));
    }
    Ok(())
}

// The line of a chapter whose head has no operation.
fn push_line(told: &mut Told, replica: &Replica, book: Book, chapter: u16) {
    if let Some(head) = Key::new(chapter, Place::Head) {
        push_picked(told, replica.pick(book, head));
    }
}

fn push_picked(told: &mut Told, picked: Picked<'_>) {
    match picked {
        Picked::Nothing => {}
        Picked::Held(op) => told.push_text(op.text_or_empty()),
        Picked::ChapterLine(1) => told.push_text("\\c 1\n"),
        Picked::ChapterLine(_) => told.push_text("the line of another chapter"),
    }
}
