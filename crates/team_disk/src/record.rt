// A record of calls that only clauses read. It takes no memory, and its methods do nothing when the
// program runs.
ghost use Rattle.std.specs.Prelude.{◌≡◌, List, [], ◌∷◌};
ghost use base.Fml.{ftrue};
ghost use Rattle.team_disk.specs.Disk.{at};
ghost use Rattle.team_disk.specs.Replay.{
  Event,
  Read,
  Write,
  Rename,
  Link,
  Remove,
  Sync,
  fault_of,
  found,
};
ghost use Rattle.team_disk.specs.Stored.{events_code};

use crate::{DiskFault, Folder};
use std::marker::Model;

/// What was asked of a disk.
#[derive(Clone, Copy, Drop)]
pub enum Call<'a> {
    /// The bytes of a file, which were these, or none where there was no file.
    Read(Folder, &'a str, Option<&'a [u8]>),
    /// A file of these bytes.
    Write(Folder, &'a str, &'a [u8]),
    /// Another name for a file, in the place of what has it.
    Rename(Folder, &'a str, Folder, &'a str),
    /// One more name for a file.
    Link(Folder, &'a str, Folder, &'a str),
    /// That a name is taken away.
    Remove(Folder, &'a str),
    /// That the names of a folder are on the disk.
    Sync(Folder),
}

/// A call and how it ended: without a fault, or with this one.
#[derive(Clone, Copy, Drop)]
pub struct Note<'a> {
    /// What was asked.
    pub call: Call<'a>,
    /// What it answered, where it is not done.
    pub fault: Option<DiskFault>,
}

/// The calls that were made of a disk, with their answers, the newest first.
#[derive(Drop)]
pub struct Record {
    pub ghost events: { List Event } by { events_code },
}

impl Model for Record {
    ghost also_owns = { λ _. ftrue };
}

impl Record {
    ghost use Rattle.team_disk.specs.Noted.{event_of};

    /// A record of no call.
    pub fn new() -> Record
        ensures { result.events ≡ [] }
    {
        Record {}
    }

    /// The same record with one call more. Whoever notes a call has made it, and has this answer:
    /// no proof can see to that.
    #[inline(always)]
    pub fn then(&self, _note: &Note<'_>) -> Record
        ensures { result.events ≡ event_of _note.now ∷ self.now.events }
    {
        Record {}
    }

    /// Notes that a file was read, with what came of it.
    pub fn note_read(
        &mut self,
        folder: Folder,
        name: &str,
        answer: &Result<Option<Vec<u8>>, DiskFault>,
    )
        ensures { self.new.events ≡ (
          Read (at folder name.now) (found answer.now),
          fault_of
              answer.now,
        ) ∷ self.old.events }
    {
        let file = match answer {
            Ok(Some(bytes)) => Some(bytes.as_slice()),
            _ => None,
        };
        *self = self.then(&Note {
            call: Call::Read(folder, name, file),
            fault: fault_in(answer),
        });
    }

    /// Notes that a file was written.
    pub fn note_write(
        &mut self,
        folder: Folder,
        name: &str,
        bytes: &[u8],
        answer: &Result<(), DiskFault>,
    )
        ensures { self.new.events ≡ (Write (at folder name.now) bytes.now, fault_of answer.now)
            ∷ self.old.events }
    {
        *self = self.then(&Note {
            call: Call::Write(folder, name, bytes),
            fault: fault_in(answer),
        });
    }

    /// Notes that a file got another name.
    pub fn note_rename(
        &mut self,
        from_folder: Folder,
        from: &str,
        to_folder: Folder,
        to: &str,
        answer: &Result<(), DiskFault>,
    )
        ensures { self.new.events ≡ (
          Rename (at from_folder from.now) (at to_folder to.now),
          fault_of
              answer.now,
        ) ∷ self.old.events }
    {
        *self = self.then(&Note {
            call: Call::Rename(from_folder, from, to_folder, to),
            fault: fault_in(answer),
        });
    }

    /// Notes that a file got one more name.
    pub fn note_link(
        &mut self,
        from_folder: Folder,
        from: &str,
        to_folder: Folder,
        to: &str,
        answer: &Result<(), DiskFault>,
    )
        ensures { self.new.events ≡ (
          Link (at from_folder from.now) (at to_folder to.now),
          fault_of
              answer.now,
        ) ∷ self.old.events }
    {
        *self = self.then(&Note {
            call: Call::Link(from_folder, from, to_folder, to),
            fault: fault_in(answer),
        });
    }

    /// Notes that a name was taken away.
    pub fn note_remove(&mut self, folder: Folder, name: &str, answer: &Result<(), DiskFault>)
        ensures { self.new.events ≡ (Remove (at folder name.now), fault_of answer.now)
            ∷ self.old.events }
    {
        *self = self.then(&Note {
            call: Call::Remove(folder, name),
            fault: fault_in(answer),
        });
    }

    /// Notes that a folder was synced.
    pub fn note_sync(&mut self, folder: Folder, answer: &Result<(), DiskFault>)
        ensures { self.new.events ≡ (Sync folder, fault_of answer.now) ∷ self.old.events }
    {
        *self = self.then(&Note {
            call: Call::Sync(folder),
            fault: fault_in(answer),
        });
    }
}

// The fault that a call answered, if it did.
fn fault_in<T>(answer: &Result<T, DiskFault>) -> Option<DiskFault>
    ensures { result ≡ fault_of answer.now }
{
    match answer {
        Ok(_) => None,
        Err(fault) => Some(*fault),
    }
}
