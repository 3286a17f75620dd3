// What the program keeps in its own folder beside books' files: the bases, and what a sync that was cut
// short has left.
use crate::files::{Folder, are_one};
use crate::reading::read_plain;
use crate::refusal::Refusal;
use book_folder::{KeptName, Named, Unsettled, book_begun, kept_name, read_names};
use command_faults::{Expected, Fault};
use std::alloc::AllocError;
use usfm_ref::Book;

// The folder in a folder of books that belongs to the program, and what is in it.
pub(crate) const OWN: &str = ".usfm_team";

pub(crate) const BASE: &str = "base";

pub(crate) const NEXT: &str = "next";

// What stood as the base before a sync put its first one: it is there until the project has what
// came in. It is empty where none stood.
pub(crate) const BEFORE: &str = "before";

pub(crate) const NAMES: &str = "names";
// The bases before the base, the newest first.
pub(crate) const OLDER: [&str; 3] = ["base.1", "base.2", "base.3"];

// What the program keeps in its own folder.
#[derive(Drop)]
pub(crate) struct Kept {
    pub(crate) bases: Vec<Vec<u8>>,
    pub(crate) base_names: Vec<String>,
    pub(crate) next: Option<Vec<u8>>,
    pub(crate) before: Option<Vec<u8>>,
    // Whether the base is the one from before a sync that was cut short before the project had what
    // came in: it is as if that had not begun.
    pub(crate) goes_back: bool,
    pub(crate) older: Vec<Vec<u8>>,
    pub(crate) older_names: Vec<&'static str>,
    pub(crate) unplaced: Vec<Book>,
    pub(crate) names: Vec<Named>,
    // What an older version of the program kept, and what was half written.
    pub(crate) outdated: Vec<String>,
}

impl Kept {
    // The base, but not one of an older version.
    pub(crate) fn base(&self) -> Option<&[u8]> {
        match (self.base_names.first(), self.bases.first()) {
            (Some(name), Some(bytes)) if name.as_str() == BASE => Some(bytes),
            _ => None,
        }
    }

    // What stands as the base, or does once one went back.
    pub(crate) fn stood(&self) -> Option<&[u8]> {
        match (self.base_names.first(), self.bases.first()) {
            (Some(name), Some(bytes)) if name.as_str() == BASE || name.as_str() == BEFORE => {
                Some(bytes)
            }
            _ => None,
        }
    }

    // Goes back to what stood before a sync that was cut short, if it was before the project had
    // what came in.
    pub(crate) fn go_back(&mut self, rt: &HostRuntime) -> Result<bool, AllocError> {
        let Some(before) = self.before.take() else {
            return Ok(false);
        };
        self.bases.clear();
        self.base_names.clear();
        if !before.is_empty() {
            self.bases.push(before)?;
            self.base_names.push(String::from_str(rt.alloc(), BEFORE)?)?;
        }
        self.next = None;
        self.goes_back = true;
        Ok(true)
    }

    // The name of one of the bases before the base: where a next one stands, the base comes first.
    pub(crate) fn earlier_name(&self, at: usize) -> Option<&str> {
        let before = if self.next.is_some() {
            self.base_names.len()
        } else {
            0
        };
        match at.checked_sub(before) {
            None => self.base_names.get(at).map(|name| name.as_str()),
            Some(at) => self.older_names.get(at).copied(),
        }
    }

    // What a file of the folder was to be, of which a text is not to be lost.
    pub(crate) fn expected(&self, name: &str, bytes: &[u8]) -> Expected {
        let Some(book) = book_begun(bytes) else {
            return Expected::NoBook;
        };
        let is_renamed = self
            .names
            .iter()
            .any(|named| named.name.as_str() == name && named.book != book);
        if is_renamed {
            Expected::Renamed
        } else if self.bases.is_empty() {
            Expected::Unbased
        } else {
            Expected::BookFile
        }
    }

    // What stands there when the base is to be settled.
    pub(crate) fn unsettled(&self) -> Unsettled<'_> {
        Unsettled {
            base: self.base(),
            bases: &self.bases,
            older: &self.older,
            next: self.next.as_deref(),
            unplaced: &self.unplaced,
        }
    }
}

pub(crate) fn no_kept(rt: &HostRuntime) -> Kept {
    Kept {
        bases: Vec::new(rt.alloc()),
        base_names: Vec::new(rt.alloc()),
        next: None,
        before: None,
        goes_back: false,
        older: Vec::new(rt.alloc()),
        older_names: Vec::new(rt.alloc()),
        unplaced: Vec::new(rt.alloc()),
        names: Vec::new(rt.alloc()),
        outdated: Vec::new(rt.alloc()),
    }
}

// Reads what the program keeps in its folder. Where there is no base, the bundles of an older
// version's books are the bases.
pub(crate) fn read_kept(rt: &HostRuntime, own: &Folder, is_said: bool) -> Result<Kept, Refusal> {
    let mut kept = no_kept(rt);
    let mut old_bases = Vec::new(rt.alloc());
    for name in own.names(rt, false)? {
        match kept_name(&name) {
            KeptName::New(book) => kept.unplaced.push(book).map_err(Fault::from)?,
            KeptName::OldBase => old_bases.push(name).map_err(Fault::from)?,
            KeptName::HalfWritten => kept.outdated.push(name).map_err(Fault::from)?,
            KeptName::Other => {}
        }
    }
    read_base(rt, own, &mut kept, is_said)?;
    kept.next = read_plain(rt, own, NEXT, 1, is_said)?;
    kept.before = read_plain(rt, own, BEFORE, 2, is_said)?;
    if kept.bases.is_empty() {
        // A sync was cut short between its two renamings.
        kept.go_back(rt).map_err(Fault::from)?;
    }
    if kept.before.is_some() {
        let name = String::from_str(rt.alloc(), BEFORE).map_err(Fault::from)?;
        kept.outdated.push(name).map_err(Fault::from)?;
    }
    let is_based = !kept.bases.is_empty();
    for name in old_bases {
        if !is_based {
            if let Some(bytes) = read_plain(rt, own, &name, 1, is_said)? {
                kept.bases.push(bytes).map_err(Fault::from)?;
                let name = name.clone().map_err(Fault::from)?;
                kept.base_names.push(name).map_err(Fault::from)?;
            }
        }
        kept.outdated.push(name).map_err(Fault::from)?;
    }
    if let Some(bytes) = read_plain(rt, own, NAMES, 1, is_said)? {
        kept.names = read_names(rt.alloc(), &bytes).map_err(Fault::from)?;
    }
    Ok(kept)
}

// Reads the base and those before it. The base is the first of these too, where a command was cut
// short before it put another.
fn read_base(
    rt: &HostRuntime,
    own: &Folder,
    kept: &mut Kept,
    is_said: bool,
) -> Result<(), Refusal> {
    let base = own.way_to(rt, BASE)?;
    let is_twice = are_one(rt, &base, &own.way_to(rt, OLDER[0])?);
    let most_names = if is_twice { 2 } else { 1 };
    if let Some(bytes) = read_plain(rt, own, BASE, most_names, is_said)? {
        kept.bases.push(bytes).map_err(Fault::from)?;
        let name = String::from_str(rt.alloc(), BASE).map_err(Fault::from)?;
        kept.base_names.push(name).map_err(Fault::from)?;
    }
    for name in OLDER {
        if let Some(bytes) = read_plain(rt, own, name, most_names, is_said)? {
            kept.older.push(bytes).map_err(Fault::from)?;
            kept.older_names.push(name).map_err(Fault::from)?;
        }
    }
    Ok(())
}
