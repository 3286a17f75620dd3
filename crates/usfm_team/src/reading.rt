// What is read before it is planned what a folder and a project become: the books' files, what the
// program keeps beside them, and bundles.
use crate::files::{Folder, Opened, is_still, open_named, open_plain, read_open};
use crate::kept::{Kept, OWN, no_kept, read_kept};
use crate::refusal::Refusal;
use crate::rights::look_at;
use crate::sealing::read_bundles;
use crate::telling::{
    begins_as_book, begins_as_bundle, has_second_book, say, say_of, say_second_book,
};
use crate::turns::refusal_in;
use book_folder::{FoundFile, Seen, book_begun, lacks_base, may_be_book};
use box_names::{BoxName, box_name};
use command_faults::{Expected, Fault, why_no_book};
use std::alloc::AllocError;
use std::fs::Metadata;
use usfm_cli::{FILES_GONE, NO_BOOK_FILE, TEXT_NAME, is_text_name};

// A file of more bytes is no book's: it is not read.
const MOST_BYTES: u64 = 16_777_216;

// A plain file that may be a book's.
#[derive(Drop)]
pub(crate) struct OneFile {
    pub(crate) name: String,
    pub(crate) bytes: Vec<u8>,
}

// The books' files of a folder, and what is kept beside them.
#[derive(Drop)]
pub(crate) struct Read {
    pub(crate) files: Vec<OneFile>,
    // How each of them was found, and each that is a book's.
    pub(crate) looks: Vec<Metadata>,
    pub(crate) book_looks: Vec<Metadata>,
    // What else stands under such names.
    pub(crate) others: Vec<String>,
    // The names that end in .txt.
    texts: Vec<String>,
    // Whether there are bundles.
    has_bundles: bool,
    pub(crate) kept: Kept,
}

// The bundles that are given, and those of a box.
#[derive(Drop)]
pub(crate) struct Given {
    pub(crate) bundles: Vec<Vec<u8>>,
    pub(crate) names: Vec<String>,
    // How many of them are named in the line.
    pub(crate) named: usize,
    // The place of the copy's own bundle of a box, where the project has other bytes.
    pub(crate) own: Option<usize>,
}

// What a folder has, as it is lent to a plan.
#[derive(Drop)]
pub(crate) struct Lent<'a> {
    read: &'a Read,
    files: Vec<FoundFile<'a>>,
    others: Vec<&'a str>,
}

impl Lent<'_> {
    // All that was read.
    pub(crate) fn seen<'a>(&'a self, project: &'a [u8], given: &'a Given) -> Seen<'a> {
        let kept = &self.read.kept;
        Seen {
            project,
            bases: &kept.bases,
            next: kept.next.as_deref(),
            older: &kept.older,
            unplaced: &kept.unplaced,
            names: &kept.names,
            files: &self.files,
            others: &self.others,
            bundles: &given.bundles,
        }
    }
}

impl Read {
    pub(crate) fn lend(&self, rt: &HostRuntime) -> Result<Lent<'_>, AllocError> {
        let mut files = Vec::new(rt.alloc());
        for file in &self.files {
            files.push(FoundFile {
                name: &file.name,
                bytes: &file.bytes,
            })?;
        }
        let mut others = Vec::new(rt.alloc());
        for name in &self.others {
            others.push(name.as_str())?;
        }
        Ok(Lent {
            read: self,
            files,
            others,
        })
    }

    // Goes back to what stood before a sync that was cut short, where that was before the project
    // had what came in.
    pub(crate) fn look_back(
        &mut self,
        rt: &HostRuntime,
        project: &[u8],
        given: &Given,
    ) -> Result<(), Fault> {
        if self.kept.before.is_some() {
            let lacks = {
                let lent = self.lend(rt)?;
                lacks_base(rt.alloc(), &lent.seen(project, given))
            };
            match lacks {
                Ok(true) => {
                    self.kept.go_back(rt)?;
                }
                Err(book_folder::Refusal::Memory) => return Err(Fault::Memory),
                // A project or a base that cannot be read is refused by the plan.
                Ok(false) | Err(_) => {}
            }
        }
        Ok(())
    }

    // Whether each file still has the bytes that were read.
    pub(crate) fn is_still(&self, rt: &HostRuntime, folder: &Folder) -> Result<bool, Fault> {
        for file in &self.files {
            if !is_still(rt, &folder.way_to(rt, &file.name)?, &file.bytes)? {
                return Ok(false);
            }
        }
        Ok(true)
    }

    // Whether a folder has bundles, and no file of a book: it is a box.
    pub(crate) fn is_of_bundles(&self) -> bool {
        self.has_bundles && self.book_looks.is_empty()
    }

    // Says what looks like a slip: that no file of a folder is a book's, that a book's file has the
    // wrong ending, and that a file has two books.
    pub(crate) fn say_slips(&self, rt: &HostRuntime, folder: &Folder) -> Result<(), Fault> {
        let is_bare = self.book_looks.is_empty();
        if self.is_of_bundles() {
            // The refusal says that it is a box.
        } else if is_bare && self.kept.names.is_empty() {
            say_of(rt, "", folder.name(), NO_BOOK_FILE);
        } else if self.files.is_empty() && self.others.is_empty() {
            say_of(rt, "", folder.name(), FILES_GONE);
        }
        for name in &self.texts {
            if is_bare || begins_as_book(rt, &folder.way_to(rt, name)?) {
                say_of(rt, "skipped ", &folder.name_of(rt, name)?, TEXT_NAME);
            }
        }
        for file in &self.files {
            if book_begun(&file.bytes).is_some() && has_second_book(&file.bytes) {
                say_second_book(rt, &folder.name_of(rt, &file.name)?);
            }
        }
        Ok(())
    }
}

// Reads a folder. What is skipped is said, where it is to be.
pub(crate) fn read_folder(
    rt: &HostRuntime,
    folder: &Folder,
    is_said: bool,
) -> Result<Read, Refusal> {
    let kept = match folder.inside(rt, OWN) {
        Ok(Some(own)) => read_kept(rt, &own, is_said)?,
        Ok(None) => no_kept(rt),
        Err(fault) => return Err(own_refusal(rt, folder, fault)),
    };
    let mut read = Read {
        files: Vec::new(rt.alloc()),
        looks: Vec::new(rt.alloc()),
        book_looks: Vec::new(rt.alloc()),
        others: Vec::new(rt.alloc()),
        texts: Vec::new(rt.alloc()),
        has_bundles: false,
        kept,
    };
    for name in folder.names(rt, is_said)? {
        if !may_be_book(&name) {
            if is_text_name(&name) {
                read.texts.push(name).map_err(Fault::from)?;
            } else if box_name(&name) == BoxName::Bundle && !read.has_bundles {
                read.has_bundles = begins_as_bundle(rt, &folder.way_to(rt, &name)?);
            }
        } else if name.contains('\n') {
            if is_said {
                say(rt, "skipped a file whose name contains a line break");
            }
        } else {
            let path = folder.name_of(rt, &name)?;
            let found = read_found(rt, folder, name, &mut read, is_said);
            found.map_err(|fault| Refusal::of(fault, path))?;
        }
    }
    Ok(read)
}

// What the files were found as that may be books'.
pub(crate) fn book_looks(rt: &HostRuntime, folder: &Folder) -> Result<Vec<Metadata>, Refusal> {
    let mut looks = Vec::new(rt.alloc());
    for name in folder.names(rt, false)? {
        if may_be_book(&name) {
            if let Opened::Plain(file) = open_plain(rt, &folder.way_to(rt, &name)?)? {
                looks.push(look_at(&file)?).map_err(Fault::from)?;
            }
        }
    }
    Ok(looks)
}

// The refusal of the program's own folder in a folder of books.
pub(crate) fn own_refusal(rt: &HostRuntime, folder: &Folder, fault: Fault) -> Refusal {
    Refusal::unwritten(fault, folder.name_of(rt, OWN), Expected::OwnFolder)
}

// Reads what stands under the name of a book's file. A plain file alone is read, and none that is
// longer than a book.
fn read_found(
    rt: &HostRuntime,
    folder: &Folder,
    name: String,
    read: &mut Read,
    is_said: bool,
) -> Result<(), Fault> {
    match open_plain(rt, &folder.way_to(rt, &name)?)? {
        Opened::Plain(file) if look_at(&file)?.len() > MOST_BYTES => {
            let why = ": it has more than 16,777,216 bytes";
            say_skipped(rt, is_said, &folder.name_of(rt, &name)?, why);
            read.others.push(name)?;
        }
        Opened::Plain(file) => {
            let bytes = read_open(rt, &file)?;
            if book_begun(&bytes).is_some() {
                read.book_looks.push(look_at(&file)?)?;
            } else {
                let path = folder.name_of(rt, &name)?;
                let why = why_no_book(&bytes);
                say_skipped(rt, is_said, &path, &format!(in rt.alloc(); ": {why}")?);
            }
            read.looks.push(look_at(&file)?)?;
            read.files.push(OneFile { name, bytes })?;
        }
        Opened::Other(other) => {
            say_skipped(rt, is_said, &folder.name_of(rt, &name)?, other.words());
            read.others.push(name)?;
        }
        Opened::Folder => read.others.push(name)?,
        Opened::Nothing => {}
    }
    Ok(())
}

// The bytes of a plain file. What else stands there is skipped, and said.
pub(crate) fn read_plain(
    rt: &HostRuntime,
    folder: &Folder,
    name: &str,
    most_names: u64,
    is_said: bool,
) -> Result<Option<Vec<u8>>, Refusal> {
    let path = folder.way_to(rt, name)?;
    let read = match open_named(rt, &path, most_names) {
        Ok(Opened::Plain(file)) => read_open(rt, &file),
        Ok(Opened::Other(other)) => {
            say_skipped(rt, is_said, &folder.name_of(rt, name)?, other.words());
            return Ok(None);
        }
        Ok(Opened::Folder | Opened::Nothing) => return Ok(None),
        Err(fault) => Err(fault),
    };
    match read {
        Ok(bytes) => Ok(Some(bytes)),
        Err(fault) => Err(folder.refusal(rt, fault, name)),
    }
}

// Reads the bundles that are named.
pub(crate) fn read_given(rt: &HostRuntime, names: Vec<String>) -> Result<Given, Refusal> {
    let bundles = read_bundles(rt, &names).map_err(|fault| refusal_in(rt, fault, &names))?;
    Ok(Given {
        named: names.len(),
        bundles,
        names,
        own: None,
    })
}

// Says that a file is skipped, and why, where it is to be said.
fn say_skipped(rt: &HostRuntime, is_said: bool, path: &str, why: &str) {
    if is_said {
        say_of(rt, "skipped ", path, why);
    }
}
