// What a sync is told: by its line, and by what the folder remembers.
use crate::files::is_folder;
use crate::kept::Kept;
use crate::reading::Read;
use crate::refusal::Refusal;
use crate::setup::{Remembered, Said, not_set_up, read_setup, to_remember};
use crate::sync::open_folder;
use crate::telling::say_of;
use book_folder::{Wanted, Wishes, left_name};
use command_faults::{Expected, Fault};
use command_line::{Places, SyncWords, sync_places};

// What a sync is told.
#[derive(Drop)]
pub(crate) struct Told {
    pub(crate) project: String,
    // Whether the folder remembers the project, and the line does not name it.
    pub(crate) is_remembered: bool,
    pub(crate) folder: String,
    pub(crate) bundles: Vec<String>,
    pub(crate) box_folder: Option<String>,
    // Whether it is known that the folder is one of books' files.
    pub(crate) is_set_up: bool,
    // Whether the line asks for a form of new names.
    pub(crate) asks_form: bool,
    pub(crate) wishes: Wishes,
    pub(crate) settled: Vec<usfm_cli::Wanted>,
    pub(crate) is_try: bool,
    // Whether only what was not done is said.
    pub(crate) is_quiet: bool,
    // What the folder is to remember once all is done.
    pub(crate) to_remember: Option<String>,
}

// The first words of a line.
#[derive(Drop)]
struct Words {
    project: Option<String>,
    folder: String,
    bundles: Vec<String>,
}

// What a sync is told. None where its line has a project, and no folder.
pub(crate) fn told_by(rt: &HostRuntime, words: SyncWords) -> Result<Option<Told>, Refusal> {
    let wishes = wishes_of(rt, &words)?;
    let SyncWords {
        words: first,
        box_folder,
        settled,
        form,
        is_try,
        is_quiet,
        emptied: _,
        undone: _,
        stale: _,
        joined: _,
        remembers,
    } = words;
    let Some(named) = words_named(rt, first)? else {
        return Ok(None);
    };
    let said = Said {
        project: named.project.as_deref(),
        box_folder: box_folder.as_deref(),
        names: form.as_deref(),
    };
    let (known, lines) = remembered(rt, &named.folder, said, remembers)?;
    let asks_form = form.is_some();
    let is_remembered = named.project.is_none();
    let is_set_up = known.is_some();
    let Words {
        project,
        folder,
        bundles,
    } = named;
    let (project, box_folder, form) = chosen(rt, &folder, known, project, box_folder, form)?;
    Ok(Some(Told {
        project,
        is_remembered,
        folder,
        bundles,
        box_folder,
        is_set_up,
        asks_form,
        wishes: with_form(wishes, form),
        settled,
        is_try,
        is_quiet,
        to_remember: lines,
    }))
}

// The words of a line by what they name.
fn words_named(rt: &HostRuntime, words: Vec<String>) -> Result<Option<Words>, Fault> {
    let is_first_folder = match words.first() {
        Some(word) => is_folder(rt, word),
        None => false,
    };
    let Some(first_words) = sync_places(words.len(), is_first_folder) else {
        return Ok(None);
    };
    let mut words = words.into_iter();
    let project = match first_words {
        Places::ProjectAndFolder => words.next(),
        Places::Here | Places::Folder => None,
    };
    let folder = match words.next() {
        Some(folder) => folder,
        None => String::from_str(rt.alloc(), ".")?,
    };
    Ok(Some(Words {
        project,
        folder,
        bundles: words.collect(rt.alloc())?,
    }))
}

// What a folder remembers, and what it is to remember, where that is asked for. Where a line says
// something else, that is said. A folder that is not there remembers nothing; it is refused when it
// is opened.
fn remembered(
    rt: &HostRuntime,
    name: &str,
    said: Said<'_>,
    remembers: bool,
) -> Result<(Option<Remembered>, Option<String>), Refusal> {
    if !is_folder(rt, name) {
        return Ok((None, None));
    }
    let folder = open_folder(rt, name)?;
    let known = read_setup(rt, &folder)?;
    if known.is_none() && said.project.is_none() {
        return Err(not_set_up(rt, &folder));
    }
    if remembers {
        let text = to_remember(rt, &folder, known.as_ref(), said)?;
        return Ok((known, Some(text)));
    }
    if let Some(known) = &known {
        known.say_other(rt, &folder, said)?;
    }
    Ok((known, None))
}

// The project, the box and the form of new names: what the line says, and else what the folder
// remembers.
fn chosen(
    rt: &HostRuntime,
    folder: &str,
    known: Option<Remembered>,
    project: Option<String>,
    box_folder: Option<String>,
    form: Option<String>,
) -> Result<(String, Option<String>, Option<String>), Fault> {
    let project = match (project, &known) {
        (Some(project), _) => project,
        (None, Some(known)) => known.project(rt, folder)?,
        (None, None) => String::new(rt.alloc()),
    };
    let box_folder = match (box_folder, &known) {
        (None, Some(known)) => known.box_folder(rt, folder)?,
        (said, _) => said,
    };
    let form = match (form, &known) {
        (None, Some(known)) => known.names(rt)?,
        (said, _) => said,
    };
    Ok((project, box_folder, form))
}

fn wishes_of(rt: &HostRuntime, words: &SyncWords) -> Result<Wishes, Fault> {
    let mut wishes = Wishes::none(rt.alloc());
    wishes.emptied = words.emptied;
    wishes.undone = words.undone;
    wishes.stale = words.stale;
    wishes.joined = words.joined;
    for wanted in &words.settled {
        wishes.settled.push(settled_of(*wanted))?;
    }
    Ok(wishes)
}

fn with_form(mut wishes: Wishes, form: Option<String>) -> Wishes {
    wishes.form = form;
    wishes
}

// What a file settles, for the plan.
fn settled_of(wanted: usfm_cli::Wanted) -> Wanted {
    match wanted {
        usfm_cli::Wanted::Whole(book) => Wanted { book, key: None },
        usfm_cli::Wanted::One(book, key) => Wanted {
            book,
            key: Some(key),
        },
    }
}

// Refuses a box in the place of a folder of books: one that has bundles, and no book's file.
pub(crate) fn refuse_bundles(
    rt: &HostRuntime,
    name: &str,
    is_set_up: bool,
    read: &Read,
) -> Result<(), Refusal> {
    if !is_set_up && read.is_of_bundles() {
        let fault = Fault::FileFailed;
        return Err(Refusal::expecting(rt, fault, name, Expected::FolderOfBundles));
    }
    Ok(())
}

// Says which form of names new files have no more.
pub(crate) fn say_left_form(rt: &HostRuntime, kept: &Kept, wishes: &Wishes) {
    if let Some(name) = &wishes.form {
        if let Some(left) = left_name(&kept.names, name) {
            say_of(rt, "new files are not named like ", left, " any more");
        }
    }
}
