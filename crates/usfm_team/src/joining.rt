// A new copy: its folder and its project are made, and synced. What is to be refused is refused
// before anything is written, and what was cut short can be given again.
use crate::begin::{not_begun, stands};
use crate::files::{
    Folder, is_folder, link_fault, open_folder as folder_of, read_file, sync_folder,
};
use crate::project::begin_project;
use crate::reading::{read_folder, read_given, read_plain};
use crate::refusal::Refusal;
use crate::setup::{
    Said, is_plain_name, is_set_up, last_name, put_setup, read_setup, to_remember_beside,
    whole_path,
};
use crate::sync::{open_folder, sync};
use crate::team_box::{open_box_folder, own_name, refuse_book, refuse_inside};
use crate::telling::say_of;
use crate::told::Told;
use crate::turns::refusal_in;
use book_folder::{Wishes, says_form};
use box_names::{BoxName, box_name};
use command_faults::{Expected, Fault};
use command_line::{Ending, JoinWords};
use folder_setup::has_operation_of;
use op_core::{IdFault, ReplicaName};
use sealed_bundle::unsealed;
use std::{fs, mem};
use usfm_cli::{Command, TurnFault, create, exec_in_turn};
use usfm_ref::RefFault;

// What stands before the name of a folder that was set up.
const SET_UP: &str = "the folder is set up. From now on: usfm_team sync ";

// How the name of a project ends that stands beside its folder.
const PROJECT_END: &str = ".project";

// Sets up a folder and a project for a new copy, and syncs them.
pub(crate) fn join(rt: &HostRuntime, words: JoinWords, explains: bool) -> Result<Ending, Refusal> {
    let begun = create(rt.alloc(), words.name.text()).map_err(Fault::from)?;
    refuse_words(rt, &words, &begun)?;
    let project = project_beside(rt, &words.folder)?;
    let has_setup = is_known(rt, &words, &project, &begun)?;
    refuse_box(rt, &words, has_setup)?;
    if !has_setup {
        set_up(rt, &words, &project, &begun)?;
    }
    let folder = words.folder.clone().map_err(Fault::from)?;
    let ending = sync(rt, told(rt, words, project)?, explains)?;
    if explains {
        say_of(rt, SET_UP, &folder, "");
    }
    Ok(ending)
}

// What a sync is told then.
fn told(rt: &HostRuntime, words: JoinWords, project: String) -> Result<Told, Fault> {
    let JoinWords {
        folder,
        name: _,
        box_folder,
        form,
        bundles,
    } = words;
    let mut wishes = Wishes::none(rt.alloc());
    wishes.form = form;
    Ok(Told {
        project,
        is_remembered: true,
        folder,
        bundles,
        box_folder,
        is_set_up: true,
        asks_form: false,
        wishes,
        settled: Vec::new(rt.alloc()),
        is_try: false,
        is_quiet: false,
        to_remember: None,
    })
}

// Refuses a name of new files that says no form, and bundles that do not come in.
fn refuse_words(rt: &HostRuntime, words: &JoinWords, begun: &[u8]) -> Result<(), Refusal> {
    if let Some(form) = &words.form {
        if !says_form(form) {
            let fault = Fault::Reference(RefFault::BadBook);
            return Err(Refusal::expecting(rt, fault, form, Expected::NewName));
        }
    }
    let mut names = Vec::new(rt.alloc());
    for name in &words.bundles {
        names
            .push(name.clone().map_err(Fault::from)?)
            .map_err(Fault::from)?;
    }
    let given = read_given(rt, names)?;
    match receive_all(rt, begun, &given.bundles) {
        Ok(()) => Ok(()),
        Err(fault) => Err(refusal_in(rt, fault, &given.names)),
    }
}

// Receives bundles, and keeps nothing of them: only whether they come in.
fn receive_all(rt: &HostRuntime, begun: &[u8], bundles: &[Vec<u8>]) -> Result<(), TurnFault> {
    let commands: Vec<Command<'_>> = bundles
        .iter()
        .map(|bundle| Command::Receive(bundle))
        .collect(rt.alloc())?;
    exec_in_turn(rt.alloc(), begun, &commands)?;
    Ok(())
}

// The project beside a folder, as one names it who names the folder so.
fn project_beside(rt: &HostRuntime, folder: &str) -> Result<String, Refusal> {
    let plain = folder.trim_end_matches('/');
    let place = if is_plain_name(rt, plain) {
        String::from_str(rt.alloc(), plain).map_err(Fault::from)?
    } else {
        whole_path(rt, folder)?
    };
    Ok(format!(in rt.alloc(); "{place}{PROJECT_END}").map_err(Fault::from)?)
}

// Whether the folder was set up so by then. One that was set up in another way is refused, and so is
// another project, and a box in the place of the folder.
fn is_known(
    rt: &HostRuntime,
    words: &JoinWords,
    project: &str,
    begun: &[u8],
) -> Result<bool, Refusal> {
    if stands(rt, &words.folder) {
        let folder = open_folder(rt, &words.folder)?;
        if let Some(known) = read_setup(rt, &folder)? {
            let text = lines(rt, &folder, words, project)?;
            if known.is(rt, &text)? && is_of(rt, project, &words.name) {
                return Ok(true);
            }
            return Err(is_set_up(rt, &folder));
        }
        if read_folder(rt, &folder, false)?.is_of_bundles() {
            let fault = Fault::FileFailed;
            return Err(Refusal::expecting(rt, fault, folder.name(), Expected::FolderOfBundles));
        }
    }
    if stands(rt, project) && !is_begun(rt, project, begun)? {
        let fault = Fault::FileFailed;
        return Err(Refusal::expecting(rt, fault, project, Expected::NewProject));
    }
    Ok(false)
}

// Whether a project is a copy's of this name.
fn is_of(rt: &HostRuntime, project: &str, name: &ReplicaName) -> bool {
    match read_file(rt, project) {
        Ok(bytes) => match project_file::judge(rt.alloc(), &bytes) {
            Ok(judged) => judged.name() == *name,
            Err(_) => false,
        },
        Err(_) => false,
    }
}

// Whether a project was only begun, under the name that it is to have.
fn is_begun(rt: &HostRuntime, project: &str, begun: &[u8]) -> Result<bool, Fault> {
    if is_folder(rt, project) {
        return Ok(false);
    }
    match read_file(rt, project) {
        Ok(bytes) => Ok(bytes.as_slice() == begun),
        Err(Fault::Memory) => Err(Fault::Memory),
        Err(_) => Ok(false),
    }
}

// Refuses a box that is none; and, unless the copy has the name already, one in which the name is in
// use.
fn refuse_box(rt: &HostRuntime, words: &JoinWords, is_known: bool) -> Result<(), Refusal> {
    let Some(name) = &words.box_folder else {
        return Ok(());
    };
    let shared = open_box_folder(rt, name)?;
    if is_folder(rt, &words.folder) {
        refuse_inside(rt, name, &open_folder(rt, &words.folder)?)?;
    }
    let own = own_name(rt, &words.name)?;
    for file in shared.names(rt, false)? {
        if box_name(&file) != BoxName::Bundle {
            refuse_book(rt, &shared, &file)?;
        } else if !is_known && is_in_use(rt, &shared, &file, &own, &words.name)? {
            let fault = Fault::Naming(IdFault::BadName);
            let path = shared.name_of(rt, &file)?;
            return Err(Refusal::named(fault, path, Expected::NameInUse));
        }
    }
    Ok(())
}

// Whether a file of a box shows that a name is in use.
fn is_in_use(
    rt: &HostRuntime,
    shared: &Folder,
    file: &str,
    own: &str,
    name: &ReplicaName,
) -> Result<bool, Refusal> {
    if file.eq_ignore_ascii_case(own) {
        return Ok(true);
    }
    match read_plain(rt, shared, file, 1, false) {
        Ok(Some(bytes)) => match unsealed(&bytes) {
            Ok(bundle) => Ok(has_operation_of(rt.alloc(), bundle, name).map_err(Fault::from)?),
            // What was damaged on its way is skipped and said when the box is read.
            Err(_) => Ok(false),
        },
        Ok(None) => Ok(false),
        Err(refusal) if matches!(refusal.fault, Fault::Memory) => Err(refusal),
        // It is skipped and said when the box is read.
        Err(_) => Ok(false),
    }
}

// What a folder is to remember.
fn lines(
    rt: &HostRuntime,
    folder: &Folder,
    words: &JoinWords,
    project: &str,
) -> Result<String, Refusal> {
    let said = Said {
        project: None,
        box_folder: words.box_folder.as_deref(),
        names: words.form.as_deref(),
    };
    to_remember_beside(rt, folder, last_name(project), said)
}

// Makes the folder and the project, where they are not there, and has the folder remember them.
fn set_up(rt: &HostRuntime, words: &JoinWords, project: &str, begun: &[u8]) -> Result<(), Refusal> {
    make_folder(rt, &words.folder)?;
    let folder = open_folder(rt, &words.folder)?;
    let text = lines(rt, &folder, words, project)?;
    if !stands(rt, project) {
        begin_project(rt, project, begun).map_err(|fault| not_begun(
            rt, fault, project,
        ).beside_others())?;
    }
    put_setup(rt, &folder, &text)
}

// Makes a folder, where nothing stands under its name, and waits until it is on the disk.
fn make_folder(rt: &HostRuntime, name: &str) -> Result<(), Refusal> {
    if stands(rt, name) {
        return Ok(());
    }
    let made = made_folder(rt, name.trim_end_matches('/'));
    made.map_err(|fault| Refusal::expecting(rt, fault, name, Expected::NewProject))
}

fn made_folder(rt: &HostRuntime, name: &str) -> Result<(), Fault> {
    fs::create_dir(rt, name).map_err(link_fault)?;
    sync_folder(&folder_of(rt, name)?)
}
