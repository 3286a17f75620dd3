// The option that names books' files in the place of a project.
use super::{PROJECT, command};
use crate::files::{FilesLook, FilesWords};
use crate::given::texts;
use crate::words::{Line, LineFault};
use clap::{Arg, ArgMatches, Command};
use std::alloc::{AllocError, Global};

const FILES: &str = "files";

// A subcommand on a project, or on the files that `--files` names.
pub(crate) fn with_files<'a>(
    alloc: Global,
    name: &'a str,
    about: &'a str,
    more: &'a str,
    usage: &'a str,
) -> Result<Command<'a>, AllocError> {
    let (word, help) = PROJECT;
    let project = Arg::new(alloc, word)
        .required_unless_present(FILES)?
        .help(help);
    let files = Arg::new(alloc, FILES)
        .long("files")
        .value_name("FILE")
        .num_args(1..)
        .help("Books' files, in the place of a project");
    command(alloc, name, about, more, &[])?
        .override_usage(usage)
        .arg(project)?
        .arg(files)
}

// Whether files are named.
pub(crate) fn has_files(given: &ArgMatches<'_>) -> bool {
    given.get_strs(FILES).is_some()
}

// The line of what is looked up in the files that are named, where nothing is given beside them that
// is of a project.
pub(crate) fn files_line(
    alloc: Global,
    given: &ArgMatches<'_>,
    look: FilesLook,
    is_of_project: bool,
) -> Result<Line, LineFault> {
    if is_of_project {
        return Err(LineFault::Usage(String::from_str(alloc, FILES_ALONE)?));
    }
    let files = texts(alloc, given, FILES)?;
    Ok(Line::Files(FilesWords { files, look }))
}

const FILES_ALONE: &str = "\
error: --files stands in the place of PROJECT, BOOK and --all; a style sheet goes after --sheet

For more information, try '--help'.
";
