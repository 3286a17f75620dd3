// A setup, and how it is read.
ghost use Rattle.std.specs.Prelude.{◌≡◌, ◌<◌, option_map};
ghost use Rattle.folder_setup.specs.Answers.{ReadsAs};
ghost use Rattle.folder_setup.specs.Setups as setups;

use crate::fault::SetupFault;

const PROJECT: &str = "project ";

const BOX: &str = "box ";

const NAMES: &str = "names ";

/// What a folder of books' files is synced with.
#[derive(Clone, Copy, Debug, PartialEq, Eq)]
pub struct Setup<'a> {
    /// The path of the project's file, from the folder.
    pub project: &'a str,
    /// The path of the box, from the folder, if the team has one.
    pub box_folder: Option<&'a str>,
    /// A name that says how new files are named, if one is given.
    pub names: Option<&'a str>,
}

/// The setup whose lines a text is: `project PATH`, and then `box PATH` and `names NAME`, as far as
/// these are there, in this order, each once, and nothing else. A path or a name goes from the first
/// space to the end of its line, and has any character but a NUL. It does not allocate.
///
/// # Errors
/// `BadLine` with the first line that is not the one that is due, or has no line feed.
pub fn read(text: &str) -> Result<Setup<'_>, SetupFault>
    ensures { ReadsAs (setups.read text.now) result }
{
    match value_of(PROJECT, text) {
        None => Err(SetupFault::BadLine { line: 1 }),
        Some((project, rest)) => read_box(project, rest),
    }
}

// What is read after the project.
fn read_box<'a>(project: &'a str, text: &'a str) -> Result<Setup<'a>, SetupFault>
    ensures { ReadsAs (setups.read_box_by project.now text.now
        (setups.value_of setups.box_word text.now)) result }
{
    match value_of(BOX, text) {
        None => read_names(project, None, 2, text),
        Some((box_folder, rest)) => read_names(project, Some(box_folder), 3, rest),
    }
}

// What is read where the names are due in the line of this number, or no line is.
fn read_names<'a>(
    project: &'a str,
    box_folder: Option<&'a str>,
    line: usize,
    text: &'a str,
) -> Result<Setup<'a>, SetupFault>
    requires { line < 4 }
    ensures { ReadsAs (setups.read_names project.now (option_map (λ t. t.now) box_folder.entry)
        line text.now) result }
{
    if text.is_empty() {
        return Ok(Setup {
            project,
            box_folder,
            names: None,
        });
    }
    match value_of(NAMES, text) {
        None => Err(SetupFault::BadLine { line }),
        Some((names, rest)) => {
            let setup = Setup {
                project,
                box_folder,
                names: Some(names),
            };
            read_end(setup, line + 1, rest)
        }
    }
}

// What is read once no line is due any more.
fn read_end<'a>(setup: Setup<'a>, line: usize, text: &str) -> Result<Setup<'a>, SetupFault>
    ensures { ReadsAs (setups.read_end (setups.setup_view setup.entry) line text.now) result }
{
    if text.is_empty() {
        Ok(setup)
    } else {
        Err(SetupFault::BadLine { line })
    }
}

// The value of the first line of a text, if that begins with a word; and what follows the line.
fn value_of<'a>(word: &str, text: &'a str) -> Option<(&'a str, &'a str)>
    ensures { option_map setups.cut_view result ≡ setups.value_of word.now text.now }
{
    let (line, rest) = first_line(text)?;
    let value = after(word, line)?;
    if is_value(value) {
        Some((value, rest))
    } else {
        None
    }
}

// The first line of a text without its line feed, and what follows it.
fn first_line(text: &str) -> Option<(&str, &str)>
    ensures { option_map setups.cut_view result ≡ setups.first_line text.now }
{
    text.split_once('\n')
}

// What follows a text at the front of a line.
fn after<'a>(front: &str, line: &'a str) -> Option<&'a str>
    ensures { option_map (λ rest. rest.now) result ≡ setups.after front.now line.now }
{
    line.strip_prefix(front)
}

// Whether a line can have a value.
pub(crate) fn is_value(value: &str) -> bool
    ensures { result ≡ setups.is_value value.now }
{
    !value.is_empty() && !has_byte(value, 0)
}

// Whether a text has a byte.
pub(crate) fn has_byte(text: &str, byte: u8) -> bool
    ensures { result ≡ setups.has_byte byte text.now }
{
    text.as_bytes().contains(&byte)
}
