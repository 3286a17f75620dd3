// What commands on books' files without a project are given.

/// What a command on books' files was given. Files are named as they were given.
#[derive(Debug, Drop)]
pub struct FilesWords {
    /// `--files FILE..`: the files.
    pub files: Vec<String>,
    /// The command.
    pub look: FilesLook,
}

/// What is looked up in books' files.
#[derive(Debug, Drop)]
pub enum FilesLook {
    /// `check`: what is found by a style sheet; with `--text` with the lines of the text, with
    /// `--lines` by lines and columns.
    Check {
        sheet: Option<String>,
        with_text: bool,
        by_lines: bool,
    },
    /// `find NEEDLE`: where a needle occurs by a style sheet, in the same ways.
    Find {
        sheet: Option<String>,
        needle: String,
        with_text: bool,
        by_lines: bool,
    },
    /// `words`: the words by a style sheet.
    Words {
        sheet: Option<String>,
    },
    /// `missing`: what is missing by a versification.
    Missing {
        versification: Option<String>,
    },
}

/// What `merge` was given.
#[derive(Debug, Drop)]
pub struct MergeWords {
    pub base: String,
    pub ours: String,
    pub theirs: String,
    /// `--stdout`: whether the book goes to standard output, and not to the file of OURS.
    pub to_stdout: bool,
    /// `--mark`: whether the other text of a conflict is written too.
    pub is_marked: bool,
    /// `--ask`: whether the conflicts are asked.
    pub asks: bool,
}
