// How what is found in the text of a book is written.
ghost use Rattle.std.specs.Prelude.{◌≡◌};
ghost use Rattle.book_reports.specs.Forms as forms;

use line_excerpt::SetOff;

/// How what is found in the text of a book is written, each in a line.
#[derive(Clone, Copy, Debug, PartialEq, Eq)]
pub struct Form {
    /// Whether it is said by line and column where it stands, and not by bytes.
    pub by_lines: bool,
    /// How it is set off in the line of the text, if that follows.
    pub set_off: Option<SetOff>,
}

/// How it is said where something stands in the text of a book.
#[derive(Clone, Copy, Debug, PartialEq, Eq)]
pub enum Places {
    /// By its segment, and by how many bytes of the text come before it.
    Starts,
    /// By its segment, and by its line and column in the text.
    Lines,
    /// By its line and column in the file that has the text.
    FileLines,
}

impl Form {
    /// How it is said where something stands in a book.
    pub fn places(self) -> Places
        ensures { result ≡ forms.places_of self }
    {
        if self.by_lines {
            Places::Lines
        } else {
            Places::Starts
        }
    }

    /// The same of a book's file.
    pub fn places_in_file(self) -> Places
        ensures { result ≡ forms.places_in_file self }
    {
        if self.by_lines {
            Places::FileLines
        } else {
            Places::Starts
        }
    }
}
