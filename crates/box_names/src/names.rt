// How the file of a box is taken by its name.
ghost use Rattle.std.specs.Prelude.{◌≡◌};
ghost use Rattle.box_names.specs.Names as names;

use memchr::memmem;

/// How a file of a box is taken, by its name.
#[derive(Clone, Copy, Debug, PartialEq, Eq)]
pub enum BoxName {
    /// The name ends in `.bundle`: the file may be a copy's bundle.
    Bundle,
    /// The same, but the name has a line feed: the file is skipped, and said.
    Broken,
    /// The name has `.bundle` before its end: it was a bundle's, and got another one on its way. The
    /// file is skipped, and said.
    Renamed,
    /// The name has no full stop: the file is skipped, and said where it begins as a bundle.
    NoEnding,
    /// It is the name of a carrier's own file, or of another one: it is passed over in silence.
    Other,
}

/// How a file of this name in a box is taken. A carrier's own is what is hidden, begins with `~`, or
/// ends in `.tmp`, `.part` or `.partial`. Endings are taken in any case of the letters, and `.bundle`
/// before the end in small letters or in capitals. It does not allocate.
pub fn box_name(name: &str) -> BoxName
    ensures { result ≡ names.box_name name.now }
{
    let name = name.as_bytes();
    if is_of_carrier(name) {
        BoxName::Other
    } else if ends_in(name, b".bundle") {
        if has_byte(name, b'\n') {
            BoxName::Broken
        } else {
            BoxName::Bundle
        }
    } else if has_within(name, b".bundle") || has_within(name, b".BUNDLE") {
        BoxName::Renamed
    } else if has_byte(name, b'.') {
        BoxName::Other
    } else {
        BoxName::NoEnding
    }
}

// Whether a name is that of a carrier's own file.
fn is_of_carrier(name: &[u8]) -> bool
    ensures { result ≡ names.is_of_carrier name.now }
{
    name.starts_with(b".")
        || name.starts_with(b"~")
        || ends_in(name, b".tmp")
        || ends_in(name, b".part")
        || ends_in(name, b".partial")
}

// Whether a name has an ending, in any case of the letters A to Z.
fn ends_in(name: &[u8], ending: &[u8]) -> bool
    ensures { result ≡ names.ends_in name.now ending.now }
{
    let (_, end) = name.split_at(name.len().saturating_sub(ending.len()));
    end.eq_ignore_ascii_case(ending)
}

// Whether bytes stand somewhere in a name.
fn has_within(name: &[u8], sought: &[u8]) -> bool
    ensures { result ≡ names.has_within name.now sought.now }
{
    memmem::find(name, sought).is_some()
}

// Whether a byte stands somewhere in a name.
fn has_byte(name: &[u8], byte: u8) -> bool
    ensures { result ≡ names.has_byte name.now byte }
{
    name.contains(&byte)
}
