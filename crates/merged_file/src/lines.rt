// The lines of a text as a remark has them.
ghost use Rattle.std.specs.Prelude.{◌≡◌, ◌++◌, OnOk, map};
ghost use Rattle.merged_file.specs.Remarks as remarks;

use std::alloc::AllocError;

// Adds a line of a text, with a slash in the place of each backslash.
pub(crate) fn push_slashed(made: &mut Vec<u8>, line: &[u8]) -> Result<(), AllocError>
    ensures { OnOk result (made.new.items ≡ made.old.items ++ map remarks.slashed line.now) }
{
    for byte in line {
        made.push(slashed(*byte))?;
    }
    Ok(())
}

// A byte as a remark has it.
fn slashed(byte: u8) -> u8
    ensures { result ≡ remarks.slashed byte }
{
    if byte == b'\\' { b'/' } else { byte }
}

// The end of the line within which bytes end, if they do.
pub(crate) fn line_end(text: &[u8]) -> &'static [u8]
    ensures { result.now ≡ remarks.line_end text.now }
{
    if ends_within(text) { b"\n" } else { b"" }
}

// Whether bytes end within a line.
fn ends_within(text: &[u8]) -> bool
    ensures { result ≡ remarks.ends_within text.now }
{
    match text.last() {
        None => false,
        Some(byte) => *byte != b'\n',
    }
}
