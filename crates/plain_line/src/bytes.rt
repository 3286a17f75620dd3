// Bytes that need not be a text.
ghost use Rattle.std.specs.Prelude.{◌≡◌, ◌++◌, OnOk};
ghost use Rattle.std.specs.Str.Lossy.{utf8_lossy};
ghost use Rattle.plain_line.specs.Plain as plain;

use crate::plain::push_line;
use std::alloc::AllocError;

/// Appends bytes as `push_line` does a text. Where they are no UTF-8, U+FFFD stands for them, as
/// `String::from_utf8_lossy` writes it.
///
/// # Errors
/// An allocation failed. Nothing is then appended.
pub fn push_bytes(line: &mut Vec<u8>, bytes: &[u8]) -> Result<(), AllocError>
    ensures { OnOk result (line.new.items
        ≡ line.old.items ++ plain.line (utf8_lossy bytes.now)) }
{
    let alloc = *line.allocator();
    let text = String::from_utf8_lossy(alloc, bytes)?;
    let mut plain = String::new(alloc);
    push_line(&mut plain, &text)?;
    line.extend_from_slice(plain.as_bytes())
}
