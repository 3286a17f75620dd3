// The line of a place, as far as it is shown.
ghost use Rattle.std.specs.Prelude.{◌≡◌, ◌+◌, ◌≤◌, ◌++◌, length, drop, take, OnOk};
ghost use Rattle.std.specs.List.{prefix_len, suffix_len, after_last};
ghost use Rattle.line_excerpt.specs.Excerpts as spec;

use plain_line::push_bytes;
use std::alloc::AllocError;

/// How many bytes of a line are shown at most on either side of a place, but for the rest of a
/// character.
pub const REACH: usize = 200;

/// How what stands at a place is set off from the line around it.
#[derive(Clone, Copy, Debug, PartialEq, Eq)]
pub enum SetOff {
    /// By `[` and `]`.
    Brackets,
    /// By the reverse video of a terminal (ECMA-48, SGR 7 and 27), where control characters are
    /// escaped.
    Reverse,
}

/// Appends the line of a place of a text, where this many bytes from the place on are set off, as
/// far as they are in that line. A line feed or a carriage return ends a line. Nothing of the line
/// is written that is more than [`REACH`] bytes away.
///
/// # Errors
/// `AllocError` where an allocation failed. The bytes then end with some part of the excerpt.
pub fn push_excerpt(
    bytes: &mut Vec<u8>,
    set_off: SetOff,
    text: &[u8],
    start: usize,
    len: usize,
) -> Result<(), AllocError>
    requires { start + len ≤ length text.now }
    ensures { OnOk result (bytes.new.items
        ≡ bytes.old.items ++ spec.excerpt set_off text.now start len) }
{
    let line = from_place(text, start, len);
    let (found, after) = split_within(line, len);
    push_shown(bytes, set_off, before(text, start))?;
    push_found(bytes, set_off, found)?;
    push_shown(bytes, set_off, after)
}

// So many bytes at the front as there are, up to this many, and the others.
fn split_within(bytes: &[u8], len: usize) -> (&[u8], &[u8])
    ensures front { result.0.now ≡ take len bytes.now }
    ensures back { result.1.now ≡ drop len bytes.now }
{
    if len < bytes.len() {
        bytes.split_at(len)
    } else {
        (bytes, &[])
    }
}

// Appends what is set off.
fn push_found(bytes: &mut Vec<u8>, set_off: SetOff, found: &[u8]) -> Result<(), AllocError>
    ensures { OnOk result (bytes.new.items
        ≡ bytes.old.items ++ spec.found_shown set_off found.now) }
{
    bytes.extend_from_slice(opening(set_off))?;
    push_shown(bytes, set_off, found)?;
    bytes.extend_from_slice(closing(set_off))
}

// Appends a part of the text: at a terminal without its control characters.
fn push_shown(bytes: &mut Vec<u8>, set_off: SetOff, part: &[u8]) -> Result<(), AllocError>
    ensures { OnOk result (bytes.new.items ≡ bytes.old.items ++ spec.shown set_off part.now) }
{
    match set_off {
        SetOff::Brackets => bytes.extend_from_slice(part),
        SetOff::Reverse => push_bytes(bytes, part),
    }
}

fn opening(set_off: SetOff) -> &'static [u8]
    ensures { result.now ≡ spec.opening set_off }
{
    match set_off {
        SetOff::Brackets => b"[",
        SetOff::Reverse => b"\x1b[7m",
    }
}

fn closing(set_off: SetOff) -> &'static [u8]
    ensures { result.now ≡ spec.closing set_off }
{
    match set_off {
        SetOff::Brackets => b"]",
        SetOff::Reverse => b"\x1b[27m",
    }
}

// What comes before a place in its line.
fn before(text: &[u8], at: usize) -> &[u8]
    requires { at ≤ length text.now }
    ensures { result.now ≡ spec.before text.now at }
{
    after_continued(last_line(&text[at.saturating_sub(REACH)..at]))
}

// What comes after the last end of a line, or all.
fn last_line(bytes: &[u8]) -> &[u8]
    ensures { result.now ≡ after_last spec.ends_line bytes.now }
{
    bytes.split_at(bytes.len() - in_line_at_end(bytes)).1
}

// What comes after the rest of a character at the front.
fn after_continued(bytes: &[u8]) -> &[u8]
    ensures { result.now ≡ spec.after_continued bytes.now }
{
    bytes.split_at(continued(bytes)).1
}

// The line from a place on, with as many bytes as are set off and what comes after them.
fn from_place(text: &[u8], start: usize, len: usize) -> &[u8]
    requires { start + len ≤ length text.now }
    ensures { result.now ≡ spec.from_place text.now start len }
{
    let near = whole_characters(text.split_at(start).1, len);
    near.split_at(in_line(near)).0
}

// The bytes at the front, this many and those within reach after them, and the rest of the
// character that they end in.
fn whole_characters(bytes: &[u8], len: usize) -> &[u8]
    requires { len ≤ length bytes.now }
    ensures { result.now ≡ spec.whole_characters (len + spec.reach) bytes.now }
{
    if bytes.len() - len <= REACH {
        return bytes;
    }
    let (_, cut) = bytes.split_at(len + REACH);
    bytes.split_at(len + REACH + continued(cut)).0
}

// How many bytes at the front end no line.
fn in_line(bytes: &[u8]) -> usize
    ensures value { result ≡ prefix_len spec.is_in_line bytes.now }
    ensures within { result ≤ length bytes.now }
{
    bytes.iter().take_while(|b| is_in_line(**b)).count()
}

// How many bytes at the end end no line.
fn in_line_at_end(bytes: &[u8]) -> usize
    ensures value { result ≡ suffix_len spec.is_in_line bytes.now }
    ensures within { result ≤ length bytes.now }
{
    bytes.iter().rev().take_while(|b| is_in_line(**b)).count()
}

// How many bytes at the front go on with a character that began before them.
fn continued(bytes: &[u8]) -> usize
    ensures value { result ≡ prefix_len spec.is_continuation bytes.now }
    ensures within { result ≤ length bytes.now }
{
    bytes.iter().take_while(|b| is_continuation(**b)).count()
}

fn is_in_line(byte: u8) -> bool
    ensures { result ≡ spec.is_in_line byte }
{
    byte != b'\n' && byte != b'\r'
}

fn is_continuation(byte: u8) -> bool
    ensures { result ≡ spec.is_continuation byte }
{
    128 <= byte && byte < 192
}
