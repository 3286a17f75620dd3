// What a person types at a terminal.
use crate::refusal::{Given, Refusal};
use crate::telling::{say, say_lines};
use byte_source::{MOST_BYTES, StdSource, read_to_end};
use command_faults::{Expected, Fault};
use std::io::{BufRead, IsTerminal, Write};
use std::str;
use usfm_cli::{Command, exec};
use usfm_ref::{Book, Key};

// So many bytes of a line a terminal passes on at most, without its line feed.
pub(crate) const MOST_TYPED: usize = 4095;

// What a person at a terminal reads who is to type a text, or to give bundles.
const SHOWS: &str = "usfm_team: the segment shows";

pub(crate) const TYPE_A_TEXT: &str = "\
usfm_team: type the segment's text with its mark, and whatever follows it, such as \\p; what you leave
out is gone from the book. Control-D on a new line ends it.
";

// The same where no text is named that it replaces.
pub(crate) const TYPE_BESIDE: &str = "\
usfm_team: type a text of the segment with its mark. No id is named, so it replaces nothing, and is
shown beside the texts that are there. Control-D on a new line ends it.
";

const NOTHING_TYPED: &str = "\
Nothing was changed: no text was typed. An empty file or pipe removes the segment from its book.";

// What a person reads whose text was empty.
const REMOVED: &str = "the text was empty, so the segment was removed from its book";

pub(crate) const GIVE_BUNDLES: &str =
    "usfm_team: waiting for bundles on standard input: control-D on a new line ends it\n";

// The text that standard input has for a segment. At a terminal it is said before what the segment
// shows, and who types nothing there changes nothing.
pub(crate) fn text_for(
    rt: &HostRuntime,
    project: &Given<'_>,
    book: Book,
    key: Key,
    asks: &str,
) -> Result<Option<Vec<u8>>, Refusal> {
    let is_typed = rt.stdin().is_terminal();
    if is_typed {
        show(rt, project, book, key)?;
    }
    let text = read_text(rt, asks)?;
    if text.is_empty() && is_typed {
        say(rt, NOTHING_TYPED);
        return Ok(None);
    }
    Ok(Some(text))
}

// Says of an edit that was made what an empty text does.
pub(crate) fn say_removed(rt: &HostRuntime, text: &[u8]) {
    if text.is_empty() {
        say(rt, REMOVED);
    }
}

// Says what a segment shows. Where its book is not there, no text would be taken but the book's head,
// so that none is typed in vain.
fn show(rt: &HostRuntime, project: &Given<'_>, book: Book, key: Key) -> Result<(), Refusal> {
    if !key.is_book_head() {
        let export = exec(rt.alloc(), project.bytes, &Command::Export(book));
        export.map_err(|fault| Refusal::of_inputs(rt, fault, project, None))?;
    }
    let shown = exec(rt.alloc(), project.bytes, &Command::Shown(book, key));
    let shown = shown.map_err(|fault| Refusal::of_inputs(rt, fault, project, None))?;
    if let (Ok(text), false) = (str::from_utf8(shown.output()), shown.output().is_empty()) {
        say(rt, SHOWS);
        say_lines(rt, text);
    }
    Ok(())
}

// The text that standard input has. A terminal leaves out what is too long for a line of it, and
// the rest would be taken for the whole.
fn read_text(rt: &HostRuntime, asks: &str) -> Result<Vec<u8>, Refusal> {
    say_at_terminal(rt, asks);
    let mut source = StdSource::new(rt.reader());
    let text = read_to_end(rt.alloc(), &mut source).map_err(Fault::from)?;
    let is_cut = text
        .split(|byte| *byte == b'\n')
        .any(|line| line.len() >= MOST_TYPED);
    if is_cut && rt.stdin().is_terminal() {
        return Err(Refusal::alone(rt, Fault::ReadFailed, "standard input", Expected::Typed));
    }
    Ok(text)
}

// Says at a terminal what a command waits for. Where that cannot be written, it waits all the same.
pub(crate) fn say_at_terminal(rt: &HostRuntime, line: &str) {
    if rt.stdin().is_terminal() {
        let _ = rt.stderr().write_all(line.as_bytes());
    }
}

// The next line, with its line feed if it has one. None at the end of the input.
pub(crate) fn read_line<R: BufRead>(
    rt: &HostRuntime,
    input: &mut R,
) -> Result<Option<Vec<u8>>, Fault> {
    let mut line = Vec::new(rt.alloc());
    for _ in 0..u64::MAX {
        let piece = input.fill_buf().map_err(|_| Fault::ReadFailed)?;
        let (count, is_whole) = match piece.iter().position(|byte| *byte == b'\n') {
            Some(at) => (at + 1, true),
            None => (piece.len(), piece.is_empty()),
        };
        if count > MOST_BYTES - line.len().min(MOST_BYTES) {
            return Err(Fault::TooLong);
        }
        line.extend_from_slice(&piece[..count])?;
        input.consume(count);
        if is_whole {
            break;
        }
    }
    Ok(if line.is_empty() { None } else { Some(line) })
}
