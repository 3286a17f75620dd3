//! The lines of a paragraph.

ghost use Rattle.std.specs.Prelude.{◌≡◌, ◌++◌, ◌∷◌, ◌-◌, List, ℕ, IfOk, OnOk, string_bytes};
ghost use Rattle.sty_sheet.specs.Records.{words_of};
ghost use Rattle.plain_reading.specs.Lines as lines;

use crate::setting::{Group, Setting, after_empty, is_parted};
use crate::words::next_word;
use std::alloc::AllocError;
use unicode_width::UnicodeWidthStr;

// The columns that a word takes.
fn columns(word: &str) -> usize
    ensures { result ≡ lines.columns word.now }
{
    word.width()
}

// Appends so many spaces.
fn push_spaces(text: &mut String, count: usize) -> Result<(), AllocError>
    ensures { OnOk result (string_bytes text.new ≡ string_bytes text.old ++ lines.spaces count) }
{
    let mut left = count;
    while left > 0 {
        text.push(' ')?;
        left -= 1;
    }
    Ok(())
}

// Appends a word on a line of its own, after the indent; gives the room after it.
fn push_first(
    text: &mut String,
    width: usize,
    indent: usize,
    word: &str,
) -> Result<usize, AllocError>
    ensures text { OnOk result (string_bytes text.new
        ≡ string_bytes text.old ++ (lines.spaces indent ++ word.now)) }
    ensures room { IfOk result (λ room. room ≡ width - indent - lines.columns word.now) }
{
    push_spaces(text, indent)?;
    text.push_str(word)?;
    Ok(width.saturating_sub(indent).saturating_sub(columns(word)))
}

// Appends a word after another one, where there is room for it, and else on a line of its own;
// gives the room after it.
fn push_next(
    text: &mut String,
    width: usize,
    later: usize,
    room: usize,
    word: &str,
) -> Result<usize, AllocError>
    ensures { IfOk result (λ left. (ws : List (List ℕ)) → string_bytes text.new
        ++ lines.lines_after width later left ws
        ≡ string_bytes text.old ++ lines.lines_after width later room (word.now ∷ ws)) }
{
    let wanted = columns(word);
    if wanted < room {
        text.push(' ')?;
        text.push_str(word)?;
        return Ok(room - wanted - 1);
    }
    text.push('\n')?;
    push_first(text, width, later, word)
}

// Appends the words that come after one in a line which has so much room.
fn push_after(
    text: &mut String,
    width: usize,
    later: usize,
    room: usize,
    words: &str,
) -> Result<(), AllocError>
    ensures { OnOk result (string_bytes text.new
        ≡ string_bytes text.old ++ lines.lines_after width later room (words_of words.now)) }
{
    let mut room = room;
    let mut rest = words;
    while let Some((word, after)) = next_word(rest) {
        room = push_next(text, width, later, room, word)?;
        rest = after;
    }
    text.push('\n')
}

// Appends the lines of a paragraph after one of a group, and gives the group after it.
pub(crate) fn push_paragraph(
    text: &mut String,
    width: usize,
    last: Group,
    setting: Setting,
    ink: &str,
) -> Result<Group, AllocError>
    ensures text { OnOk result (string_bytes text.new ≡ string_bytes text.old
        ++ lines.paragraph_text width last setting (words_of ink.now)) }
    ensures group { IfOk result (λ group.
        group ≡ lines.group_after last setting (words_of ink.now)) }
{
    let Some((word, rest)) = next_word(ink) else {
        return Ok(after_empty(last, setting.group));
    };
    if is_parted(last, setting.group) {
        text.push('\n')?;
    }
    let room = push_first(text, width, setting.first, word)?;
    push_after(text, width, setting.later, room, rest)?;
    Ok(setting.group)
}
