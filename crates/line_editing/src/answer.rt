// What is answered of a line of a text, and what becomes of the line.
ghost use Rattle.std.specs.Prelude.{◌≡◌, ◌++◌, OnOk, string_bytes};
ghost use Rattle.line_editing.specs.Answers as answers;
ghost use Rattle.line_editing.specs.Lines.{line_view};

use crate::line::TextLine;
use std::alloc::AllocError;

/// What is answered of a line of a text.
#[derive(Clone, Copy, Debug, PartialEq, Eq)]
pub enum LineAnswer<'a> {
    /// It is kept.
    Keep,
    /// It is left out.
    LeaveOut,
    /// It is kept, and this is a line after it.
    Add(&'a str),
    /// This takes its place.
    Replace(&'a str),
}

/// What a typed line, without its line end, answers: nothing, that the line is kept; `-`, that it
/// is left out; `+` and a blank, that what follows these is added after it; anything else takes its
/// place (`answer_of`).
pub fn line_answer(typed: &str) -> LineAnswer<'_>
    ensures { answers.answer_view result ≡ answers.answer_of typed.now }
{
    if typed.is_empty() {
        return LineAnswer::Keep;
    }
    if typed == "-" {
        return LineAnswer::LeaveOut;
    }
    match typed.strip_prefix("+ ") {
        Some(text) => LineAnswer::Add(text),
        None => LineAnswer::Replace(typed),
    }
}

/// Appends what becomes of a line by an answer (`answered`). What takes its place, or is added, ends
/// as the line does. After an error a front of that may be there.
///
/// # Errors
/// An allocation failed.
pub fn push_answered(
    made: &mut String,
    line: TextLine<'_>,
    answer: LineAnswer<'_>,
) -> Result<(), AllocError>
    ensures { OnOk result (string_bytes made.new ≡ string_bytes made.old
        ++ answers.answered (line_view line.entry) (answers.answer_view answer.entry)) }
{
    match answer {
        LineAnswer::Keep => {
            made.push_str(line.body)?;
            made.push_str(line.end)
        }
        LineAnswer::LeaveOut => Ok(()),
        LineAnswer::Add(text) => {
            made.push_str(line.body)?;
            made.push_str(or_line_feed(line.end))?;
            made.push_str(text)?;
            made.push_str(line.end)
        }
        LineAnswer::Replace(text) => {
            made.push_str(text)?;
            made.push_str(line.end)
        }
    }
}

// A line end, or a line feed where there is none.
fn or_line_feed(end: &str) -> &str
    ensures { result.now ≡ answers.or_line_feed end.now }
{
    if end.is_empty() { "\n" } else { end }
}
