// The first line of a text.
ghost use Rattle.std.specs.Prelude.{◌≡◌, ◌<◌, [], length, MatchOption, IfSome};
ghost use Rattle.line_editing.specs.Lines as lines;

/// A line of a text, lent from it.
#[derive(Clone, Copy, Debug, PartialEq, Eq)]
pub struct TextLine<'a> {
    /// What the line says.
    pub body: &'a str,
    /// How it ends: in CR LF, in LF, or, as the last one of a text, in neither.
    pub end: &'a str,
}

/// The first line of a text, and what comes later (`IsFirstLine`). None where the text is empty. It
/// does not allocate.
pub fn split_line(text: &str) -> Option<(TextLine<'_>, &str)>
    ensures line { MatchOption result (text.now ≡ [])
        (λ split. lines.IsFirstLine text.now (lines.line_view split.0) split.1.now) }
    ensures shorter { IfSome result (λ split. length split.1.now < length text.now) }
{
    match text.split_once('\n') {
        Some((line, later)) => Some((ended_line(line), later)),
        None if text.is_empty() => None,
        None => Some((
            TextLine {
                body: text,
                end: "",
            },
            "",
        )),
    }
}

// A line before a line feed, whose CR belongs to its end.
fn ended_line(line: &str) -> TextLine<'_>
    ensures { lines.IsEndedLine line.now (lines.line_view result) }
{
    match line.strip_suffix('\r') {
        Some(body) => TextLine { body, end: "\r\n" },
        None => TextLine {
            body: line,
            end: "\n",
        },
    }
}
