//! The fields of a sheet's lines.

ghost use Rattle.std.specs.Prelude.{◌≡◌};
ghost use Rattle.sty_sheet.specs.Loops.FieldViews.{field_view};
ghost use Rattle.sty_sheet.specs.Fields.{field_named, field_after, field_of};

use crate::line::body;
use crate::words::{is_word, split_word, trimmed};

// A line that is passed over, or a field that is read, with its value.
#[derive(Clone, Copy)]
pub(crate) enum Field<'s> {
    Passed,
    Marker(&'s str),
    OccursUnder(&'s str),
    Endmarker(&'s str),
    Name(&'s str),
    StyleType(&'s str),
    TextType(&'s str),
}

fn field_named<'s>(key: &str, value: &'s str) -> Field<'s>
    ensures { field_view result ≡ field_named key.now value.entry.now }
{
    if is_word("Marker", key) {
        return Field::Marker(value);
    }
    if is_word("OccursUnder", key) {
        return Field::OccursUnder(value);
    }
    if is_word("Endmarker", key) {
        return Field::Endmarker(value);
    }
    if is_word("Name", key) {
        return Field::Name(value);
    }
    if is_word("StyleType", key) {
        return Field::StyleType(value);
    }
    if is_word("TextType", key) {
        return Field::TextType(value);
    }
    Field::Passed
}

// The field after a backslash.
fn field_after(text: &str) -> Field<'_>
    ensures { field_view result ≡ field_after text.now }
{
    let (key, rest) = split_word(text);
    field_named(key, trimmed(rest))
}

// The field of a line.
pub(crate) fn field_of(line: &str) -> Field<'_>
    ensures { field_view result ≡ field_of line.now }
{
    let counts = body(line);
    if counts.is_empty() || counts.as_bytes()[0] != b'\\' {
        return Field::Passed;
    }
    field_after(&counts[1..])
}
