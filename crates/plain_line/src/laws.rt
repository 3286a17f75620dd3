//! What holds of the definitions: the contract of each function here is a law, and its body does
//! nothing.
ghost use Rattle.plain_line.specs.Laws as laws;

use crate::text::CarriageReturn;

/// No control character and no bidirectional control is left in a line, nor in lines but for line
/// feeds and tabs, nor in a text of several lines but for line feeds; and a text that has none is
/// written as it is.
pub fn no_control_character_is_left(text: &str, returns: CarriageReturn)
    ensures line { laws.LineIsPlain text.now }
    ensures lines { laws.LinesArePlain text.now }
    ensures texts { laws.TextIsPlain returns text.now }
    ensures same { laws.PlainStays text.now }
    ensures same_text { laws.PlainTextStays returns text.now }
{}

/// Nor is one left in a line of bytes that need not be a text.
pub fn no_control_character_is_left_of_bytes(bytes: &[u8])
    ensures { laws.BytesArePlain bytes.now }
{}
