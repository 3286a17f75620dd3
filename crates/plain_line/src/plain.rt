ghost use Rattle.std.specs.Prelude.{◌≡◌, ◌<◌, ◌++◌, OnOk, string_bytes, encode_utf8_all};
ghost use Rattle.std.specs.Char.{digit_char};
ghost use Rattle.plain_line.specs.Plain as plain;

use std::alloc::AllocError;

/// Appends a text of one line: each control character of it, which is U+0000 to U+001F or U+007F
/// to U+009F, as `\x1b`, with the two hexadecimal digits of its code; each bidirectional control,
/// which is U+202A to U+202E or U+2066 to U+2069, as `\u202e`, with the four digits of its code; and
/// each other character as it is. After an error a front of that may be there.
///
/// # Errors
/// An allocation failed.
pub fn push_line(line: &mut String, text: &str) -> Result<(), AllocError>
    ensures { OnOk result (string_bytes line.new
        ≡ string_bytes line.old ++ plain.line text.now) }
{
    for sign in text.chars() {
        push_sign(line, sign)?;
    }
    Ok(())
}

/// Appends a text of several lines: as `push_line`, but a line feed and a tab are written as they
/// are.
///
/// # Errors
/// An allocation failed.
pub fn push_lines(lines: &mut String, text: &str) -> Result<(), AllocError>
    ensures { OnOk result (string_bytes lines.new
        ≡ string_bytes lines.old ++ plain.lines text.now) }
{
    for sign in text.chars() {
        push_sign_of_lines(lines, sign)?;
    }
    Ok(())
}

/// Whether a text has no control character and no bidirectional control, so that `push_line` writes
/// it as it is. It does not allocate.
pub fn is_plain(text: &str) -> bool
    ensures { result ≡ plain.is_plain text.now }
{
    text.chars().all(|sign| !is_obeyed(sign))
}

// Appends a character of lines.
fn push_sign_of_lines(lines: &mut String, sign: char) -> Result<(), AllocError>
    ensures { OnOk result (string_bytes lines.new
        ≡ string_bytes lines.old ++ encode_utf8_all (plain.sign_of_lines sign)) }
{
    if sign == '\n' || sign == '\t' {
        lines.push(sign)
    } else {
        push_sign(lines, sign)
    }
}

// Appends a character, or its code where a terminal obeys it.
pub(crate) fn push_sign(line: &mut String, sign: char) -> Result<(), AllocError>
    ensures { OnOk result (string_bytes line.new
        ≡ string_bytes line.old ++ encode_utf8_all (plain.sign sign)) }
{
    let code = sign as u32;
    if sign.is_control() {
        line.push('\\')?;
        line.push('x')?;
        return push_digits(line, code);
    }
    if is_direction(sign) {
        line.push('\\')?;
        line.push('u')?;
        push_digits(line, code / 256)?;
        return push_digits(line, code % 256);
    }
    line.push(sign)
}

// Whether a terminal obeys a character.
fn is_obeyed(sign: char) -> bool
    ensures { result ≡ plain.is_obeyed sign }
{
    sign.is_control() || is_direction(sign)
}

// Whether a character is a bidirectional control.
fn is_direction(sign: char) -> bool
    ensures { result ≡ plain.is_direction sign }
{
    matches!(sign, '\u{202a}'..='\u{202e}' | '\u{2066}'..='\u{2069}')
}

// Appends two hexadecimal digits.
fn push_digits(line: &mut String, number: u32) -> Result<(), AllocError>
    requires { number < 256 }
    ensures { OnOk result (string_bytes line.new
        ≡ string_bytes line.old ++ encode_utf8_all (plain.two_digits number)) }
{
    line.push(hex_digit(number / 16))?;
    line.push(hex_digit(number % 16))
}

fn hex_digit(value: u32) -> char
    requires { value < 16 }
    ensures { result ≡ digit_char value }
{
    char::from_digit(value, 16).unwrap_or('0')
}
