// Texts of several lines, in which also tabs are spelled out.
ghost use Rattle.std.specs.Prelude.{◌≡◌, ◌<◌, ◌++◌, [], ◌∷◌, length, MatchOption, OnOk};
ghost use Rattle.std.specs.Prelude.{string_bytes, encode_utf8_all};
ghost use Rattle.std.specs.Str.{chars};
ghost use Rattle.plain_line.specs.Plain as plain;

use crate::plain::push_sign;
use std::alloc::AllocError;

/// How the carriage return before a line feed is shown, with which some editors end each line.
#[derive(Clone, Copy, Debug, PartialEq, Eq)]
pub enum CarriageReturn {
    /// Not at all.
    LeftOut,
    /// As `\x0d`.
    Spelled,
}

/// Appends a text of several lines: as `push_line`, but a line feed is written as it is, and the
/// carriage return before it may be left out. After an error a front of that may be there.
///
/// # Errors
/// An allocation failed.
#[tactic(auto, unfolding(crate::specs::Plain::text))]
pub fn push_text(lines: &mut String, text: &str, returns: CarriageReturn) -> Result<(), AllocError>
    ensures { OnOk result (string_bytes lines.new
        ≡ string_bytes lines.old ++ plain.text returns text.now) }
{
    let mut rest = text;
    while let Some((sign, after)) = split_sign(rest) {
        if !is_left_out(returns, sign, after) {
            push_sign_of_text(lines, sign)?;
        }
        rest = after;
    }
    Ok(())
}

// The first character of a text, and what follows it.
fn split_sign(text: &str) -> Option<(char, &str)>
    ensures { MatchOption result (chars text.now ≡ [])
        (λ (sign, after). (chars text.now ≡ sign ∷ chars after.now)
        × (length after.now < length text.now)) }
{
    let mut signs = text.chars();
    match signs.next() {
        Some(sign) => Some((sign, signs.as_str())),
        None => None,
    }
}

// Whether a character before a text is left out.
fn is_left_out(returns: CarriageReturn, sign: char, after: &str) -> bool
    ensures { result ≡ plain.is_left_out returns sign (chars after.now) }
{
    match (returns, split_sign(after)) {
        (CarriageReturn::LeftOut, Some((next, _))) => sign == '\r' && next == '\n',
        _ => false,
    }
}

// Appends a character of such a text.
fn push_sign_of_text(lines: &mut String, sign: char) -> Result<(), AllocError>
    ensures { OnOk result (string_bytes lines.new
        ≡ string_bytes lines.old ++ encode_utf8_all (plain.sign_of_text sign)) }
{
    if sign == '\n' {
        lines.push(sign)
    } else {
        push_sign(lines, sign)
    }
}
