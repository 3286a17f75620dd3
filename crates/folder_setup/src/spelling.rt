// A setup as its lines.
ghost use Rattle.std.specs.Prelude.{◌≡◌, ◌++◌, IfOk, OnOk, option_map, string_bytes};
ghost use Rattle.folder_setup.specs.Setups as setups;
ghost use Rattle.folder_setup.specs.Answers.{SpellsAs};

use crate::fault::SpellFault;
use crate::reading::{Setup, has_byte, is_value};
use std::alloc::{AllocError, Global};

/// The lines of a setup, which `read` reads as it was.
///
/// # Errors
/// - `BadValue`: a path or a name is empty, or has a line feed or a NUL.
/// - `Memory`: an allocation failed, and each value can be written.
pub fn spelled(alloc: Global, setup: &Setup<'_>) -> Result<String, SpellFault>
    ensures { SpellsAs string_bytes (setups.spelled (setups.setup_view setup.now)) result }
{
    if !has_values(setup) {
        return Err(SpellFault::BadValue);
    }
    Ok(lines(alloc, setup)?)
}

// Whether each value of a setup can be written.
fn has_values(setup: &Setup<'_>) -> bool
    ensures { result ≡ setups.has_values (setups.setup_view setup.now) }
{
    is_line_value(setup.project) && is_value_if(setup.box_folder) && is_value_if(setup.names)
}

// Whether a value can be written, if there is one.
fn is_value_if(value: Option<&str>) -> bool
    ensures { result ≡ setups.is_value_if (option_map (λ t. t.now) value.entry) }
{
    match value {
        None => true,
        Some(value) => is_line_value(value),
    }
}

// Whether a value can be written.
fn is_line_value(value: &str) -> bool
    ensures { result ≡ setups.is_line_value value.now }
{
    is_value(value) && !has_byte(value, b'\n')
}

// The lines of a setup.
fn lines(alloc: Global, setup: &Setup<'_>) -> Result<String, AllocError>
    ensures { IfOk result (λ text. string_bytes text ≡ setups.lines (setups.setup_view setup.now)) }
{
    let mut text = String::new(alloc);
    push_line(&mut text, "project ", setup.project)?;
    push_if(&mut text, "box ", setup.box_folder)?;
    push_if(&mut text, "names ", setup.names)?;
    Ok(text)
}

// Adds the line of a value, if there is one.
fn push_if(text: &mut String, word: &str, value: Option<&str>) -> Result<(), AllocError>
    ensures { OnOk result (string_bytes text.new
        ≡ string_bytes text.old ++ setups.line_if word.now (option_map (λ t. t.now) value.entry)) }
{
    match value {
        None => Ok(()),
        Some(value) => push_line(text, word, value),
    }
}

// Adds the line of a word and its value.
fn push_line(text: &mut String, word: &str, value: &str) -> Result<(), AllocError>
    ensures { OnOk result
        (string_bytes text.new ≡ string_bytes text.old ++ setups.line word.now value.now) }
{
    text.push_str(word)?;
    text.push_str(value)?;
    text.push_str("\n")
}
