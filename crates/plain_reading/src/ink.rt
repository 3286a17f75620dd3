//! What is written of runs, with blanks between words.

ghost use Rattle.std.specs.Prelude.{◌≡◌, ◌++◌, IfOk, OnOk, string_bytes};
ghost use Rattle.std.specs.List.{flat_map};
ghost use Rattle.book_reading.specs.Readings.{is_caller};
ghost use Rattle.book_reading.specs.Views.{run_view, runs_view};
ghost use Rattle.plain_reading.specs.Paragraphs as paragraphs;

use book_reading::{Run, Sort};
use std::alloc::{AllocError, Global};

fn is_caller(sort: Sort) -> bool
    ensures { result ≡ is_caller sort }
{
    matches!(sort, Sort::Caller)
}

// Appends what stands for itself, between spaces.
fn push_set_off(ink: &mut String, text: &str) -> Result<(), AllocError>
    ensures { OnOk result (string_bytes ink.new
        ≡ string_bytes ink.old ++ paragraphs.set_off text.now) }
{
    ink.push(' ')?;
    ink.push_str(text)?;
    ink.push(' ')
}

// Appends the number of a note in brackets.
fn push_number(ink: &mut String, number: Option<usize>) -> Result<(), AllocError>
    ensures { OnOk result (string_bytes ink.new
        ≡ string_bytes ink.old ++ paragraphs.number_sign number) }
{
    let Some(number) = number else {
        return Ok(());
    };
    let alloc = *ink.allocator();
    let sign = format!(in alloc; "[{number}]")?;
    ink.push_str(&sign)
}

// Appends what is written of a run of a sort.
fn push_written(ink: &mut String, sort: Sort, text: &str) -> Result<(), AllocError>
    ensures { OnOk result (string_bytes ink.new
        ≡ string_bytes ink.old ++ paragraphs.written sort text.now) }
{
    match sort {
        Sort::Paragraph(_) | Sort::Caller | Sort::Markup => Ok(()),
        Sort::Words | Sort::Unknown => ink.push_str(text),
        Sort::Caption | Sort::Verse | Sort::Chapter => push_set_off(ink, text),
    }
}

// Appends what is written of a run in the text.
fn push_in_text(ink: &mut String, run: &Run<'_>) -> Result<(), AllocError>
    ensures { OnOk result (string_bytes ink.new
        ≡ string_bytes ink.old ++ paragraphs.in_text (run_view run.now)) }
{
    if is_caller(run.sort) {
        push_number(ink, run.note)
    } else if run.note.is_some() {
        Ok(())
    } else {
        push_written(ink, run.sort, run.text)
    }
}

// Appends the number of a note between spaces.
fn push_number_set_off(ink: &mut String, number: Option<usize>) -> Result<(), AllocError>
    ensures { OnOk result (string_bytes ink.new
        ≡ string_bytes ink.old ++ paragraphs.set_off (paragraphs.number_sign number)) }
{
    ink.push(' ')?;
    push_number(ink, number)?;
    ink.push(' ')
}

// Appends what is written of a run in the note that it stands in.
fn push_in_note(ink: &mut String, run: &Run<'_>) -> Result<(), AllocError>
    ensures { OnOk result (string_bytes ink.new
        ≡ string_bytes ink.old ++ paragraphs.in_note (run_view run.now)) }
{
    if is_caller(run.sort) {
        push_number_set_off(ink, run.note)
    } else {
        push_written(ink, run.sort, run.text)
    }
}

// What is written of runs in the text.
pub(crate) fn text_ink(alloc: Global, runs: &[Run<'_>]) -> Result<String, AllocError>
    ensures { IfOk result (λ ink. string_bytes ink
        ≡ flat_map paragraphs.in_text (runs_view runs.now)) }
{
    let mut ink = String::new(alloc);
    let mut rest = runs;
    'runs: while let [run, later @ ..] = rest {
        push_in_text(&mut ink, run)?;
        rest = later;
    }
    Ok(ink)
}

// What is written of the runs of a note.
pub(crate) fn note_ink(alloc: Global, runs: &[Run<'_>]) -> Result<String, AllocError>
    ensures { IfOk result (λ ink. string_bytes ink
        ≡ flat_map paragraphs.in_note (runs_view runs.now)) }
{
    let mut ink = String::new(alloc);
    let mut rest = runs;
    'runs: while let [run, later @ ..] = rest {
        push_in_note(&mut ink, run)?;
        rest = later;
    }
    Ok(ink)
}
