// What is said once the steps of a plan were done, and what the project is then.
ghost use Rattle.std.specs.Prelude.{◌≡◌, ◌++◌, IfOk, OnOk, map, option_map, take};
ghost use Rattle.std.specs.List.{filter_map};
ghost use Rattle.book_folder.specs.Coming.{added_view};
ghost use Rattle.book_folder.specs.Done as done;
ghost use Rattle.book_folder.specs.Plans.{plan_view, step_view, told_view};

use crate::by_book::SomeBooks;
use crate::plan::{Added, Plan, Step, Told};
use std::alloc::{AllocError, Global};
use usfm_ref::{Book, Key};

// How many segments in conflict are named.
const MOST_NAMED: usize = 20;

/// A line of what is said once the steps of a plan were done.
#[derive(Debug, Drop)]
pub enum Line {
    /// How many operations the base brought.
    NewBase(u64),
    /// How many operations a bundle brought that is given by itself.
    New(u64),
    /// How many operations a bundle of a box brought, and its place among all that were read.
    NewInBox(u64, usize),
    /// How many edits a book's file made.
    Added(u64, Book),
    /// The file of this name was written.
    Wrote(String),
    /// The file of this name was left.
    Left(String),
    /// How many segments are in conflict.
    Conflicts(u64),
    /// A segment that is in conflict.
    Conflict(Book, Key),
}

/// The lines of what is said once the steps of a plan were done, where the files of some books were
/// left; of the bundles the first so many were given by themselves, and one may be the copy's own
/// of a box. It names at most twenty segments that are in conflict.
///
/// # Errors
/// Out of memory alone.
pub fn lines_of(
    alloc: Global,
    plan: &Plan,
    left: &[Book],
    named: usize,
    own: Option<usize>,
) -> Result<Vec<Line>, AllocError>
    ensures { IfOk result (λ lines. map done.line_view lines.items
        ≡ done.lines_of (plan_view plan.now) left.now named own) }
{
    let told = &plan.told;
    let mut lines = Vec::new(alloc);
    push_base(&mut lines, told.base)?;
    push_bundles(&mut lines, &told.bundles, named, own)?;
    push_added(&mut lines, &told.files)?;
    push_placed(&mut lines, &plan.steps, &SomeBooks::new(alloc, left)?)?;
    push_count(&mut lines, told)?;
    push_conflicts(&mut lines, first_named(&told.conflicts))?;
    Ok(lines)
}

// Adds the line of the base, where it brought something.
fn push_base(lines: &mut Vec<Line>, count: u64) -> Result<(), AllocError>
    ensures { OnOk result (map done.line_view lines.new.items
        ≡ map done.line_view lines.old.items ++ done.base_lines count) }
{
    if count == 0 {
        return Ok(());
    }
    lines.push(Line::NewBase(count))?;
    Ok(())
}

// Adds the lines of the bundles.
fn push_bundles(
    lines: &mut Vec<Line>,
    counts: &[u64],
    named: usize,
    own: Option<usize>,
) -> Result<(), AllocError>
    ensures { OnOk result (map done.line_view lines.new.items
        ≡ map done.line_view lines.old.items ++ done.bundle_lines named own counts.now) }
{
    let mut at = 0;
    let mut left = counts;
    'bundles: while let [count, later @ ..] = left {
        if let Some(line) = bundle_line(named, own, at, *count) {
            lines.push(line)?;
        }
        at += 1;
        left = later;
    }
    Ok(())
}

// The line of a bundle: of a copy's own of a box only where it brought something.
fn bundle_line(named: usize, own: Option<usize>, at: usize, count: u64) -> Option<Line>
    ensures { option_map done.line_view result ≡ done.bundle_line named own (at, count) }
{
    if count == 0 && own == Some(at) {
        None
    } else if at < named {
        Some(Line::New(count))
    } else {
        Some(Line::NewInBox(count, at))
    }
}

// Adds the lines of the files that made edits.
fn push_added(lines: &mut Vec<Line>, files: &[Added]) -> Result<(), AllocError>
    ensures { OnOk result (map done.line_view lines.new.items
        ≡ map done.line_view lines.old.items ++ map done.added_line (map added_view files.now)) }
{
    let mut left = files;
    'files: while let [added, later @ ..] = left {
        lines.push(Line::Added(added.count, added.book))?;
        left = later;
    }
    Ok(())
}

// Adds the lines of the files that were put in their places, or were left.
fn push_placed(
    lines: &mut Vec<Line>,
    steps: &[Step],
    books: &SomeBooks<'_>,
) -> Result<(), AllocError>
    ensures { OnOk result (map done.line_view lines.new.items ≡ map done.line_view lines.old.items
        ++ filter_map (done.step_line books.now.books.now) (map step_view steps.now)) }
{
    let mut left = steps;
    'steps: while let [step, later @ ..] = left {
        if let Some(line) = step_line(step, books)? {
            lines.push(line)?;
        }
        left = later;
    }
    Ok(())
}

// The line of a step, if it puts a book's new file in its place.
fn step_line(step: &Step, left: &SomeBooks<'_>) -> Result<Option<Line>, AllocError>
    ensures { IfOk result (λ line. option_map done.line_view line
        ≡ done.step_line left.now.books.now (step_view step.now)) }
{
    let Step::Place(placing) = step else {
        return Ok(None);
    };
    let name = placing.name.clone()?;
    if left.has(placing.book) {
        Ok(Some(Line::Left(name)))
    } else {
        Ok(Some(Line::Wrote(name)))
    }
}

// Adds the line of how many segments are in conflict, where some are, or something is awaited.
fn push_count(lines: &mut Vec<Line>, told: &Told) -> Result<(), AllocError>
    ensures { OnOk result (map done.line_view lines.new.items
        ≡ map done.line_view lines.old.items ++ done.count_lines (told_view told.now)) }
{
    if told.conflicts.is_empty() && !told.awaits {
        return Ok(());
    }
    lines.push(Line::Conflicts(told.conflicts.len() as u64))?;
    Ok(())
}

// The segments in conflict that are named.
fn first_named(conflicts: &[(Book, Key)]) -> &[(Book, Key)]
    ensures { result.now ≡ take 20 conflicts.now }
{
    match conflicts.get(..MOST_NAMED) {
        Some(first) => first,
        None => conflicts,
    }
}

// Adds the lines of segments that are in conflict.
fn push_conflicts(lines: &mut Vec<Line>, conflicts: &[(Book, Key)]) -> Result<(), AllocError>
    ensures { OnOk result (map done.line_view lines.new.items
        ≡ map done.line_view lines.old.items ++ map done.conflict_line conflicts.now) }
{
    let mut left = conflicts;
    'conflicts: while let [conflict, later @ ..] = left {
        let (book, key) = *conflict;
        lines.push(Line::Conflict(book, key))?;
        left = later;
    }
    Ok(())
}

/// The project's bytes once the steps of a plan were done, by those before.
pub fn project_after<'a>(plan: &'a Plan, before: &'a [u8]) -> &'a [u8]
    ensures { result.now ≡ done.project_after before.now (plan_view plan.now).steps }
{
    let mut after = before;
    let mut left = plan.steps.as_slice();
    'steps: while let [step, later @ ..] = left {
        after = replaced_by(after, step);
        left = later;
    }
    after
}

// The project's bytes after a step.
fn replaced_by<'a>(before: &'a [u8], step: &'a Step) -> &'a [u8]
    ensures { result.now ≡ done.replaced_by before.now (step_view step.now) }
{
    match step {
        Step::ReplaceProject(bytes) => bytes,
        _ => before,
    }
}
