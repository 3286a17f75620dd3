ghost use Rattle.std.specs.Prelude.{◌≡◌, IfOk};
ghost use Rattle.segment_check.specs.Findings.{findings};
ghost use Rattle.sty_sheet.specs.Views.{records_of};

use crate::finding::Finding;
use crate::marks::find_marks;
use crate::sighting::see_marks;
use std::alloc::{AllocError, Global};
use sty_sheet::Sheet;

/// The findings in a book by a style sheet, by their starts, and at one start in the order of the
/// codes.
///
/// # Errors
///
/// `AllocError` where there is no memory for the tree of the book or for the list.
pub fn check(alloc: Global, text: &str, sheet: &Sheet<'_>) -> Result<Vec<Finding>, AllocError>
    ensures { IfOk result (λ list. list.items ≡ findings (records_of sheet.now) text.now) }
{
    let seen = see_marks(alloc, text, sheet)?;
    let findings = find_marks(alloc, text, seen.as_slice())?;
    Ok(findings)
}
