// The lines of findings and hits by a form.
ghost use Rattle.std.specs.Prelude.{◌≡◌, ◌+◌, ◌<◌, ◌≤◌, ◌++◌, length, IfOk, OnOk};
ghost use Rattle.std.specs.List.{All};
ghost use Rattle.concordance.specs.Views.{hit_view, hits_view};
ghost use Rattle.book_reports.specs.Forms as forms;
ghost use Rattle.book_reports.specs.Loops.Places.{HitFits};

use crate::form::Places;
use crate::mark::mark_len;
use concordance::Hit;
use line_column::Walk;
use line_excerpt::{SetOff, push_excerpt};
use segment_check::Finding;
use std::alloc::{AllocError, Global};
use usfm_ref::{Book, write_ref};

// The findings in a text, a line for each.
pub(crate) fn findings_in(
    alloc: Global,
    places: Places,
    set_off: Option<SetOff>,
    file: &str,
    book: Book,
    text: &[u8],
    found: &[Finding],
) -> Result<Vec<u8>, AllocError>
    requires { All (λ f. f.start < length text.now) found.now }
    ensures { IfOk result (λ bytes.
        bytes.items ≡ forms.findings_in places set_off file.now book text.now found.now) }
{
    let mut walk = Walk::new(text);
    let mut bytes = Vec::new(alloc);
    for finding in found {
        push_finding(alloc, &mut bytes, places, file, &mut walk, book, finding)?;
        let start = finding.start;
        push_end(&mut bytes, set_off, text, start, mark_len(text, start))?;
    }
    Ok(bytes)
}

// Appends where a finding stands, and its code.
fn push_finding(
    alloc: Global,
    bytes: &mut Vec<u8>,
    places: Places,
    file: &str,
    walk: &mut Walk<'_>,
    book: Book,
    finding: &Finding,
) -> Result<(), AllocError>
    ensures bytes { OnOk result (bytes.new.items
        ≡ bytes.old.items ++ forms.finding_front places file.now book walk.old finding.now) }
    ensures walk { walk.new ≡ walk.old }
{
    let reference = write_ref(alloc, book, finding.key)?;
    let code = finding.code.name();
    let start = finding.start;
    let front = match places {
        Places::Starts => format!(in alloc; "{reference} {code} {start}")?,
        Places::Lines => {
            let at = walk.place(start);
            let (line, column) = (at.line, at.column);
            format!(in alloc; "{reference}:{line}:{column}: {code}")?
        }
        Places::FileLines => {
            let at = walk.place(start);
            let (line, column) = (at.line, at.column);
            format!(in alloc; "{file}:{line}:{column}: {code} {reference}")?
        }
    };
    bytes.extend_from_slice(front.as_bytes())
}

// The hits in a text, a line for each.
pub(crate) fn hits_in(
    alloc: Global,
    places: Places,
    set_off: Option<SetOff>,
    file: &str,
    book: Book,
    text: &[u8],
    hits: &[Hit<'_>],
) -> Result<Vec<u8>, AllocError>
    requires { All (HitFits text.now) (hits_view hits.now) }
    ensures { IfOk result (λ bytes.
        bytes.items
        ≡ forms.hits_in places set_off file.now book text.now (hits_view hits.now)) }
{
    let mut walk = Walk::new(text);
    let mut bytes = Vec::new(alloc);
    for hit in hits {
        push_hit(alloc, &mut bytes, places, file, &mut walk, book, hit)?;
        push_end(&mut bytes, set_off, text, hit.start, hit.text.len())?;
    }
    Ok(bytes)
}

// Appends where a hit stands.
fn push_hit(
    alloc: Global,
    bytes: &mut Vec<u8>,
    places: Places,
    file: &str,
    walk: &mut Walk<'_>,
    book: Book,
    hit: &Hit<'_>,
) -> Result<(), AllocError>
    ensures bytes { OnOk result (bytes.new.items
        ≡ bytes.old.items ++ forms.hit_front places file.now book walk.old (hit_view hit.now)) }
    ensures walk { walk.new ≡ walk.old }
{
    let reference = write_ref(alloc, book, hit.key)?;
    let name = "found";
    let start = hit.start;
    let front = match places {
        Places::Starts => format!(in alloc; "{reference} {start}")?,
        Places::Lines => {
            let at = walk.place(start);
            let (line, column) = (at.line, at.column);
            format!(in alloc; "{reference}:{line}:{column}: {name}")?
        }
        Places::FileLines => {
            let at = walk.place(start);
            let (line, column) = (at.line, at.column);
            format!(in alloc; "{file}:{line}:{column}: {name} {reference}")?
        }
    };
    bytes.extend_from_slice(front.as_bytes())
}

// Appends the line of the text after a space, where something sets off what is found, and ends the
// line.
fn push_end(
    bytes: &mut Vec<u8>,
    set_off: Option<SetOff>,
    text: &[u8],
    start: usize,
    len: usize,
) -> Result<(), AllocError>
    requires { start + len ≤ length text.now }
    ensures { OnOk result (bytes.new.items
        ≡ bytes.old.items ++ forms.line_end set_off text.now start len) }
{
    if let Some(set_off) = set_off {
        bytes.push(b' ')?;
        push_excerpt(bytes, set_off, text, start, len)?;
    }
    bytes.push(b'\n')?;
    Ok(())
}
