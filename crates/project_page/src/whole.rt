// The page, from its front to its end.
ghost use Rattle.std.specs.Prelude.{◌≡◌, ◌++◌, IfOk, OnOk};
ghost use Rattle.versification.specs.Views.{verses_in};
ghost use Rattle.project_page.specs.Pages as pages;
ghost use Rattle.project_page.specs.Parts.{view};
ghost use Rattle.project_page.specs.Said.{said};

use crate::conflict::push_conflicts;
use crate::gather::parts_of;
use crate::markup::{AWAITED, AWAITED_BY, COUNT_END, END};
use crate::parts::PageParts;
use crate::progress::push_progress;
use crate::said::{push_html, push_id_line, push_number};
use crate::standing::{push_front, push_standing};
use op_core::OpId;
use replica_state::Replica;
use std::alloc::{AllocError, Global};
use versification::Versification;

/// The page about a replica by a versification (`page_bytes` of its `parts_of`).
///
/// # Errors
/// Out of memory alone. Nothing is kept of the page then.
pub fn page(
    alloc: Global,
    versification: &Versification,
    replica: &Replica,
) -> Result<Vec<u8>, AllocError>
    ensures { IfOk result (λ page.
        pages.IsPageOf (verses_in versification.now) replica.now page.items) }
{
    let parts = parts_of(alloc, versification, replica)?;
    page_bytes(alloc, &parts)
}

/// The page that says these parts, in HTML 5: how the project stands; its books, each chapter
/// shaded by how many of its verses have a text; each conflict between the texts around it, its
/// texts side by side with their makers, what differs marked, the picked one named, and a box to
/// tick; and what is awaited.
///
/// # Errors
/// Out of memory alone. Nothing is kept of the page then.
#[tactic(auto, unfolding(crate::specs::Pages::page_by))]
pub fn page_bytes(alloc: Global, parts: &PageParts<'_>) -> Result<Vec<u8>, AllocError>
    ensures { IfOk result (λ page. page.items ≡ pages.page (view parts.now)) }
{
    let mut page = Vec::new(alloc);
    push_front(alloc, &mut page, &parts.name)?;
    push_standing(alloc, &mut page, parts)?;
    push_progress(alloc, &mut page, &parts.books)?;
    push_conflicts(alloc, &mut page, &parts.conflicts)?;
    push_awaited(alloc, &mut page, &parts.awaited)?;
    push_html(&mut page, END)?;
    Ok(page)
}

// Adds how many ids are awaited, and each of them.
#[tactic(auto, unfolding(crate::specs::Pages::awaiting))]
fn push_awaited(alloc: Global, page: &mut Vec<u8>, ids: &[OpId]) -> Result<(), AllocError>
    ensures { OnOk result (page.new.items ≡ page.old.items ++ pages.awaiting said ids.now) }
{
    push_number(alloc, page, AWAITED, ids.len())?;
    push_html(page, COUNT_END)?;
    for id in ids {
        push_id_line(alloc, page, AWAITED_BY, id)?;
    }
    Ok(())
}
