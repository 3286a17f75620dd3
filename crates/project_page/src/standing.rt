// How the project stands, in numbers.
ghost use Rattle.std.specs.Prelude.{◌≡◌, ◌++◌, OnOk};
ghost use Rattle.std.specs.List.{flat_map};
ghost use Rattle.project_page.specs.Pages as pages;
ghost use Rattle.project_page.specs.Parts.{view};
ghost use Rattle.project_page.specs.Said.{said};

use crate::PageParts;
use crate::markup::{
    AWAITED_ROW, BODY, BOOKS, CONFLICTS_ROW, HEAD, MAKER, MAKER_COUNT, REPLACED, ROW_END, THINNED,
    VERSES,
};
use crate::said::{push_html, push_name, push_number};
use op_core::ReplicaName;
use project_status::Maker;
use std::alloc::{AllocError, Global};

// Adds the page's front, with the copy's name.
#[tactic(auto, unfolding(crate::specs::Pages::front))]
pub(crate) fn push_front(
    alloc: Global,
    page: &mut Vec<u8>,
    name: &ReplicaName,
) -> Result<(), AllocError>
    ensures { OnOk result (page.new.items ≡ page.old.items ++ pages.front said name.now) }
{
    push_html(page, HEAD)?;
    push_name(alloc, page, name.text())?;
    push_html(page, BODY)?;
    push_name(alloc, page, name.text())?;
    push_html(page, ROW_END)
}

// Adds the numbers of the project's status.
#[tactic(auto, unfolding(crate::specs::Pages::standing))]
pub(crate) fn push_standing(
    alloc: Global,
    page: &mut Vec<u8>,
    parts: &PageParts<'_>,
) -> Result<(), AllocError>
    ensures { OnOk result (page.new.items
        ≡ page.old.items ++ pages.standing said (view parts.now)) }
{
    push_row(alloc, page, BOOKS, parts.books.len())?;
    push_row(alloc, page, VERSES, parts.verses)?;
    push_makers(alloc, page, &parts.makers)?;
    push_row(alloc, page, REPLACED, parts.replaced)?;
    push_row(alloc, page, THINNED, parts.thinned)?;
    push_row(alloc, page, CONFLICTS_ROW, parts.conflicts.len())?;
    push_row(alloc, page, AWAITED_ROW, parts.awaited.len())
}

#[tactic(auto, unfolding(crate::specs::Pages::row))]
fn push_row(alloc: Global, page: &mut Vec<u8>, html: &str, number: usize) -> Result<(), AllocError>
    ensures { OnOk result (page.new.items ≡ page.old.items ++ pages.row html.now number) }
{
    push_number(alloc, page, html, number)?;
    push_html(page, ROW_END)
}

fn push_makers(alloc: Global, page: &mut Vec<u8>, makers: &[Maker]) -> Result<(), AllocError>
    ensures { OnOk result (page.new.items
        ≡ page.old.items ++ flat_map (pages.maker_row said) makers.now) }
{
    for maker in makers {
        push_maker(alloc, page, maker)?;
    }
    Ok(())
}

#[tactic(auto, unfolding(crate::specs::Pages::maker_row))]
fn push_maker(alloc: Global, page: &mut Vec<u8>, maker: &Maker) -> Result<(), AllocError>
    ensures { OnOk result (page.new.items ≡ page.old.items ++ pages.maker_row said maker.now) }
{
    push_html(page, MAKER)?;
    push_name(alloc, page, maker.name.text())?;
    push_row(alloc, page, MAKER_COUNT, maker.count)
}
