// What a page is made of: fixed pieces, numbers, and texts, which are escaped.
ghost use Rattle.std.specs.Prelude.{◌≡◌, ◌++◌, OnOk, string_bytes, encode_utf8_all};
ghost use Rattle.std.specs.List.{flat_map};
ghost use Rattle.std.specs.Str.{chars};
ghost use Rattle.usfm_token.specs.View.{lexeme};
ghost use Rattle.project_page.specs.Pages as pages;
ghost use Rattle.plain_line.specs.declared.text.CarriageReturn.TheVariants as returning;
ghost use Rattle.project_page.specs.Said.{is_noncharacter, reference, said};

use crate::markup::{LINE_END, MARK, MARK_END, OPERATION};
use op_core::OpId;
use plain_line::{CarriageReturn, push_text as push_plain};
use std::alloc::{AllocError, Global};
use usfm_token::{Token, TokenIter};

// Adds a fixed piece.
pub(crate) fn push_html(page: &mut Vec<u8>, html: &str) -> Result<(), AllocError>
    ensures { OnOk result (page.new.items ≡ page.old.items ++ html.now) }
{
    page.extend_from_slice(html.as_bytes())
}

// Adds a number, after the piece that names it.
#[tactic(auto, unfolding(crate::specs::Pages::numbered))]
pub(crate) fn push_number(
    alloc: Global,
    page: &mut Vec<u8>,
    html: &str,
    number: usize,
) -> Result<(), AllocError>
    ensures { OnOk result (page.new.items ≡ page.old.items ++ pages.numbered html.now number) }
{
    let words = format!(in alloc; "{html}{number}")?;
    page.extend_from_slice(words.as_bytes())
}

// Adds a name, escaped.
pub(crate) fn push_name(alloc: Global, page: &mut Vec<u8>, name: &str) -> Result<(), AllocError>
    ensures { OnOk result (page.new.items
        ≡ page.old.items ++ said returning.LeftOut name.now) }
{
    push_said(alloc, page, name, CarriageReturn::LeftOut)
}

// Adds a text or a name, escaped.
#[tactic(auto, unfolding(crate::specs::Said::said))]
fn push_said(
    alloc: Global,
    page: &mut Vec<u8>,
    text: &str,
    returns: CarriageReturn,
) -> Result<(), AllocError>
    ensures { OnOk result (page.new.items ≡ page.old.items ++ said returns text.now) }
{
    let mut plain = String::new(alloc);
    push_plain(&mut plain, text, returns)?;
    let mut said = String::new(alloc);
    push_references(&mut said, &plain)?;
    page.extend_from_slice(said.as_bytes())
}

// Adds what stands for each character of a text.
fn push_references(said: &mut String, text: &str) -> Result<(), AllocError>
    ensures { OnOk result (string_bytes said.new
        ≡ string_bytes said.old ++ encode_utf8_all (flat_map reference (chars text.now))) }
{
    for sign in text.chars() {
        push_reference(said, sign)?;
    }
    Ok(())
}

// Adds a character, or what stands for it.
fn push_reference(said: &mut String, sign: char) -> Result<(), AllocError>
    ensures { OnOk result (string_bytes said.new
        ≡ string_bytes said.old ++ encode_utf8_all (reference sign)) }
{
    match sign {
        '&' => said.push_str("&amp;"),
        '<' => said.push_str("&lt;"),
        '>' => said.push_str("&gt;"),
        '"' => said.push_str("&quot;"),
        '\'' => said.push_str("&#39;"),
        _ if is_noncharacter(sign) => said.push('\u{fffd}'),
        _ => said.push(sign),
    }
}

// Whether a character is one that Unicode assigns to nothing, and HTML does not permit.
fn is_noncharacter(sign: char) -> bool
    ensures { result ≡ is_noncharacter sign }
{
    matches!(sign, '\u{fdd0}'..='\u{fdef}') || sign as u32 % 0x1_0000 >= 0xfffe
}

// Adds a text, each mark of it apart.
pub(crate) fn push_text(
    alloc: Global,
    page: &mut Vec<u8>,
    text: &str,
    returns: CarriageReturn,
) -> Result<(), AllocError>
    ensures { OnOk result (page.new.items
        ≡ page.old.items ++ pages.text_said (said returns) text.now) }
{
    for token in TokenIter::new(text) {
        push_token(alloc, page, &token, returns)?;
    }
    Ok(())
}

fn push_token(
    alloc: Global,
    page: &mut Vec<u8>,
    token: &Token<'_>,
    returns: CarriageReturn,
) -> Result<(), AllocError>
    ensures { OnOk result (page.new.items
        ≡ page.old.items ++ pages.token_said (said returns) (lexeme token.now)) }
{
    match token {
        Token::Text(text) => push_said(alloc, page, text, returns),
        Token::Mark(mark) => {
            push_html(page, MARK)?;
            push_said(alloc, page, mark.slice(), returns)?;
            push_html(page, MARK_END)
        }
    }
}

// Adds an id in a line of its own, after the piece that says whose it is.
#[tactic(auto, unfolding(crate::specs::Pages::id_line))]
pub(crate) fn push_id_line(
    alloc: Global,
    page: &mut Vec<u8>,
    html: &str,
    id: &OpId,
) -> Result<(), AllocError>
    ensures { OnOk result (page.new.items
        ≡ page.old.items ++ pages.id_line said html.now id.now) }
{
    push_html(page, html)?;
    push_name(alloc, page, id.name.text())?;
    push_number(alloc, page, OPERATION, id.number as usize)?;
    push_html(page, LINE_END)
}
