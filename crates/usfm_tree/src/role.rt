//! What a token does to a tree.

ghost use Rattle.std.specs.Prelude.{◌≡◌, List, Some};
ghost use Rattle.sty_sheet.specs.Records.{Record, mark_style};
ghost use Rattle.sty_sheet.specs.Views.{record_of, records_of};
ghost use Rattle.usfm_token.specs.View.{lexeme, mark_parts};
ghost use Rattle.usfm_tree.specs.Reading as reading;
ghost use Rattle.usfm_tree.specs.Loops.RoleViews.{role_view, HasOwnStyle};
ghost use Rattle.usfm_tree.specs.SheetViews.{styles_of};

use sty_sheet::{Sheet, Style, StyleKind};
use usfm_token::{Mark, Token};

// What a token does.
#[derive(Clone, Copy)]
pub(crate) enum Role<'a, 's> {
    Plain(&'a str),
    Alone(Mark<'a>),
    Spans(Mark<'a>),
    Opens(StyleKind, &'s Style<'s>, Mark<'a>),
    Closes(Mark<'a>),
}

fn styled<'a, 's>(mark: Mark<'a>, style: &'s Style<'s>) -> Role<'a, 's>
    ensures role { let r = record_of style.now in
        role_view result ≡ reading.styled (mark_parts mark.entry) r.closer r.kind }
    ensures style { (rs : List Record)
        → mark_style rs (mark_parts mark.entry).name ≡ Some (record_of style.now)
        → HasOwnStyle rs result }
{
    match (style.closer(), style.kind()) {
        (_, None) => Role::Alone(mark),
        (None, Some(StyleKind::Character)) => Role::Alone(mark),
        (Some(_), Some(StyleKind::Character)) => Role::Opens(StyleKind::Character, style, mark),
        (_, Some(StyleKind::Milestone)) => {
            if mark.nested() {
                Role::Alone(mark)
            } else {
                Role::Spans(mark)
            }
        }
        (_, Some(kind)) => {
            if mark.nested() {
                Role::Alone(mark)
            } else {
                Role::Opens(kind, style, mark)
            }
        }
    }
}

pub(crate) fn role_of<'a, 's>(sheet: &'s Sheet<'s>, token: Token<'a>) -> Role<'a, 's>
    ensures role { role_view result ≡ reading.role (styles_of sheet.now) (lexeme token.entry) }
    ensures style { HasOwnStyle (records_of sheet.now) result }
{
    match token {
        Token::Text(text) => Role::Plain(text),
        Token::Mark(mark) => {
            if mark.closing() {
                Role::Closes(mark)
            } else {
                match sheet.style_of(mark.name()) {
                    None => Role::Alone(mark),
                    Some(style) => styled(mark, style),
                }
            }
        }
    }
}
