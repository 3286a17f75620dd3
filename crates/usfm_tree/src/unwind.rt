//! What a token does to the open nodes of a walk.

ghost use Rattle.std.specs.Prelude.{◌≡◌, ◌<◌, ◌≤◌, List, None, length, vec_len, vec_capacity};
ghost use Rattle.std.specs.Option.{option_map};
ghost use Rattle.sty_sheet.specs.Records.{Record};
ghost use Rattle.usfm_token.specs.Tokens.{Lexeme};
ghost use Rattle.usfm_token.specs.View.{mark_parts};
ghost use Rattle.usfm_tree.specs.Reading as reading;
ghost use Rattle.usfm_tree.specs.Loops.ReaderViews.{opens_in};
ghost use Rattle.usfm_tree.specs.Loops.RoleViews.{role_view, HasOwnStyle};
ghost use Rattle.usfm_tree.specs.StepViews.{BeginsNoMilestone, IsStyled, Unwinds, EntersAs};

use crate::milestone::takes;
use crate::open::{DEEPEST, Open, closing, ended};
use crate::role::Role;
use crate::step::Entry;
use usfm_token::Mark;

// Ends what a token ends: this many nodes without a closing mark, and then one with this mark, if
// there is one.
pub(crate) fn unwind<'a, 's>(
    open_nodes: &mut Vec<Open<'s, ()>>,
    role: Role<'a, 's>,
) -> (usize, Option<Mark<'a>>)
    ensures unwinds { let close = option_map mark_parts result.1 in
        Unwinds role.entry (opens_in open_nodes.old.items) result.0 close
        (opens_in open_nodes.new.items) }
    ensures settled { result.1 ≡ None
        → reading.ended (opens_in open_nodes.new.items) (role_view role.entry) ≡ 0 }
    ensures fewer { vec_len open_nodes.new ≤ vec_len open_nodes.old }
    ensures capacity { vec_capacity open_nodes.new ≡ vec_capacity open_nodes.old }
{
    let mut without_mark = 0;
    let mut count = ended(open_nodes.as_slice(), role);
    while count != 0 {
        open_nodes.pop();
        if let Some(mark) = closing(role, count) {
            return (without_mark, Some(mark));
        }
        without_mark += 1;
        count = ended(open_nodes.as_slice(), role);
    }
    (without_mark, None)
}

// A text, if there is one, with where it begins.
fn placed<'a>(start: usize, text: Option<&'a str>) -> Option<(usize, &'a str)>
    ensures { result ≡ option_map (λ t. (start, t)) text.entry }
{
    match text {
        None => None,
        Some(text) => Some((start, text)),
    }
}

// What a token is that ends nothing more, and what is left after it: the source ends at `end`.
pub(crate) fn enter<'a, 's>(
    open_nodes: &mut Vec<Open<'s, ()>>,
    role: Role<'a, 's>,
    start: usize,
    end: usize,
    rest: &'a str,
) -> (Entry<'a, 's>, &'a str)
    requires room { vec_len open_nodes.old < vec_capacity open_nodes.old }
    requires settled { reading.ended (opens_in open_nodes.old.items) (role_view role) ≡ 0 }
    requires within { length rest.now ≤ end }
    ensures enters { let after = result.1.now in let rest = rest.entry.now in
        EntersAs role.entry start end rest after result.0
        (opens_in open_nodes.old.items) (opens_in open_nodes.new.items) }
    ensures within { length result.1.now ≤ length rest.entry.now }
    ensures style { (rs : List Record) → HasOwnStyle rs role.entry → IsStyled rs result.0 }
    ensures whole_milestones { (styles : reading.Styles) (token : Lexeme)
        → reading.role styles token ≡ role_view role.entry → BeginsNoMilestone result.0 }
{
    match role {
        Role::Plain(text) => (Entry::Text(start, text), rest),
        Role::Alone(mark) => (Entry::Leaf(mark), rest),
        Role::Closes(mark) => (Entry::Leaf(mark), rest),
        Role::Opens(kind, style, mark) => {
            if open_nodes.len() >= DEEPEST {
                return (Entry::Leaf(mark), rest);
            }
            let node = Open {
                kind,
                closer: style.closer(),
                nested: mark.nested(),
                kept: (),
            };
            open_nodes.push(node).unwrap();
            (Entry::Begin(kind, mark, style), rest)
        }
        Role::Spans(mark) => {
            if open_nodes.len() >= DEEPEST {
                return (Entry::Leaf(mark), rest);
            }
            let taken = takes(rest);
            let text = placed(end - rest.len(), taken.text);
            (Entry::Milestone(mark, text, taken.close), taken.after)
        }
    }
}
