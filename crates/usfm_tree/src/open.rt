//! A node that is open, and which open nodes a token ends.

ghost use Rattle.std.specs.Prelude.{◌≡◌, ◌≤◌, length};
ghost use Rattle.std.specs.List.{prefix_len};
ghost use Rattle.std.specs.Option.{option_map};
ghost use Rattle.usfm_token.specs.View.{mark_parts};
ghost use Rattle.usfm_tree.specs.Loops.Stack.{closing_mark};
ghost use Rattle.usfm_tree.specs.Reading as reading;
ghost use Rattle.usfm_tree.specs.Loops.RoleViews.{role_view};
ghost use Rattle.usfm_tree.specs.Loops.ReaderViews.{opens_in, open_view};

use crate::role::Role;
use sty_sheet::StyleKind;
use usfm_token::Mark;

// How deep a node may be: the kids of the root are at depth 1.
pub(crate) const DEEPEST: usize = 64;

// A node that is open: what ends it, and what its reader keeps of it.
#[derive(Drop)]
pub(crate) struct Open<'s, K> {
    pub(crate) kind: StyleKind,
    pub(crate) closer: Option<&'s str>,
    pub(crate) nested: bool,
    pub(crate) kept: K,
}

// Whether a closing mark is of this node.
fn is_closed_by<K>(node: &Open<'_, K>, mark: Mark<'_>) -> bool
    ensures { result ≡ reading.is_closed_by (mark_parts mark.entry) (open_view node.now) }
{
    match node.closer {
        None => false,
        Some(closer) => !closer.is_empty() && closer == mark.name() && mark.nested() == node.nested,
    }
}

fn is_character(kind: StyleKind) -> bool
    ensures { result ≡ reading.is_character_kind kind }
{
    matches!(kind, StyleKind::Character)
}

fn is_note(kind: StyleKind) -> bool
    ensures { result ≡ reading.is_note_kind kind }
{
    matches!(kind, StyleKind::Note)
}

// How many open nodes a closing mark ends, the innermost being the last.
#[tactic(auto, using(crate::proofs::ReaderLemmas::opens_in_last))]
fn closed_by<K>(nodes: &[Open<'_, K>], mark: Mark<'_>) -> usize
    ensures value { result ≡ reading.closed_by (mark_parts mark.entry) (opens_in nodes.now) }
    ensures within { result ≤ length nodes.now }
{
    let Some((last, front)) = nodes.split_last() else {
        return 0;
    };
    if (is_character(last.kind) || is_note(last.kind)) && is_closed_by(last, mark) {
        return 1;
    }
    if !is_character(last.kind) {
        return 0;
    }
    let count = closed_by(front, mark);
    if count == 0 { 0 } else { count + 1 }
}

// How many open nodes a note mark ends.
#[tactic(auto, using(crate::proofs::ReaderLemmas::opens_in_last))]
fn to_note<K>(nodes: &[Open<'_, K>]) -> usize
    ensures value { result ≡ reading.to_note (opens_in nodes.now) }
    ensures within { result ≤ length nodes.now }
{
    let Some((last, front)) = nodes.split_last() else {
        return 0;
    };
    if is_note(last.kind) {
        return 1;
    }
    let count = to_note(front);
    if count == 0 { 0 } else { count + 1 }
}

// How many open nodes, the innermost on, are of characters.
#[tactic(auto, using(crate::proofs::ReaderLemmas::opens_in_last))]
fn leading_characters<K>(nodes: &[Open<'_, K>]) -> usize
    ensures value { result ≡ prefix_len reading.is_character (opens_in nodes.now) }
    ensures within { result ≤ length nodes.now }
{
    let Some((last, front)) = nodes.split_last() else {
        return 0;
    };
    if !is_character(last.kind) {
        return 0;
    }
    leading_characters(front) + 1
}

// How many open nodes a token ends.
#[tactic(auto, using(crate::proofs::ReaderLemmas::length_opens_in))]
pub(crate) fn ended<K>(nodes: &[Open<'_, K>], role: Role<'_, '_>) -> usize
    ensures value { result ≡ reading.ended (opens_in nodes.now) (role_view role.entry) }
    ensures within { result ≤ length nodes.now }
{
    match role {
        Role::Plain(_) | Role::Alone(_) | Role::Spans(_) => 0,
        Role::Closes(mark) => closed_by(nodes, mark),
        Role::Opens(StyleKind::Paragraph, _, _) => nodes.len(),
        Role::Opens(StyleKind::Note, _, _) => to_note(nodes),
        Role::Opens(StyleKind::Milestone, _, _) => 0,
        Role::Opens(StyleKind::Character, _, mark) => {
            if mark.nested() {
                0
            } else {
                leading_characters(nodes)
            }
        }
    }
}

// The closing mark that a token gives, where it ends this many nodes.
pub(crate) fn closing<'a>(role: Role<'a, '_>, count: usize) -> Option<Mark<'a>>
    ensures { option_map mark_parts result ≡ closing_mark (role_view role.entry) count }
{
    match role {
        Role::Closes(mark) => { if count == 1 { Some(mark) } else { None } }
        Role::Plain(_) | Role::Alone(_) | Role::Spans(_) | Role::Opens(..) => None,
    }
}
