//! What a tree says of a mark, by what is around it.

ghost use Rattle.std.specs.Prelude.{◌≡◌, List, Bool, false, true, None, Some};
ghost use Rattle.std.specs.List.{list_any};
ghost use Rattle.std.specs.Option.{option_map, option_map_or};
ghost use Rattle.segment_check.specs.TreeConditions as conditions;
ghost use Rattle.segment_check.specs.TreeConditions.{is_among, is_restricted_kind, under_words};
ghost use Rattle.segment_check.specs.Loops.TreeViews.{Surroundings, allowed_names, inside_view};
ghost use Rattle.segment_check.specs.Loops.TreeViews.{is_misplaced, seen_by};
ghost use Rattle.sty_sheet.specs.Records.{Record, has_word, mark_style};
ghost use Rattle.sty_sheet.specs.Views.{record_of, records_of};
ghost use Rattle.usfm_token.specs.Tokens.{MarkParts};
ghost use Rattle.usfm_token.specs.View.{mark_parts};
ghost use Rattle.usfm_tree.specs.Reading.{marked};
ghost use Rattle.usfm_tree.specs.SheetViews.{style_view};

use crate::inside::{Allowed, Inside};
use crate::seen::Seen;
use sty_sheet::{Sheet, Style, StyleKind};
use usfm_token::Mark;

// Whether a mark, not closing, of a style, which may have none, begins a node where there is room.
fn begins_node(mark: Mark<'_>, style: Option<&Style<'_>>) -> bool
    ensures { let style = option_map (λ s. style_view (record_of s.now)) style.entry in
        result ≡ conditions.begins_node (marked (mark_parts mark.entry) style) }
{
    let Some(style) = style else {
        return false;
    };
    match style.kind() {
        None => false,
        Some(StyleKind::Character) => style.closer().is_some(),
        Some(_) => !mark.nested(),
    }
}

// Whether there is a name, and it is a word of OccursUnder of a mark's style.
fn has_name(sheet: &Sheet<'_>, name: &str, around: Option<&str>) -> bool
    ensures { let words = under_words (records_of sheet.now) name.now in
        result ≡ option_map_or (λ n. has_word n words)
        (option_map (λ n. n.now) around.entry) false }
{
    match around {
        None => false,
        Some(around) => sheet.has_under(name, around),
    }
}

// Whether a word of OccursUnder of a mark's style allows a node. The words are not gone through:
// each that would allow one is looked up.
fn any_allows(sheet: &Sheet<'_>, name: &str, allowed: Allowed<'_>) -> bool
    ensures { let words = under_words (records_of sheet.now) name.now in
        result ≡ list_any (is_among (allowed_names allowed.entry)) words }
{
    has_name(sheet, name, allowed.name) || allowed.nest && sheet.has_under(name, "NEST")
}

// Whether OccursUnder of a mark's style has words, none of which allows a node.
fn forbids(sheet: &Sheet<'_>, name: &str, style: &Style<'_>, allowed: Allowed<'_>) -> bool
    requires { mark_style (records_of sheet.now) name.now ≡ Some (record_of style.now) }
    ensures { let words = under_words (records_of sheet.now) name.now in
        result ≡ conditions.forbids words (allowed_names allowed.entry) }
{
    style.has_under_words() && !any_allows(sheet, name, allowed)
}

fn is_restricted(kind: StyleKind) -> bool
    ensures { result ≡ is_restricted_kind kind }
{
    matches!(kind, StyleKind::Character | StyleKind::Note)
}

// Whether OccursUnder of a mark's style does not allow a node of the kind.
fn is_under_another(
    sheet: &Sheet<'_>,
    inside: Inside<'_>,
    kind: StyleKind,
    name: &str,
    style: &Style<'_>,
) -> bool
    requires { mark_style (records_of sheet.now) name.now ≡ Some (record_of style.now) }
    ensures { let words = under_words (records_of sheet.now) name.now in
        result ≡ is_misplaced words (inside_view inside.entry) kind }
{
    is_restricted(kind) && forbids(sheet, name, style, inside.allowed(kind))
}

// What is seen of a leaf.
pub(crate) fn leaf_seen(sheet: &Sheet<'_>, inside: Inside<'_>, mark: Mark<'_>) -> Seen
    ensures { let here = inside_view inside.entry in
        result ≡ seen_by (records_of sheet.now) here (mark_parts mark.entry) None false }
{
    let style = sheet.style_of(mark.name());
    Seen {
        unknown_marker: !mark.closing() && style.is_none(),
        stray_close: mark.closing(),
        too_deep: !mark.closing() && begins_node(mark, style) && inside.room == 0,
        ..Seen::nothing()
    }
}

// What is seen of a mark that begins a node, which does not end with a closing mark.
pub(crate) fn node_seen(
    sheet: &Sheet<'_>,
    inside: Inside<'_>,
    kind: StyleKind,
    mark: Mark<'_>,
    style: &Style<'_>,
) -> Seen
    requires { mark_style (records_of sheet.now) (mark_parts mark).name
        ≡ Some (record_of style.now) }
    ensures { let here = inside_view inside.entry in
        result ≡ seen_by (records_of sheet.now) here (mark_parts mark.entry) (Some kind) false }
{
    Seen {
        unclosed_char: matches!(kind, StyleKind::Character) && !inside.in_note,
        unclosed_note: matches!(kind, StyleKind::Note),
        not_under: is_under_another(sheet, inside, kind, mark.name(), style),
        ..Seen::nothing()
    }
}

// What is seen of it where the node does end with a closing mark.
pub(crate) fn closed(seen: Seen) -> Seen
    ensures { (sheet : List Record) (here : Surroundings) (m : MarkParts) (kind : StyleKind)
        → seen ≡ seen_by sheet here m (Some kind) false
        → result ≡ seen_by sheet here m (Some kind) true }
{
    Seen {
        unclosed_char: false,
        unclosed_note: false,
        ..seen
    }
}

// What is seen of the mark of a milestone.
pub(crate) fn milestone_seen(sheet: &Sheet<'_>, mark: Mark<'_>) -> Seen
    ensures { (here : Surroundings) (is_closed : Bool)
        → let kind = Some StyleKind.Milestone in
        result ≡ seen_by (records_of sheet.now) here (mark_parts mark.entry) kind is_closed }
{
    Seen {
        unknown_marker: !mark.closing() && sheet.style_of(mark.name()).is_none(),
        ..Seen::nothing()
    }
}
