//! What is around a place of a tree.

ghost use Rattle.std.specs.Prelude.{◌≡◌};

use sty_sheet::StyleKind;

// What the nodes around a mark decide: whether a note is among them, how many nodes may still be
// one in the other, the node directly around it if it is a character, and the nearest paragraph or
// note and the nearest paragraph, each by its name.
#[derive(Clone, Copy)]
pub(crate) struct Inside<'a> {
    pub(crate) in_note: bool,
    pub(crate) room: usize,
    pub(crate) character: Option<&'a str>,
    pub(crate) holder: Option<&'a str>,
    pub(crate) paragraph: Option<&'a str>,
}

impl<'a> Inside<'a> {
    ghost use Rattle.std.specs.Prelude.{[]};
    ghost use Rattle.segment_check.specs.Loops.TreeViews.{allowed_names, allowing, entering};
    ghost use Rattle.segment_check.specs.Loops.TreeViews.{inside_view, surroundings_of};

    // Under the root, where 64 nodes may be one in the other.
    pub(crate) fn root() -> Self
        ensures { inside_view result ≡ surroundings_of [] }
    {
        Inside {
            in_note: false,
            room: 64,
            character: None,
            holder: None,
            paragraph: None,
        }
    }

    // Within a node.
    pub(crate) fn within(self, kind: StyleKind, name: &'a str) -> Self
        ensures { inside_view result ≡ entering kind name.entry.now (inside_view self.entry) }
    {
        let inside = Inside {
            room: self.room.saturating_sub(1),
            character: None,
            ..self
        };
        match kind {
            StyleKind::Paragraph => Inside {
                holder: Some(name),
                paragraph: Some(name),
                ..inside
            },
            StyleKind::Character => Inside {
                character: Some(name),
                ..inside
            },
            StyleKind::Note => Inside {
                in_note: true,
                holder: Some(name),
                ..inside
            },
            StyleKind::Milestone => inside,
        }
    }

    // The words of OccursUnder that allow a node of a kind here.
    pub(crate) fn allowed(self, kind: StyleKind) -> Allowed<'a>
        ensures { allowed_names result ≡ allowing kind (inside_view self.entry) }
    {
        match (kind, self.character) {
            (StyleKind::Character, Some(name)) => Allowed {
                name: Some(name),
                nest: true,
            },
            (StyleKind::Character, None) => Allowed {
                name: self.holder,
                nest: false,
            },
            (StyleKind::Note, _) => Allowed {
                name: self.paragraph,
                nest: false,
            },
            (StyleKind::Paragraph | StyleKind::Milestone, _) => Allowed {
                name: None,
                nest: false,
            },
        }
    }
}

// The words of OccursUnder that allow a node: a name, if there is one, and perhaps NEST.
#[derive(Clone, Copy)]
pub(crate) struct Allowed<'a> {
    pub(crate) name: Option<&'a str>,
    pub(crate) nest: bool,
}
