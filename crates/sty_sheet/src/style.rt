ghost use Rattle.std.specs.Prelude.{◌≡◌, [], length, not, slice_get, ◌==◌};
ghost use Rattle.std.specs.Option.{option_map};
ghost use Rattle.sty_sheet.specs.Loops.FieldViews.{field_view};
ghost use Rattle.sty_sheet.specs.Closers.{milestone_closer};
ghost use Rattle.sty_sheet.specs.Records.{has_word};
ghost use Rattle.sty_sheet.specs.Sheets.{record_with};
ghost use Rattle.sty_sheet.specs.Loops.Steps.{with_field};
ghost use Rattle.sty_sheet.specs.Views.{record_of, words_left};

use crate::field::Field;
use crate::kind::StyleKind;
use crate::under::UnderWords;
use crate::words::{after_blanks, closing_name, is_word, kind_named, word_at};

/// The record of a marker. Its texts are slices of the sheet's text.
#[derive(Clone, Copy, Debug)]
pub struct Style<'s> {
    marker: &'s str,
    name: &'s str,
    closer: Option<&'s str>,
    under: &'s str,
    kind: Option<StyleKind>,
    verse_text: bool,
}

impl<'s> Style<'s> {
    /// The marker's name, without a backslash: the first word of the field Marker.
    pub fn marker(&self) -> &'s str
        ensures { result.now ≡ (record_of self.now).marker }
    {
        self.marker
    }

    /// The field Name, empty if there is none.
    pub fn name(&self) -> &'s str
        ensures { result.now ≡ (record_of self.now).name }
    {
        self.name
    }

    /// The name of the mark that closes it: the field Endmarker without a last `*`, and `None`
    /// where nothing is left or there is no such field.
    pub fn closer(&self) -> Option<&'s str>
        ensures { option_map (λ n. n.now) result ≡ (record_of self.now).closer }
    {
        self.closer
    }

    /// The words of the field OccursUnder, in order. Blanks divide the words. It does not
    /// allocate.
    pub fn under_words(&self) -> UnderWords<'s>
        ensures { words_left result ≡ (record_of self.now).under }
    {
        UnderWords { rest: self.under }
    }

    /// The word at a place of the field OccursUnder, counted from 0, and `None` after the last.
    /// It passes over the words before it: whoever needs them all takes `under_words`.
    pub fn under(&self, place: usize) -> Option<&'s str>
        ensures { option_map (λ w. w.now) result ≡ slice_get (record_of self.now).under place }
    {
        word_at(self.under, place)
    }

    /// Whether the field OccursUnder has a word. It looks at the first alone.
    pub fn has_under_words(&self) -> bool
        ensures { result ≡ not (length (record_of self.now).under == 0) }
    {
        !after_blanks(self.under).is_empty()
    }

    /// The field StyleType, `None` if there is none.
    pub fn kind(&self) -> Option<StyleKind>
        ensures { result ≡ (record_of self.now).kind }
    {
        self.kind
    }

    /// Whether the field TextType is VerseText.
    pub fn verse_text(&self) -> bool
        ensures { result ≡ (record_of self.now).verse_text }
    {
        self.verse_text
    }

    // Whether a word is one of those of OccursUnder. It goes through them.
    pub(crate) fn has_under(&self, word: &str) -> bool
        ensures { result ≡ has_word word.now (record_of self.now).under }
    {
        self.under_words().any(|it| word == it)
    }

    // How many bytes the words of OccursUnder take, with the blanks between them.
    pub(crate) fn under_len(&self) -> usize {
        self.under.len()
    }

    // The record of a marker, without fields.
    pub(crate) fn of_marker(marker: &'s str) -> Style<'s>
        ensures { record_of result ≡ record_with marker.entry.now [] }
    {
        Style {
            marker,
            name: "",
            closer: None,
            under: "",
            kind: None,
            verse_text: false,
        }
    }

    // The record with one more field, which counts in place of an earlier one of its name.
    pub(crate) fn with_field(self, field: Field<'s>) -> Style<'s>
        ensures { record_of result ≡ with_field (field_view field.entry) (record_of self.entry) }
    {
        match field {
            Field::Passed | Field::Marker(_) => self,
            Field::OccursUnder(under) => Style { under, ..self },
            Field::Endmarker(value) => Style {
                closer: closing_name(value),
                ..self
            },
            Field::Name(name) => Style { name, ..self },
            Field::StyleType(value) => Style {
                kind: kind_named(value),
                ..self
            },
            Field::TextType(value) => Style {
                verse_text: is_word("VerseText", value),
                ..self
            },
        }
    }

    // The name of the marks that close it, if it is a milestone and has one.
    pub(crate) fn milestone_closer(&self) -> Option<&'s str>
        ensures { option_map (λ n. n.now) result ≡ milestone_closer (record_of self.now) }
    {
        match self.kind {
            Some(StyleKind::Milestone) => self.closer,
            Some(StyleKind::Paragraph | StyleKind::Character | StyleKind::Note) | None => None,
        }
    }
}
