ghost use Rattle.std.specs.Prelude.{◌≡◌, map, Err, IsTrue};
ghost use Rattle.sty_sheet.specs.Closers.{HasFirstOf};
ghost use Rattle.sty_sheet.specs.Listing.{styles_in};

use crate::fault::SheetFault;
use crate::field::field_of;
use crate::line::after_feff;
use crate::listed::Listed;
use crate::reader::Reader;
use crate::style::Style;
use crate::styles::Styles;
use indexmap::IndexMap;
use std::alloc::Global;

/// A style sheet: the records of its markers, in the order in which the markers first stand.
#[derive(Drop)]
pub struct Sheet<'s> {
    pub(crate) styles: IndexMap<&'s str, Listed<'s>>,
    // The milestones by their closing names, of each name the first.
    pub(crate) closers: IndexMap<&'s str, Style<'s>>,
    ghost keyed: { map (λ e. e.0.now) styles.entries
        ≡ map (λ e. e.1.style.marker.now) styles.entries },
    ghost closed: { HasFirstOf closers (styles_in styles) },
}

impl<'s> Sheet<'s> {
    ghost use Rattle.std.specs.Prelude.{find};
    ghost use Rattle.std.specs.Option.{option_map};
    ghost use Rattle.sty_sheet.specs.Memory.{takes_memory};
    ghost use Rattle.sty_sheet.specs.Records.{named, mark_style, closes_milestone};
    ghost use Rattle.sty_sheet.specs.Records.{has_word, under_in};
    ghost use Rattle.sty_sheet.specs.Sheets.{sheet_of};
    ghost use Rattle.sty_sheet.specs.Views.{record_of, records_of, records_left, Gives};

    /// The records of a sheet's text.
    ///
    /// A line that begins with a backslash is a field: its name up to a blank (a space, a tab, CR
    /// or LF), and its value. Other lines are passed over, and so are fields of other names; of a
    /// field that a record has twice the last counts. U+FEFF at the text's start, blanks at a
    /// line's start, and one `#!` with the blanks after it are passed over; any other `#` at the
    /// start or after a blank begins a comment. Field names, style types and `VerseText` are
    /// compared without ASCII case. A second record of a marker replaces the first wholly and keeps
    /// its place.
    ///
    /// # Errors
    ///
    /// The fault of the first faulty line, and on one line `FieldBeforeMarker` before
    /// `BadStyleType`. `Memory` where an allocation failed: never in the place of
    /// `FieldBeforeMarker`, and in that of another fault only where two records begin before it.
    pub fn read(alloc: Global, text: &'s str) -> Result<Sheet<'s>, SheetFault>
        ensures sheet { Gives result (sheet_of text.now) }
        ensures memory { result ≡ Err SheetFault.Memory → IsTrue (takes_memory text.now) }
    {
        let mut reader = Reader::new(alloc);
        let mut number = 0;
        for line in after_feff(text).lines() {
            number += 1;
            reader.take(field_of(line), number)?;
        }
        reader.finish()
    }

    /// The record of a marker. It does not allocate.
    pub fn style(&self, name: &str) -> Option<&Style<'s>>
        ensures { option_map (λ s. record_of s.now) result ≡ named name.now (records_of self.now) }
    {
        match self.styles.get(name) {
            Some(listed) => Some(&listed.style),
            None => None,
        }
    }

    /// The record of a mark's name. If none has it, and the name is not empty, the first milestone
    /// whose closing name it is: the marks that end a milestone have no record of their own. It
    /// does not allocate.
    pub fn style_of(&self, name: &str) -> Option<&Style<'s>>
        ensures { let found = option_map (λ s. record_of s.now) result in
            found ≡ mark_style (records_of self.now) name.now }
    {
        match self.style(name) {
            Some(style) => Some(style),
            None => {
                if name.is_empty() {
                    None
                } else {
                    self.milestone(name)
                }
            }
        }
    }

    /// Whether a word is one of those of OccursUnder of a mark's record, as `style_of` finds it.
    /// Many words are looked up, and not gone through. It does not allocate.
    pub fn has_under(&self, name: &str, word: &str) -> bool
        ensures { let style = mark_style (records_of self.now) name.now in
            result ≡ has_word word.now (under_in style) }
    {
        if let Some(listed) = self.styles.get(name) {
            return listed.has_under(word);
        }
        match self.style_of(name) {
            Some(style) => style.has_under(word),
            None => false,
        }
    }

    /// The records, in the order in which their markers first stand. It does not allocate.
    pub fn iter(&self) -> Styles<'_, 's>
        ensures { records_left result ≡ records_of self.now }
    {
        Styles {
            values: self.styles.values(),
        }
    }

    // The first milestone that a mark of this name closes.
    fn milestone(&self, name: &str) -> Option<&Style<'s>>
        ensures { let found = option_map (λ s. record_of s.now) result in
            found ≡ find (closes_milestone name.now) (records_of self.now) }
    {
        self.closers.get(name)
    }
}
