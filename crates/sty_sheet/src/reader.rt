//! Reading a sheet field by field.

ghost use Rattle.std.specs.Prelude.{◌≡◌};
ghost use Rattle.sty_sheet.specs.Loops.FieldViews.{field_view};
ghost use Rattle.sty_sheet.specs.Sheets.{misplaced, kind_fault, field_fault};

use crate::fault::SheetFault;
use crate::field::Field;
use crate::records::Records;
use crate::sheet::Sheet;
use crate::style::Style;
use crate::words::{kind_named, split_word};
use std::alloc::Global;

// The fault of a field that is read where no marker line was seen before it.
fn misplaced(seen: bool, line: usize) -> Option<SheetFault>
    ensures { result ≡ misplaced seen line }
{
    if seen {
        None
    } else {
        Some(SheetFault::FieldBeforeMarker { line })
    }
}

fn kind_fault(line: usize, value: &str) -> Option<SheetFault>
    ensures { result ≡ kind_fault line value.now }
{
    match kind_named(value) {
        None => Some(SheetFault::BadStyleType { line }),
        Some(_) => None,
    }
}

// The fault of a line's field, where a marker line was seen before it or none was.
fn field_fault(seen: bool, line: usize, field: Field<'_>) -> Option<SheetFault>
    ensures { result ≡ field_fault seen line (field_view field.entry) }
{
    match field {
        Field::Passed => None,
        Field::Marker(value) => {
            if value.is_empty() {
                Some(SheetFault::EmptyMarker { line })
            } else {
                None
            }
        }
        Field::StyleType(value) => match misplaced(seen, line) {
            None => kind_fault(line, value),
            Some(fault) => Some(fault),
        },
        Field::OccursUnder(_) | Field::Endmarker(_) | Field::Name(_) | Field::TextType(_) => {
            misplaced(seen, line)
        }
    }
}

// The records that are whole, and the one that is being read.
#[derive(Drop)]
pub(crate) struct Reader<'s> {
    pub(crate) alloc: Global,
    pub(crate) records: Records<'s>,
    pub(crate) begun: Option<Style<'s>>,
}

impl<'s> Reader<'s> {
    ghost use Rattle.std.specs.Prelude.{[], None, Some, Ok, Err, OnOk, OnErr, is_some, IsSome};
    ghost use Rattle.sty_sheet.specs.Loops.Steps.{reading_of, after_field, began, extended, finished};
    ghost use Rattle.sty_sheet.specs.Loops.Steps.{BeginsAnother, Tells};
    ghost use Rattle.sty_sheet.specs.Views.{records_in, Gives};

    pub(crate) fn new(alloc: Global) -> Reader<'s>
        ensures { reading_of result ≡ record { whole = []; begun = None } }
    {
        Reader {
            alloc,
            records: Records::new(alloc),
            begun: None,
        }
    }

    // Takes the field of a line.
    pub(crate) fn take(&mut self, field: Field<'s>, line: usize) -> Result<(), SheetFault>
        ensures reads { let later = after_field (reading_of self.old) (field_view field.entry) in
            OnOk result (reading_of self.new ≡ later) }
        ensures fault { let seen = is_some (reading_of self.old).begun in
            Tells result (field_fault seen line (field_view field.entry)) }
        ensures memory { let read = field_view field.entry in
            result ≡ Err SheetFault.Memory → BeginsAnother self.old read }
    {
        match field_fault(self.begun.is_some(), line, field) {
            Some(fault) => Err(fault),
            None => self.add(field),
        }
    }

    // The sheet, with the record that was being read.
    pub(crate) fn finish(mut self) -> Result<Sheet<'s>, SheetFault>
        ensures { Gives result (Ok (finished (reading_of self.entry))) }
    {
        self.put_begun()?;
        let sheet = self.records.into_sheet(self.alloc)?;
        Ok(sheet)
    }

    fn add(&mut self, field: Field<'s>) -> Result<(), SheetFault>
        ensures reads { let later = after_field (reading_of self.old) (field_view field.entry) in
            OnOk result (reading_of self.new ≡ later) }
        ensures memory { OnErr result (result ≡ Err SheetFault.Memory) }
        ensures begun { OnErr result (BeginsAnother self.old (field_view field.entry)) }
    {
        match field {
            Field::Passed => Ok(()),
            Field::Marker(value) => self.begin(split_word(value).0),
            Field::OccursUnder(_)
            | Field::Endmarker(_)
            | Field::Name(_)
            | Field::StyleType(_)
            | Field::TextType(_) => {
                self.extend(field);
                Ok(())
            }
        }
    }

    fn extend(&mut self, field: Field<'s>)
        ensures { reading_of self.new ≡ extended (reading_of self.old) (field_view field.entry) }
    {
        if let Some(style) = self.begun {
            self.begun = Some(style.with_field(field));
        }
    }

    fn begin(&mut self, marker: &'s str) -> Result<(), SheetFault>
        ensures reads { let later = began marker.entry.now (reading_of self.old) in
            OnOk result (reading_of self.new ≡ later) }
        ensures memory { OnErr result (result ≡ Err SheetFault.Memory) }
        ensures begun { OnErr result (IsSome self.old.begun) }
    {
        self.put_begun()?;
        self.begun = Some(Style::of_marker(marker));
        Ok(())
    }

    fn put_begun(&mut self) -> Result<(), SheetFault>
        ensures puts { OnOk result (records_in self.new.records ≡ finished (reading_of self.old)) }
        ensures memory { OnErr result (result ≡ Err SheetFault.Memory) }
        ensures begun { OnErr result (IsSome self.old.begun) }
    {
        match self.begun.take() {
            None => Ok(()),
            Some(style) => self.records.put(self.alloc, style),
        }
    }
}
