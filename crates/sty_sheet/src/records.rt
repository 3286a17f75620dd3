//! The records of a sheet while it is read.

ghost use Rattle.std.specs.Prelude.{◌≡◌, map, OnOk, OnErr, IfOk, Err};
ghost use Rattle.sty_sheet.specs.Closers.{AddsTo, HasFirstOf};
ghost use Rattle.sty_sheet.specs.Listing.{styles_in};

use crate::fault::SheetFault;
use crate::listed::Listed;
use crate::sheet::Sheet;
use crate::style::Style;
use indexmap::IndexMap;
use std::alloc::Global;

// The records by their markers, in the order in which the markers first come.
#[derive(Drop)]
pub(crate) struct Records<'s> {
    pub(crate) styles: IndexMap<&'s str, Listed<'s>>,
    ghost keyed: { map (λ e. e.0.now) styles.entries
        ≡ map (λ e. e.1.style.marker.now) styles.entries },
}

// Puts a milestone under its closing name, if none is there.
fn add_closer<'s>(
    closers: &mut IndexMap<&'s str, Style<'s>>,
    style: Style<'s>,
) -> Result<(), SheetFault>
    ensures adds { OnOk result (AddsTo closers.old style.entry closers.new) }
    ensures memory { OnErr result (result ≡ Err SheetFault.Memory) }
{
    if let Some(closer) = style.milestone_closer() {
        if closers.get(closer).is_none() {
            closers.insert(closer, style)?;
        }
    }
    Ok(())
}

// The milestones by their closing names, of each name the first.
fn closers_of<'s>(
    alloc: Global,
    styles: &IndexMap<&'s str, Listed<'s>>,
) -> Result<IndexMap<&'s str, Style<'s>>, SheetFault>
    ensures first { IfOk result (λ closers. HasFirstOf closers (styles_in styles.now)) }
    ensures memory { OnErr result (result ≡ Err SheetFault.Memory) }
{
    let mut closers = IndexMap::new(alloc);
    for listed in styles.values() {
        add_closer(&mut closers, listed.style)?;
    }
    Ok(closers)
}

impl<'s> Records<'s> {
    ghost use Rattle.std.specs.Prelude.{[]};
    ghost use Rattle.sty_sheet.specs.Loops.Steps.{put};
    ghost use Rattle.sty_sheet.specs.Views.{record_of, records_in, records_of};

    // No records.
    pub(crate) fn new(alloc: Global) -> Records<'s>
        ensures { records_in result ≡ [] }
    {
        Records {
            styles: IndexMap::new(alloc),
        }
    }

    // Puts a record after the others, or in the place of the one of its marker.
    pub(crate) fn put(&mut self, alloc: Global, style: Style<'s>) -> Result<(), SheetFault>
        ensures puts { let later = put (records_in self.old) (record_of style.entry) in
            OnOk result (records_in self.new ≡ later) }
        ensures memory { OnErr result (result ≡ Err SheetFault.Memory) }
    {
        let listed = Listed::new(alloc, style)?;
        self.insert(listed)
    }

    fn insert(&mut self, listed: Listed<'s>) -> Result<(), SheetFault>
        ensures puts { let later = put (records_in self.old) (record_of listed.entry.style) in
            OnOk result (records_in self.new ≡ later) }
        ensures memory { OnErr result (result ≡ Err SheetFault.Memory) }
    {
        self.styles.insert(listed.style.marker(), listed)?;
        Ok(())
    }

    // The sheet of these records. The milestones are looked up by their closing names from now on:
    // while records can still be replaced, the first of a name is not settled.
    pub(crate) fn into_sheet(self, alloc: Global) -> Result<Sheet<'s>, SheetFault>
        ensures records { IfOk result (λ sheet. records_of sheet ≡ records_in self.entry) }
        ensures memory { OnErr result (result ≡ Err SheetFault.Memory) }
    {
        let closers = closers_of(alloc, &self.styles)?;
        let Records { styles } = self;
        Ok(Sheet { styles, closers })
    }
}
