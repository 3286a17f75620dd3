use crate::listed::Listed;
use crate::style::Style;
use indexmap::map::Values;

/// The records of a sheet, in order. It does not allocate.
#[derive(Drop)]
pub struct Styles<'t, 's> {
    pub(crate) values: Values<'t, &'s str, Listed<'s>>,
}

impl<'t, 's> Iterator for Styles<'t, 's> {
    ghost use Rattle.std.specs.Iterator.{YieldsFirstBy, item_count};
    ghost use Rattle.sty_sheet.specs.Views.{record_of, records_left};

    type Item = &'t Style<'s>;

    ghost next_gives = { YieldsFirstBy (λ style. record_of style.now) records_left };

    ghost remaining = { item_count records_left };

    fn next(&mut self) -> Option<&'t Style<'s>> {
        let listed = self.values.next()?;
        Some(&listed.style)
    }
}
