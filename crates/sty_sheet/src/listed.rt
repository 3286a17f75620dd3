//! A record as a sheet keeps it.

ghost use Rattle.std.specs.Prelude.{◌≡◌, Err, IfOk, OnErr};
ghost use Rattle.std.specs.Option.{ForSome};
ghost use Rattle.sty_sheet.specs.Records.{has_word};
ghost use Rattle.sty_sheet.specs.StyleViews.{record_of};
ghost use Rattle.sty_sheet.specs.Loops.UnderSets.{AreWords};

use crate::fault::SheetFault;
use crate::style::Style;
use indexmap::IndexSet;
use std::alloc::Global;

// This many bytes of OccursUnder are gone through where a word is looked up. Sheets that are in use
// have fewer.
const FEW: usize = 1024;

// A style, and a set of its words of OccursUnder where they have many bytes.
#[derive(Drop)]
pub(crate) struct Listed<'s> {
    pub(crate) style: Style<'s>,
    pub(crate) words: Option<IndexSet<&'s str>>,
    ghost same: { ForSome words (λ set. AreWords set (record_of style).under) },
}

// The words of OccursUnder, to be looked up.
fn words_of<'s>(alloc: Global, style: Style<'s>) -> Result<IndexSet<&'s str>, SheetFault>
    ensures words { IfOk result (λ set. AreWords set (record_of style.entry).under) }
    ensures memory { OnErr result (result ≡ Err SheetFault.Memory) }
{
    let mut words = IndexSet::new(alloc);
    for word in style.under_words() {
        words.insert(word)?;
    }
    Ok(words)
}

impl<'s> Listed<'s> {
    pub(crate) fn new(alloc: Global, style: Style<'s>) -> Result<Listed<'s>, SheetFault>
        ensures style { IfOk result (λ listed. listed.style ≡ style.entry) }
        ensures memory { OnErr result (result ≡ Err SheetFault.Memory) }
    {
        if style.under_len() <= FEW {
            return Ok(Listed { style, words: None });
        }
        let words = words_of(alloc, style)?;
        Ok(Listed {
            style,
            words: Some(words),
        })
    }

    // Whether a word is one of those of OccursUnder.
    pub(crate) fn has_under(&self, word: &str) -> bool
        ensures { result ≡ has_word word.now (record_of self.now.style).under }
    {
        match &self.words {
            None => self.style.has_under(word),
            Some(words) => words.contains(word),
        }
    }
}
