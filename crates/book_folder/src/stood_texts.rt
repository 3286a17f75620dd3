// The texts that files have, each found under its segment, so that a walk over all operations asks
// for each of theirs at little cost.
ghost use Rattle.std.specs.Prelude.{◌≡◌, map, IfOk, OnOk};
ghost use Rattle.std.specs.Option.{option_map};
ghost use Rattle.book_folder.specs.StoodTexts.{text_under, HasTexts, PutsText};
ghost use Rattle.book_folder.specs.Taking.{stood_view};

use crate::taking::Stood;
use op_core::Op;
use std::alloc::{AllocError, Global};
use std::collections::BTreeMap;
use usfm_ref::Segment;

// The first text that a file has for each segment, where that is another one than the base picks.
pub(crate) fn stood_texts<'a>(
    alloc: Global,
    stood: &'a [Stood],
) -> Result<BTreeMap<Segment, &'a str>, AllocError>
    ensures { IfOk result (λ texts. HasTexts (map stood_view stood.now) texts) }
{
    let mut texts = BTreeMap::new(alloc);
    let mut left = stood;
    'stood: while let [one, later @ ..] = left {
        put_text(&mut texts, one)?;
        left = later;
    }
    Ok(texts)
}

// Puts a text under its segment, unless one is there.
fn put_text<'a>(texts: &mut BTreeMap<Segment, &'a str>, one: &'a Stood) -> Result<(), AllocError>
    ensures { OnOk result (PutsText texts.old (stood_view one.now) texts.new) }
{
    let segment = Segment {
        book: one.book,
        key: one.key,
    };
    if texts.contains_key(&segment) {
        return Ok(());
    }
    match texts.insert(segment, one.text.as_str()) {
        Ok(_) => Ok(()),
        Err(_) => Err(AllocError),
    }
}

// The text that is under an operation's segment.
pub(crate) fn stood_text<'a>(texts: &BTreeMap<Segment, &'a str>, op: &Op) -> Option<&'a str>
    ensures { option_map (λ t. t.now) result ≡ text_under texts.now op.now }
{
    let segment = Segment {
        book: op.book(),
        key: op.key(),
    };
    texts.get(&segment).copied()
}
