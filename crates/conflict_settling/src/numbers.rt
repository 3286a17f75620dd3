// The numbers of texts, each found under its text, so that it costs little to ask for each of however
// many.
ghost use Rattle.std.specs.Prelude.{◌≡◌, IfOk, OnOk, map};
ghost use Rattle.conflict_settling.specs.Numbers as numbers;
ghost use Rattle.conflict_settling.specs.Questions.{number_in};

use op_core::Op;
use std::alloc::{AllocError, Global};
use std::collections::BTreeMap;

// Operations, with the number of each one's text, the first being 1.
#[derive(Drop)]
pub(crate) struct TextNumbers<'o, 'a> {
    pub(crate) ops: &'o [&'a Op],
    by_text: BTreeMap<&'a str, usize>,
    ghost has: { numbers.HasNumbers (map (λ op. op.now) ops.now) by_text },
}

impl<'o, 'a> TextNumbers<'o, 'a> {
    // The numbers of the texts of these operations.
    pub(crate) fn new(alloc: Global, ops: &'o [&'a Op]) -> Result<TextNumbers<'o, 'a>, AllocError>
        ensures { IfOk result (λ made. made.ops.now ≡ ops.now) }
    {
        let by_text = numbers_of(alloc, ops)?;
        Ok(TextNumbers { ops, by_text })
    }

    // The number of the first one that has a text; 0 where none has it.
    pub(crate) fn number_of(&self, text: &str) -> usize
        ensures { result ≡ number_in (map (λ op. op.now) self.now.ops.now) text.now }
    {
        self.by_text.get(text).copied().unwrap_or(0)
    }
}

// The number of the first operation that has each text.
fn numbers_of<'a>(alloc: Global, ops: &[&'a Op]) -> Result<BTreeMap<&'a str, usize>, AllocError>
    ensures { let view = map (λ op. op.now) ops.now in
        IfOk result (λ made. numbers.HasNumbers view made) }
{
    let mut by_text = BTreeMap::new(alloc);
    let mut left = ops;
    'ops: while let [earlier @ .., op] = left {
        // Of several with one text, the first one is put last, and stays.
        put(&mut by_text, op.text_or_empty(), left.len())?;
        left = earlier;
    }
    Ok(by_text)
}

// Puts a number under a text.
fn put<'a>(
    by_text: &mut BTreeMap<&'a str, usize>,
    text: &'a str,
    number: usize,
) -> Result<(), AllocError>
    ensures { OnOk result (numbers.PutsNumber by_text.old text.now number by_text.new) }
{
    match by_text.insert(text, number) {
        Ok(_) => Ok(()),
        Err(_) => Err(AllocError),
    }
}
