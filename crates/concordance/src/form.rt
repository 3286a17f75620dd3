//! The forms of runs.

ghost use Rattle.std.specs.Prelude.{◌≡◌, IfOk};
ghost use Rattle.concordance.specs.Loops.FormViews.{form_bytes};
ghost use Rattle.concordance.specs.Words as words;

use std::alloc::{AllocError, Global};
use unicode_normalization::{IsNormalized, is_nfc_quick, to_nfc};

// A run in Normalization Form C: lent from the text where it is in that form already.
#[derive(Drop)]
pub(crate) enum Form<'a> {
    Lent(&'a str),
    Made(String),
}

impl<'a> Form<'a> {
    pub(crate) fn of(alloc: Global, run: &'a str) -> Result<Form<'a>, AllocError>
        ensures { IfOk result (λ form. form_bytes form ≡ words.form_of run.now) }
    {
        match is_nfc_quick(run.chars()) {
            IsNormalized::Yes => Ok(Form::Lent(run)),
            IsNormalized::No | IsNormalized::Maybe => Ok(Form::Made(to_nfc(alloc, run)?)),
        }
    }

    pub(crate) fn text(&self) -> &str
        ensures { result.now ≡ form_bytes self.now }
    {
        match self {
            Form::Lent(text) => text,
            Form::Made(text) => text.as_str(),
        }
    }
}
