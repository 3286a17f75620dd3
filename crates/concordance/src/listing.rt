ghost use Rattle.std.specs.Prelude.{◌≡◌, ◌<◌, length, map, IsTrue, IsFalse, IfOk, OnOk};
ghost use Rattle.sty_sheet.specs.Views.{records_of};
ghost use Rattle.usfm_ref.specs.Keys.{key_cmp};
ghost use Rattle.usfm_ref.specs.Rising.{rising};
ghost use Rattle.concordance.specs.Loops.Groups.{all_spellings, spellings_with, has_bare, rise};
ghost use Rattle.concordance.specs.Loops.Groups.{SpellsBoth, SpellsSame};
ghost use Rattle.concordance.specs.Loops.Groups.{form_at, composed};
ghost use Rattle.concordance.specs.Loops.KeyedViews.{hits_left, spelled};
ghost use Rattle.concordance.specs.Loops.FormViews.{forms_view};
ghost use Rattle.concordance.specs.Words as spec;

use crate::form::Form;
use crate::keyed::Keyed;
use crate::plain::plain_leaves;
use crate::runs::runs;
use indexmap::IndexMap;
use std::alloc::{AllocError, Global};
use std::marker::Model;
use sty_sheet::Sheet;
use usfm_ref::Key;
use verse_cut::cut;

/// A word, and the keys at which it occurs.
#[derive(Debug, Drop)]
pub struct Word {
    form: String,
    keys: Vec<Key>,
}

impl Model for Word {
    ghost use Rattle.std.specs.Prelude.{string_bytes};
    ghost use Rattle.concordance.specs.Words.{WordParts};

    ghost Value = { WordParts };

    ghost view = { λ w. record { form = string_bytes w.form; keys = w.keys.items } };
}

impl Word {
    /// The word in Normalization Form C.
    pub fn form(&self) -> &str
        ensures { result.now ≡ self.now.form }
    {
        self.form.as_str()
    }

    /// The keys of the pieces that hold the starts of the word, in ascending order, each once.
    pub fn keys(&self) -> &[Key]
        ensures { result.now ≡ self.now.keys }
    {
        self.keys.as_slice()
    }
}

// Puts keys after those of a form.
fn put_keys<'f>(
    alloc: Global,
    groups: &mut IndexMap<&'f str, Vec<Key>>,
    form: &'f str,
    keys: &[Key],
) -> Result<(), AllocError>
    requires keyed { IsFalse (has_bare groups.old.entries) }
    requires some { 0 < length keys.now }
    ensures spells { OnOk result (SpellsBoth (all_spellings groups.old.entries)
        (spellings_with form.entry.now keys.now) (all_spellings groups.new.entries)) }
    ensures keyed { OnOk result (IsFalse (has_bare groups.new.entries)) }
{
    match groups.get_index_of(form) {
        Some(at) => groups[at].extend_from_slice(keys)?,
        None => {
            let keys = Vec::from_slice(alloc, keys)?;
            groups.insert(form, keys)?;
        }
    }
    Ok(())
}

// The keys of each run.
fn keys_by_run<'a>(
    alloc: Global,
    runs: Keyed<'_, 'a>,
) -> Result<IndexMap<&'a str, Vec<Key>>, AllocError>
    ensures spells { IfOk result (λ groups.
        SpellsSame (map spelled (hits_left runs.entry)) (all_spellings groups.entries)) }
    ensures keyed { IfOk result (λ groups. IsFalse (has_bare groups.entries)) }
{
    let mut groups = IndexMap::new(alloc);
    for run in runs {
        put_keys(alloc, &mut groups, run.text, &[run.key])?;
    }
    Ok(groups)
}

// The form of each run.
fn forms_of<'a>(
    alloc: Global,
    runs: &IndexMap<&'a str, Vec<Key>>,
) -> Result<Vec<Form<'a>>, AllocError>
    ensures { IfOk result (λ forms. forms_view forms.items ≡ map form_at runs.now.entries) }
{
    let mut forms = Vec::with_capacity(alloc, runs.len())?;
    for index in 0..runs.len() {
        if let Some((run, _)) = runs.get_index(index) {
            forms.push(Form::of(alloc, run)?)?;
        }
    }
    Ok(forms)
}

// The keys of each form, from those of the runs that have it.
fn composed<'f>(
    alloc: Global,
    runs: &IndexMap<&str, Vec<Key>>,
    forms: &'f [Form<'_>],
) -> Result<IndexMap<&'f str, Vec<Key>>, AllocError>
    requires keyed { IsFalse (has_bare runs.now.entries) }
    requires forms { forms_view forms.now ≡ map form_at runs.now.entries }
    ensures spells { IfOk result (λ groups.
        SpellsSame (map composed (all_spellings runs.now.entries)) (all_spellings groups.entries)) }
    ensures keyed { IfOk result (λ groups. IsFalse (has_bare groups.entries)) }
{
    let mut groups = IndexMap::new(alloc);
    for (index, form) in forms.iter().enumerate() {
        if let Some((_, keys)) = runs.get_index(index) {
            put_keys(alloc, &mut groups, form.text(), keys.as_slice())?;
        }
    }
    Ok(groups)
}

// The word of a form that is at keys.
fn word_of(alloc: Global, form: &str, keys: &[Key]) -> Result<Word, AllocError>
    ensures form { IfOk result (λ word. word.form ≡ form.now) }
    ensures keys { IfOk result (λ word. word.keys ≡ rising key_cmp keys.now) }
{
    let mut keys = Vec::from_slice(alloc, keys)?;
    keys.sort_unstable();
    keys.dedup();
    Ok(Word {
        form: String::from_str(alloc, form)?,
        keys,
    })
}

// Groups put in the order of their forms.
fn in_order<'f>(
    mut groups: IndexMap<&'f str, Vec<Key>>,
) -> Result<IndexMap<&'f str, Vec<Key>>, AllocError>
    requires keyed { IsFalse (has_bare groups.entries) }
    ensures spells { IfOk result (λ sorted.
        SpellsSame (all_spellings groups.entry.entries) (all_spellings sorted.entries)) }
    ensures keyed { IfOk result (λ sorted. IsFalse (has_bare sorted.entries)) }
    ensures rise { IfOk result (λ sorted. IsTrue (rise sorted.entries)) }
{
    groups.sort_unstable_keys()?;
    Ok(groups)
}

// The words of groups whose forms rise.
fn words_in(alloc: Global, groups: &IndexMap<&str, Vec<Key>>) -> Result<Vec<Word>, AllocError>
    requires keyed { IsFalse (has_bare groups.now.entries) }
    requires rise { IsTrue (rise groups.now.entries) }
    ensures { IfOk result
        (λ words. words.items ≡ spec.words_in (all_spellings groups.now.entries)) }
{
    let mut words = Vec::with_capacity(alloc, groups.len())?;
    for index in 0..groups.len() {
        if let Some((form, keys)) = groups.get_index(index) {
            words.push(word_of(alloc, form, keys)?)?;
        }
    }
    Ok(words)
}

/// The words of a book, by a style sheet: each form once, in ascending order of bytes, with the
/// keys at which it occurs, in ascending order, each once.
///
/// A word is a longest run of characters in one plain leaf that are alphabetic or combining marks,
/// in Normalization Form C. Runs are found before that form is taken.
///
/// # Errors
/// `AllocError` where there is no memory for them.
pub fn words(alloc: Global, text: &str, sheet: &Sheet<'_>) -> Result<Vec<Word>, AllocError>
    ensures { IfOk result (λ words.
        words.items ≡ spec.words_of (records_of sheet.now) text.now) }
{
    let leaves = plain_leaves(alloc, text, sheet)?;
    let runs = runs(alloc, &leaves)?;
    let pieces = cut(alloc, text)?;
    let by_run = keys_by_run(alloc, Keyed::new(&runs, &pieces))?;
    let forms = forms_of(alloc, &by_run)?;
    let groups = composed(alloc, &by_run, &forms)?;
    let sorted = in_order(groups)?;
    words_in(alloc, &sorted)
}
