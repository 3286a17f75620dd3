// The steps of two changes, joined.
ghost use Rattle.std.specs.Prelude.{◌≡◌, ◌+◌, ◌++◌, length, option_map, string_bytes, IfOk, OnOk};
ghost use Rattle.word_diff.specs.Parts.{spans};
ghost use Rattle.word_merge.specs.Merging as merging;
ghost use Rattle.word_merge.specs.declared.fate.Owner.TheVariants.{Nobody};

use crate::fate::{Fate, Owner};
use crate::next::{Next, after, next_word};
use std::alloc::{AllocError, Global};
use word_diff::Part;

// The text of two changes that are given as steps of one word each. None where they are of one
// place.
pub(crate) fn merged<'a>(
    alloc: Global,
    one: &[Part<'a>],
    other: &[Part<'a>],
) -> Result<Option<String>, AllocError>
    ensures { IfOk result (λ found. option_map (λ text. string_bytes text) found
        ≡ merging.merged (spans one.now) (spans other.now)) }
{
    let mut made = String::new(alloc);
    let mut before = Owner::Nobody;
    let (mut one_left, mut other_left) = (one, other);
    let mut fuel = one.len() + other.len() + 1;
    while fuel > 0 {
        fuel -= 1;
        match next_word(before, one_left, other_left) {
            Next::Ends => return Ok(Some(made)),
            Next::Sticks => return Ok(None),
            Next::Goes(fate, word) => {
                push_word(&mut made, fate, word)?;
                before = fate.owner();
                one_left = after(fate.is_step_of_one(), one_left);
                other_left = after(fate.is_step_of_other(), other_left);
            }
        }
    }
    Ok(None)
}

// Adds a word, if it is in the text of both changes.
fn push_word(made: &mut String, fate: Fate, word: &str) -> Result<(), AllocError>
    ensures { OnOk result (string_bytes made.new
        ≡ string_bytes made.old ++ merging.kept_word fate word.now) }
{
    if !fate.is_of_both() {
        return Ok(());
    }
    made.push_str(word)
}
