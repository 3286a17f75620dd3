ghost use Rattle.std.specs.Prelude.{IfOk};
ghost use Rattle.word_diff.specs.Differences.{CutsNew, CutsOld, JoinsToNew, JoinsToOld};
ghost use Rattle.word_diff.specs.Differences.{KeepsCommon, KeepsEnds, KeepsLongest};
ghost use Rattle.word_diff.specs.Parts.{AreApart, spans};

use crate::joining::join_neighbours;
use crate::part::Part;
use crate::steps::steps;
use crate::word::words;
use std::alloc::{AllocError, Global};

/// What differs between two texts: parts of whole words that are in both, in the old one alone, or
/// in the new one alone.
///
/// The parts that are in a text join to it. Of texts of at most `MAX_WORDS` words each no more
/// words could be kept: these are a longest common subsequence. Of longer ones the words that they
/// have in common at their front and then at their end are kept, and no others. No part is empty,
/// no two neighbours are of one kind, and between two kept parts what is removed comes before what
/// is added.
///
/// # Errors
///
/// `AllocError` where there is no memory.
pub fn differences<'a>(
    alloc: Global,
    old: &'a str,
    new: &'a str,
) -> Result<Vec<Part<'a>>, AllocError>
    ensures old_text { IfOk result (λ list. JoinsToOld list.items old.now) }
    ensures new_text { IfOk result (λ list. JoinsToNew list.items new.now) }
    ensures old_words { IfOk result (λ list. CutsOld list.items old.now) }
    ensures new_words { IfOk result (λ list. CutsNew list.items new.now) }

    ensures common { IfOk result (λ list. KeepsCommon list.items old.now new.now) }
    ensures longest { IfOk result (λ list. KeepsLongest list.items old.now new.now) }
    ensures ends { IfOk result (λ list. KeepsEnds list.items old.now new.now) }

    ensures apart { IfOk result (λ list. AreApart (spans list.items)) }
{
    let old_words = words(alloc, old)?;
    let new_words = words(alloc, new)?;
    let steps = steps(alloc, &old_words, &new_words)?;
    join_neighbours(alloc, old, new, &steps)
}
