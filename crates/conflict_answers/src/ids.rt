// Ids, and the line of a conflict's ids.
ghost use Rattle.std.specs.Prelude.{◌≡◌, ◌∷◌, ◌++◌, ℕ, List, Some, IfSome, IfOk, IsTrue};
ghost use Rattle.std.specs.Prelude.{Option, option_map};
ghost use Rattle.std.specs.List.{list_all};
ghost use Rattle.op_core.specs.Ids.{Id, id_text, is_id};
ghost use Rattle.conflict_answers.specs.Answers.{are_apart};
ghost use Rattle.conflict_answers.specs.Spelling.{id_texts};
ghost use Rattle.conflict_answers.specs.Loops.Cuts.{Lacks, after_word};

use crate::cut::{cut, text};
use op_core::OpId;
use std::alloc::{AllocError, Global};
use std::collections::BTreeSet;

// The id that a word is.
pub(crate) fn id_in(word: &[u8]) -> Option<OpId>
    ensures spelled { IfSome result (λ id. word.now ≡ id_text id) }
    ensures valid { IfSome result (λ id. IsTrue (is_id id)) }
    ensures only { (id : Id) → IsTrue (is_id id) → word.now ≡ id_text id → result ≡ Some id }
{
    let id = OpId::read(text(word)?).ok()?;
    Some(seen(id))
}

// The same id, which is within its ranges.
fn seen(id: OpId) -> OpId
    ensures same { result ≡ id }
    ensures valid { IsTrue (is_id id) }
{
    let _ = id.number;
    id
}

// The ids that stand in a line after a space, each once. None where it has a word that is none, or
// one twice.
pub(crate) fn ids_in(alloc: Global, words: &[u8]) -> Result<Option<Vec<OpId>>, AllocError>
    ensures spelled { IfOk result (λ r. IfSome r (λ ids. 32 ∷ words.now ≡ id_texts ids.items)) }
    ensures valid { IfOk result (λ r. IfSome r (λ ids. IsTrue (list_all is_id ids.items))) }
    ensures apart { IfOk result (λ r. IfSome r (λ ids. IsTrue (are_apart ids.items))) }
    ensures only { (ids : List Id) → IsTrue (list_all is_id ids) → IsTrue (are_apart ids)
        → 32 ∷ words.now ≡ id_texts ids
        → IfOk result (λ r. option_map (λ v. v.items) r ≡ Some ids) }
{
    let mut ids = Vec::new(alloc);
    let mut seen = BTreeSet::new(alloc);
    let mut left = Some(words);
    'words: while let Some(rest) = left {
        let (word, later) = first_word(rest);
        let Some(id) = id_in(word) else {
            return Ok(None);
        };
        let is_new = seen.insert(id)?;
        if !is_new {
            return Ok(None);
        }
        ids.push(id)?;
        left = later;
    }
    Ok(Some(ids))
}

// The word at the front, and what comes after the space that ends it, if one does.
fn first_word(bytes: &[u8]) -> (&[u8], Option<&[u8]>)
    ensures cut { bytes.now ≡ result.0.now ++ after_word (option_map (λ b. b.now) result.1) }
    ensures only { (word : List ℕ) (later : Option (List ℕ)) → Lacks 32 word
        → bytes.now ≡ word ++ after_word later
        → (word ≡ result.0.now) × (later ≡ option_map (λ b. b.now) result.1) }
{
    match cut(bytes, b' ') {
        Some((word, later)) => (word, Some(later)),
        None => (bytes, None),
    }
}
