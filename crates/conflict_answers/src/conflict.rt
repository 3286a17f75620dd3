// The line of a conflict.
ghost use Rattle.std.specs.Prelude.{◌≡◌, ◌∷◌, ◌++◌, ℕ, List, Some, IfSome, IfOk, IsTrue};
ghost use Rattle.std.specs.Prelude.{option_map};
ghost use Rattle.usfm_ref.specs.Books.{is_book_code};
ghost use Rattle.usfm_ref.specs.Keys.{KeyParts, is_key};
ghost use Rattle.usfm_ref.specs.References.{key_text, ref_text};
ghost use Rattle.usfm_ref.specs.declared.segment.Segment.{Segment as SegmentParts};
ghost use Rattle.op_core.specs.Ids.{Id};
ghost use Rattle.conflict_answers.specs.Answers.{IsConflict};
ghost use Rattle.conflict_answers.specs.Spelling.{conflict_words};
ghost use Rattle.conflict_answers.specs.Loops.Cuts.{IsSegment, segment_and_ids, segment_and_now};

use crate::cut::{cut, text};
use crate::ids::ids_in;
use op_core::OpId;
use std::alloc::{AllocError, Global};
use usfm_ref::{Book, Key, Segment};

// The segment and the ids of a conflict's line, after its word. None where it is no such line.
pub(crate) fn conflict_in(
    alloc: Global,
    line: &[u8],
) -> Result<Option<(Segment, Vec<OpId>)>, AllocError>
    ensures spelled { IfOk result (λ r.
        IfSome r (λ x. line.now ≡ conflict_words x.0 x.1.items)) }
    ensures valid { IfOk result (λ r. IfSome r (λ x. IsConflict x.0 x.1.items)) }
    ensures only { (g : SegmentParts) (ids : List Id) → IsConflict g ids
        → line.now ≡ conflict_words g ids
        → IfOk result (λ r. option_map segment_and_ids r ≡ Some (g, ids)) }
{
    let Some((segment, words)) = segment_in(line) else {
        return Ok(None);
    };
    let Some(ids) = ids_in(alloc, words)? else {
        return Ok(None);
    };
    if ids.len() < 2 {
        return Ok(None);
    }
    Ok(Some((segment, ids)))
}

// The segment at the front of a line, and what comes after it and a space.
fn segment_in(line: &[u8]) -> Option<(Segment, &[u8])>
    ensures spelled { IfSome result (λ x. line.now
        ≡ ref_text x.0.book x.0.key ++ 32 ∷ x.1.now) }
    ensures valid { IfSome result (λ x. IsSegment x.0) }
    ensures only { (g : SegmentParts) (rest : List ℕ) → IsSegment g
        → line.now ≡ ref_text g.book g.key ++ 32 ∷ rest
        → option_map segment_and_now result ≡ Some (g, rest) }
{
    let (code, more) = cut(line, b' ')?;
    let (place, rest) = cut(more, b' ')?;
    let book = book_in(code)?;
    let key = key_in(place)?;
    Some((Segment { book, key }, rest))
}

// The book whose code a word is.
fn book_in(word: &[u8]) -> Option<Book>
    ensures spelled { IfSome result (λ book. word.now ≡ book) }
    ensures valid { IfSome result (λ book. IsTrue (is_book_code book)) }
    ensures only { IsTrue (is_book_code word.now) → result ≡ Some word.now }
{
    let [a, b, c] = word else {
        return None;
    };
    Book::of_code([*a, *b, *c])
}

// The key that a word is.
fn key_in(word: &[u8]) -> Option<Key>
    ensures spelled { IfSome result (λ key. word.now ≡ key_text key) }
    ensures valid { IfSome result (λ key. IsTrue (is_key key.chapter key.place)) }
    ensures only { (key : KeyParts) → IsTrue (is_key key.chapter key.place)
        → word.now ≡ key_text key → result ≡ Some key }
{
    text(word)?.parse::<Key>().ok()
}
