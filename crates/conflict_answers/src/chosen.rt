// What was chosen for a conflict, and a remark.
ghost use Rattle.std.specs.Prelude.{◌≡◌, ◌++◌, ◌⊎◌, ◌<◌, ◌^◌, ℕ, List, None, Some, IfSome, IsTrue};
ghost use Rattle.std.specs.Prelude.{Option, codes, option_map};
ghost use Rattle.std.specs.Fmt.{decimal};
ghost use Rattle.std.specs.List.{list_all};
ghost use Rattle.op_core.specs.Ids.{Id, is_id, starts_plainly};
ghost use Rattle.op_core.specs.NextIds.{is_among};
ghost use Rattle.conflict_answers.specs.Answers.{Chosen, IsText, MayBeChosen, MayBeRemark, chosen};
ghost use Rattle.conflict_answers.specs.Answers.{not_now, taken};
ghost use Rattle.conflict_answers.specs.Spelling.{chosen_lines, counted_lines, remark_lines};
ghost use Rattle.conflict_answers.specs.Spelling.{take_line};
ghost use Rattle.conflict_answers.specs.Loops.Cuts.{both_now, id_and_now};

use crate::answer::Choice;
use crate::cut::{counted, text, told_by};
use crate::ids::id_in;
use op_core::OpId;

// What was chosen of a conflict with these ids, and what follows it: nothing was, where no line at
// the front says it.
pub(crate) fn choice_at<'a>(ids: &[OpId], bytes: &'a [u8]) -> (Choice<'a>, &'a [u8])
    ensures spelled { bytes.now ≡ chosen_lines (chosen result.0) ++ result.1.now }
    ensures may { MayBeChosen ids.now (chosen result.0) }
    ensures only { (c : Chosen) (rest : List ℕ) → IsTrue (list_all is_id ids.now)
        → MayBeChosen ids.now c → bytes.now ≡ chosen_lines c ++ rest
        → ((c ≡ chosen result.0) × (rest ≡ result.1.now)) ⊎ (c ≡ not_now) }
{
    if let Some(found) = take_at(ids, bytes) {
        return choice_of(found);
    }
    match counted_at(b"text", bytes) {
        Some((text, rest)) => (Choice::Own(text), rest),
        None => (Choice::NotNow, bytes),
    }
}

// The choice of an id, and what follows it.
fn choice_of<'a>(found: (OpId, &'a [u8])) -> (Choice<'a>, &'a [u8])
    ensures choice { chosen result.0 ≡ taken found.entry.0 }
    ensures after { result.1.now ≡ found.entry.1.now }
{
    (Choice::Take(found.0), found.1)
}

// The remark, and what follows it: none, where no line at the front says it.
pub(crate) fn remark_at(bytes: &[u8]) -> (Option<&str>, &[u8])
    ensures spelled { bytes.now
        ≡ remark_lines (option_map (λ t. t.now) result.0) ++ result.1.now }
    ensures may { MayBeRemark (option_map (λ t. t.now) result.0) }
    ensures only { (remark : Option (List ℕ)) (rest : List ℕ) → MayBeRemark remark
        → bytes.now ≡ remark_lines remark ++ rest
        → ((remark ≡ option_map (λ t. t.now) result.0) × (rest ≡ result.1.now))
        ⊎ (remark ≡ None) }
{
    match counted_at(b"remark", bytes) {
        Some((remark, rest)) => (Some(remark), rest),
        None => (None, bytes),
    }
}

// The id of the line `take ID` at the front, which is one of these, and what follows the line.
fn take_at<'a>(ids: &[OpId], bytes: &'a [u8]) -> Option<(OpId, &'a [u8])>
    ensures spelled { IfSome result (λ x. bytes.now ≡ take_line x.0 ++ x.1.now) }
    ensures listed { IfSome result (λ x. IsTrue (is_among ids.now x.0)) }
    ensures only { (id : Id) (rest : List ℕ) → IsTrue (is_id id) → IsTrue (is_among ids.now id)
        → bytes.now ≡ take_line id ++ rest → option_map id_and_now result ≡ Some (id, rest) }
{
    let (word, rest) = told_by(b"take", bytes)?;
    let id = id_in(word)?;
    if !is_listed(ids, id) {
        return None;
    }
    Some((id, rest))
}

fn is_listed(ids: &[OpId], id: OpId) -> bool
    ensures { result ≡ is_among ids.now id }
{
    ids.iter().any(|one| *one == id)
}

// The text that a line `WORD LEN` at the front announces, and what follows it and its line feed.
fn counted_at<'a>(word: &[u8], bytes: &'a [u8]) -> Option<(&'a str, &'a [u8])>
    ensures spelled { IfSome result
        (λ x. bytes.now ≡ counted_lines word.now x.0.now ++ x.1.now) }
    ensures valid { IfSome result (λ x. IsText x.0.now) }
    ensures only { (text : List ℕ) (rest : List ℕ) → IsText text
        → bytes.now ≡ counted_lines word.now text ++ rest
        → option_map both_now result ≡ Some (text, rest) }
{
    let (digits, after) = told_by(word, bytes)?;
    let len = number_in(digits)?;
    let (front, rest) = counted(len, after)?;
    let text = text(front)?;
    Some((text, rest))
}

// The number that digits write, without leading zeros.
fn number_in(digits: &[u8]) -> Option<usize>
    ensures reads { IfSome result (λ number. digits.now ≡ decimal number) }
    ensures only { (number : ℕ) → number < 2 ^ 64 → digits.now ≡ decimal number
        → result ≡ Some number }
{
    let text = text(digits)?;
    if is_zero(text) {
        return Some(0);
    }
    number_from_1(text)
}

// Whether the text is `0`.
fn is_zero(text: &str) -> bool
    ensures yes { IsTrue result → text.now ≡ codes "0" }
    ensures no { text.now ≡ codes "0" → IsTrue result }
{
    text == "0"
}

// The number from 1 on that the text is in decimal, without leading zeros.
fn number_from_1(text: &str) -> Option<usize>
    ensures reads { IfSome result (λ number. text.now ≡ decimal number) }
    ensures only { (number : ℕ) → 0 < number → number < 2 ^ 64 → text.now ≡ decimal number
        → result ≡ Some number }
{
    if !starts_plainly(text.as_bytes()) {
        return None;
    }
    text.parse::<usize>().ok()
}

// Whether the first byte is one of 1 to 9.
fn starts_plainly(text: &[u8]) -> bool
    ensures { result ≡ starts_plainly text.now }
{
    matches!(text, [b'1'..=b'9', ..])
}
