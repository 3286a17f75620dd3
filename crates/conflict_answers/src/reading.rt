// Files of answers read.
ghost use Rattle.std.specs.Prelude.{◌≡◌, ◌++◌, ℕ, List, Err, IfOk, IfSome, MatchOption};
ghost use Rattle.std.specs.Prelude.{◌≤◌, ◌-◌, MatchResult, option_map, Some, length, take};
ghost use Rattle.conflict_answers.specs.Answers.{AnswerParts, AreAnswers, IsAnswer, view, views};
ghost use Rattle.conflict_answers.specs.Spelling.{answer_lines, first_line, spelling};
ghost use Rattle.conflict_answers.specs.Reading.{IsBadLine, line_after};
ghost use Rattle.conflict_answers.specs.Loops.Walk.{IsOrShorter};

use crate::answer::Answer;
use crate::chosen::{choice_at, remark_at};
use crate::conflict::conflict_in;
use crate::cut::{behind, told_by};
use crate::fault::AnswersFault;
use std::alloc::{AllocError, Global};

/// The answers that bytes spell, lent from them. What `spelled` writes is read as it was.
///
/// The first line is `USFM answers 1`. An answer begins with the line `conflict REF ID ..`, with
/// two ids at least, each once. After it comes what was chosen: a line `take ID`, one of these ids,
/// or `text LEN`, the LEN bytes of a text and a line feed, or nothing; and then perhaps a remark,
/// as `remark LEN`, its bytes and a line feed. Numbers are decimal without leading zeros, and texts
/// are UTF-8. Each line ends with a line feed.
///
/// # Errors
/// - `BadLine` (85) where the bytes are no such file, with the first line of no known form: that
///   after the longest front that is one.
/// - `Memory` (1) where an allocation failed.
pub fn read(alloc: Global, bytes: &[u8]) -> Result<Vec<Answer<'_>>, AnswersFault>
    ensures spelled { IfOk result (λ answers. bytes.now ≡ spelling (views answers.items)) }
    ensures valid { IfOk result (λ answers. AreAnswers (views answers.items)) }
    ensures again { (answers : List AnswerParts) → AreAnswers answers
        → bytes.now ≡ spelling answers
        → MatchResult result (λ r. views r.items ≡ answers)
        (λ fault. fault ≡ AnswersFault.Memory) }
    ensures refused { (line : ℕ) → result ≡ Err (AnswersFault.BadLine line)
        → IsBadLine bytes.now line }
{
    let Some(mut rest) = after_first_line(bytes) else {
        return Err(AnswersFault::BadLine { line: 1 });
    };
    let mut answers = Vec::new(alloc);
    'answers: while !rest.is_empty() {
        let Some((answer, after)) = answer_at(alloc, rest)? else {
            let line = line_of(bytes, rest.len());
            return Err(AnswersFault::BadLine { line });
        };
        answers.push(answer)?;
        rest = after;
    }
    Ok(answers)
}

// What comes after the first line.
fn after_first_line(bytes: &[u8]) -> Option<&[u8]>
    ensures spelled { IfSome result (λ rest. bytes.now ≡ first_line ++ rest.now) }
    ensures only { (rest : List ℕ) → bytes.now ≡ first_line ++ rest
        → option_map (λ r. r.now) result ≡ Some rest }
{
    behind(b"USFM answers 1\n", bytes)
}

// The number of the line at which this many bytes are left.
fn line_of(bytes: &[u8], left: usize) -> usize
    requires { left ≤ length bytes.now }
    ensures { result ≡ line_after (take (length bytes.now - left) bytes.now) }
{
    let front = &bytes[..bytes.len() - left];
    front.iter().filter(|b| **b == b'\n').count() + 1
}

// The answer at the front, and what follows it. None where there is none.
fn answer_at(alloc: Global, bytes: &[u8]) -> Result<Option<(Answer<'_>, &[u8])>, AllocError>
    ensures spelled { IfOk result (λ r.
        IfSome r (λ x. bytes.now ≡ answer_lines (view x.0) ++ x.1.now)) }
    ensures valid { IfOk result (λ r. IfSome r (λ x. IsAnswer (view x.0))) }
    ensures only { (a : AnswerParts) (rest : List ℕ) → IsAnswer a
        → bytes.now ≡ answer_lines a ++ rest
        → IfOk result (λ r. MatchOption r ⊥ (λ x. IsOrShorter a rest (view x.0) x.1.now)) }
{
    let Some((line, below)) = told_by(b"conflict", bytes) else {
        return Ok(None);
    };
    let Some((segment, ids)) = conflict_in(alloc, line)? else {
        return Ok(None);
    };
    let (choice, left) = choice_at(&ids, below);
    let (remark, rest) = remark_at(left);
    let answer = Answer {
        segment,
        ids,
        choice,
        remark,
    };
    Ok(Some((answer, rest)))
}
