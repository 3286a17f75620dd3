// Bytes cut at a separator, and bytes as text.
ghost use Rattle.std.specs.Prelude.{◌≡◌, ◌≢◌, ◌∷◌, ◌++◌, ◌==◌, ◌≤◌, not, ℕ, List, IfSome, Some};
ghost use Rattle.std.specs.Prelude.{length, option_map, MatchOption};
ghost use Rattle.std.specs.List.{prefix_len};
ghost use Rattle.std.specs.Str.{IsUtf8};
ghost use Rattle.conflict_answers.specs.Loops.Cuts.{Lacks, both_now};

// What comes before the first of these bytes, and what comes after it. None where there is none.
pub(crate) fn cut(bytes: &[u8], at: u8) -> Option<(&[u8], &[u8])>
    ensures cut { IfSome result (λ x. bytes.now ≡ x.0.now ++ at ∷ x.1.now) }
    ensures only { (front rest : List ℕ) → Lacks at front → bytes.now ≡ front ++ at ∷ rest
        → option_map both_now result ≡ Some (front, rest) }
{
    let (front, rest) = bytes.split_at(len_before(bytes, at));
    match rest {
        [] => None,
        [_, after @ ..] => Some((front, after)),
    }
}

// How many bytes come before the first of these, or before the end.
fn len_before(bytes: &[u8], at: u8) -> usize
    ensures value { result ≡ prefix_len (λ b. not (b == at)) bytes.now }
    ensures within { result ≤ length bytes.now }
{
    bytes.iter().take_while(|b| **b != at).count()
}

// What comes after these bytes at the front. None where others stand there.
pub(crate) fn behind<'a>(front: &[u8], bytes: &'a [u8]) -> Option<&'a [u8]>
    ensures { MatchOption result ((rest : List ℕ) → bytes.now ≢ front.now ++ rest)
        (λ rest. bytes.now ≡ front.now ++ rest.now) }
{
    bytes.strip_prefix(front)
}

// Of a line at the front that begins with a word and a space, what comes after these, and what
// comes after the line. None where no such line stands there.
pub(crate) fn told_by<'a>(word: &[u8], bytes: &'a [u8]) -> Option<(&'a [u8], &'a [u8])>
    ensures told { IfSome result
        (λ x. bytes.now ≡ word.now ++ 32 ∷ (x.0.now ++ 10 ∷ x.1.now)) }
    ensures only { (line rest : List ℕ) → Lacks 10 line
        → bytes.now ≡ word.now ++ 32 ∷ (line ++ 10 ∷ rest)
        → option_map both_now result ≡ Some (line, rest) }
{
    let spaced = behind(word, bytes)?;
    let told = behind(b" ", spaced)?;
    let (line, rest) = cut(told, b'\n')?;
    Some((line, rest))
}

// So many bytes, and what comes after them and a line feed. None where fewer stand there, or no
// line feed comes after them.
pub(crate) fn counted(len: usize, bytes: &[u8]) -> Option<(&[u8], &[u8])>
    ensures counted { IfSome result (λ x. bytes.now ≡ x.0.now ++ 10 ∷ x.1.now) }
    ensures many { IfSome result (λ x. length x.0.now ≡ len) }
    ensures only { (front rest : List ℕ) → length front ≡ len → bytes.now ≡ front ++ 10 ∷ rest
        → option_map both_now result ≡ Some (front, rest) }
{
    let (front, rest) = bytes.split_at_checked(len)?;
    let left = behind(b"\n", rest)?;
    Some((front, left))
}

// The bytes as text. None where they are not UTF-8.
pub(crate) fn text(bytes: &[u8]) -> Option<&str>
    ensures same { IfSome result (λ t. t.now ≡ bytes.now) }
    ensures utf8 { IfSome result (λ t. IsUtf8 t.now) }
    ensures only { IsUtf8 bytes.now → option_map (λ t. t.now) result ≡ Some bytes.now }
{
    str::from_utf8(bytes).ok()
}
