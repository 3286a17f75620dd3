// What a line answers.
ghost use Rattle.std.specs.Prelude.{◌≡◌, ◌<◌, ◌^◌, ℕ, map, string_bytes, option_map, Some, IfSome};
ghost use Rattle.std.specs.Fmt.{decimal};
ghost use Rattle.op_core.specs.Ids as ids;
ghost use Rattle.conflict_settling.specs.Answers as answers;

/// What a person answers.
#[derive(Clone, Copy, Debug, PartialEq, Eq)]
pub enum Answer<'a> {
    /// This text, which the question has under the number.
    Take(&'a str),
    /// A text of one's own, which follows.
    Own,
    /// Nothing for this conflict.
    Skip,
    /// Nothing for all that are left.
    Stop,
    /// None of these: the question stands.
    Unclear,
}

/// Whether a line ends a text of one's own: a full stop alone, without the blanks around it.
pub fn ends_text(line: &[u8]) -> bool
    ensures { answers.EndsText line.now result }
{
    matches!(line.trim_ascii(), b".")
}

// The text whose number from 1 on the word is, in decimal.
pub(crate) fn numbered<'a>(texts: &'a [String], word: &str) -> Option<&'a str>
    ensures { answers.IsNumbered (map (λ t. string_bytes t) texts.now) word.now
        (option_map (λ t. t.now) result) }
{
    let number = number_in(word).unwrap_or(0);
    if number == 0 {
        return None;
    }
    if number > texts.len() {
        return None;
    }
    Some(texts[number - 1].as_str())
}

// The number from 1 on that the text is in decimal, without leading zeros.
fn number_in(text: &str) -> Option<usize>
    ensures reads { IfSome result (λ number. text.now ≡ decimal number) }
    ensures only { (number : ℕ) → 0 < number → number < 2 ^ 64 → text.now ≡ decimal number
        → result ≡ Some number }
{
    if !starts_plainly(text.as_bytes()) {
        return None;
    }
    text.parse::<usize>().ok()
}

// Whether the first byte is one of 1 to 9.
fn starts_plainly(text: &[u8]) -> bool
    ensures { result ≡ ids.starts_plainly text.now }
{
    matches!(text, [b'1'..=b'9', ..])
}
