//! How many columns lines have.

ghost use Rattle.std.specs.Prelude.{◌≡◌, ◌≤◌, ℕ, Some, IfSome};
ghost use Rattle.std.specs.Fmt.{decimal};

/// How many columns lines have where nothing else is said.
pub const WIDTH: usize = 72;

// How many they may have.
const MOST: usize = 9999;

/// The columns that a word says, which is a number from 1 to 9999 in decimal.
pub fn read_width(word: &str) -> Option<usize>
    ensures within { IfSome result (λ width. (1 ≤ width) × (width ≤ 9999)) }
    ensures reads { (width : ℕ) → 1 ≤ width → width ≤ 9999 → word.now ≡ decimal width
        → result ≡ Some width }
{
    match word.parse::<usize>() {
        Ok(width) => if_within(width),
        Err(_) => None,
    }
}

// The columns, if lines may have so many.
fn if_within(width: usize) -> Option<usize>
    ensures within { IfSome result (λ width. (1 ≤ width) × (width ≤ 9999)) }
    ensures same { 1 ≤ width → width ≤ 9999 → result ≡ Some width }
{
    if 1 <= width && width <= MOST {
        Some(width)
    } else {
        None
    }
}
