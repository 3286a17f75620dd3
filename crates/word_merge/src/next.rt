// Which word comes next of two changes that are joined.
ghost use Rattle.std.specs.Prelude.{◌≡◌, if◌then◌else◌, drop};
ghost use Rattle.word_diff.specs.Parts.{span, spans};
ghost use Rattle.word_merge.specs.Merging as merging;

use crate::fate::{Fate, Owner};
use word_diff::{Kind, Part};

// What comes next of two changes.
#[derive(Clone, Copy, Debug)]
pub enum Next<'a> {
    // Nothing.
    Ends,
    // They are of one place.
    Sticks,
    // A word, and what becomes of it.
    Goes(Fate, &'a str),
}

// What comes next of the steps of two changes, after a change of this owner.
pub(crate) fn next_word<'a>(before: Owner, one: &[Part<'a>], other: &[Part<'a>]) -> Next<'a>
    ensures { merging.next_view result ≡ merging.next before (spans one.now) (spans other.now) }
{
    match (one, other) {
        ([], []) => Next::Ends,
        ([x, ..], []) => alone(before, x, Fate::OneAdds),
        ([], [y, ..]) => alone(before, y, Fate::OtherAdds),
        ([x, ..], [y, ..]) => of_two(before, x, y),
    }
}

// What comes next where the other change has no step left.
fn alone<'a>(before: Owner, step: &Part<'a>, fate: Fate) -> Next<'a>
    ensures { merging.next_view result ≡ merging.alone before (span step.now) fate }
{
    match step.kind {
        Kind::Added => goes(before, fate, step.text),
        Kind::Kept | Kind::Removed => Next::Sticks,
    }
}

fn of_two<'a>(before: Owner, x: &Part<'a>, y: &Part<'a>) -> Next<'a>
    ensures { merging.next_view result ≡ merging.of_two before (span x.now) (span y.now) }
{
    match (x.kind, y.kind) {
        (Kind::Added, Kind::Added) => Next::Sticks,
        (Kind::Added, _) => goes(before, Fate::OneAdds, x.text),
        (_, Kind::Added) => goes(before, Fate::OtherAdds, y.text),
        (Kind::Kept, Kind::Kept) => of_word(before, Fate::Kept, x.text, y.text),
        (Kind::Removed, Kind::Kept) => of_word(before, Fate::OneRemoves, x.text, y.text),
        (Kind::Kept, Kind::Removed) => of_word(before, Fate::OtherRemoves, x.text, y.text),
        (Kind::Removed, Kind::Removed) => Next::Sticks,
    }
}

// A word that both changes found in their text, if it is one word.
fn of_word<'a>(before: Owner, fate: Fate, x: &'a str, y: &str) -> Next<'a>
    ensures { merging.next_view result ≡ merging.of_word before fate x.now y.now }
{
    if x == y {
        goes(before, fate, x)
    } else {
        Next::Sticks
    }
}

// A word with its fate, unless the change that it is of would be a neighbour of the other's.
fn goes<'a>(before: Owner, fate: Fate, word: &'a str) -> Next<'a>
    ensures { merging.next_view result ≡ merging.goes before fate word.now }
{
    if fate.owner().may_follow(before) {
        Next::Goes(fate, word)
    } else {
        Next::Sticks
    }
}

// The steps after the first, where that is taken, and else all.
pub(crate) fn after<'d, 'a>(is_taken: bool, steps: &'d [Part<'a>]) -> &'d [Part<'a>]
    ensures { result.now ≡ (if is_taken then drop 1 steps.now else steps.now) }
{
    match steps {
        [_, later @ ..] if is_taken => later,
        _ => steps,
    }
}
