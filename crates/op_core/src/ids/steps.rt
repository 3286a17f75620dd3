ghost use Rattle.std.specs.Prelude.{◌≡◌, ◌<◌, ◌≤◌, Bool, length, not};
ghost use Rattle.std.specs.List.{position_or_len};
ghost use Rattle.std.specs.List.Sorted.{IsPartitionedBy};
ghost use Rattle.op_core.specs.Loops.Searches.{AnswersAs, Counted};

use super::search::Search;

/// Where a search in a rising list looks next: on from a first place by steps that grow, and by
/// bisecting as soon as a step leads out of what is left.
#[derive(Clone, Copy, Debug)]
pub(crate) struct Steps {
    next: usize,
    step: usize,
    growth: usize,
}

impl Steps {
    // From the middle of this many on, by bisecting alone.
    pub(crate) fn halves(len: usize) -> Steps {
        Steps {
            next: len / 2,
            step: 0,
            growth: 0,
        }
    }

    // From one place of this many on by steps that double. A place that is not far from it is found
    // in a few looks.
    pub(crate) fn near(at: usize, len: usize) -> Steps {
        Steps {
            next: at.min(len.saturating_sub(1)),
            step: 1,
            growth: 2,
        }
    }

    // At one place of this many and at the one beside it, and then by bisecting.
    pub(crate) fn beside(at: usize, len: usize) -> Steps {
        Steps {
            growth: 0,
            ..Steps::near(at, len)
        }
    }

    // The next place to look at, from `low` to below `high`.
    pub(crate) fn look(&self, low: usize, high: usize) -> usize
        requires { low < high }
        ensures at_least { low ≤ result }
        ensures below { result < high }
    {
        if low <= self.next && self.next < high {
            self.next
        } else {
            low + (high - low) / 2
        }
    }

    // What is looked for is after this place.
    pub(crate) fn go_on(&mut self, at: usize) {
        self.next = at.saturating_add(self.step);
        self.step = self.step.saturating_mul(self.growth);
    }

    // What is looked for is at this place or before it.
    pub(crate) fn go_back(&mut self, at: usize) {
        self.next = at.saturating_sub(self.step);
        self.step = self.step.saturating_mul(self.growth);
    }
}

// How many items at the front a test holds of, where it holds of a first part alone. Each test is
// counted.
pub(crate) fn place_by<T, P: Fn(&T) -> bool>(
    items: &[T],
    holds: P,
    mut steps: Steps,
    search: &mut Search,
) -> usize
    requires { P.IsAlwaysCallable holds }
    ensures place { (p : T → Bool) → AnswersAs P.Fn p holds → IsPartitionedBy p items.now
        → result ≡ position_or_len (λ x. not (p x)) items.now }
    ensures within { result ≤ length items.now }
    ensures counted { Counted (length items.now) search.old search.new }
{
    let mut low = 0;
    let mut high = items.len();
    'halves: while low < high {
        let middle = steps.look(low, high);
        search.count();
        if holds(&items[middle]) {
            low = middle + 1;
            steps.go_on(middle);
        } else {
            high = middle;
            steps.go_back(middle);
        }
    }
    low
}
