// What searches carry along.
ghost use Rattle.op_core.specs.Loops.Searches.{Counted};

/// Where the last searches ended, so that the next may begin there, and how many comparisons of two
/// ids or two segments were counted so far.
#[derive(Clone, Copy, Debug, Default)]
pub(crate) struct Search {
    // The place among operations, among chapters, and among the registers of a chapter.
    pub(crate) op: usize,
    pub(crate) chapter: usize,
    pub(crate) register: usize,
    // Up to `u64::MAX`.
    pub(crate) compared: u64,
}

impl Search {
    // Counts one comparison.
    pub(crate) fn count(&mut self)
        ensures { Counted 1 self.old self.new }
    {
        self.compared = self.compared.saturating_add(1);
    }

    // Counts the comparisons of each of this many with the one before it.
    pub(crate) fn count_beside(&mut self, many: usize) {
        self.compared = self.compared.saturating_add(many.saturating_sub(1) as u64);
    }
}
