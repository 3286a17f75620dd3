ghost use Rattle.std.specs.Prelude.{◌≡◌};
ghost use Rattle.std.specs.Iterator.{YieldsFirstRef, item_count};

use super::op::Op;
use std::marker::Model;

/// The operations of a set, lent from it, in ascending order of ids. Made by `OpSet::iter`; it
/// does not allocate.
#[derive(Debug, Drop)]
pub struct Ops<'a> {
    rest: &'a [Op],
}

impl<'a> Model for Ops<'a> {
    ghost use Rattle.std.specs.Prelude.{List};
    ghost use Rattle.op_core.specs.Ops.{Operation};

    ghost Value = { List Operation };

    ghost view = { λ s. s.rest.now };
}

impl<'a> Ops<'a> {
    pub(crate) fn new(rest: &'a [Op]) -> Ops<'a>
        ensures { result ≡ rest.now }
    {
        Ops { rest }
    }
}

impl<'a> Iterator for Ops<'a> {
    type Item = &'a Op;

    ghost next_gives = { YieldsFirstRef (λ s. s) };

    ghost remaining = { item_count (λ s. s) };

    fn next(&mut self) -> Option<&'a Op> {
        let (first, rest) = self.rest.split_first()?;
        self.rest = rest;
        Some(first)
    }
}
