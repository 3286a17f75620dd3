// The ids of a set or of a bundle, one after another.
ghost use Rattle.std.specs.Prelude.{◌≡◌};
ghost use Rattle.std.specs.Iterator.{YieldsFirst, item_count};
ghost use Rattle.op_core.specs.Lists.{ids_of};

use super::lent::LentOps;
use op_core::OpId;
use std::marker::Model;

// A walk over the ids of operations, in ascending order.
#[derive(Drop)]
pub(crate) struct Ids<'a> {
    ops: LentOps<'a>,
}

impl<'a> Model for Ids<'a> {
    ghost use Rattle.std.specs.Prelude.{List};
    ghost use Rattle.op_core.specs.Ids.{Id};
    ghost use Rattle.op_core.specs.Lists.{ids_of};

    ghost Value = { List Id };

    ghost view = { λ s. ids_of s.ops };
}

impl<'a> Ids<'a> {
    pub(crate) fn of(ops: LentOps<'a>) -> Ids<'a>
        ensures { result ≡ ids_of ops.entry }
    {
        Ids { ops }
    }
}

impl<'a> Iterator for Ids<'a> {
    type Item = OpId;

    ghost next_gives = { YieldsFirst (λ s. s) };

    ghost remaining = { item_count (λ s. s) };

    fn next(&mut self) -> Option<OpId> {
        Some(self.ops.next()?.id())
    }
}
