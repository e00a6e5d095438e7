//! The iterator of a chain, seen as the list of the pairs that are left.
ghost use Rattle.std.specs.Prelude.{◌≡◌, length};
ghost use Rattle.std.specs.Iterator.{at_most};
ghost use Rattle.chain_arena.specs.Chains.{shown};
ghost use Rattle.std.specs.Map.Iter.{TakesFirst};

use crate::chain::Chain;
use crate::knots::Knot;
use crate::links::NONE;
use std::marker::Model;

/// An iterator over the pairs of a chain, in order: the place of the next one, `NONE` behind the
/// last one.
#[derive(Drop)]
pub struct Iter<'a, T> {
    pub(crate) chain: &'a Chain<T>,
    pub(crate) at: u32,
}

impl<'a, T> Model for Iter<'a, T> {
    ghost use Rattle.std.specs.Prelude.{List};
    ghost use Rattle.chain_arena.specs.Chains.{IsCursor, rest_of};
    ghost use Rattle.chain_arena.specs.Linked.{knot_at};
    ghost use Rattle.chain_arena.specs.declared.knots.Knot.{Knot};

    ghost Value = { List (Knot × T) };

    ghost view = { λ a. rest_of (knot_at a.at) a.chain.now.pairs };

    ghost invariant = { λ a. IsCursor (knot_at a.at) a.chain.now.pairs };
}

impl<'a, T> Iterator for Iter<'a, T> {
    type Item = (Knot, &'a T);

    ghost next_gives = { TakesFirst shown };

    ghost remaining = { λ s. at_most (length s) };

    fn next(&mut self) -> Option<(Knot, &'a T)> {
        let chain = self.chain;
        let at = self.at;
        if at == NONE {
            return None;
        }
        let k = Knot(at);
        self.at = chain.place_after(k);
        Some((k, chain.get(k)))
    }
}
