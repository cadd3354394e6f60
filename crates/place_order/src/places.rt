//! A walk over the places in order.
ghost use Rattle.std.specs.Prelude.{◌≡◌, length};
ghost use Rattle.std.specs.Iterator.{at_most};
ghost use Rattle.std.specs.Map.Iter.{TakesFirst};
ghost use Rattle.place_order.specs.Chains.{walked};

use crate::chain::{Chain, next_of};
use segments::Segments;
use std::marker::Model;

/// Lends places in order. Takes no memory.
///
/// Contracts see the list of what it has left.
#[derive(Drop)]
pub struct Places<'a> {
    nexts: &'a Segments<u32>,
    at: u32,
    left: usize,
}

impl<'a> Model for Places<'a> {
    ghost use Rattle.std.specs.Prelude.{List, ℕ};
    ghost use Rattle.place_order.specs.Chains.{walked};

    ghost Value = { List ℕ };

    ghost view = { λ p. walked p.nexts.now.items p.at p.left };
}

impl<'a> Places<'a> {
    pub(crate) fn new(chain: &'a Chain) -> Places<'a>
        ensures { result ≡ walked chain.entry.now.nexts.items chain.entry.now.first
            chain.entry.now.len }
    {
        Places {
            nexts: &chain.nexts,
            at: chain.first,
            left: chain.len,
        }
    }
}

impl<'a> Iterator for Places<'a> {
    type Item = usize;

    ghost next_gives = { TakesFirst (λ place. place) };

    ghost remaining = { λ places. at_most (length places) };

    fn next(&mut self) -> Option<usize> {
        if self.left == 0 {
            return None;
        }
        let place = self.at;
        self.at = next_of(self.nexts, place);
        self.left -= 1;
        Some(place as usize)
    }
}
