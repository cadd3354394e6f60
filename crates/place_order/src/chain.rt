//! Places one after another: each knows the next one.
ghost use Rattle.std.specs.Prelude.{◌≡◌, ◌<◌, ◌≤◌, ◌+◌, ◌∷◌, ◌++◌, ℕ, List, [], length, OnOk};
ghost use Rattle.place_order.specs.Chains.{AreChained, IsLed, last_of, next_in};
ghost use Rattle.place_order.specs.Orders.{AreDistinct, IsApart};
ghost use Rattle.place_order.specs.Room.{space_in};

use crate::nodes::NONE;
use crate::room::{fill, make_room};
use agg_types::NoMemory;
use segments::Segments;
use std::alloc::Global;

/// For each place the one that comes next, and the first of so many.
#[derive(Drop)]
pub(crate) struct Chain {
    pub(crate) nexts: Segments<u32>,
    pub(crate) first: u32,
    pub(crate) len: usize,
}

/// The place that comes behind one.
#[inline]
pub(crate) fn next_of(nexts: &Segments<u32>, place: u32) -> u32
    ensures { result ≡ next_in nexts.now.items place }
{
    match nexts.get(place as usize) {
        Some(next) => *next,
        None => NONE,
    }
}

impl Chain {
    /// No places.
    pub(crate) fn new(alloc: Global) -> Chain
        ensures chain { AreChained result.nexts.items result.first [] }
        ensures len { result.len ≡ 0 }
    {
        Chain {
            nexts: Segments::new(alloc),
            first: NONE,
            len: 0,
        }
    }

    /// Takes the memory for each place below a number.
    pub(crate) fn reserve(&mut self, places: usize) -> Result<(), NoMemory>
        ensures items { self.new.nexts.items ≡ self.old.nexts.items }
        ensures first { self.new.first ≡ self.old.first }
        ensures len { self.new.len ≡ self.old.len }
        ensures ok { OnOk result (places ≤ space_in self.new.nexts) }
        ensures space { space_in self.old.nexts ≤ space_in self.new.nexts }
    {
        make_room(&mut self.nexts, places)
    }

    /// The place behind another one, or the first one.
    pub(crate) fn behind(&self, before: u32) -> u32
        ensures { (front back : List ℕ)
            → AreChained self.now.nexts.items self.now.first (front ++ back)
            → before ≡ last_of 4294967295 front
            → AreChained self.now.nexts.items result back }
    {
        if before == NONE {
            return self.first;
        }
        next_of(&self.nexts, before)
    }

    /// Lets a place come behind another one, or first.
    pub(crate) fn link(&mut self, before: u32, at: u32)
        requires len { self.old.len < 18446744073709551615 }
        requires small { at < 4294967295 }
        requires space { at < space_in self.old.nexts }
        ensures chain { (front back : List ℕ)
            → AreChained self.old.nexts.items self.old.first (front ++ back)
            → before ≡ last_of 4294967295 front → AreDistinct (front ++ back)
            → IsApart at (front ++ back)
            → AreChained self.new.nexts.items self.new.first (front ++ at ∷ back) }
        ensures len { self.new.len ≡ self.old.len + 1 }
        ensures space { space_in self.new.nexts ≡ space_in self.old.nexts }
    {
        fill(&mut self.nexts, at as usize, NONE);
        let next = self.behind(before);
        let _was = self.nexts.replace(at as usize, next);
        self.lead(before, at);
        self.len += 1;
    }

    /// Takes the place out that comes behind another one, or first.
    pub(crate) fn unlink(&mut self, before: u32, at: u32)
        requires len { 0 < self.old.len }
        ensures chain { (front back : List ℕ)
            → AreChained self.old.nexts.items self.old.first (front ++ at ∷ back)
            → before ≡ last_of 4294967295 front → AreDistinct (front ++ at ∷ back)
            → AreChained self.new.nexts.items self.new.first (front ++ back) }
        ensures len { self.new.len + 1 ≡ self.old.len }
        ensures space { space_in self.new.nexts ≡ space_in self.old.nexts }
    {
        let next = next_of(&self.nexts, at);
        self.lead(before, next);
        self.len -= 1;
    }

    // From another place, or from the beginning, leads to a place.
    fn lead(&mut self, before: u32, to: u32)
        ensures led { IsLed self.old.nexts.items self.new.nexts.items self.old.first
            self.new.first before to }
        ensures len { self.new.len ≡ self.old.len }
        ensures space { space_in self.new.nexts ≡ space_in self.old.nexts }
    {
        if before == NONE {
            self.first = to;
            return;
        }
        let _was = self.nexts.replace(before as usize, to);
    }
}
