ghost use Rattle.std.specs.Prelude.{◌≡◌, ◌<◌, ◌≤◌, [], length, IsOk, OnOk, OnErr, slice_get};
ghost use Rattle.place_order.specs.Orders.{AreBelow, AreByRank, AreDistinct, HasOwnRank};
ghost use Rattle.place_order.specs.Orders.{IsInserted, without};

use crate::chain::Chain;
use crate::nodes::NONE;
use crate::places::Places;
use crate::ranks::PlaceRanks;
use crate::tree::Tree;
use agg_types::NoMemory;
use std::alloc::Global;
use std::marker::Model;

/// Places in the order of their ranks.
///
/// Contracts see the list of the places, and the room: each place below that number can be inserted
/// without memory.
pub struct PlaceOrder {
    tree: Tree,
    chain: Chain,
    room: usize,
}

// By hand, so that what drops it elsewhere proves nothing of its parts.
impl Drop for PlaceOrder {
    fn drop(self) {
        let PlaceOrder {
            tree: _,
            chain: _,
            room: _,
        } = self;
    }
}

impl Model for PlaceOrder {
    ghost use Rattle.place_order.specs.Orders.{Ordered};
    ghost use Rattle.place_order.specs.Chains.{walked};
    ghost use Rattle.place_order.specs.Kept.{AreKept};

    ghost Value = { Ordered };

    ghost view = { λ p. record {
      places = walked p.chain.nexts.items p.chain.first p.chain.len;
      room = p.room;
    } };

    ghost invariant = { λ p. AreKept p.tree.nodes p.tree.root p.chain.nexts p.chain.first
        (walked p.chain.nexts.items p.chain.first p.chain.len) p.room };
}

impl PlaceOrder {
    /// No places, and no room. Takes no memory.
    pub fn new(alloc: Global) -> PlaceOrder
        ensures places { result.places ≡ [] }
        ensures room { result.room ≡ 0 }
    {
        PlaceOrder {
            tree: Tree::new(alloc),
            chain: Chain::new(alloc),
            room: 0,
        }
    }

    /// How many places there are.
    #[inline]
    pub fn len(&self) -> usize
        ensures { result ≡ length self.now.places }
    {
        self.chain.len
    }

    /// Takes the memory for each place below a number. After `NoMemory`, which comes for more than
    /// 4,294,967,295 places too, nothing has changed.
    pub fn reserve(&mut self, places: usize) -> Result<(), NoMemory>
        ensures same { self.new.places ≡ self.old.places }
        ensures ok { OnOk result (places ≤ self.new.room) }
        ensures room { self.old.room ≤ self.new.room }
        ensures err { OnErr result (self.new ≡ self.old) }
        ensures held { places ≤ self.old.room → IsOk result }
    {
        if places <= self.room {
            return Ok(());
        }
        if places > NONE as usize {
            return Err(NoMemory);
        }
        self.tree.reserve(places)?;
        self.chain.reserve(places)?;
        self.room = places;
        Ok(())
    }

    /// Puts a place among the others, where its rank belongs. Takes no memory.
    pub fn insert<R: PlaceRanks>(&mut self, at: usize, ranks: &R)
        requires room { at < self.old.room }
        requires ordered { AreByRank (R.rank ranks.now) self.old.places }
        requires apart { HasOwnRank (R.rank ranks.now) at self.old.places }
        ensures inserted { IsInserted at self.old.places self.new.places }
        ensures ordered { AreByRank (R.rank ranks.now) self.new.places }
        ensures room { self.new.room ≡ self.old.room }
    {
        let len = self.chain.len;
        let at = at as u32;
        let before = self.tree.insert(at, ranks, len);
        self.chain.link(before, at);
    }

    /// Takes a place out, if it is there. Its rank has to be what it was. Takes no memory.
    pub fn remove<R: PlaceRanks>(&mut self, at: usize, ranks: &R)
        requires ordered { AreByRank (R.rank ranks.now) self.old.places }
        ensures removed { self.new.places ≡ without at self.old.places }
        ensures ordered { AreByRank (R.rank ranks.now) self.new.places }
        ensures room { self.new.room ≡ self.old.room }
    {
        if at >= self.room {
            return;
        }
        let len = self.chain.len;
        let at = at as u32;
        let before = self.tree.remove(at, ranks, len);
        if self.chain.behind(before) != at {
            return;
        }
        self.chain.unlink(before, at);
    }

    /// Lends the places in order, none of which is there twice. Takes no memory.
    pub fn iter(&self) -> Places<'_>
        ensures value { result ≡ self.now.places }
        ensures distinct { AreDistinct self.now.places }
    {
        let _room = self.room;
        Places::new(&self.chain)
    }
}
