//! Places in a search tree.
ghost use Rattle.std.specs.Prelude.{◌≡◌, ◌<◌, ◌≤◌, ◌+◌, ℕ, List, [], length, OnOk};
ghost use Rattle.std.specs.Ordering.{is_gt};
ghost use Rattle.place_order.specs.Orders.{AreByRank, HasOwnRank, by_rank, placed, without};
ghost use Rattle.place_order.specs.Room.{space_in};
ghost use Rattle.place_order.specs.Trees.{IsCut, IsTreeOf};

use crate::descent::{put, take};
use crate::nodes::{BLANK, NONE, Node};
use crate::ranks::PlaceRanks;
use crate::room::{fill, make_room};
use agg_types::NoMemory;
use segments::Segments;
use std::alloc::Global;

/// The nodes of places, of which one is the root.
#[derive(Drop)]
pub(crate) struct Tree {
    pub(crate) nodes: Segments<Node>,
    pub(crate) root: u32,
}

impl Tree {
    /// A tree without places.
    pub(crate) fn new(alloc: Global) -> Tree
        ensures tree { IsTreeOf result.nodes.items result.root [] }
    {
        Tree {
            nodes: Segments::new(alloc),
            root: NONE,
        }
    }

    /// Takes the memory for each place below a number.
    pub(crate) fn reserve(&mut self, places: usize) -> Result<(), NoMemory>
        ensures items { self.new.nodes.items ≡ self.old.nodes.items }
        ensures root { self.new.root ≡ self.old.root }
        ensures ok { OnOk result (places ≤ space_in self.new.nodes) }
        ensures space { space_in self.old.nodes ≤ space_in self.new.nodes }
    {
        make_room(&mut self.nodes, places)
    }

    /// Puts a place among at most so many. Answers the last one whose rank is below its rank.
    pub(crate) fn insert<R: PlaceRanks>(&mut self, at: u32, ranks: &R, len: usize) -> u32
        requires small { at < 4294967295 }
        requires space { at < space_in self.old.nodes }
        ensures tree { (places : List ℕ) → IsTreeOf self.old.nodes.items self.old.root places
            → AreByRank (R.rank ranks.now) places → HasOwnRank (R.rank ranks.now) at places
            → length places ≤ len
            → IsTreeOf self.new.nodes.items self.new.root
            (placed (by_rank (R.rank ranks.now)) at places) }
        ensures cut { (places : List ℕ) → IsTreeOf self.old.nodes.items self.old.root places
            → AreByRank (R.rank ranks.now) places → length places ≤ len
            → IsCut (λ place. is_gt (by_rank (R.rank ranks.now) at place)) 4294967295 result
            places }
        ensures space { space_in self.new.nodes ≡ space_in self.old.nodes }
    {
        fill(&mut self.nodes, at as usize, BLANK);
        let way = put(&mut self.nodes, self.root, at, ranks, NONE, len);
        self.root = way.tree.root;
        way.before
    }

    /// Takes a place from at most so many, if it is there. Answers the last one whose rank is below
    /// its rank.
    pub(crate) fn remove<R: PlaceRanks>(&mut self, at: u32, ranks: &R, len: usize) -> u32
        ensures tree { (places : List ℕ) → IsTreeOf self.old.nodes.items self.old.root places
            → AreByRank (R.rank ranks.now) places → length places ≤ len
            → IsTreeOf self.new.nodes.items self.new.root (without at places) }
        ensures cut { (places : List ℕ) → IsTreeOf self.old.nodes.items self.old.root places
            → AreByRank (R.rank ranks.now) places → length places ≤ len
            → IsCut (λ place. is_gt (by_rank (R.rank ranks.now) at place)) 4294967295 result
            places }
        ensures space { space_in self.new.nodes ≡ space_in self.old.nodes }
    {
        let way = take(&mut self.nodes, self.root, at, ranks, NONE, len);
        self.root = way.tree.root;
        way.before
    }
}
