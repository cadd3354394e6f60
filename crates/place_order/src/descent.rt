//! Ways down a tree by the ranks of its places.
ghost use Rattle.std.specs.Prelude.{◌≡◌, ◌≤◌, ℕ, List, ◌∷◌, ◌++◌, length};
ghost use Rattle.std.specs.Ordering.{is_gt};
ghost use Rattle.place_order.specs.Chains.{last_of};
ghost use Rattle.place_order.specs.Orders.{AreByRank, AreDistinct, HasOwnRank, IsPlaceIn};
ghost use Rattle.place_order.specs.Orders.{by_rank, placed, without};
ghost use Rattle.place_order.specs.Room.{space_in};
ghost use Rattle.place_order.specs.Trees.{IsCut, IsMade, IsTreeOf};

use crate::balance::{Change, balanced, settled};
use crate::nodes::{NONE, Node, join, node_at};
use crate::ranks::PlaceRanks;
use segments::Segments;
use std::cmp::Ordering;

/// A tree that a place came to or went from, and the last place whose rank is below that of the
/// place, or else the one given.
#[derive(Clone, Copy)]
pub(crate) struct Way {
    pub(crate) tree: Change,
    pub(crate) before: u32,
}

/// Puts a place into a tree of at most so many places.
pub(crate) fn put<R: PlaceRanks>(
    nodes: &mut Segments<Node>,
    root: u32,
    at: u32,
    ranks: &R,
    none: u32,
    most: usize,
) -> Way
    ensures made { (places : List ℕ) → IsTreeOf nodes.old.items root places
        → AreByRank (R.rank ranks.now) places → HasOwnRank (R.rank ranks.now) at places
        → IsPlaceIn (length nodes.old.items) at → length places ≤ most
        → IsMade nodes.old.items nodes.new.items result.tree.root
        (placed (by_rank (R.rank ranks.now)) at places)
        (placed (by_rank (R.rank ranks.now)) at places) }
    ensures cut { (places : List ℕ) → IsTreeOf nodes.old.items root places
        → AreByRank (R.rank ranks.now) places → length places ≤ most
        → IsCut (λ place. is_gt (by_rank (R.rank ranks.now) at place)) none result.before places }
    ensures space { space_in nodes.new ≡ space_in nodes.old }
{
    if root == NONE || most == 0 {
        let _high = join(nodes, NONE, at, NONE, 0);
        let tree = Change {
            root: at,
            as_high: false,
        };
        return Way { tree, before: none };
    }
    let node = node_at(nodes, root);
    match ranks.order(at as usize, root as usize) {
        Ordering::Greater => {
            let Way { tree, before } = put(nodes, node.right, at, ranks, root, most - 1);
            let tree = settled(nodes, &node, node.left, root, tree.root, tree.as_high);
            Way { tree, before }
        }
        _ => {
            let Way { tree, before } = put(nodes, node.left, at, ranks, none, most - 1);
            let tree = settled(nodes, &node, tree.root, root, node.right, tree.as_high);
            Way { tree, before }
        }
    }
}

/// Takes a place out of a tree of at most so many places, if it is there.
pub(crate) fn take<R: PlaceRanks>(
    nodes: &mut Segments<Node>,
    root: u32,
    at: u32,
    ranks: &R,
    none: u32,
    most: usize,
) -> Way
    ensures made { (places : List ℕ) → IsTreeOf nodes.old.items root places
        → AreByRank (R.rank ranks.now) places → length places ≤ most
        → IsMade nodes.old.items nodes.new.items result.tree.root places (without at places) }
    ensures cut { (places : List ℕ) → IsTreeOf nodes.old.items root places
        → AreByRank (R.rank ranks.now) places → length places ≤ most
        → IsCut (λ place. is_gt (by_rank (R.rank ranks.now) at place)) none result.before places }
    ensures space { space_in nodes.new ≡ space_in nodes.old }
{
    if root == NONE || most == 0 {
        let tree = Change {
            root,
            as_high: true,
        };
        return Way { tree, before: none };
    }
    let node = node_at(nodes, root);
    if root == at {
        let before = last_in(nodes, node.left, none, most - 1);
        let tree = merged(nodes, &node, most - 1);
        return Way { tree, before };
    }
    match ranks.order(at as usize, root as usize) {
        Ordering::Greater => {
            let Way { tree, before } = take(nodes, node.right, at, ranks, root, most - 1);
            let tree = settled(nodes, &node, node.left, root, tree.root, tree.as_high);
            Way { tree, before }
        }
        _ => {
            let Way { tree, before } = take(nodes, node.left, at, ranks, none, most - 1);
            let tree = settled(nodes, &node, tree.root, root, node.right, tree.as_high);
            Way { tree, before }
        }
    }
}

// The last place of a tree that has at most so many, or else the one given.
fn last_in(nodes: &Segments<Node>, root: u32, none: u32, most: usize) -> u32
    ensures { (places : List ℕ) → IsTreeOf nodes.now.items root places → length places ≤ most
        → result ≡ last_of none places }
{
    if root == NONE || most == 0 {
        return none;
    }
    last_in(nodes, node_at(nodes, root).right, root, most - 1)
}

// Lets the two trees below a node, of at most so many places each, be one in its stead.
fn merged(nodes: &mut Segments<Node>, node: &Node, most: usize) -> Change
    ensures made { (ls rs : List ℕ) → IsTreeOf nodes.old.items node.now.left ls
        → IsTreeOf nodes.old.items node.now.right rs → AreDistinct (ls ++ rs) → length rs ≤ most
        → IsMade nodes.old.items nodes.new.items result.root (ls ++ rs) (ls ++ rs) }
    ensures space { space_in nodes.new ≡ space_in nodes.old }
{
    if node.right == NONE {
        return Change {
            root: node.left,
            as_high: false,
        };
    }
    let (first, rest) = take_first(nodes, node.right, most);
    let top = balanced(nodes, node.left, first, rest.root);
    Change {
        root: top.root,
        as_high: top.height == node.height,
    }
}

// Takes the first place out of a tree that has some, but at most so many.
fn take_first(nodes: &mut Segments<Node>, root: u32, most: usize) -> (u32, Change)
    ensures made { (place : ℕ) (places : List ℕ) → IsTreeOf nodes.old.items root (place ∷ places)
        → AreDistinct (place ∷ places) → length places ≤ most
        → (result.0 ≡ place)
        × IsMade nodes.old.items nodes.new.items result.1.root (place ∷ places) places }
    ensures space { space_in nodes.new ≡ space_in nodes.old }
{
    let node = node_at(nodes, root);
    if node.left == NONE || most == 0 {
        let rest = Change {
            root: node.right,
            as_high: false,
        };
        return (root, rest);
    }
    let (first, rest) = take_first(nodes, node.left, most - 1);
    let tree = settled(nodes, &node, rest.root, root, node.right, rest.as_high);
    (first, tree)
}
