//! Trees that become one, balanced by their heights.
ghost use Rattle.std.specs.Prelude.{◌≡◌};
ghost use Rattle.place_order.specs.Room.{space_in};
ghost use Rattle.place_order.specs.Trees.{BecomesOne, node_in};

use crate::nodes::{NONE, Node, height_of, join, node_at};
use segments::Segments;

/// The root of a tree, and its height.
#[derive(Clone, Copy)]
pub(crate) struct Top {
    pub(crate) root: u32,
    pub(crate) height: u8,
}

/// The root of a tree that was changed, and whether it is as high as before.
#[derive(Clone, Copy)]
pub(crate) struct Change {
    pub(crate) root: u32,
    pub(crate) as_high: bool,
}

/// Lets a place with a node stand between two trees, one of which was changed, and may be as high
/// as before. Does nothing where the node is right.
#[inline]
pub(crate) fn settled(
    nodes: &mut Segments<Node>,
    node: &Node,
    left: u32,
    at: u32,
    right: u32,
    as_high: bool,
) -> Change
    ensures made { node_in nodes.old.items at ≡ node.now
        → BecomesOne nodes.old.items nodes.new.items left at right result.root }
    ensures space { space_in nodes.new ≡ space_in nodes.old }
{
    if as_high && left == node.left && right == node.right {
        return Change { root: at, as_high };
    }
    let top = balanced(nodes, left, at, right);
    Change {
        root: top.root,
        as_high: top.height == node.height,
    }
}

/// Lets a place stand between two trees whose heights differ by at most two.
pub(crate) fn balanced(nodes: &mut Segments<Node>, left: u32, at: u32, right: u32) -> Top
    ensures made { BecomesOne nodes.old.items nodes.new.items left at right result.root }
    ensures space { space_in nodes.new ≡ space_in nodes.old }
{
    let on_left = height_of(nodes, left);
    let on_right = height_of(nodes, right);
    if on_left > on_right.saturating_add(1) {
        return from_left(nodes, left, at, right, on_right);
    }
    if on_right > on_left.saturating_add(1) {
        return from_right(nodes, left, at, right, on_left);
    }
    let height = join(nodes, left, at, right, on_left.max(on_right));
    Top { root: at, height }
}

// The same where the left one is higher by two than the right one, which is so high.
fn from_left(nodes: &mut Segments<Node>, left: u32, at: u32, right: u32, on_right: u8) -> Top
    ensures made { BecomesOne nodes.old.items nodes.new.items left at right result.root }
    ensures space { space_in nodes.new ≡ space_in nodes.old }
{
    let top = node_at(nodes, left);
    // A higher tree isn't empty, so neither test for NONE ever decides.
    if left == NONE {
        let height = join(nodes, left, at, right, on_right);
        return Top { root: at, height };
    }
    let outer = height_of(nodes, top.left);
    let inner = height_of(nodes, top.right);
    if top.right == NONE || outer >= inner {
        let lower = join(nodes, top.right, at, right, inner.max(on_right));
        let height = join(nodes, top.left, left, at, outer.max(lower));
        return Top { root: left, height };
    }
    let middle = node_at(nodes, top.right);
    let before = height_of(nodes, middle.left);
    let behind = height_of(nodes, middle.right);
    let lower = join(nodes, top.left, left, middle.left, outer.max(before));
    let other = join(nodes, middle.right, at, right, behind.max(on_right));
    let height = join(nodes, left, top.right, at, lower.max(other));
    Top {
        root: top.right,
        height,
    }
}

// The same where the right one is higher by two than the left one, which is so high.
fn from_right(nodes: &mut Segments<Node>, left: u32, at: u32, right: u32, on_left: u8) -> Top
    ensures made { BecomesOne nodes.old.items nodes.new.items left at right result.root }
    ensures space { space_in nodes.new ≡ space_in nodes.old }
{
    let top = node_at(nodes, right);
    // A higher tree isn't empty, so neither test for NONE ever decides.
    if right == NONE {
        let height = join(nodes, left, at, right, on_left);
        return Top { root: at, height };
    }
    let inner = height_of(nodes, top.left);
    let outer = height_of(nodes, top.right);
    if top.left == NONE || outer >= inner {
        let lower = join(nodes, left, at, top.left, on_left.max(inner));
        let height = join(nodes, at, right, top.right, lower.max(outer));
        return Top {
            root: right,
            height,
        };
    }
    let middle = node_at(nodes, top.left);
    let before = height_of(nodes, middle.left);
    let behind = height_of(nodes, middle.right);
    let lower = join(nodes, left, at, middle.left, on_left.max(before));
    let other = join(nodes, middle.right, right, top.right, behind.max(outer));
    let height = join(nodes, at, top.left, right, lower.max(other));
    Top {
        root: top.left,
        height,
    }
}
