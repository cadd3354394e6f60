//! The nodes of a search tree, each in the place that it is of.
ghost use Rattle.std.specs.Prelude.{◌≡◌};
ghost use Rattle.place_order.specs.Room.{space_in};
ghost use Rattle.place_order.specs.Trees.{IsJoined, node_in};

use segments::Segments;

/// Says that there is no place.
pub(crate) const NONE: u32 = u32::MAX;

/// The children of a place in a tree, each a place or none, and the height of what is below.
#[derive(Clone, Copy)]
pub(crate) struct Node {
    pub(crate) left: u32,
    pub(crate) right: u32,
    pub(crate) height: u8,
}

const _: () = prove!(size_of::<Node>() == 12);

/// A node without children.
pub(crate) const BLANK: Node = Node {
    left: NONE,
    right: NONE,
    height: 0,
};

/// The node of a place; where there is none, a blank one.
#[inline]
pub(crate) fn node_at(nodes: &Segments<Node>, place: u32) -> Node
    ensures { result ≡ node_in nodes.now.items place }
{
    match nodes.get(place as usize) {
        Some(node) => *node,
        None => BLANK,
    }
}

/// The height of the tree below a root, 0 where there is none.
#[inline]
pub(crate) fn height_of(nodes: &Segments<Node>, root: u32) -> u8 {
    node_at(nodes, root).height
}

/// Lets a place have these children, of which the higher one is so high. Answers its height.
pub(crate) fn join(nodes: &mut Segments<Node>, left: u32, at: u32, right: u32, below: u8) -> u8
    ensures joined { IsJoined nodes.old.items nodes.new.items left at right }
    ensures space { space_in nodes.new ≡ space_in nodes.old }
{
    let height = below.saturating_add(1);
    let node = Node {
        left,
        right,
        height,
    };
    let _before = nodes.replace(at as usize, node);
    height
}
