//! Numbered places in an order that somebody else knows.
//!
//! `standing_filters` keeps with it the places of its keys in the order of the keys. Whoever calls
//! knows the ranks of places: it is asked how two of them compare, by `PlaceRanks`, and no rank is
//! kept here.
//!
//! Contracts see the list of the places in order, and the room: each place below that number can
//! be inserted without memory. Only `reserve` takes memory, and after `NoMemory` everything is as
//! it was. `insert` puts a place where its rank belongs, if the others are in order and none has
//! its rank. `remove` takes it out again, while its rank can still be compared. No place is there
//! twice. `iter` lends the places in order, from the first on.
//!
//! Places are the nodes of a search tree that is balanced by heights, and each knows the place
//! that comes next. So a walk needs neither memory nor comparisons.
//!
//! No clause says that the tree is balanced, how long a call takes, or how much memory is used. The
//! heights of two sides differ by at most one, whatever the order of calls. So a call that changes
//! something compares at most some 1.5 log2(n) places, each once, and goes so deep. On the way back
//! it looks at nothing more as soon as a subtree has the root and the height that it had. A node
//! has 12 bytes, and the link to the next place 4. They are written only up to the greatest place
//! that ever came.
#![tactic(auto)]

mod balance;
mod chain;
mod descent;
mod nodes;
mod order;
mod places;
mod ranks;
mod room;
mod tree;

pub use order::PlaceOrder;
pub use places::Places;
pub use ranks::PlaceRanks;
