//! The connections of a collector: its sockets, and who waits, sits and is turned away at them.
//!
//! `listening` gives `Sockets` to the workers of `serve` as their doors. A connection's source is
//! `Incoming` and its writer `Outgoing`; `Connections` knows all that there are of peers, and
//! `Admins` hands on those of operators, and has a question wait behind another one whose answer
//! took long to make. `Ticks` is the machine's clock, whose moments are ms since the start. Which
//! lines at the operators' door are HTTP's is promised (`begins_as_http`). Beside that nothing is
//! but safety: no clause can say what a socket carried.
#![tactic(auto)]

mod admins;
mod connections;
mod faults;
mod greeting;
mod http_calls;
mod http_line;
mod incoming;
mod line_head;
mod outgoing;
mod pace;
mod resets;
mod sockets;
mod streams;
mod ticks;
mod turns;
mod unknown;
mod waiter;

pub use admins::Admins;
pub use connections::{Connections, Unasked};
pub use http_calls::HttpCall;
pub use http_line::begins_as_http;
pub use incoming::Incoming;
pub use outgoing::Outgoing;
pub use resets::{FoundBy, Reset, Resets};
pub use sockets::Sockets;
pub use streams::Stream;
pub use ticks::{Ticks, is_due};
pub use unknown::Call;
