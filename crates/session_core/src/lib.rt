//! One peer's session: from the bytes that a peer sends to facts for the fleet, replies and
//! acknowledgements.
//!
//! `fleet_core` stands on it, with a session for each connection. A session's meaning is `talk`, of
//! the whole byte string so far, however it was cut into pieces. That is a hello of three lines,
//! then messages of the peers protocol 2.1 (HAProxy's `doc/peers-v2.0.txt`, and the timed messages
//! of version 2.1); `update_values` reads the key and the values of an update. `Session::feed`
//! gives what the talk has with a piece beyond the talk without it, and a fault exactly where the
//! talk ends, then for good; `laws` says the hello as a relation on whole lines, and counts update
//! ids from the last explicit one. After `NoMemory` all is as it was. A batch of facts may be given
//! back to its session, which has its room for the next. No clause says when `feed` and `idle` are
//! called, that memory is there, nor how fast it is.
#![tactic(auto)]

mod batch;
mod cause;
mod followed;
mod hello;
pub mod laws;
mod lives;
mod puts;
mod run;
mod session;
mod stage;
mod track;
mod undo;

pub use batch::{Batch, SessionFault};
pub use cause::{SessionCause, Status};
pub use session::{BEAT_AFTER, Idle, LONGEST_SILENCE, Session};
