//! All workers of a collector, each in a thread: a session for each connection of a peer
//! (`serve_session`), an admin that answers commands (`serve_admin`), and a timer (`run_timer`).
//!
//! `aggregator listen` runs them over sockets; sources and writers may lie in memory as well. They
//! wait, so each takes a handle. What a session and an admin promise stands in `peer_worker` and
//! `admin_worker`, and what all of them stand on in `worker_frame`; their names are taken from
//! here.
//!
//! Promised of a timer: it tells moments of its clock, and before each others that rise up to it,
//! so that few rows end by each. Each worker goes back from `serve_all` with what is promised of
//! it.
//!
//! No clause says what `serve_all` starts, when it ends, or what it counts.
#![tactic(auto)]

mod counts;
mod doors;
mod timer;
mod timing;

pub use admin_worker::{Asked, serve_admin};
pub use counts::Ended;
pub use doors::{Caller, Doors, serve_all};
pub use peer_worker::{laws, serve_session};
pub use timer::run_timer;
pub use worker_frame::{
    Came, Cause, Clock, Context, Door, Faulted, Gate, Gone, Link, News, Place, ReadFailed, Served,
    Source, Status, Taught,
};
