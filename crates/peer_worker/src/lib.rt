//! A session for each connection of a peer: `serve_session`.
//!
//! `serve` runs one in a thread for each connection. What a session says, reads and tells stands in
//! the crates below: `session_core` for its peer's stream, `telling` for the pushed tables, `hub`
//! for the history that it posts to, and `worker_frame` for what it stands on.
//!
//! Promised: exactly the facts of the bytes that it took are told, and an answer is written only
//! behind its facts. What it tells its proxy of pushed filters is, once a telling was written
//! whole, exactly their sets at one list of the history, and these lists go on from one another. A
//! telling is written in pieces of whole messages, and all of it before the next one is made.
//!
//! No clause says when a telling is made, when a piece of it is written, what its gate is told, nor
//! what the answers to resync requests, the definitions, the update ids and the learned rows' keys
//! of a stream are found to be (`Scout`).
#![tactic(auto)]

mod asking;
mod attending;
mod faults;
mod hello;
pub mod laws;
mod moves;
mod posting;
mod pushing;
mod running;
mod scout;
mod session;
mod taught;
mod waiting;
mod worker;

pub use session::serve_session;
