//! The messages of HAProxy's peers protocol (`doc/peers-v2.0.txt`, and the timed messages of
//! version 2.1), read from a stream of bytes in any pieces, and written.
//!
//! `session_core` stands on it, and so does who writes a peer's stream, as a benchmark.
//!
//! `Feed::feed` hands out exactly the messages of all bytes so far, however they were cut, and a
//! fault exactly where they hold one, then for good; `laws` says that all bytes have one reading,
//! as a relation on whole texts, and what more bytes do to it. `get_int` and `put_int` are the one
//! spelling of an integer, `write_message` that of a message, which is read again whatever follows.
//! `Feed::read` lends the same messages to who goes through them once, as a session: an update's
//! bytes stay where the piece has them. After `NoMemory` all is as it was. No clause says that
//! memory is there, nor how fast it goes.
#![tactic(auto)]

pub mod data_types;
mod decoding;
mod entry;
mod fault;
mod feed;
mod framing;
mod given;
mod integer;
pub mod kinds;
pub mod laws;
mod message;
mod parameters;
mod payload;
mod room;
mod writing;

pub use entry::LentMessage;
pub use fault::{WireCause, WireFault};
pub use feed::Feed;
pub use given::Given;
pub use integer::{IntTooLarge, get_int, put_int};
pub use message::{ArrayParameter, Definition, Message};
pub use writing::write_message;
