//! What a session tells its proxy: the pushed tables, as messages of HAProxy's peers protocol.
//!
//! A session's worker and the replay of scripts call it. A `Teller` keeps what one connection was
//! told. Each `Teller::turn` is given the sets of the filters at one moment, and answers the bytes
//! that bring what was told to these sets. They are table definitions and timed updates, which
//! specs/Telling says as messages. `Teller::begin` makes the same turn and answers what it has to
//! write as a list of changes, which `Unsaid::write` makes into these messages piece by piece, as
//! specs/Unsaid says. `Teller::begin_by` makes it from the keys that came into the sets and left
//! them since the last one. Which keys a turn puts and takes away, and how what was told is kept,
//! is found in `pushed_keys`. `laws` says what turns come to: after a turn the set is told, and of
//! a table with a hold further keys that were in it less than the hold before. What a receiver
//! reads in the bytes, and that ids count on, is said in `turn_laws`, which stands on this crate.
//!
//! After `NoMemory` a teller is as it was, and as much is left to write. No clause says that memory
//! is there, nor how fast it goes: `turn` and `begin` walk the sets and what was told once, and
//! again where something changes; `begin_by` walks what moved, as `pushed_keys` says.
#![tactic(auto)]

mod draft;
pub mod laws;
mod teller;
mod unsaid;

pub use teller::Teller;
pub use unsaid::{PIECE, Unsaid};
