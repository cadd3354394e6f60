//! Laws of what a session tells its proxy, turn by turn.
//!
//! `telling` makes a turn's bytes from the sets of the pushed tables, a moment, and what was told
//! before. Its contract says these bytes by definitions that follow the code. The laws here say
//! what they come to, without it:
//!
//! - `reading`: this repository's own receiver reads a turn's bytes as whole messages and nothing
//!   else, and each update under the definition of its table;
//! - `laws`: of each table the updates are, key by key, what the rule for one key asks. Each key
//!   stands there at most once, and the ids of a session's updates are 1, 2, 3 and so on. Asked for
//!   all, every key of the set is put. No refresh is late, and a key that left and isn't held is
//!   taken away;
//! - `receiver`: one that reads the bytes of a session's turns has exactly the keys that are told.
//!
//! Nothing runs here, and nothing stands on it: each law is the contract of a function that does
//! nothing, about the definitions that `Teller::turn` cites. The laws take sets whose keys are in
//! the order of their bytes, and what such sets left of what was told. They say nothing of memory,
//! nor of when turns are made.
#![tactic(auto)]

pub mod laws;
pub mod reading;
pub mod receiver;
