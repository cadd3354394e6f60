//! What came into the sets of standing filters and what left them, numbered by how many events
//! there were.
//!
//! Each copy of the hub's book keeps `Changes` beside it, and hands it what the book told while it
//! took events (`Flips`). Who knows a filter's set at an earlier list of events learns from
//! `since` what to add and to take away for the set now, without a look at the set. A filter's
//! changes are kept as many as keys came in and stayed since its log began, at least 1,000; behind
//! an earlier list than they reach `since` answers that it doesn't know.
//!
//! Promised: whatever was told of a list's events, `since` says it of each earlier list
//! (specs/Numbered). No clause says how many changes are kept. Where an allocation fails, or the
//! book told that it doesn't know, a log begins anew.
#![tactic(auto)]

mod change;
mod changes;
mod log;

pub use change::Change;
pub use changes::Changes;
