//! The HTTP door on sockets: threads that take a connection each, which a clerk answers.
//!
//! `listening` runs its threads beside the workers of the collector (`Visits`). There are twelve
//! places: a connection that has one has a thread and a lens of its own. Further ones wait in the
//! listener's queue. While all places are taken one thread more answers them side by side whether
//! the collector works, and anything else that the door is busy (`Guest`, `web_door::Porter`). A
//! request has 2 s to come whole, and an answer 10 s to be taken. `Rates` keeps how many updates
//! came in each of the last seconds, for the page.
//!
//! Nothing is promised but that it is safe: no clause can say what a socket carried. What a clerk
//! answers `web_door` says, and what is sent for a request the kit's `http_server`.
#![tactic(auto)]

mod carrying;
mod guest;
mod patience;
mod rates;
mod visit;
mod web;

pub use rates::Rates;
pub use web::{MOST_VISITS, Visits, Web};
