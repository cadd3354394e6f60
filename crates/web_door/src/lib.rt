//! Answers to requests over HTTP, of a connection with a lens of its own.
//!
//! `listening` serves each connection of its HTTP door by a `Clerk`, a service of the kit's
//! `http_server`. It only reads: a clerk has a lens and no seat, so nothing that a request says can
//! post. `Looks` bounds what all clerks do: four answers are made at once, looks take a tenth of
//! the time (`Budget`), and the figures and the page share a look for ten times as long as it took,
//! a second at least. While clerks have no time, a `Porter` tells whether the collector works, and
//! whoever asks for something else that the door is busy. Both answer 421 to a request for a host
//! that isn't the collector's (`web_target::admits_host`).
//!
//! Promised of a clerk: each answer leaves its lens at a list of events that begins with the list
//! of the answer before. So on one connection lists never shrink (`Clerk`'s `answers`). A look that
//! is shared comes with a receipt, by which each clerk that tells of it learns its list. When one
//! more look may begin, and what one costs, is exact (`Budget`). What moved in a filter's set is
//! made of the changes behind the very number that was asked for. What the texts say, tests show.
#![tactic(auto)]

mod asking;
mod budget;
mod changing;
mod checks;
mod clerk;
mod facts;
mod looks;
mod porter;
mod reply;

pub use budget::{Budget, SECOND, TENTH, freshness};
pub use clerk::Clerk;
pub use facts::Facts;
pub use looks::Looks;
pub use porter::Porter;
