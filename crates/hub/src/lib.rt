//! One history of a fleet, which many threads add to and read without a lock.
//!
//! The workers of the collector stand on it: each session posts the facts of its bytes at a seat of
//! its own, and readers look at whole books. A `Mutex` lies over the history, and is held for
//! microseconds. Batches become visible by one exchange of two copies of the book: one thread
//! publishes all that was appended, without the lock, and the others wait for it.
//!
//! Promised: a look answers for a list of events that begins with all that its lens saw or learned.
//! A receipt's list ends with exactly the batch that was posted, behind what its pass had seen.
//! Lists stand in proofs alone and take no bytes. What came into a filter's set and what left it
//! behind an earlier list, `Look::changes` tells while it is known: applied to the set at that list
//! it gives the set now.
//!
//! A pass keeps another owner of its last two batches. Once both copies have taken one of them, its
//! list comes back to the session, empty and with its room, by `Pass::take_back`.
//!
//! A thread that posts inside a look of its own waits for itself for ever. `Hub::append` and
//! `Hub::wait` wait for no look, as far as counts of looks tell, which are a hint.
//!
//! Where an allocation fails while batches are shown, a reserve is given up for it. Until there is
//! memory again only what gives memory back is taken: moments, clears and dropped filters.
//!
//! No clause says that a call gets on: not that a wait ends, that memory is there, that a seat or a
//! place is free, nor that a look isn't None.
#![tactic(auto)]

mod awaiting;
mod batch;
mod copies;
mod desk;
mod entry;
mod faults;
mod freeing;
mod hand;
mod hub;
mod idle;
mod last_batches;
pub mod laws;
mod lens;
mod log;
mod looks;
mod naming;
mod pass;
mod patience;
mod press;
mod progress;
mod receipt;
mod reserve;
mod roll;
mod sitting;
mod store;
mod trail;

pub use awaiting::Await;
pub use faults::{AppendFault, LensFault, PostFault, SeatFault};
pub use hub::{Hub, Opening};
pub use lens::{Lens, Look};
pub use naming::Naming;
pub use pass::Pass;
pub use progress::Progress;
pub use receipt::{Receipt, Ticket};
pub use set_changes::Change;
