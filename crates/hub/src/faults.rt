use crate::receipt::{Receipt, Ticket};
use agg_types::Whats;
use thiserror::Error;

/// Why a post was refused.
#[derive(Debug, Drop, Error)]
pub enum PostFault {
    /// A Put of a peer that this seat opened, and that seat `by` opened later: its row would not be
    /// taken. Nothing was stored.
    #[error("seat {by} has opened the peer since")]
    Replaced { by: u64, shown: Receipt },
    /// The history has `found` events of this seat, and the pass's number is another. Nothing was
    /// stored.
    #[error("the pass isn't at the seat's next event: the history has {found} of them")]
    NotNext { found: u64, shown: Receipt },
    /// Nothing was stored, and the batch comes back.
    #[error("out of memory")]
    NoMemory(Whats),
    /// The batch stands in the history, and is shown before any later event. The pass has advanced.
    #[error("out of memory to show the batch, which is stored")]
    Pending,
    /// The seat's numbers don't go as far. Nothing was stored.
    #[error("the seat's numbers are spent")]
    Spent,
}

/// Why a batch wasn't appended. Nothing was stored, and the pass is as it was.
#[derive(Debug, Drop, Error)]
pub enum AppendFault {
    /// A Put of a peer that this seat opened, and that seat `by` opened later, in the list of
    /// `now`.
    #[error("seat {by} has opened the peer since")]
    Replaced { by: u64, now: Ticket },
    /// The list of `now` has `found` events of this seat, and the pass's number is another.
    #[error("the pass isn't at the seat's next event: the history has {found} of them")]
    NotNext { found: u64, now: Ticket },
    /// An allocation failed, or memory is short and not all of the batch frees some: the reserve
    /// couldn't be had again, or the last showing was refused.
    #[error("out of memory")]
    NoMemory,
    /// The seat's numbers don't go as far.
    #[error("the seat's numbers are spent")]
    Spent,
}

/// Why no seat could be taken. Nothing was stored.
#[derive(Clone, Copy, Debug, Error)]
pub enum SeatFault {
    /// As many seats sit as may, or all numbers were given.
    #[error("no seat is free")]
    NoSeat,
    #[error("out of memory")]
    NoMemory,
}

/// Why no lens could be made.
#[derive(Clone, Copy, Debug, Error)]
pub enum LensFault {
    /// All places for readers were found taken.
    #[error("no place for a reader is free")]
    NoPlace,
    #[error("out of memory")]
    NoMemory,
}
