//! How a worker ends.

use hub::{PostFault, Receipt};
use session_core::SessionCause;
use thiserror::Error;

/// What a worker posted.
#[derive(Debug, Drop)]
pub struct Served {
    /// What its last post at Ok shows.
    pub last: Option<Receipt>,
    /// What its seat's leave shows. None where there was no seat, and where the leave was refused
    /// or isn't shown yet.
    pub left: Option<Receipt>,
}

/// Why a worker ended.
#[derive(Debug, Drop, Error)]
pub enum Cause {
    /// A read failed, or 2^40 reads or turns were made.
    #[error("read failed")]
    Read,
    /// A write failed.
    #[error("write failed")]
    Write,
    /// The session's stream ended it, it was silent for too long, or an allocation of its own
    /// failed.
    #[error("{0}")]
    Session(SessionCause),
    /// A post was refused, or an allocation of an admin's or a timer's own failed (no memory for no
    /// events).
    #[error("{0}")]
    Post(PostFault),
    /// No copy of the book could be entered.
    #[error("no copy to read")]
    Look,
}

/// A worker that ended with a fault.
#[derive(Debug, Drop, Error)]
#[error("{cause}")]
pub struct Faulted {
    pub cause: Cause,
    pub served: Served,
}
