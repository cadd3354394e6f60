//! Why a stream of messages can't be read on.

ghost use Rattle.std.specs.Prelude.{◌≡◌};

use crate::Message;
use agg_types::{Items, NoMemory};
use std::alloc::AllocError;
use thiserror::Error;

/// What is wrong with a stream of messages.
#[derive(Clone, Copy, Debug, PartialEq, Eq, Error)]
pub enum WireCause {
    /// A payload's length is above the limit, `LONGEST_PAYLOAD`.
    #[error("a message is too long")]
    TooLong,
    /// A payload's length is above 2^64 - 1.
    #[error("a message's length is above 2^64 - 1")]
    BadInteger,
    /// A needed field of a payload is cut short, or above 2^64 - 1.
    #[error("a field of a message is cut short or too large")]
    BadField,
    /// An allocation failed.
    #[error("out of memory")]
    NoMemory,
}

impl From<AllocError> for WireCause {
    ghost use Rattle.peers_msg.specs.declared.fault.WireCause.TheVariants.{NoMemory};

    ghost from_gives = { λ _ e. e ≡ NoMemory };

    fn from(_refused: AllocError) -> WireCause {
        WireCause::NoMemory
    }
}

impl From<NoMemory> for WireCause {
    ghost use Rattle.peers_msg.specs.declared.fault.WireCause.TheVariants as causes;

    ghost from_gives = { λ _ e. e ≡ causes.NoMemory };

    fn from(_refused: NoMemory) -> WireCause {
        WireCause::NoMemory
    }
}

/// A fault in a stream, and the messages of the piece that stand before it.
#[derive(Debug, Drop, Error)]
#[error("{cause}")]
pub struct WireFault {
    /// What is wrong.
    pub cause: WireCause,
    /// The messages that this piece made whole before the fault, in order. Empty after `NoMemory`.
    pub before: Items<Message>,
}
