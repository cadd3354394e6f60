//! What posts are given: tickets for what was appended, and receipts for what is shown.

ghost use Rattle.std.specs.Prelude.{◌≡◌, [], length, IfSome, MatchBool};
ghost use mathlib.Core.List.{IsPrefix};
ghost use Rattle.hub.specs.History.{AllCount, IsLonger};
ghost use Rattle.hub.specs.Posts.{Follows};

use crate::hand::{HubReading, HubWriter};
use crate::log::Front;
use std::fmt;
use std::marker::Model;

/// Which list of events an append made. It is to be waited for. Contracts see it as that list.
pub struct Ticket {
    front: Front,
}

impl Drop for Ticket {
    fn drop(self) {
        let Ticket { front: _ } = self;
    }
}

impl fmt::Debug for Ticket {
    fn fmt<W: fmt::Write>(&self, f: &mut fmt::Formatter<W>) -> fmt::Result {
        f.debug_tuple("Ticket").field(&self.front.len()).finish()
    }
}

impl Model for Ticket {
    ghost use Rattle.hub.specs.History.{Beginning};

    ghost Value = { Beginning };

    ghost view = { λ t. t.front };
}

impl Ticket {
    pub(crate) fn of(front: Front) -> Ticket
        ensures { result ≡ front }
    {
        Ticket { front }
    }

    pub(crate) fn front(&self) -> &Front
        ensures { result.now ≡ self.now }
    {
        &self.front
    }
}

/// Which list of events a post showed, or a look found. Contracts see it as that list.
///
/// It is made here alone, of what is shown: of the writer's shown copy, of a copy that a reader
/// entered, or of the list with no event.
pub struct Receipt {
    front: Front,
}

impl Drop for Receipt {
    fn drop(self) {
        let Receipt { front: _ } = self;
    }
}

impl fmt::Debug for Receipt {
    fn fmt<W: fmt::Write>(&self, f: &mut fmt::Formatter<W>) -> fmt::Result {
        f.debug_tuple("Receipt").field(&self.front.len()).finish()
    }
}

impl Model for Receipt {
    ghost use Rattle.hub.specs.History.{Beginning};

    ghost Value = { Beginning };

    ghost view = { λ r. r.front };
}

impl Receipt {
    /// The receipt for the list with no event, which both copies show from the start.
    pub(crate) fn first(start: &Front) -> Receipt
        requires { start.now.events ≡ [] }
        ensures { result ≡ start.now }
    {
        Receipt {
            front: start.again(),
        }
    }

    /// The receipt for the list of a copy that was entered.
    pub(crate) fn found(reading: &HubReading) -> Receipt
        ensures { result ≡ reading.now.part.value.copied.at }
    {
        Receipt {
            front: reading.get().at.again(),
        }
    }

    /// A copy.
    pub(crate) fn again(&self) -> Receipt
        ensures { result ≡ self.now }
    {
        Receipt {
            front: self.front.again(),
        }
    }

    pub(crate) fn front(&self) -> &Front
        ensures { result.now ≡ self.now }
    {
        &self.front
    }

    /// Of the lists of two receipts of one history one begins the other. Whether this one's does.
    pub(crate) fn begins(&self, other: &Receipt) -> bool
        requires { other.now.of ≡ self.now.of }
        ensures fleet { (other.now.config ≡ self.now.config)
            × (other.now.opening ≡ self.now.opening) }
        ensures order { MatchBool result (IsPrefix self.now.events other.now.events)
            (IsLonger other.now.events self.now.events) }
    {
        self.front.compare(&other.front)
    }

    /// How many events its list has. They all count.
    pub fn len(&self) -> u64
        ensures length { result ≡ length self.now.events }
        ensures legal { AllCount self.now.config self.now.opening self.now.events }
    {
        self.front.len()
    }
}

/// The list that readers are shown. It is made of a writer alone, and receipts of it alone.
#[derive(Drop)]
pub struct Showing {
    front: Front,
}

impl Model for Showing {
    ghost use Rattle.hub.specs.History.{Beginning};

    ghost Value = { Beginning };

    ghost view = { λ s. s.front };
}

impl Showing {
    /// What this writer shows.
    pub fn of(writer: &HubWriter) -> Showing
        ensures { result ≡ writer.now.desk.shown.value.copied.at }
    {
        Showing {
            front: writer.published().at.again(),
        }
    }

    /// How many events its list has.
    pub fn len(&self) -> u64
        ensures { result ≡ length self.now.events }
    {
        self.front.len()
    }

    /// The receipt for a ticket, if its list is shown.
    pub fn receipt(&self, ticket: &Ticket) -> Option<Receipt>
        requires { ticket.now.of ≡ self.now.of }
        ensures { IfSome result (λ r. (r ≡ ticket.now) × Follows r self.now) }
    {
        if !ticket.front.compare(&self.front) {
            return None;
        }
        Some(Receipt {
            front: ticket.front.again(),
        })
    }
}
