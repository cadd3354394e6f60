//! How a worker ended, in words.

use hub::{PostFault, Receipt};
use serve::{Cause, Faulted, Served};
use session_core::SessionCause;
use std::fmt;
use std::fmt::{Display, Formatter, Write};

/// Why a worker ended.
#[derive(Clone, Copy)]
enum How {
    Whole,
    Read,
    Write,
    Session(SessionCause),
    Post(Refusal),
    Look,
}

/// Why a post was refused.
#[derive(Clone, Copy, Debug)]
enum Refusal {
    Replaced,
    NotNext,
    NoMemory,
    Pending,
    Spent,
}

impl Refusal {
    fn of(fault: &PostFault) -> Refusal {
        match fault {
            PostFault::Replaced { .. } => Refusal::Replaced,
            PostFault::NotNext { .. } => Refusal::NotNext,
            PostFault::NoMemory(_) => Refusal::NoMemory,
            PostFault::Pending => Refusal::Pending,
            PostFault::Spent => Refusal::Spent,
        }
    }
}

impl How {
    fn of(cause: &Cause) -> How {
        match cause {
            Cause::Read => How::Read,
            Cause::Write => How::Write,
            Cause::Session(cause) => How::Session(*cause),
            Cause::Post(fault) => How::Post(Refusal::of(fault)),
            Cause::Look => How::Look,
        }
    }

    // What is said of it, but of the cause of a session.
    fn words(self) -> &'static str {
        match self {
            How::Whole => "ended by itself",
            How::Read => "a read failed",
            How::Write => "a write failed",
            How::Session(_) => "the session ended",
            How::Post(_) => "a post was refused",
            How::Look => "no look",
        }
    }
}

impl Display for How {
    fn fmt<W: Write>(&self, f: &mut Formatter<W>) -> fmt::Result {
        match self {
            How::Session(cause) => write!(f, "{cause}"),
            How::Post(refusal) => write!(f, "{}: {refusal:?}", self.words()),
            how => write!(f, "{}", how.words()),
        }
    }
}

/// How a worker ended, how many events its receipts show, and how many turns it made, if its gate
/// counts them.
#[derive(Clone, Copy)]
pub struct Ending {
    how: How,
    last: Option<u64>,
    left: Option<u64>,
    turns: Option<u64>,
}

fn count(receipt: &Option<Receipt>) -> Option<u64> {
    match receipt {
        None => None,
        Some(receipt) => Some(receipt.len()),
    }
}

/// How a worker ended, as far as memory goes.
#[derive(Clone, Copy, Debug, PartialEq, Eq)]
pub enum Outcome {
    /// By itself.
    Whole,
    /// It lacked memory, and what it had read last wasn't posted.
    NoMemory,
    /// Its last post was stored and not shown.
    Pending,
    Other,
}

impl Ending {
    fn told(how: How, served: &Served) -> Ending {
        Ending {
            how,
            last: count(&served.last),
            left: count(&served.left),
            turns: None,
        }
    }

    /// What is told of an ending.
    pub fn of(ended: &Result<Served, Faulted>) -> Ending {
        match ended {
            Ok(served) => Ending::told(How::Whole, served),
            Err(faulted) => Ending::told(How::of(&faulted.cause), &faulted.served),
        }
    }

    /// The same, behind so many turns.
    pub fn behind(self, turns: u64) -> Ending {
        let mut ending = self;
        ending.turns = Some(turns);
        ending
    }

    /// How it ended, as far as memory goes.
    pub fn outcome(self) -> Outcome {
        match self.how {
            How::Whole => Outcome::Whole,
            How::Session(SessionCause::NoMemory) => Outcome::NoMemory,
            How::Post(Refusal::NoMemory) => Outcome::NoMemory,
            How::Post(Refusal::Pending) => Outcome::Pending,
            _ => Outcome::Other,
        }
    }

    /// How many events its last post at Ok shows behind so many.
    pub fn posted_behind(self, count: u64) -> u64 {
        self.last.map_or(0, |last| last.saturating_sub(count))
    }

    /// Whether its seat is free again.
    pub fn has_left(self) -> bool {
        self.left.is_some()
    }
}

impl Display for Ending {
    fn fmt<W: Write>(&self, f: &mut Formatter<W>) -> fmt::Result {
        write!(
            f,
            "{}; last {:?}, left {:?}",
            self.how, self.last, self.left
        )?;
        match self.turns {
            None => Ok(()),
            Some(turns) => write!(f, "; turns {turns}"),
        }
    }
}
