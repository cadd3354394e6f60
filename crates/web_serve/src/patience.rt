//! How long a connection may take.

use web_door::Facts;

/// How long a request may take to come whole, from its connection's accept or the answer before it
/// on, in ms.
pub(crate) const REQUEST_LIMIT: u64 = 2_000;

/// How long an answer may take to be taken whole, in ms.
const ANSWER_LIMIT: u64 = 10_000;

/// How long what is under way may take, and since when.
#[derive(Clone, Copy, Debug, PartialEq, Eq)]
pub(crate) struct Patience {
    // the moment at which it began, in ms
    since: u64,
    is_answering: bool,
}

impl Patience {
    /// A request is awaited from now on.
    pub(crate) fn new<F: Facts>(facts: &F) -> Patience {
        Patience {
            since: facts.now(),
            is_answering: false,
        }
    }

    /// Whether what is under way may go on.
    pub(crate) fn is_left<F: Facts>(&self, facts: &F) -> bool {
        let limit = if self.is_answering {
            ANSWER_LIMIT
        } else {
            REQUEST_LIMIT
        };
        !facts.has_ended() && facts.now().saturating_sub(self.since) < limit
    }

    /// Bytes of answers wait now, or none do.
    pub(crate) fn turn<F: Facts>(&mut self, facts: &F, is_answering: bool) {
        if self.is_answering != is_answering {
            self.is_answering = is_answering;
            self.since = facts.now();
        }
    }
}
