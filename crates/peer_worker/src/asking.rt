//! When a session asks its proxy for all rows again.
//!
//! A proxy whose worker was just reloaded answers a resync request with partial, and teaches
//! nothing: the rows of the worker before reach it a moment later, and it doesn't push them then.
//! Asked again it teaches all, and answers finished.

ghost use Rattle.std.specs.Prelude.{◌≡◌, ◌<◌, true, List, [], ◌∷◌};
ghost use Rattle.peer_worker.specs.Asking.{Event, Heard, StandsFor, asks_at, is_due, is_waited};
ghost use Rattle.peer_worker.specs.Asking.{noted, wait_after};

/// What a proxy answers a resync request.
#[derive(Clone, Copy, Debug, PartialEq, Eq)]
pub enum Answer {
    /// All was taught.
    Finished,
    /// Not all was taught.
    Partial,
}

/// How often a session asks again at most.
pub const MOST_ASKED: u64 = 8;

/// What a session heard of its resync requests.
#[derive(Clone, Copy, Debug, PartialEq, Eq)]
pub struct Asking {
    // how often it asked again
    asked: u64,
    // when it heard the last partial, if it didn't ask behind that yet
    partial: Option<u64>,
    // whether it heard that all was taught
    is_over: bool,
}

// How long behind a partial a session asks again that did so so often before, in ms.
fn wait_after(asked: u64) -> u64
    ensures { result ≡ wait_after asked }
{
    if asked == 0 {
        2_000
    } else if asked == 1 {
        5_000
    } else if asked == 2 {
        15_000
    } else {
        60_000
    }
}

impl Asking {
    /// Of a session that has heard nothing yet.
    pub fn new() -> Asking
        ensures { StandsFor result [] }
    {
        Asking {
            asked: 0,
            partial: None,
            is_over: false,
        }
    }

    /// An answer was heard at a moment. A partial moves what is planned behind an earlier one.
    /// Where all was taught nothing is asked for any more.
    pub fn hear(&mut self, answer: Answer, now: u64)
        ensures { (events : List Event) → StandsFor self.old events
            → StandsFor self.new (Heard answer now ∷ events) }
    {
        match answer {
            Answer::Finished => self.is_over = true,
            Answer::Partial => self.partial = Some(now),
        }
    }

    // Whether the last partial was heard so long ago that a request is due.
    fn is_waited(&self, now: u64) -> bool
        ensures { result ≡ is_waited self.now.partial (wait_after self.now.asked) now }
    {
        match self.partial {
            None => false,
            Some(partial) => now.saturating_sub(partial) >= wait_after(self.asked),
        }
    }

    // Whether a request is due.
    fn is_due(&self, now: u64) -> bool
        ensures few { result ≡ true → self.now.asked < MOST_ASKED }
        ensures due { result ≡ is_due self.now.asked self.now.partial self.now.is_over now }
    {
        !self.is_over && self.asked < MOST_ASKED && self.is_waited(now)
    }

    /// Whether a request is to be sent at a moment. If so, that is noted.
    pub fn ask(&mut self, now: u64) -> bool
        ensures asks { (events : List Event) → StandsFor self.old events
            → result ≡ asks_at events now }
        ensures noted { (events : List Event) → StandsFor self.old events
            → StandsFor self.new (noted result events) }
    {
        if !self.is_due(now) {
            return false;
        }
        self.asked += 1;
        self.partial = None;
        true
    }
}
