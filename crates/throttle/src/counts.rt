//! Lines that were left out, and wait to be told as counts.

ghost use Rattle.std.specs.Prelude.{◌≡◌, ◌+◌, ◌<◌, ◌≤◌, ◌^◌, ◌-◌, ℕ, None, IfSome, position};
ghost use Rattle.std.specs.Prelude.{true, false};
ghost use Rattle.std.specs.Str.{bytes_eq};
ghost use Rattle.throttle.specs.Counting.{counted_in, waiting_in};

use std::alloc::Global;

/// How many sources' counts wait.
const MOST_COUNTS: usize = 1024;

/// How long a count waits, in ms: a second less than a minute, since whoever asks for it may come a
/// second late.
const WAIT: u64 = 59_000;

/// How many lines were left out.
#[derive(Drop)]
pub struct Counted {
    /// Their source; of several sources none.
    pub source: Option<Vec<u8>>,
    pub count: u64,
}

// How many lines of a source were left out, the first of them at this moment, in ms.
#[derive(Drop)]
pub(crate) struct Count {
    source: Vec<u8>,
    count: u64,
    since: u64,
}

// How many lines of all other sources were left out, the first of them at this moment, in ms.
#[derive(Clone, Copy)]
pub(crate) struct Rest {
    count: u64,
    since: u64,
}

/// Lines that were left out, by their source, and those of the rest.
#[derive(Drop)]
pub(crate) struct Counts {
    alloc: Global,
    counts: Vec<Count>,
    rest: Rest,
}

// Whether what waits since a moment is to be told.
fn is_due(since: u64, now: u64) -> bool {
    now.saturating_sub(since) >= WAIT
}

fn place_of(counts: &[Count], source: &[u8]) -> Option<usize>
    ensures { result ≡ position (λ one. bytes_eq one.source.items source.now) counts.now }
{
    counts
        .iter()
        .position(|one| one.source.as_slice() == source)
}

impl Counts {
    /// None wait. Takes no memory.
    pub(crate) fn new(alloc: Global) -> Counts
        ensures { waiting_in result ≡ 0 }
    {
        Counts {
            alloc,
            counts: Vec::new(alloc),
            rest: Rest { count: 0, since: 0 },
        }
    }

    /// One more line of a source was left out.
    pub(crate) fn add(&mut self, source: &[u8], now: u64)
        ensures { waiting_in self.old + 1 < 2 ^ 64
            → waiting_in self.new ≡ waiting_in self.old + 1 }
    {
        if let Some(place) = place_of(self.counts.as_slice(), source) {
            let count = self.counts[place].count;
            self.counts[place].count = count.saturating_add(1);
        } else if !self.begin(source, now) {
            self.add_to_rest(now);
        }
    }

    // A first line of a source was left out: whether there is room for it.
    fn begin(&mut self, source: &[u8], now: u64) -> bool
        ensures begun { result ≡ true → waiting_in self.new ≡ waiting_in self.old + 1 }
        ensures stays { result ≡ false → waiting_in self.new ≡ waiting_in self.old }
    {
        if self.counts.len() >= MOST_COUNTS {
            return false;
        }
        let Ok(source) = Vec::from_slice(self.alloc, source) else {
            return false;
        };
        let count = Count {
            source,
            count: 1,
            since: now,
        };
        self.counts.push(count).is_ok()
    }

    /// One more line of the rest was left out.
    pub(crate) fn add_to_rest(&mut self, now: u64)
        ensures { waiting_in self.old + 1 < 2 ^ 64
            → waiting_in self.new ≡ waiting_in self.old + 1 }
    {
        let since = if self.rest.count == 0 {
            now
        } else {
            self.rest.since
        };
        self.rest = Rest {
            count: self.rest.count.saturating_add(1),
            since,
        };
    }

    /// Takes a count that is to be told, if there is one.
    pub(crate) fn take_due(&mut self, now: u64) -> Option<Counted>
        ensures none { result ≡ None → self.new ≡ self.old }
        ensures some { IfSome result (λ counted.
            waiting_in self.new + counted.count ≡ waiting_in self.old) }
    {
        if self.rest.count > 0 && is_due(self.rest.since, now) {
            return Some(self.take_rest());
        }
        let is_over = |one: &Count| is_due(one.since, now);
        let place = self.counts.iter().position(is_over)?;
        let count = self.counts.remove(place);
        Some(Counted {
            source: Some(count.source),
            count: count.count,
        })
    }

    // Takes the count of the rest.
    fn take_rest(&mut self) -> Counted
        ensures { waiting_in self.new + result.count ≡ waiting_in self.old }
    {
        let count = self.rest.count;
        self.rest.count = 0;
        Counted {
            source: None,
            count,
        }
    }
}
