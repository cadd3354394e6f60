//! The sources of which lines were told.

ghost use Rattle.std.specs.Prelude.{◌≡◌, ◌≢◌, ℕ, List, true, false, not, position};
ghost use Rattle.throttle.specs.Minutes.{fresh, is_of, is_on, minute_in};

use crate::{Flow, Minute};
use std::alloc::Global;

/// How many sources are remembered.
const MOST_SOURCES: usize = 1024;

/// The sources of which lines were told, 1,024 at most.
#[derive(Drop)]
pub(crate) struct Sources {
    alloc: Global,
    flows: Vec<Flow>,
}

// The place of a source whose minute isn't over.
fn place_of(flows: &[Flow], source: &[u8], now: u64) -> Option<usize>
    ensures { result ≡ position (is_of source.now now) flows.now }
{
    flows.iter().position(|flow| flow.source.as_slice() == source && flow.minute.is_on(now))
}

// The place of a source whose minute is over.
fn over_in(flows: &[Flow], now: u64) -> Option<usize>
    ensures { result ≡ position (λ flow. not (is_on flow.minute now)) flows.now }
{
    flows.iter().position(|flow| !flow.minute.is_on(now))
}

impl Sources {
    /// No source is remembered. Takes no memory.
    pub(crate) fn new(alloc: Global) -> Sources
        ensures { (source : List ℕ) → (now : ℕ)
            → minute_in result.flows.items source now ≡ fresh now }
    {
        Sources {
            alloc,
            flows: Vec::new(alloc),
        }
    }

    /// The minute of a source's line at this moment.
    pub(crate) fn minute_of(&self, source: &[u8], now: u64) -> Minute
        ensures { result ≡ minute_in self.now.flows.items source.now now }
    {
        match place_of(self.flows.as_slice(), source, now) {
            Some(place) => self.flows[place].minute,
            None => Minute::fresh(now),
        }
    }

    /// Remembers a source's minute, which isn't over: whether there is room for it. Sources whose
    /// minute is over make room.
    pub(crate) fn set(&mut self, source: &[u8], minute: Minute, now: u64) -> bool
        requires { is_on minute now ≡ true }
        ensures set { result ≡ true → minute_in self.new.flows.items source.now now ≡ minute }
        ensures others { (other : List ℕ) → other ≢ source.now
            → minute_in self.new.flows.items other now ≡ minute_in self.old.flows.items other now }
        ensures stays { result ≡ false → self.new.flows.items ≡ self.old.flows.items }
        ensures unknown { result ≡ false
            → minute_in self.old.flows.items source.now now ≡ fresh now }
    {
        if let Some(place) = place_of(self.flows.as_slice(), source, now) {
            self.flows[place].minute = minute;
            return true;
        }
        let Ok(source) = Vec::from_slice(self.alloc, source) else {
            return false;
        };
        self.add(Flow { source, minute }, now)
    }

    // Remembers a source of which nothing is remembered, in the place of one whose minute is over,
    // or behind the others: whether there is room for it.
    fn add(&mut self, flow: Flow, now: u64) -> bool
        requires on { is_on flow.minute now ≡ true }
        requires unknown { position (is_of flow.source.items now) self.old.flows.items ≡ None }
        ensures set { result ≡ true
            → minute_in self.new.flows.items flow.source.items now ≡ flow.minute }
        ensures others { (other : List ℕ) → other ≢ flow.source.items
            → minute_in self.new.flows.items other now ≡ minute_in self.old.flows.items other now }
        ensures stays { result ≡ false → self.new.flows.items ≡ self.old.flows.items }
    {
        if let Some(place) = over_in(self.flows.as_slice(), now) {
            self.flows[place] = flow;
            return true;
        }
        if self.flows.len() >= MOST_SOURCES {
            return false;
        }
        match self.flows.push(flow) {
            Ok(()) => true,
            Err(_refused) => false,
        }
    }
}
