//! The lines of one kind of event.

ghost use Rattle.std.specs.Prelude.{◌≡◌, ◌≢◌, ◌+◌, ◌<◌, ◌^◌, ℕ, List, None, IfSome, true, false};
ghost use Rattle.throttle.specs.Minutes.{fresh};
ghost use Rattle.throttle.specs.Telling.{HasSameMinutes, IsTold, MayLeaveOut, minute_of};
ghost use Rattle.throttle.specs.Telling.{minute_of_all, waiting};

use crate::Minute;
use crate::counts::{Counted, Counts};
use crate::sources::Sources;
use std::alloc::Global;

/// How many lines of a source are told in a minute.
const MOST_OF_SOURCE: u64 = 60;

/// How many lines of all sources are told in a minute.
const MOST_OF_ALL: u64 = 600;

/// The lines of one kind of event: which are told, and how many were left out.
#[derive(Drop)]
pub struct Throttle {
    minute: Minute,
    sources: Sources,
    counts: Counts,
}

impl Throttle {
    /// No line came yet. Takes no memory.
    pub fn new(alloc: Global) -> Throttle
        ensures waiting { waiting result ≡ 0 }
        ensures of_all { (now : ℕ) → minute_of_all result now ≡ fresh now }
        ensures of_source { (source : List ℕ) → (now : ℕ)
            → minute_of result source now ≡ fresh now }
    {
        Throttle {
            minute: Minute::fresh(0),
            sources: Sources::new(alloc),
            counts: Counts::new(alloc),
        }
    }

    /// A line of a source at a moment, in ms: whether it is to be told. It is counted else.
    ///
    /// At most 60 lines of a source and 600 of all are told in a minute, which begins with its
    /// first line. Of up to 2^64 lines each is either told or counted. Where there is no room for
    /// a source, or no memory, its first line isn't told.
    pub fn offer(&mut self, now: u64, source: &[u8]) -> bool
        ensures told { result ≡ true → waiting self.new ≡ waiting self.old }
        ensures counted { result ≡ false → waiting self.old + 1 < 2 ^ 64
            → waiting self.new ≡ waiting self.old + 1 }
        ensures of_source { result ≡ true → IsTold 60 (minute_of self.old source.now now)
            (minute_of self.new source.now now) }
        ensures of_all { result ≡ true
            → IsTold 600 (minute_of_all self.old now) (minute_of_all self.new now) }
        ensures others { (other : List ℕ) → other ≢ source.now
            → minute_of self.new other now ≡ minute_of self.old other now }
        ensures stays { result ≡ false → HasSameMinutes self.old self.new }
        ensures spare { result ≡ false → MayLeaveOut self.old source.now now }
    {
        let own = self.sources.minute_of(source, now);
        if own.told >= MOST_OF_SOURCE {
            self.counts.add(source, now);
            return false;
        }
        let all = self.minute.at(now);
        if all.told >= MOST_OF_ALL || !self.sources.set(source, own.with_one(), now) {
            self.counts.add_to_rest(now);
            return false;
        }
        self.minute = all.with_one();
        true
    }

    /// A line at a moment, in ms, is left out and counted, though its source can't be said, since
    /// memory is lacking.
    pub fn leave_out(&mut self, now: u64)
        ensures counted { waiting self.old + 1 < 2 ^ 64
            → waiting self.new ≡ waiting self.old + 1 }
        ensures stays { HasSameMinutes self.old self.new }
    {
        self.counts.add_to_rest(now);
    }

    /// Takes a count that is to be told by now, in ms: it is handed out this once. A count is to be
    /// told 59 s after its first line was left out. Ask again until there is none.
    pub fn take_due(&mut self, now: u64) -> Option<Counted>
        ensures none { result ≡ None → self.new ≡ self.old }
        ensures some { IfSome result (λ counted.
            waiting self.new + counted.count ≡ waiting self.old) }
        ensures stays { HasSameMinutes self.old self.new }
    {
        self.counts.take_due(now)
    }
}
