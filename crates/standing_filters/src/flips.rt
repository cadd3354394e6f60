//! Flips: which keys came into the sets of standing filters, and which left them.

ghost use Rattle.std.specs.Prelude.{◌≡◌, ◌++◌, ◌∷◌, [], true, false, IsTrue, MatchOption};
ghost use Rattle.standing_filters.specs.Flips.{IsNoted, none_yet};

use agg_types::Key;
use std::alloc::Global;
use std::marker::Model;

/// A key that came into a filter's set or left it.
#[derive(Debug, Drop)]
pub struct Flip {
    /// The place of the filter.
    pub filter: usize,
    /// The key.
    pub key: Key,
    /// Whether the filter holds the key now.
    pub is_in: bool,
}

/// What came into the sets of standing filters and what left them, in order, or that it isn't
/// known.
pub struct Flips {
    alloc: Global,
    flips: Vec<Flip>,
    lost: bool,
}

// By hand, so that what drops it elsewhere proves nothing of its parts.
impl Drop for Flips {
    fn drop(self) {
        let Flips {
            alloc: _,
            flips: _,
            lost: _,
        } = self;
    }
}

impl Model for Flips {
    ghost use Rattle.standing_filters.specs.Flips.{Flipped};

    ghost Value = { Flipped };

    ghost view = { λ f. record { flips = f.flips.items; lost = f.lost } };
}

impl Flips {
    /// Nothing yet. Takes no memory.
    pub fn new(alloc: Global) -> Flips
        ensures { result ≡ none_yet }
    {
        Flips {
            alloc,
            flips: Vec::new(alloc),
            lost: false,
        }
    }

    /// For who doesn't want to know: they are lost from the start. Takes no memory.
    pub fn unknown(alloc: Global) -> Flips
        ensures { result.lost ≡ true }
    {
        Flips {
            alloc,
            flips: Vec::new(alloc),
            lost: true,
        }
    }

    /// They aren't known from now on. Takes no memory.
    pub fn lose(&mut self)
        ensures { self.new.lost ≡ true }
    {
        self.flips.clear();
        self.lost = true;
    }

    /// Nothing yet, again. The room for them stays.
    pub fn begin(&mut self)
        ensures { self.new ≡ none_yet }
    {
        self.flips.clear();
        self.lost = false;
    }

    /// The flips, in order, or none where they are lost. Takes no memory.
    pub fn known(&self) -> Option<&[Flip]>
        ensures { MatchOption result (self.now.lost ≡ true)
            (λ flips. (self.now.lost ≡ false) × (flips.now ≡ self.now.flips)) }
    {
        if self.lost {
            return None;
        }
        Some(self.flips.as_slice())
    }

    /// A filter holds a key now or not, and did before or not. Where that is the same nothing is
    /// noted. Where an allocation fails they are lost.
    #[inline(always)]
    pub fn note(&mut self, filter: usize, key: &Key, before: bool, now: bool)
        ensures { self.new.lost ≡ false
            → IsNoted filter key.now before now self.old self.new }
    {
        if self.lost || before == now {
            return;
        }
        if !self.push(filter, key, now) {
            self.lose();
        }
    }

    // Puts a flip behind the others; false where an allocation failed.
    #[cold]
    #[inline(never)]
    fn push(&mut self, filter: usize, key: &Key, is_in: bool) -> bool
        ensures lost { self.new.lost ≡ self.old.lost }
        ensures added { IsTrue result → self.new.flips ≡ self.old.flips
            ++ record { filter = filter; key = key.now; is_in = is_in } ∷ [] }
    {
        let Ok(key) = key.duplicate(self.alloc) else {
            return false;
        };
        self.flips.push(Flip { filter, key, is_in }).is_ok()
    }
}
