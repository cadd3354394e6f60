//! The places that are planned at one moment.
ghost use Rattle.std.specs.Prelude.{◌≡◌, ◌<◌, ◌-◌, ◌==◌, [], ◌∷◌, ◌++◌, length, IfOk, OnOk, OnErr};
ghost use Rattle.std.specs.Prelude.{slice_get};
ghost use Rattle.std.specs.List.{swap_remove};

use agg_types::NoMemory;
use std::alloc::Global;
use std::marker::Model;

/// A full bucket of so many places gets room for one more, so that little of it stays unused.
const SLACK: usize = 8;

/// It grows by so many places at least.
const LEAST: usize = 4;

/// The places of one moment, in no order. Contracts see their list.
#[derive(Drop)]
pub(crate) struct Bucket {
    places: Vec<u32>,
}

impl Model for Bucket {
    ghost use Rattle.std.specs.Prelude.{List, ℕ};

    ghost Value = { List ℕ };

    ghost view = { λ b. b.places.items };
}

impl Bucket {
    /// One place.
    pub(crate) fn one(alloc: Global, place: u32) -> Result<Bucket, NoMemory>
        ensures { IfOk result (λ bucket. bucket ≡ place ∷ []) }
    {
        let mut places = Vec::new(alloc);
        places.push(place)?;
        Ok(Bucket { places })
    }

    /// Adds a place behind the others, of which there are fewer than so many, and answers its
    /// number there.
    pub(crate) fn push(&mut self, place: u32, most: u32) -> Result<u32, NoMemory>
        ensures index { IfOk result (λ index. index ≡ length self.old) }
        ensures small { IfOk result (λ index. index < most) }
        ensures ok { OnOk result (self.new ≡ self.old ++ place ∷ []) }
        ensures err { OnErr result (self.new ≡ self.old) }
    {
        let len = self.places.len();
        if len >= most as usize {
            return Err(NoMemory);
        }
        if len == self.places.capacity() {
            self.places.reserve_exact((len / SLACK).max(LEAST))?;
        }
        self.places.push(place)?;
        Ok(len as u32)
    }

    /// Takes the place of a number out. The last one gets that number, and is answered if it isn't
    /// the one that was taken.
    pub(crate) fn remove(&mut self, index: u32) -> Option<u32>
        requires { index < length self.old }
        ensures after { self.new ≡ swap_remove self.old index 0 }
        ensures moved { result ≡ slice_get self.new index }
    {
        let index = index as usize;
        let _taken = self.places.swap_remove(index);
        self.places.get(index).copied()
    }

    /// The last place.
    pub(crate) fn last(&self) -> Option<u32>
        ensures { result ≡ slice_get self.now (length self.now - 1) }
    {
        self.places.last().copied()
    }

    /// All places.
    pub(crate) fn as_slice(&self) -> &[u32] {
        self.places.as_slice()
    }

    /// How many places there are. Nothing is promised of it.
    pub(crate) fn len(&self) -> usize {
        self.places.len()
    }

    /// Whether there is no place.
    pub(crate) fn is_empty(&self) -> bool
        ensures { result ≡ (length self.now == 0) }
    {
        self.places.is_empty()
    }
}
