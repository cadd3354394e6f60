//! The buckets of all planned moments.
ghost use Rattle.std.specs.Prelude.{◌≡◌, ◌≢◌, ◌<◌, ◌≤◌, ◌-◌, ℕ, []};
ghost use Rattle.std.specs.Prelude.{◌∷◌, ◌++◌, Some, None, length, slice_get};
ghost use Rattle.std.specs.Prelude.{IfOk, IfSome, IfNone, OnOk, OnErr};
ghost use Rattle.std.specs.BTreeMap.{is_at};
ghost use Rattle.std.specs.List.{swap_remove};
ghost use Rattle.std.specs.Map.{lookup};
ghost use Rattle.std.specs.Ordering.{nat_cmp};
ghost use Rattle.place_plans.specs.Links.{places_at};

use crate::bucket::Bucket;
use agg_types::NoMemory;
use std::alloc::Global;
use std::collections::BTreeMap;
use std::marker::Model;

/// Buckets by their moment, none of them empty. Contracts see each moment with its places.
#[derive(Drop)]
pub(crate) struct Buckets {
    moments: BTreeMap<u64, Bucket>,
    alloc: Global,
}

impl Model for Buckets {
    ghost use Rattle.std.specs.Prelude.{List, ℕ};
    ghost use Rattle.place_plans.specs.Links.{AreBuckets};

    ghost Value = { List (ℕ × List ℕ) };

    ghost view = { λ b. b.moments.entries };

    ghost invariant = { λ b. AreBuckets b.moments.entries };
}

impl Buckets {
    /// No bucket.
    pub(crate) fn new(alloc: Global) -> Buckets
        ensures { result ≡ [] }
    {
        Buckets {
            moments: BTreeMap::new(alloc),
            alloc,
        }
    }

    /// What the buckets are made with.
    pub(crate) fn allocator(&self) -> Global {
        self.alloc
    }

    /// How many places a moment has. Nothing is promised of it.
    pub(crate) fn count(&self, at: u64) -> usize {
        match self.moments.get(&at) {
            Some(bucket) => bucket.len(),
            None => 0,
        }
    }

    /// Adds a place to the bucket of a moment, which has fewer than so many, and answers its number
    /// there.
    pub(crate) fn push(&mut self, at: u64, place: u32, most: u32) -> Result<u32, NoMemory>
        ensures index { IfOk result (λ index. index ≡ length (places_at self.old at)) }
        ensures small { IfOk result (λ index. index < most) }
        ensures own { OnOk result
            (places_at self.new at ≡ places_at self.old at ++ place ∷ []) }
        ensures others { (m : ℕ) → m ≢ at → places_at self.new m ≡ places_at self.old m }
        ensures err { OnErr result (self.new ≡ self.old) }
    {
        if let Some(bucket) = self.moments.get_mut(&at) {
            return bucket.push(place, most);
        }
        if most == 0 {
            return Err(NoMemory);
        }
        let bucket = Bucket::one(self.alloc, place)?;
        self.moments.insert(at, bucket)?;
        Ok(0)
    }

    /// Takes the place of a number out of the bucket of a moment. The last one there gets that
    /// number, and is answered if it isn't the one that was taken.
    pub(crate) fn remove(&mut self, at: u64, index: u32) -> Option<u32>
        requires { index < length (places_at self.old at) }
        ensures own { places_at self.new at ≡ swap_remove (places_at self.old at) index 0 }
        ensures moved { result ≡ slice_get (places_at self.new at) index }
        ensures others { (m : ℕ) → m ≢ at → places_at self.new m ≡ places_at self.old m }
    {
        let Some(bucket) = self.moments.get_mut(&at) else {
            return None;
        };
        let moved = bucket.remove(index);
        if bucket.is_empty() {
            drop_bucket(&mut self.moments, at);
        }
        moved
    }

    /// The least moment that has a place, with the last one of its bucket.
    pub(crate) fn first(&self) -> Option<(u64, u32)>
        ensures some { IfSome result (λ f. slice_get (places_at self.now f.0)
            (length (places_at self.now f.0) - 1) ≡ Some f.1) }
        ensures least { IfSome result
            (λ f. (m : ℕ) → m < f.0 → places_at self.now m ≡ []) }
        ensures none { IfNone result ((m : ℕ) → places_at self.now m ≡ []) }
    {
        let (at, bucket) = self.moments.first_key_value()?;
        Some((*at, bucket.last()?))
    }

    /// The places of the least moment, if that is at most `t`. Nothing is promised of them.
    pub(crate) fn due(&self, t: u64) -> &[u32] {
        match self.moments.first_key_value() {
            Some((at, bucket)) if *at <= t => bucket.as_slice(),
            _ => &[],
        }
    }

    /// The last moment up to `t` by which at most so many places are due. Where the least moment
    /// alone has more, it is that one. Looks at no more buckets than places may be due.
    pub(crate) fn few_by(&self, t: u64, most: usize) -> u64
        ensures { result ≤ t }
    {
        let mut before = 0usize;
        for (at, bucket) in self.moments.iter() {
            if *at > t {
                return t;
            }
            let due = before.saturating_add(bucket.len());
            if due > most {
                return if before == 0 {
                    *at
                } else {
                    at.saturating_sub(1)
                };
            }
            before = due;
        }
        t
    }
}

// Gives the bucket of a moment back, where it is empty.
fn drop_bucket(moments: &mut BTreeMap<u64, Bucket>, at: u64)
    ensures own { lookup (is_at (nat_cmp at)) moments.new.entries ≡ None }
    ensures others { (m : ℕ) → m ≢ at → lookup (is_at (nat_cmp m)) moments.new.entries
        ≡ lookup (is_at (nat_cmp m)) moments.old.entries }
{
    moments.remove(&at);
}
