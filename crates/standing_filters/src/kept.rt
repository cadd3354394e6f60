//! The verdicts on the keys of one filter, each found by a hint or by its key's hash.

ghost use Rattle.std.specs.Prelude.{ℕ, List, ◌≡◌, ◌≤◌, ◌<◌, ◌-◌, [], length, slice_set};
ghost use Rattle.std.specs.Prelude.{IfOk, IfSome, None, OnErr, OnOk, Some, IsOk, false};
ghost use Rattle.std.specs.Cmp.Lexicographic.{slice_cmp};
ghost use Rattle.std.specs.List.Sorted.{IsStrictlySortedBy};
ghost use Rattle.std.specs.Map.{keys_of};
ghost use Rattle.std.specs.Option.{option_copied, option_map};
ghost use Rattle.std.specs.Ordering.{nat_cmp};
ghost use Rattle.place_index.specs.Places.{item_at, key_at, value_at, in_order, revalued};
ghost use Rattle.place_index.specs.Places.{AreDistinct};
ghost use Rattle.place_index.specs.Hash.{hash_of_bytes};
ghost use Rattle.standing_filters.specs.Placed.{AreAlikeBut, change_in, earlier_of};
ghost use Rattle.standing_filters.specs.Plans.{Becomes, IsFirstOf, changes_of, kept_at};
ghost use Rattle.standing_filters.specs.Verdicts.{out};
ghost use Rattle.standing_filters.specs.Watched.{keys_held};

use crate::judging::Verdict;
use crate::keys::Keys;
use crate::marked::MarkedVerdicts;
use crate::planned::{Planned, change_at};
use agg_types::{Key, NoMemory};
use place_index::PlaceValue;
use place_order::PlaceOrder;
use std::alloc::Global;
use std::marker::Model;

/// The verdicts on the keys of one filter.
///
/// A verdict lies in a place that its key's hash leads to, and another takes its place there. Only
/// where a key comes or goes is the order of the keys searched too.
///
/// Contracts see the list of the places, and for how many further verdicts there is room.
#[derive(Drop)]
pub(crate) struct KeptVerdicts {
    verdicts: MarkedVerdicts,
    // The places of the keys, in the order of the keys.
    order: PlaceOrder,
    // For how many further verdicts there is room in both.
    room: usize,
    alloc: Global,
}

impl Model for KeptVerdicts {
    ghost use Rattle.std.specs.Prelude.{◌+◌, ◌≤◌, length};
    ghost use Rattle.standing_filters.specs.Marked.{Marking};
    ghost use Rattle.standing_filters.specs.Placed.{AreOrdered};

    ghost Value = { Marking };

    ghost view = { λ k. record { places = k.verdicts.places; room = k.room } };

    ghost invariant = { λ k. AreOrdered k.verdicts.places k.order.places
        × (k.room ≤ k.verdicts.room)
        × (length k.verdicts.places + k.room ≤ k.order.room) };
}

impl KeptVerdicts {
    /// No verdicts, and room for none. Takes no memory.
    pub(crate) fn new(alloc: Global) -> KeptVerdicts
        ensures places { result.places ≡ [] }
        ensures room { result.room ≡ 0 }
    {
        KeptVerdicts {
            verdicts: MarkedVerdicts::new(alloc),
            order: PlaceOrder::new(alloc),
            room: 0,
            alloc,
        }
    }

    /// Makes room for so many further verdicts. After `NoMemory` nothing has changed.
    pub(crate) fn reserve(&mut self, keys: usize) -> Result<(), NoMemory>
        ensures places { self.new.places ≡ self.old.places }
        ensures ok { OnOk result (keys ≤ self.new.room) }
        ensures room { self.old.room ≤ self.new.room }
        ensures held { keys ≤ self.old.room → IsOk result }
    {
        if keys <= self.room {
            return Ok(());
        }
        let Some(places) = self.verdicts.places().checked_add(keys) else {
            return Err(NoMemory);
        };
        self.order.reserve(places)?;
        self.verdicts.reserve(keys)?;
        self.room = keys;
        Ok(())
    }

    /// For how many further verdicts there is room.
    #[inline]
    pub(crate) fn room(&self) -> usize
        ensures { result ≡ self.now.room }
    {
        self.room
    }

    /// How many verdicts there are.
    #[inline]
    pub(crate) fn count(&self) -> usize {
        self.order.len()
    }

    /// The keys that are held, in order.
    pub(crate) fn keys(&self) -> Keys<'_>
        ensures held { result ≡ keys_held (in_order self.now.places) }
        ensures ordered { IsStrictlySortedBy (slice_cmp nat_cmp)
            (keys_of (in_order self.now.places)) }
    {
        Keys::new(self.order.iter(), &self.verdicts)
    }

    /// The keys whose verdicts change, in order, each with the moment.
    pub(crate) fn planned(&self) -> Planned<'_>
        ensures all { result ≡ changes_of (in_order self.now.places) }
        ensures ordered { IsStrictlySortedBy (slice_cmp nat_cmp)
            (keys_of (in_order self.now.places)) }
    {
        Planned::new(self.order.iter(), &self.verdicts)
    }

    /// How many places there are, empty ones among them.
    pub(crate) fn places(&self) -> usize
        ensures { result ≡ length self.now.places }
    {
        self.verdicts.places()
    }

    /// The key in a place.
    pub(crate) fn key(&self, at: usize) -> Option<&Key>
        ensures { option_copied result ≡ key_at self.now.places at }
    {
        self.verdicts.key(at)
    }

    /// The verdict in a place.
    pub(crate) fn verdict(&self, at: usize) -> Option<Verdict>
        ensures { result ≡ value_at self.now.places at }
    {
        self.verdicts.value(at).copied()
    }

    /// When the verdict in a place changes.
    pub(crate) fn change_at(&self, at: usize) -> Option<u64>
        ensures { result ≡ change_in self.now.places at }
    {
        change_at(&self.verdicts, at)
    }

    /// The first moment at which a verdict changes, by a walk over all places.
    pub(crate) fn first_change(&self) -> Option<u64>
        ensures { IsFirstOf (change_in self.now.places) result }
    {
        let mut first = None;
        for at in 0..self.places() {
            first = earlier(first, self.change_at(at));
        }
        first
    }

    /// The place of a key, and the verdict there. A hint names a place where the key may lie: one
    /// that is right saves the search, and no answer depends on it.
    #[inline(always)]
    pub(crate) fn find_near(&self, hint: Option<usize>, key: &Key) -> Option<(usize, Verdict)>
        ensures own { IfSome result (λ found. item_at self.now.places found.0
            ≡ Some (key.now, found.1)) }
        ensures kept { option_map (λ found. found.1) result
            ≡ kept_at (in_order self.now.places) key.now }
    {
        let at = self.verdicts.find_near(hint, key)?;
        let verdict = self.verdicts.value(at)?;
        Some((at, *verdict))
    }

    /// Whether there may be a verdict on a key of a hash: it is sure that there is none where this
    /// is false.
    #[inline(always)]
    pub(crate) fn may_have(&self, hash: u32) -> bool
        ensures { result ≡ false → (key : List ℕ) → hash_of_bytes key ≡ hash
            → kept_at (in_order self.now.places) key ≡ None }
    {
        self.verdicts.may_have(hash)
    }

    /// Puts a verdict in on a key that has none, and answers its place. Takes no memory.
    pub(crate) fn insert(&mut self, key: Key, verdict: Verdict) -> usize
        requires none { kept_at (in_order self.old.places) key ≡ None }
        requires room { 0 < self.old.room }
        ensures own { item_at self.new.places result ≡ Some (key, verdict) }
        ensures empty { item_at self.old.places result ≡ None }
        ensures others { AreAlikeBut result self.old.places self.new.places }
        ensures room { self.new.room ≡ self.old.room - 1 }
        ensures distinct { AreDistinct self.new.places }
        ensures becomes { Becomes key verdict (in_order self.old.places)
            (in_order self.new.places) }
    {
        let at = self.verdicts.insert(key, verdict);
        self.order.insert(at, &self.verdicts);
        self.room -= 1;
        at
    }

    /// Puts a verdict in the stead of the one in a place, if that isn't empty.
    pub(crate) fn replace(&mut self, at: usize, verdict: Verdict)
        ensures after { self.new.places ≡ revalued self.old.places at verdict }
        ensures room { self.new.room ≡ self.old.room }
        ensures distinct { AreDistinct self.new.places }
        ensures becomes { (key : List ℕ) → key_at self.old.places at ≡ Some key
            → Becomes key verdict (in_order self.old.places) (in_order self.new.places) }
    {
        self.verdicts.replace(at, verdict);
    }

    /// Takes the verdict in a place out.
    pub(crate) fn remove(&mut self, at: usize)
        ensures after { self.new.places ≡ slice_set self.old.places at None }
        ensures room { self.new.room ≡ self.old.room }
        ensures distinct { AreDistinct self.new.places }
        ensures becomes { (key : List ℕ) → key_at self.old.places at ≡ Some key
            → Becomes key out (in_order self.old.places) (in_order self.new.places) }
    {
        self.order.remove(at, &self.verdicts);
        self.verdicts.remove(at);
    }

    /// Takes all verdicts out, and gives the room for more back. Takes no memory.
    pub(crate) fn clear(&mut self)
        ensures places { self.new.places ≡ [] }
        ensures room { self.new.room ≡ 0 }
    {
        *self = KeptVerdicts::new(self.alloc);
    }
}

// The earlier of two moments, where there are any.
fn earlier(one: Option<u64>, other: Option<u64>) -> Option<u64>
    ensures { result ≡ earlier_of one other }
{
    match (one, other) {
        (Some(one), Some(other)) => Some(one.min(other)),
        (Some(one), None) => Some(one),
        (None, other) => other,
    }
}

// In an empty place the number stands where a verdict's next change does.
impl PlaceValue for Verdict {
    #[inline]
    fn blank(_alloc: Global, number: usize) -> Verdict {
        Verdict {
            holds: false,
            next: Some(number as u64),
        }
    }

    #[inline]
    fn number(&self) -> usize {
        match self.next {
            Some(number) => number as usize,
            None => 0,
        }
    }
}
